//! Running a module whose ports are those of one result, and writing the lines of it.

ghost use Rattle.std.specs.Prelude.{◌≤◌, ◌^◌, length, IfOk};
ghost use Rattle.std.specs.List.{AllByRecursion};
ghost use Rattle.gl_values.specs.Kinds.{IsKind};
ghost use Rattle.gl_tuples.specs.Gaps.{plain_beats};
ghost use Rattle.gl_verilog.specs.View.{module_of};
ghost use Rattle.gl_testbench.specs.Benches.{AreShows};
ghost use Rattle.gl_runner.specs.Cycles.{CanFollow};
ghost use Rattle.gl_runner.specs.Probes.{IsProbe, plain_names};
ghost use Rattle.gl_runner.specs.Traces.{OfRunsOf, Traced};
ghost use Rattle.gl_runner.specs.Watches.{AreFirst, StandsTold, end_of_cycle, lines_of_cycle};

use crate::driving::{Drive, Task};
use crate::sampling::{sample_of, set_row};
use crate::tracing::Ending;
use crate::watching::{Made, Watch};
use gl_bits::{Memory, Row};
use gl_outside::{Sink, WriteFault};
use gl_testbench::Shows;
use gl_tuples::{put_cycle, zero_row};
use gl_values::Kind;
use gl_verilog::Module;
use std::alloc::Global;

/// Writes the lines of a result.
#[derive(Drop)]
pub(crate) struct ResultLines<'a> {
    /// The kinds by which the columns are printed.
    pub kinds: &'a [Kind],
    /// Where the result is shown, and the columns of the last cycle.
    pub shows: Shows,
    pub row: Row,
    /// Whether it was told that a further group came.
    pub told: bool,
    /// Whether the end was seen in the last cycle.
    pub ended: bool,
}

impl<'a> ResultLines<'a> {
    // In front of the first cycle. Takes all the memory that it needs.
    pub(crate) fn new(
        alloc: Global,
        kinds: &'a [Kind],
        shows: Shows,
    ) -> Result<ResultLines<'a>, Memory>
        requires { AllByRecursion IsKind kinds.now }
        ensures { IfOk result (AreFirst kinds.now shows) }
    {
        let row = zero_row(alloc, kinds)?;
        Ok(ResultLines {
            kinds,
            shows,
            row,
            told: false,
            ended: false,
        })
    }
}

impl Watch for ResultLines<'_> {
    ghost bytes = { λ w. lines_of_cycle w.kinds.now };

    ghost ends = { λ w. end_of_cycle };

    ghost stands = { λ w. StandsTold w.told w.ended };

    ghost serves = { λ w m. IsProbe m (plain_names m) w.kinds.now w.shows w.row };

    fn cycle<K: Sink>(&mut self, made: &Made<'_>, out: &mut K) -> Result<(), WriteFault> {
        set_row(made.sim, self.shows.columns.as_slice(), &mut self.row);
        let sample = sample_of(made.sim, &self.shows);
        put_cycle(out, made.cycle, self.kinds, &self.row, self.told, sample)?;
        self.told |= sample.group;
        self.ended = sample.end;
        Ok(())
    }

    fn is_over(&self) -> bool {
        self.ended
    }
}

/// Runs a module, in which these ports show the result, and writes the lines of its run.
///
/// The lines stand in order of cycle; in a cycle a further group stands before the result, and the
/// end behind it. All memory is taken before the first line.
pub(crate) fn follow_module<K: Sink>(
    alloc: Global,
    design: Module,
    shows: Shows,
    kinds: &[Kind],
    task: Task<'_>,
    out: &mut K,
) -> Ending
    requires can { CanFollow (module_of design) task.schema.now kinds.now
        (plain_beats task.beats.now) }
    requires shows { AreShows (module_of design) shows }
    requires many { length kinds.now ≤ 32 }
    requires kinds { AllByRecursion IsKind kinds.now }
    requires short { task.extra ≤ 2 ^ 32 }
    ensures { let t = task.entry in
        Traced (OfRunsOf (module_of design) t.schema.now (plain_beats t.beats.now) t.start)
        kinds.now (plain_beats t.beats.now) t.extra (K.state out.old) (K.state out.new) result }
{
    let Ok(mut lines) = ResultLines::new(alloc, kinds, shows) else {
        return Ending::Memory;
    };
    let Ok(mut drive) = Drive::new(alloc, design, task) else {
        return Ending::Memory;
    };
    drive.follow(&mut lines, out)
}
