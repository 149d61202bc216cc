//! Running a module that comes to its end in time.

ghost use Rattle.std.specs.Prelude.{◌≡◌, ◌≤◌, ◌^◌, length};
ghost use Rattle.std.specs.List.{AllByRecursion};
ghost use Rattle.gl_values.specs.Kinds.{IsKind};
ghost use Rattle.gl_tuples.specs.Gaps.{plain_beats};
ghost use Rattle.gl_verilog.specs.View.{module_of};
ghost use Rattle.gl_runner.specs.Cycles.{CanFollow, OfTimely, outcome_of};
ghost use Rattle.gl_runner.specs.Prints.{Ran};

use crate::driving::Task;
use crate::following::follow_module;
use crate::tracing::Ending;
use gl_outside::Sink;
use gl_testbench::shows_of;
use gl_values::Kind;
use gl_verilog::Module;
use std::alloc::Global;

/// How a run ended.
#[derive(Clone, Copy, PartialEq, Eq, Debug)]
pub enum Outcome {
    /// At the end of the result.
    Done,
    /// The sink failed.
    WriteFault,
    /// Want of memory; nothing was written.
    Memory,
}

/// The outcome of a module that comes to its end where it is waited for.
pub(crate) fn outcome_of(ending: Ending) -> Outcome
    ensures { result ≡ outcome_of ending }
{
    match ending {
        Ending::Done | Ending::NoEnd { .. } => Outcome::Done,
        Ending::WriteFault => Outcome::WriteFault,
        Ending::Memory => Outcome::Memory,
    }
}

/// Runs the module of a text over beats, and writes the lines of the result.
///
/// In the first cycle the module is reset. Behind it comes a cycle for each cycle of the file, to
/// the first one from the last beat's on in which `out__eos` is 1. The lines stand in order of
/// cycle; in a cycle a further group stands before the result, and the end behind it.
pub fn execute_module<K: Sink>(
    alloc: Global,
    design: Module,
    kinds: &[Kind],
    task: Task<'_>,
    out: &mut K,
) -> Outcome
    requires can { CanFollow (module_of design) task.schema.now kinds.now
        (plain_beats task.beats.now) }
    requires many { length kinds.now ≤ 32 }
    requires kinds { AllByRecursion IsKind kinds.now }
    requires short { task.extra ≤ 2 ^ 32 }
    ensures { let t = task.entry in let beats = plain_beats t.beats.now in
        Ran (OfTimely t.extra (module_of design) t.schema.now beats t.start)
        kinds.now beats (K.state out.old) (K.state out.new) result }
{
    let Ok(shows) = shows_of(alloc, &design) else {
        return Outcome::Memory;
    };
    outcome_of(follow_module(alloc, design, shows, kinds, task, out))
}
