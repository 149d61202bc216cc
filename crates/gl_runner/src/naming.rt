//! Writing the lines of several results, each with its name.

ghost use Rattle.std.specs.Prelude.{◌≡◌, ◌+◌, ◌<◌, ◌^◌, nat_le, ◌&&◌, IfOk, OnOk};
ghost use Rattle.std.specs.List.{AllByRecursion, AllZip, flat_map, list_all};
ghost use Rattle.gl_outside.specs.States.{Counts, Wrote};
ghost use Rattle.gl_schema.specs.Ports.{PortValues};
ghost use Rattle.gl_verilog.specs.View.{module_of};
ghost use Rattle.gl_runner.specs.Faces.{HasFace};
ghost use Rattle.gl_runner.specs.Naming.{AreNew, IsNew, ServesFace, StandsNamed};
ghost use Rattle.gl_runner.specs.Several.{all_ended, all_lines, lines_in};
ghost use Rattle.gl_runner.specs.Watches.{IsMadeOf, module_in};

use crate::faces::{Face, kinds_in, shows_within};
use crate::sampling::{sample_of, set_row};
use crate::watching::{Made, Watch};
use gl_bits::{Memory, Row};
use gl_outside::{Sink, WriteFault};
use gl_testbench::Shows;
use gl_tuples::{Format, put_lines, zero_row};
use gl_values::Kind;
use gl_verilog::Module;
use std::alloc::Global;

/// What is kept of a result that is watched, and what was seen of it so far.
#[derive(Drop)]
pub(crate) struct NamedResult {
    /// The kinds by which the columns are printed.
    pub kinds: Vec<Kind>,
    /// Where the result is shown, and the columns of the last cycle.
    pub shows: Shows,
    pub row: Row,
    /// Whether it was told that a further group came.
    pub told: bool,
    /// Whether the end was seen, in a cycle from the last beat's on.
    pub ended: bool,
}

// Whether the end is seen, from the last beat's cycle on.
fn is_late(end: bool, last: u64, cycle: u64) -> bool
    ensures { result ≡ (nat_le last cycle && end) }
{
    last <= cycle && end
}

impl NamedResult {
    // In front of the first cycle of a module. Takes all the memory that it needs.
    fn new(alloc: Global, design: &Module, face: &Face) -> Result<NamedResult, Memory>
        requires { HasFace (module_of design.now) face.now }
        ensures { IfOk result (IsNew (module_of design.now) face.now) }
    {
        let kinds = kinds_in(alloc, face.columns.as_slice())?;
        let shows = shows_within(alloc, design, face)?;
        let row = zero_row(alloc, &kinds)?;
        Ok(NamedResult {
            kinds,
            shows,
            row,
            told: false,
            ended: false,
        })
    }

    // Writes its lines of a cycle.
    fn put<K: Sink>(
        &mut self,
        face: &Face,
        made: &Made<'_>,
        last: u64,
        out: &mut K,
    ) -> Result<(), WriteFault>
        requires early { made.now.cycle < 2 ^ 63 }
        requires serves { ServesFace (module_in made.now) face.now self.old }
        ensures serves { OnOk result (ServesFace (module_in made.now) face.now self.new) }
        ensures counts { Counts (K.state out.old) (K.state out.new) result }
        ensures wrote { (port : PortValues) → IsMadeOf made.now port
            → StandsNamed last port made.now.cycle face.now self.old
            → Wrote (K.state out.old) (K.state out.new)
            (lines_in port made.now.cycle face.now) result }
        ensures stands { (port : PortValues) → IsMadeOf made.now port
            → StandsNamed last port made.now.cycle face.now self.old
            → OnOk result (StandsNamed last port (made.now.cycle + 1) face.now self.new) }
    {
        set_row(made.sim, self.shows.columns.as_slice(), &mut self.row);
        let sample = sample_of(made.sim, &self.shows);
        let name = face.name.as_slice();
        let kinds = self.kinds.as_slice();
        let format = Format {
            name: Some(name),
            kinds,
        };
        put_lines(out, format, made.cycle, &self.row, self.told, sample)?;
        self.told |= sample.group;
        self.ended |= is_late(sample.end, last, made.cycle);
        Ok(())
    }
}

// Writes the lines of a cycle, one result behind the other.
fn put_all<K: Sink>(
    faces: &[Face],
    results: &mut [NamedResult],
    made: &Made<'_>,
    last: u64,
    out: &mut K,
) -> Result<(), WriteFault>
    requires early { made.now.cycle < 2 ^ 63 }
    requires serves { AllZip (ServesFace (module_in made.now)) faces.now results.old }
    ensures serves { OnOk result
        (AllZip (ServesFace (module_in made.now)) faces.now results.new) }
    ensures counts { Counts (K.state out.old) (K.state out.new) result }
    ensures wrote { (port : PortValues) → IsMadeOf made.now port
        → AllZip (StandsNamed last port made.now.cycle) faces.now results.old
        → Wrote (K.state out.old) (K.state out.new)
        (flat_map (lines_in port made.now.cycle) faces.now) result }
    ensures stands { (port : PortValues) → IsMadeOf made.now port
        → AllZip (StandsNamed last port made.now.cycle) faces.now results.old
        → OnOk result (AllZip (StandsNamed last port (made.now.cycle + 1)) faces.now results.new) }
{
    let Some((face, others)) = faces.split_first() else {
        return Ok(());
    };
    let Some((first, rest)) = results.split_first_mut() else {
        // There is one for each face.
        unreachable!();
    };
    first.put(face, made, last, out)?;
    put_all(others, rest, made, last, out)
}

// Whether the end of each was seen.
fn are_over(results: &[NamedResult]) -> bool
    ensures { result ≡ list_all (λ r. r.ended) results.now }
{
    results.iter().all(|one| one.ended)
}

/// Writes the lines of several results.
#[derive(Drop)]
pub(crate) struct NamedLines<'a> {
    pub faces: &'a [Face],
    /// What is kept of each, in the same order.
    pub results: Vec<NamedResult>,
    /// The cycle of the last beat.
    pub last: u64,
}

impl<'a> NamedLines<'a> {
    // In front of the first cycle of a module. Takes all the memory that it needs.
    pub(crate) fn new(
        alloc: Global,
        design: &Module,
        faces: &'a [Face],
        last: u64,
    ) -> Result<NamedLines<'a>, Memory>
        requires { AllByRecursion (HasFace (module_of design.now)) faces.now }
        ensures { IfOk result (AreNew (module_of design.now) faces.now last) }
    {
        let mut results = Vec::new(alloc);
        for face in faces {
            results.push(NamedResult::new(alloc, design, face)?)?;
        }
        Ok(NamedLines {
            faces,
            results,
            last,
        })
    }
}

impl Watch for NamedLines<'_> {
    ghost bytes = { λ w m. all_lines w.faces.now };

    ghost ends = { λ w m. all_ended w.faces.now w.last };

    ghost stands = { λ w m port n. AllZip (StandsNamed w.last port n) w.faces.now w.results.items };

    ghost serves = { λ w m. AllZip (ServesFace m) w.faces.now w.results.items };

    fn cycle<K: Sink>(&mut self, made: &Made<'_>, out: &mut K) -> Result<(), WriteFault> {
        put_all(
            self.faces,
            self.results.as_mut_slice(),
            made,
            self.last,
            out,
        )
    }

    fn is_over(&self) -> bool {
        are_over(self.results.as_slice())
    }
}
