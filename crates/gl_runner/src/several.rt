//! Running a module that shows several results, all of which come to their end in time.

ghost use Rattle.std.specs.Prelude.{◌≤◌, ◌^◌};
ghost use Rattle.std.specs.List.{AllByRecursion};
ghost use Rattle.gl_tuples.specs.Gaps.{plain_beats};
ghost use Rattle.gl_verilog.specs.View.{module_of};
ghost use Rattle.gl_runner.specs.Cycles.{CanDrive};
ghost use Rattle.gl_runner.specs.Faces.{HasFace};
ghost use Rattle.gl_runner.specs.Several.{OfTimelyFaces, RanAll};

use crate::driving::{Drive, Task, last_of};
use crate::executing::{Outcome, outcome_of};
use crate::faces::Face;
use crate::naming::NamedLines;
use gl_outside::Sink;
use gl_verilog::Module;
use std::alloc::Global;

/// Runs a module that shows several results over beats, and writes the lines of each with its name.
///
/// In the first cycle the module is reset. Behind it comes a cycle for each cycle of the file, to
/// the first one by which the end of each result was seen, in it or in an earlier one from the last
/// beat's on. In a cycle the results stand in their order; each tells once that a further group
/// came. All memory is taken before the first line.
pub fn execute_several<K: Sink>(
    alloc: Global,
    design: Module,
    faces: &[Face],
    task: Task<'_>,
    out: &mut K,
) -> Outcome
    requires can { CanDrive (module_of design) task.schema.now (plain_beats task.beats.now) }
    requires faces { AllByRecursion (HasFace (module_of design)) faces.now }
    requires short { task.extra ≤ 2 ^ 32 }
    ensures { let t = task.entry in let beats = plain_beats t.beats.now in
        RanAll (OfTimelyFaces t.extra (module_of design) t.schema.now beats t.start faces.now)
        faces.now beats (K.state out.old) (K.state out.new) result }
{
    let Ok(mut lines) = NamedLines::new(alloc, &design, faces, last_of(task.beats)) else {
        return Outcome::Memory;
    };
    let Ok(mut drive) = Drive::new(alloc, design, task) else {
        return Outcome::Memory;
    };
    outcome_of(drive.follow(&mut lines, out))
}
