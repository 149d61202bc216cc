//! Running the text of a module that shows several results.

ghost use Rattle.gl_tuples.specs.Gaps.{plain_beats};
ghost use Rattle.gl_runner.specs.Several.{RanAll};
ghost use Rattle.gl_many.specs.Runs.{CanRunAll, OfAllRuns};

use gl_outside::Sink;
use gl_runner::{Face, Outcome, Task, execute_several};
use gl_verilog_grammar::laws::one_module;
use gl_verilog_reader::read_known_module;
use std::alloc::Global;

/// Runs the text of a module that shows several results over beats, and writes the lines of each with its
/// name, as `execute_several` does. Nothing of a plan is asked for.
pub fn execute_many<K: Sink>(
    alloc: Global,
    text: &[u8],
    faces: &[Face],
    task: Task<'_>,
    out: &mut K,
) -> Outcome
    requires { CanRunAll text.now task.schema.now faces.now (plain_beats task.beats.now)
        task.extra task.start }
    ensures { let t = task.entry in let beats = plain_beats t.beats.now in
        RanAll (OfAllRuns text.now t.schema.now beats t.start) faces.now beats
        (K.state out.old) (K.state out.new) result }
{
    one_module();
    let Ok(design) = read_known_module(alloc, text) else {
        return Outcome::Memory;
    };
    execute_several(alloc, design, faces, task, out)
}
