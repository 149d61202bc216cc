//! Running the Verilog text of a simulation.

ghost use Rattle.std.specs.Prelude.{◌≡◌, []};
ghost use Rattle.gl_outside.specs.States.{IsCalm};
ghost use Rattle.gl_top_forms.specs.declared.command.Command.TheVariants.{Sim};
ghost use Rattle.gl_top_forms.specs.Forms.{IsCommand};
ghost use Rattle.gl_top_inputs.specs.Causes.{Change};
ghost use Rattle.gl_top_inputs.specs.Passing.{CanTrace, IsTraceable};
ghost use Rattle.gl_top.specs.Calls.{call_of, call_over};
ghost use Rattle.gl_top.specs.Verdicts.{IsAnswer};

use crate::desk::Desk;
use gl_outside::{Shelf, Sink};
use gl_runner::{Ending, Task, trace};
use gl_top_forms::Taken;
use gl_top_inputs::{Fitted, Simulation, judge_sim};
use gl_top_status::{Refusal, Status, tell, tell_no_end, tell_write_fault};
use gl_verilog::Start;
use gl_verilog_ports::laws::inputs_are_ports;
use std::alloc::Global;

// Runs the module over the beats from all zero, writes the lines of the run, and notes how that failed
// or that no end came.
fn finish_trace<S: Shelf, K: Sink, N: Sink>(
    alloc: Global,
    words: &Taken<'_>,
    simulation: Simulation,
    desk: &mut Desk<S, K, N>,
) -> Status
    requires can { CanTrace simulation }
    requires empty { desk.old.text.items ≡ [] }
    ensures shelf { S.state desk.new.shelf ≡ S.state desk.old.shelf }
    ensures answer { (c : Change) → IsTraceable c.old.told words.now simulation → IsCalm c.old c.new
        → IsAnswer (call_over K.state N.state words.now c desk.old desk.new result) }
{
    let Simulation {
        schema,
        fitted,
        beats,
    } = simulation;
    let Fitted { design, ports } = fitted;
    let extra = words.extra();
    inputs_are_ports();
    let task = Task {
        schema: &schema,
        beats: &beats,
        start: Start::Zero,
        extra: u64::from(extra),
    };
    match trace(alloc, design, &ports, task, &mut desk.out) {
        Ending::Done => Status::Done,
        Ending::NoEnd { cycle } => tell_no_end(&mut desk.notes, cycle),
        Ending::WriteFault => tell_write_fault(&mut desk.notes),
        Ending::Memory => tell(&mut desk.notes, words, &Refusal::Memory),
    }
}

/// Judges the texts of `sim S V T`, and runs the Verilog text.
pub(crate) fn answer_sim<S: Shelf, K: Sink, N: Sink>(
    alloc: Global,
    words: &Taken<'_>,
    desk: &mut Desk<S, K, N>,
) -> Status
    requires sims { IsCommand words.now Sim }
    requires names { (S.state desk.old.shelf).names ≡ words.now }
    requires empty { desk.old.text.items ≡ [] }
    ensures { IsAnswer (call_of S.state K.state N.state words.now desk.old desk.new result) }
{
    match judge_sim(alloc, &mut desk.shelf, words) {
        Ok(simulation) => finish_trace(alloc, words, simulation, desk),
        Err(refusal) => tell(&mut desk.notes, words, &refusal),
    }
}
