//! Running the text of a module.

ghost use Rattle.std.specs.Prelude.{◌≤◌, length};
ghost use Rattle.std.specs.List.{AllByRecursion};
ghost use Rattle.gl_values.specs.Kinds.{IsKind};
ghost use Rattle.gl_schema.specs.Beats.{AreBeats};
ghost use Rattle.gl_schema.specs.Schemas.{IsSchema};
ghost use Rattle.gl_tuples.specs.Gaps.{plain_beats};
ghost use Rattle.gl_runner.specs.Prints.{CanRun, OfEachRun, Ran};

use gl_outside::Sink;
use gl_runner::{Outcome, Task, execute_module};
use gl_schema::Schema;
use gl_tuples::Beats;
use gl_values::Kind;
use gl_verilog::Start;
use gl_verilog_grammar::laws::one_module;
use gl_verilog_ports::laws::inputs_are_ports;
use gl_verilog_reader::read_known_module;
use std::alloc::Global;

/// What the text of a module is run over, and from where.
#[derive(Clone, Copy)]
pub struct Run<'a> {
    /// The schema of the beats.
    pub schema: &'a Schema,
    /// The kinds of the result's columns, in order.
    pub kinds: &'a [Kind],
    /// The beats.
    pub beats: &'a Beats,
    /// The cycles behind the last beat's in which the end is waited for.
    pub latency: u64,
    /// What registers and memories hold at first.
    pub start: Start,
}

/// Runs the text of a module over beats, and writes the lines of the result, as `execute_module`
/// does.
pub fn execute<K: Sink>(alloc: Global, text: &[u8], run: Run<'_>, out: &mut K) -> Outcome
    requires schema { IsSchema run.schema.now }
    requires beats { AreBeats run.schema.now (plain_beats run.beats.now) }
    requires many { length run.kinds.now ≤ 32 }
    requires kinds { AllByRecursion IsKind run.kinds.now }
    requires runs { CanRun text.now run.schema.now run.kinds.now (plain_beats run.beats.now)
        run.latency run.start }
    ensures { let r = run.entry in let beats = plain_beats r.beats.now in
        Ran (OfEachRun text.now r.schema.now beats r.start) r.kinds.now beats
        (K.state out.old) (K.state out.new) result }
{
    one_module();
    inputs_are_ports();
    let Ok(design) = read_known_module(alloc, text) else {
        return Outcome::Memory;
    };
    let task = Task {
        schema: run.schema,
        beats: run.beats,
        start: run.start,
        extra: run.latency,
    };
    execute_module(alloc, design, run.kinds, task, out)
}
