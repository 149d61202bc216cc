//! Dumping the run of the text of a module, or of a compiled query.

ghost use Rattle.std.specs.Prelude.{◌≤◌, length};
ghost use Rattle.std.specs.List.{AllByRecursion};
ghost use Rattle.gl_values.specs.Kinds.{IsKind};
ghost use Rattle.gl_schema.specs.Beats.{AreBeats};
ghost use Rattle.gl_gaps.specs.Keeps.{KeepsGaps};
ghost use Rattle.gl_schema.specs.Schemas.{IsSchema};
ghost use Rattle.gl_tuples.specs.Gaps.{plain_beats};
ghost use Rattle.gl_compiler.specs.Built.{printed_gaps};
ghost use Rattle.gl_compiler.specs.Runnable.{IsRunnable};
ghost use Rattle.gl_runner.specs.Dumps.{Dumped, HasFewPorts, OfEachPorts};
ghost use Rattle.gl_runner.specs.Prints.{CanRun};

use crate::Compiled;
use crate::executing::Run;
use gl_outside::Sink;
use gl_query::laws::accepted_have_real_columns;
use gl_runner::{Outcome, Task, dump_module};
use gl_tuples::Beats;
use gl_verilog::Start;
use gl_verilog_grammar::laws::one_module;
use gl_verilog_ports::laws::inputs_are_ports;
use gl_verilog_reader::read_known_module;
use std::alloc::Global;

/// Runs the text of a module over beats, and writes the dump of its ports but the clock, as
/// `dump_module` does.
pub fn dump<K: Sink>(alloc: Global, text: &[u8], run: Run<'_>, out: &mut K) -> Outcome
    requires schema { IsSchema run.schema.now }
    requires beats { AreBeats run.schema.now (plain_beats run.beats.now) }
    requires many { length run.kinds.now ≤ 32 }
    requires kinds { AllByRecursion IsKind run.kinds.now }
    requires runs { CanRun text.now run.schema.now run.kinds.now (plain_beats run.beats.now)
        run.latency run.start }
    requires few { HasFewPorts text.now }
    ensures { let r = run.entry in let beats = plain_beats r.beats.now in
        Dumped (OfEachPorts text.now r.schema.now beats r.start) beats
        (K.state out.old) (K.state out.new) result }
{
    one_module();
    inputs_are_ports();
    let Ok(design) = read_known_module(alloc, text) else {
        return Outcome::Memory;
    };
    let task = Task {
        schema: run.schema,
        beats: run.beats,
        start: run.start,
        extra: run.latency,
    };
    dump_module(alloc, design, run.kinds, task, out)
}

/// Runs the text of a compiled query over beats of its schema that keep its gaps, in cycles, and writes
/// the dump of the module's ports but the clock.
pub fn dump_compiled<K: Sink>(
    alloc: Global,
    compiled: &Compiled,
    beats: &Beats,
    start: Start,
    out: &mut K,
) -> Outcome
    requires compiled { IsRunnable compiled.now }
    requires beats { AreBeats compiled.now.schema (plain_beats beats.now) }
    requires gaps { KeepsGaps (printed_gaps compiled.now.printed) (plain_beats beats.now) }
    ensures { let c = compiled.now in
        Dumped (OfEachPorts c.text.items c.schema (plain_beats beats.now) start)
        (plain_beats beats.now) (K.state out.old) (K.state out.new) result }
{
    accepted_have_real_columns();
    one_module();
    let run = Run {
        schema: compiled.schema(),
        kinds: compiled.kinds(),
        beats,
        latency: compiled.printed().latency,
        start,
    };
    dump(alloc, compiled.text(), run, out)
}
