//! Running a compiled query.

ghost use Rattle.gl_schema.specs.Beats.{AreBeats};
ghost use Rattle.gl_gaps.specs.Keeps.{KeepsGaps};
ghost use Rattle.gl_schema.specs.Schemas.{kinds_of};
ghost use Rattle.gl_tuples.specs.Gaps.{plain_beats};
ghost use Rattle.gl_compiler.specs.Built.{printed_gaps};
ghost use Rattle.gl_compiler.specs.Meets.{result_columns};
ghost use Rattle.gl_runner.specs.Prints.{OfEachRun, Ran};
ghost use Rattle.gl_compiler.specs.Runnable.{IsRunnable};

use crate::Compiled;
use crate::executing::{Run, execute};
use gl_outside::Sink;
use gl_query::laws::accepted_have_real_columns;
use gl_runner::Outcome;
use gl_tuples::Beats;
use gl_verilog::Start;
use std::alloc::Global;

/// Runs the text of a compiled query over beats of its schema that keep its gaps, in cycles, and writes
/// the lines of the result.
pub fn run_compiled<K: Sink>(
    alloc: Global,
    compiled: &Compiled,
    beats: &Beats,
    start: Start,
    out: &mut K,
) -> Outcome
    requires compiled { IsRunnable compiled.now }
    requires beats { AreBeats compiled.now.schema (plain_beats beats.now) }
    requires gaps { KeepsGaps (printed_gaps compiled.now.printed) (plain_beats beats.now) }
    ensures { let c = compiled.now in
        Ran (OfEachRun c.text.items c.schema (plain_beats beats.now) start)
        (kinds_of (result_columns c.schema c.statement)) (plain_beats beats.now)
        (K.state out.old) (K.state out.new) result }
{
    accepted_have_real_columns();
    let run = Run {
        schema: compiled.schema(),
        kinds: compiled.kinds(),
        beats,
        latency: compiled.printed().latency,
        start,
    };
    execute(alloc, compiled.text(), run, out)
}
