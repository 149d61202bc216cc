//! Running several queries that were compiled.

ghost use Rattle.std.specs.Prelude.{◌≡◌};
ghost use Rattle.gl_schema.specs.Beats.{AreBeats};
ghost use Rattle.gl_gaps.specs.Keeps.{KeepsGaps};
ghost use Rattle.gl_tuples.specs.Gaps.{plain_beats};
ghost use Rattle.gl_runner.specs.Several.{RanAll};
ghost use Rattle.gl_many.specs.Compiles.{planned_gaps, statements_in};
ghost use Rattle.gl_many.specs.Runs.{AreRunnable, OfAllRuns, faces_of, greatest};

use crate::Many;
use crate::executing::execute_many;
use crate::faces::faces_of;
use gl_outside::Sink;
use gl_query::laws::accepted_have_real_columns;
use gl_runner::{Outcome, Task};
use gl_tuples::Beats;
use gl_verilog::Start;
use gl_verilog_ports::laws::inputs_are_ports;
use std::alloc::Global;

// The longest of latencies, or 0 where there is none.
fn longest(latencies: &[u64]) -> u64
    ensures { result ≡ greatest latencies.now }
{
    match latencies.split_first() {
        None => 0,
        Some((first, others)) => (*first).max(longest(others)),
    }
}

/// Runs the text of several compiled queries over beats of their schema that keep the gaps, in cycles, and
/// writes the lines of each result with the name of its statement.
pub fn run_many<K: Sink>(
    alloc: Global,
    many: &Many,
    beats: &Beats,
    start: Start,
    out: &mut K,
) -> Outcome
    requires many { AreRunnable many.now }
    requires beats { AreBeats many.now.schema (plain_beats beats.now) }
    requires gaps { KeepsGaps (planned_gaps many.now) (plain_beats beats.now) }
    ensures { let m = many.now in let beats' = plain_beats beats.now in
        RanAll (OfAllRuns m.text.items m.schema beats' start)
        (faces_of m.schema (statements_in m)) beats' (K.state out.old) (K.state out.new) result }
{
    accepted_have_real_columns();
    inputs_are_ports();
    let schema = many.schema();
    let Ok(faces) = faces_of(alloc, schema, many.statements()) else {
        return Outcome::Memory;
    };
    let latency = longest(&many.planned().latencies);
    let task = Task {
        schema,
        beats,
        start,
        extra: latency,
    };
    execute_many(alloc, many.text(), faces.as_slice(), task, out)
}
