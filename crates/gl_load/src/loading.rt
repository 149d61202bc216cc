//! The load: compiled, run and told.

ghost use Rattle.std.specs.Prelude.{◌≡◌, ◌↔◌, ◌≤◌, IfOk, IsOk};
ghost use Rattle.gl_schema.specs.Beats.{AreBeats};
ghost use Rattle.gl_gaps.specs.Keeps.{KeepsGaps, even_gaps};
ghost use Rattle.gl_tuples.specs.Gaps.{plain_beats};
ghost use Rattle.gl_load.specs.Query.{load_schema};
ghost use Rattle.gl_load.specs.Loads.{IsLoad};
ghost use Rattle.gl_load.specs.Steps.{AreRunLines, IsCompiledLoad};

use crate::summary::summary_of;
use crate::text_sink::TextSink;
use crate::tuples::load_beats;
use crate::{query_text, schema_text};
use gl_bits::Memory;
use gl_compiler::below::laws_below;
use gl_compiler::{CompileFault, Compiled, Outcome, compile, run_compiled};
use gl_query::laws::accepted_have_real_columns;
use gl_tuples::Beats;
use gl_verilog::Start;
use gl_verilog_grammar::laws::one_module;
use std::alloc::Global;

/// What a load leaves: what is told of its run, and the compiled query whose text was run.
#[derive(Drop)]
pub struct Loaded {
    /// The five lines.
    pub summary: Vec<u8>,
    /// The compiled query.
    pub compiled: Compiled,
}

// The texts are compiled: nothing but want of memory refuses them.
fn uncompiled(fault: CompileFault) -> Memory
    requires { fault ≡ CompileFault.Memory }
{
    // Clauses alone speak of it.
    let _ = fault;
    Memory
}

// The query of the load, compiled.
fn compile_load(alloc: Global) -> Result<Compiled, Memory>
    ensures { IfOk result IsCompiledLoad }
{
    laws_below();
    match compile(alloc, schema_text(), query_text()) {
        Ok(compiled) => Ok(compiled),
        Err(fault) => Err(uncompiled(fault)),
    }
}

// The sink of a run that came to its end. The sink fails for want of memory alone.
fn ended(outcome: Outcome, sink: TextSink) -> Result<TextSink, Memory>
    ensures done { IsOk result ↔ (outcome ≡ Outcome.Done) }
    ensures same { IfOk result (λ kept. kept ≡ sink) }
{
    match outcome {
        Outcome::Done => Ok(sink),
        Outcome::WriteFault | Outcome::Memory => Err(Memory),
    }
}

// What running the text over the beats writes.
fn run(alloc: Global, compiled: &Compiled, beats: &Beats) -> Result<TextSink, Memory>
    requires compiled { IsCompiledLoad compiled.now }
    requires beats { AreBeats load_schema (plain_beats beats.now) }
    requires gaps { KeepsGaps (even_gaps 1) (plain_beats beats.now) }
    ensures { IfOk result (λ sink. AreRunLines compiled.now (plain_beats beats.now) sink.bytes) }
{
    accepted_have_real_columns();
    let mut sink = TextSink::empty(alloc);
    let outcome = run_compiled(alloc, compiled, beats, Start::Zero, &mut sink);
    ended(outcome, sink)
}

/// Compiles the query of the load, runs its text over `count` tuples from registers and words of 0,
/// and tells what came out.
pub fn load(alloc: Global, count: u32) -> Result<Loaded, Memory>
    requires some { 1 ≤ count }
    ensures { IfOk result (λ l. IsLoad count l.summary.items l.compiled.text.items) }
{
    laws_below();
    one_module();
    let compiled = compile_load(alloc)?;
    let beats = load_beats(alloc, compiled.schema(), count)?;
    let lines = run(alloc, &compiled, &beats)?;
    let summary = summary_of(alloc, count, lines.bytes())?;
    Ok(Loaded { summary, compiled })
}
