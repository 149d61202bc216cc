//! Judging the texts: each is read and judged before the next is read.

ghost use Rattle.std.specs.Prelude.{◌≡◌, [], IfOk, Ok};
ghost use Rattle.gl_schema.specs.Schemas.{IsSchema};
ghost use Rattle.gl_gaps.specs.Keeps.{KeepsGaps, even_gaps};
ghost use Rattle.gl_tuple_reader.specs.Entries.{Gives};
ghost use Rattle.gl_tuples.specs.Gaps.{AreFileBeats, plain_beats};
ghost use Rattle.gl_top_forms.specs.Forms.{IsNamed, IsOfRun};
ghost use Rattle.gl_top_inputs.specs.Causes as causes;
ghost use Rattle.gl_top_inputs.specs.Causes.{Leaves};
ghost use Rattle.gl_outside.specs.States.{Stays};
ghost use Rattle.gl_top_inputs.specs.Passing.{AsksGaps, QueryPasses, IsCompiled, IsReady, kept_beats};
ghost use Rattle.gl_top_status.specs.Texts.{HasText, SchemaPasses};

use gl_compiler::{CompileFault, Compiled, compile_query};
use gl_gaps::Gaps;
use gl_outside::Shelf;
use gl_schema::Schema;
use gl_top_forms::{Part, Taken};
use gl_top_status::{Refusal, fetch, keep_schema};
use gl_tuple_reader::read_tuples;
use gl_tuples::{Beats, TupleFault};
use std::alloc::Global;

/// What the three texts give: the compiled query, and the beats of the tuple file.
#[derive(Drop)]
pub struct Job {
    /// The compiled query.
    pub compiled: Compiled,
    /// The beats.
    pub beats: Beats,
}

/// The texts that were fetched, and the gaps that their beats are to keep: none before they were.
#[derive(Drop)]
pub struct KeptTexts {
    /// The text of the schema.
    pub schema: Vec<u8>,
    /// The text of the query.
    pub query: Vec<u8>,
    /// The tuple file.
    pub tuples: Vec<u8>,
    /// The gaps of the query.
    pub gaps: Gaps,
}

impl KeptTexts {
    /// No text, and no gaps.
    pub fn new(alloc: Global) -> KeptTexts
        ensures schema { result.schema.items ≡ [] }
        ensures query { result.query.items ≡ [] }
        ensures tuples { result.tuples.items ≡ [] }
        ensures gaps { result.gaps ≡ even_gaps 0 }
    {
        KeptTexts {
            schema: Vec::new(alloc),
            query: Vec::new(alloc),
            tuples: Vec::new(alloc),
            gaps: Gaps {
                of_beats: 0,
                of_ticks: 0,
            },
        }
    }
}

// Why a query is not compiled, as a refusal. (A `From` would stand in gl_top_status, which is to stand
// on no compiler, or in gl_compiler, which knows of no refusal.)
pub(crate) fn compile_refusal(fault: CompileFault) -> Refusal
    ensures { result ≡ causes.compile_refusal fault }
{
    match fault {
        CompileFault::Memory => Refusal::Memory,
        CompileFault::Query(fault) => Refusal::Query(fault),
        CompileFault::Limit(limit) => Refusal::Limit(limit),
        CompileFault::Schema(fault) => Refusal::Schema(fault),
    }
}

// Reads and judges the query, and keeps its text.
fn judge_query<S: Shelf>(
    alloc: Global,
    shelf: &mut S,
    words: &Taken<'_>,
    schema: Schema,
    kept: &mut Vec<u8>,
) -> Result<Compiled, Refusal>
    requires named { IsNamed words.now Part.Query }
    requires passes { SchemaPasses (S.state shelf.old).told words.now schema }
    requires names { (S.state shelf.old).names ≡ words.now }
    ensures stays { Stays (S.state shelf.old) (S.state shelf.new) }
    ensures passes { let told = (S.state shelf.old).told in
        IfOk result (λ c. QueryPasses told words.now c.schema c.statement) }
    ensures compiled { IfOk result IsCompiled }
    ensures leaves { Leaves words.now (S.state shelf.old) (S.state shelf.new) result }
{
    let text = fetch(alloc, shelf, words, Part::Query)?;
    match compile_query(alloc, schema, &text) {
        Ok(compiled) => {
            *kept = text;
            Ok(compiled)
        }
        Err(fault) => {
            *kept = text;
            Err(compile_refusal(fault))
        }
    }
}

// The beats of a text, if they keep the gaps.
fn beats_of(alloc: Global, schema: &Schema, gaps: Gaps, text: &[u8]) -> Result<Beats, TupleFault>
    requires { IsSchema schema.now }
    ensures exact { Gives result (kept_beats schema.now gaps text.now) }
    ensures fine { IfOk result (λ beats. AreFileBeats schema.now beats) }
    ensures gaps { IfOk result (λ beats. KeepsGaps gaps (plain_beats beats)) }
{
    let beats = read_tuples(alloc, schema, text)?;
    beats.keep(gaps)?;
    Ok(beats)
}

// Reads and judges the tuple file, whose beats are to keep these gaps, and keeps its text.
pub(crate) fn judge_tuples<S: Shelf>(
    alloc: Global,
    shelf: &mut S,
    words: &Taken<'_>,
    schema: &Schema,
    gaps: Gaps,
    kept: &mut Vec<u8>,
) -> Result<Beats, Refusal>
    requires asks { AsksGaps (S.state shelf.old).told words.now schema.now gaps }
    requires names { (S.state shelf.old).names ≡ words.now }
    ensures fine { IfOk result (λ beats. AreFileBeats schema.now beats) }
    ensures gaps { IfOk result (λ beats. KeepsGaps gaps (plain_beats beats)) }
    ensures text { IfOk result (λ beats. HasText (S.state shelf.old).told words.now Part.Tuples
        (λ text. kept_beats schema.now gaps text ≡ Ok beats)) }
    ensures leaves { Leaves words.now (S.state shelf.old) (S.state shelf.new) result }
{
    let text = fetch(alloc, shelf, words, Part::Tuples)?;
    match beats_of(alloc, schema, gaps, &text) {
        Ok(beats) => {
            *kept = text;
            Ok(beats)
        }
        Err(fault) => {
            *kept = text;
            Err(Refusal::from(fault))
        }
    }
}

// Judges the tuple file, behind the schema and the query.
fn judge_file<S: Shelf>(
    alloc: Global,
    shelf: &mut S,
    words: &Taken<'_>,
    compiled: Compiled,
    kept: &mut KeptTexts,
) -> Result<Job, Refusal>
    requires runs { IsOfRun words.now }
    requires passes { let told = (S.state shelf.old).told in
        QueryPasses told words.now compiled.schema compiled.statement }
    requires compiled { IsCompiled compiled }
    requires names { (S.state shelf.old).names ≡ words.now }
    ensures ready { IfOk result (λ job. IsReady (S.state shelf.old).told words.now job) }
    ensures leaves { Leaves words.now (S.state shelf.old) (S.state shelf.new) result }
{
    let gaps = compiled.gaps();
    kept.gaps = gaps;
    let beats = judge_tuples(
        alloc,
        shelf,
        words,
        compiled.schema(),
        gaps,
        &mut kept.tuples,
    )?;
    Ok(Job { compiled, beats })
}

// Judges the query and the tuple file, behind the schema.
fn judge_rest<S: Shelf>(
    alloc: Global,
    shelf: &mut S,
    words: &Taken<'_>,
    schema: Schema,
    kept: &mut KeptTexts,
) -> Result<Job, Refusal>
    requires runs { IsOfRun words.now }
    requires passes { SchemaPasses (S.state shelf.old).told words.now schema }
    requires names { (S.state shelf.old).names ≡ words.now }
    ensures ready { IfOk result (λ job. IsReady (S.state shelf.old).told words.now job) }
    ensures leaves { Leaves words.now (S.state shelf.old) (S.state shelf.new) result }
{
    let compiled = judge_query(alloc, shelf, words, schema, &mut kept.query)?;
    judge_file(alloc, shelf, words, compiled, kept)
}

/// Judges the three texts of `run S Q T`, of `vcd S Q T` and of `why S Q T`, and keeps those that were
/// fetched.
pub fn judge_run<S: Shelf>(
    alloc: Global,
    shelf: &mut S,
    words: &Taken<'_>,
    kept: &mut KeptTexts,
) -> Result<Job, Refusal>
    requires runs { IsOfRun words.now }
    requires names { (S.state shelf.old).names ≡ words.now }
    ensures ready { IfOk result (λ job. IsReady (S.state shelf.old).told words.now job) }
    ensures leaves { Leaves words.now (S.state shelf.old) (S.state shelf.new) result }
{
    let schema = keep_schema(alloc, shelf, words, &mut kept.schema)?;
    judge_rest(alloc, shelf, words, schema, kept)
}

/// Judges the two texts of a command that compiles or of `why S Q`, and keeps those that were fetched.
pub fn judge_compile<S: Shelf>(
    alloc: Global,
    shelf: &mut S,
    words: &Taken<'_>,
    kept: &mut KeptTexts,
) -> Result<Compiled, Refusal>
    requires named { IsNamed words.now Part.Query }
    requires names { (S.state shelf.old).names ≡ words.now }
    ensures passes { let told = (S.state shelf.old).told in
        IfOk result (λ c. QueryPasses told words.now c.schema c.statement) }
    ensures compiled { IfOk result IsCompiled }
    ensures leaves { Leaves words.now (S.state shelf.old) (S.state shelf.new) result }
{
    let schema = keep_schema(alloc, shelf, words, &mut kept.schema)?;
    judge_query(alloc, shelf, words, schema, &mut kept.query)
}
