//! Judging the texts of several queries: behind the schema theirs, and then the tuple file.

ghost use Rattle.std.specs.Prelude.{◌≡◌, IfOk};
ghost use Rattle.gl_many.specs.Compiles.{statements_in};
ghost use Rattle.gl_outside.specs.States.{Stays};
ghost use Rattle.gl_top_forms.specs.declared.command.Command.TheVariants.{ManyRun};
ghost use Rattle.gl_top_forms.specs.Forms.{IsCommand, IsNamed};
ghost use Rattle.gl_top_inputs.specs.Causes.{Leaves};
ghost use Rattle.gl_top_inputs.specs.Passing.{AreCompiledTogether, AreReady, QueriesPass};
ghost use Rattle.gl_top_status.specs.Texts.{SchemaPasses};

use crate::judging::{compile_refusal, judge_tuples};
use gl_many::{Many, compile_many};
use gl_outside::Shelf;
use gl_schema::Schema;
use gl_top_forms::{Part, Taken};
use gl_top_status::{Refusal, fetch, fetch_schema};
use gl_tuples::Beats;
use std::alloc::Global;

/// What the three texts of `manyrun` give: the compiled queries, and the beats of the tuple file.
#[derive(Drop)]
pub struct ManyJob {
    /// The compiled queries.
    pub many: Many,
    /// The beats.
    pub beats: Beats,
}

// Reads and judges the text of the queries.
fn judge_queries<S: Shelf>(
    alloc: Global,
    shelf: &mut S,
    words: &Taken<'_>,
    schema: Schema,
) -> Result<Many, Refusal>
    requires named { IsNamed words.now Part.Queries }
    requires passes { SchemaPasses (S.state shelf.old).told words.now schema }
    requires names { (S.state shelf.old).names ≡ words.now }
    ensures stays { Stays (S.state shelf.old) (S.state shelf.new) }
    ensures passes { let told = (S.state shelf.old).told in
        IfOk result (λ m. QueriesPass told words.now m.schema (statements_in m)) }
    ensures compiled { IfOk result AreCompiledTogether }
    ensures leaves { Leaves words.now (S.state shelf.old) (S.state shelf.new) result }
{
    let text = fetch(alloc, shelf, words, Part::Queries)?;
    match compile_many(alloc, schema, &text) {
        Ok(many) => Ok(many),
        Err(fault) => Err(compile_refusal(fault)),
    }
}

// Judges the tuple file, behind the schema and the queries.
fn judge_behind_queries<S: Shelf>(
    alloc: Global,
    shelf: &mut S,
    words: &Taken<'_>,
    many: Many,
) -> Result<ManyJob, Refusal>
    requires runs { IsCommand words.now ManyRun }
    requires passes { let told = (S.state shelf.old).told in
        QueriesPass told words.now many.schema (statements_in many) }
    requires compiled { AreCompiledTogether many }
    requires names { (S.state shelf.old).names ≡ words.now }
    ensures ready { IfOk result (λ job. AreReady (S.state shelf.old).told words.now job) }
    ensures leaves { Leaves words.now (S.state shelf.old) (S.state shelf.new) result }
{
    let gaps = many.gaps();
    let mut kept = Vec::new(alloc);
    let beats = judge_tuples(alloc, shelf, words, many.schema(), gaps, &mut kept)?;
    Ok(ManyJob { many, beats })
}

// Judges the queries and the tuple file, behind the schema.
fn judge_behind_schema<S: Shelf>(
    alloc: Global,
    shelf: &mut S,
    words: &Taken<'_>,
    schema: Schema,
) -> Result<ManyJob, Refusal>
    requires runs { IsCommand words.now ManyRun }
    requires passes { SchemaPasses (S.state shelf.old).told words.now schema }
    requires names { (S.state shelf.old).names ≡ words.now }
    ensures ready { IfOk result (λ job. AreReady (S.state shelf.old).told words.now job) }
    ensures leaves { Leaves words.now (S.state shelf.old) (S.state shelf.new) result }
{
    let many = judge_queries(alloc, shelf, words, schema)?;
    judge_behind_queries(alloc, shelf, words, many)
}

/// Judges the three texts of `manyrun S Q T`.
pub fn judge_many_run<S: Shelf>(
    alloc: Global,
    shelf: &mut S,
    words: &Taken<'_>,
) -> Result<ManyJob, Refusal>
    requires runs { IsCommand words.now ManyRun }
    requires names { (S.state shelf.old).names ≡ words.now }
    ensures ready { IfOk result (λ job. AreReady (S.state shelf.old).told words.now job) }
    ensures leaves { Leaves words.now (S.state shelf.old) (S.state shelf.new) result }
{
    let schema = fetch_schema(alloc, shelf, words)?;
    judge_behind_schema(alloc, shelf, words, schema)
}

/// Judges the two texts of a command that compiles several queries.
pub fn judge_many<S: Shelf>(
    alloc: Global,
    shelf: &mut S,
    words: &Taken<'_>,
) -> Result<Many, Refusal>
    requires named { IsNamed words.now Part.Queries }
    requires names { (S.state shelf.old).names ≡ words.now }
    ensures passes { let told = (S.state shelf.old).told in
        IfOk result (λ m. QueriesPass told words.now m.schema (statements_in m)) }
    ensures compiled { IfOk result AreCompiledTogether }
    ensures leaves { Leaves words.now (S.state shelf.old) (S.state shelf.new) result }
{
    let schema = fetch_schema(alloc, shelf, words)?;
    judge_queries(alloc, shelf, words, schema)
}
