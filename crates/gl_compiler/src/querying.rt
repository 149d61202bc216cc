//! Compiling the text of a query.

ghost use Rattle.std.specs.Prelude.{◌≡◌, ◌≤◌, ◌^◌, IfOk, IfErr, length};
ghost use Rattle.std.specs.List.{AllByRecursion};
ghost use Rattle.gl_values.specs.Kinds.{IsKind};
ghost use Rattle.gl_schema.specs.Schemas.{IsSchema, kinds_of};
ghost use Rattle.gl_query.specs.declared.tree.Statement.{Statement as Stated};
ghost use Rattle.gl_algebra.specs.Added.{placed_at};
ghost use Rattle.gl_algebra.specs.Small.{AreFigures};
ghost use Rattle.gl_elaborate.specs.Plans.{plan_of};
ghost use Rattle.gl_compiler.specs.Meets.{Meets, result_columns};
ghost use Rattle.gl_compiler.specs.Built.{latency_of, gaps_of, printed_gaps, copies_of, IsNoFarther};
ghost use Rattle.gl_compiler.specs.Compiles.{HasCost};
ghost use Rattle.gl_compiler.specs.Queries.{IsQuery, IsQueryRefused, IfRefused, TellsCauses};
ghost use Rattle.gl_compiler.specs.Texts.{IsCompiledText, IsTextRefused, TellsTextCauses};

use crate::below::laws_below;
use crate::fault::CompileFault;
use crate::{Compiled, compile_checked};
use gl_query::laws::{accepted_have_real_columns, trees_are_alike};
use gl_query_reader::laws::statements_are_regular;
use gl_query_texts::judge_query;
use gl_schema::{Schema, read_schema};
use std::alloc::Global;

/// Compiles the text of a query over a schema.
///
/// `Query` is the first fault of the text, by reading and then by the rules of acceptance, and comes
/// exactly where it has one; `Limit` comes exactly where its statement is accepted and its plan passes
/// this limit.
pub fn compile_query(alloc: Global, schema: Schema, query: &[u8]) -> Result<Compiled, CompileFault>
    requires { IsSchema schema }
    ensures schema { IfOk result (λ c. c.schema ≡ schema) }
    ensures built { IfOk result (λ c. IsQuery schema query.now c.statement) }
    ensures many { IfOk result (λ c. length c.kinds ≤ 32) }
    ensures kinds { IfOk result (λ c. AllByRecursion IsKind c.kinds) }
    ensures columns { IfOk result (λ c. c.kinds ≡ kinds_of (result_columns schema c.statement)) }
    ensures latency { IfOk result (λ c. c.printed.latency ≡ latency_of schema c.statement) }
    ensures gaps { IfOk result (λ c. printed_gaps c.printed ≡ gaps_of schema c.statement) }
    ensures closer { IfOk result (λ c. IsNoFarther schema c.statement (printed_gaps c.printed)) }
    ensures copies { IfOk result (λ c. c.printed.copies ≡ copies_of schema c.statement) }
    ensures short { IfOk result (λ c. c.printed.latency ≤ 2 ^ 32) }
    ensures plan { IfOk result (λ c. placed_at c.plan c.root ≡ plan_of schema c.statement) }
    ensures figures { IfOk result (λ c. AreFigures c.plan c.figures.items) }
    ensures cost { IfOk result (λ c. HasCost schema c.statement c.text.items c.cost) }
    ensures meets { IfOk result (λ c. Meets schema c.statement c.printed.latency
        (printed_gaps c.printed) c.text.items) }
    ensures cause { IfErr result (IsQueryRefused schema query.now) }
    ensures refused { IfErr result (λ fault. IfRefused fault ((statement : Stated)
        → IsQuery schema query.now statement → ⊥)) }
    ensures told { TellsCauses schema query.now result }
{
    accepted_have_real_columns();
    laws_below();
    statements_are_regular();
    trees_are_alike();
    let checked = judge_query(alloc, &schema, query)?;
    Ok(compile_checked(alloc, checked)?)
}

/// Compiles the text of a query over the text of a schema.
///
/// `Schema` is the first fault of the schema's text, and comes exactly where it has one; `Query` and
/// `Limit` come as `compile_query` answers them over its schema.
pub fn compile(alloc: Global, schema: &[u8], query: &[u8]) -> Result<Compiled, CompileFault>
    ensures compiled { IfOk result (IsCompiledText schema.now query.now) }
    ensures cause { IfErr result (IsTextRefused schema.now query.now) }
    ensures told { TellsTextCauses schema.now query.now result }
{
    let schema = read_schema(alloc, schema)?;
    compile_query(alloc, schema, query)
}
