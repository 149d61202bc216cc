//! The text of a query, explained.

ghost use Rattle.std.specs.Prelude.{◌≡◌, IfErr, IfOk};
ghost use Rattle.gl_schema.specs.Schemas.{IsSchema};
ghost use Rattle.gl_top_explain.specs.Explaining as told;
ghost use Rattle.gl_top_explain.specs.Explaining.{IsExplained, IsExplainRefused};

use gl_explain::explain;
use gl_plan::PlanFault;
use gl_query_texts::judge_query;
use gl_schema::Schema;
use gl_top_status::Refusal;
use std::alloc::Global;

// What a plan passes, as a refusal. (A `From` would stand in gl_top_status, which is to stand on no
// planner, or in gl_plan, which knows of no refusal.)
fn plan_refusal(fault: PlanFault) -> Refusal
    ensures { result ≡ told.plan_refusal fault }
{
    match fault {
        PlanFault::Limit(limit) => Refusal::Limit(limit),
        PlanFault::Memory => Refusal::Memory,
    }
}

/// The statement of a query's text over a schema in its canonical form, and its plan, as text.
///
/// `Query` is the first fault of the text, and comes exactly where it has one; `Limit` comes exactly
/// where its statement is accepted and its plan passes this limit. `Memory` alone may come in place of
/// either, and no other refusal comes.
pub fn explain_query(alloc: Global, schema: &Schema, query: &[u8]) -> Result<Vec<u8>, Refusal>
    requires { IsSchema schema.now }
    ensures explained { IfOk result (λ v. IsExplained schema.now query.now v.items) }
    ensures refused { IfErr result (IsExplainRefused schema.now query.now) }
{
    let checked = judge_query(alloc, schema, query)?;
    match explain(alloc, &checked) {
        Ok(text) => Ok(text),
        Err(fault) => Err(plan_refusal(fault)),
    }
}
