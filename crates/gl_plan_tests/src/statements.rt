//! Statements with their plans, and with what is printed of them.

ghost use Rattle.std.specs.Prelude.{◌<◌, length, IfOk, IfSome};
ghost use Rattle.gl_schema.specs.Schemas.{IsSchema};
ghost use Rattle.gl_algebra.specs.Small.{AreFigures};

use crate::shown::shown;
use gl_algebra::table::input_figures;
use gl_algebra::{Figures, Plan, PlanId};
use gl_bits::Memory;
use gl_elaborate::elaborate;
use gl_figures::{Limit, figures, weigh};
use gl_query_check::check;
use gl_query_reader::read_query;
use gl_schema::{Schema, read_schema};
use std::alloc::{AllocError, Global};

// The plan of a statement's text, and its root; None where it is not accepted.
fn plan_of(alloc: Global, schema: &Schema, text: &str) -> Result<Option<(Plan, PlanId)>, Memory>
    requires { IsSchema schema.now }
    ensures { IfOk result (λ o. IfSome o (λ r. r.1 < length r.0)) }
{
    let Ok(statement) = read_query(alloc, text.as_bytes()) else {
        return Ok(None);
    };
    let Ok(checked) = check(alloc, schema, statement) else {
        return Ok(None);
    };
    let (plan, root) = elaborate(alloc, &checked)?;
    Ok(Some((plan, root)))
}

// The figures of each node of a plan, or the limit that one passes.
fn figured(alloc: Global, plan: &Plan) -> Result<Result<Vec<Figures>, Limit>, AllocError>
    ensures { IfOk result (λ o. IfOk o (λ v. AreFigures plan.now v.items)) }
{
    let mut own = vec![in alloc; input_figures(); plan.len()]?;
    match figures(plan, &mut own) {
        Ok(()) => Ok(Ok(own)),
        Err(limit) => Ok(Err(limit)),
    }
}

fn limit_told(alloc: Global, limit: Limit) -> Result<String, AllocError> {
    format!(in alloc; "limit: {limit:?}")
}

// The lines of a plan, each with its node's figures.
fn lines_of(alloc: Global, schema: &Schema, plan: &Plan) -> Result<String, AllocError> {
    match figured(alloc, plan)? {
        Ok(own) => shown(alloc, schema, plan, &own),
        Err(limit) => limit_told(alloc, limit),
    }
}

// What is printed of a plan with these figures, or that it is too heavy.
fn weighed(alloc: Global, plan: &Plan, root: PlanId, own: &[Figures]) -> Result<String, AllocError>
    requires figures { AreFigures plan.now own.now }
    requires root { root < length plan.now }
{
    let mut weights = vec![in alloc; 0u64; plan.len()]?;
    match weigh(plan, root, own, &mut weights) {
        Ok(p) => format!(in alloc; "latency {}, gap {}, copies {}", p.latency, p.gap, p.copies),
        Err(limit) => limit_told(alloc, limit),
    }
}

// The weight of the root of a plan with these figures, and with its output's part: 8 for each column and 8 times 10 more.
fn heavy_told(
    alloc: Global,
    plan: &Plan,
    root: PlanId,
    own: &[Figures],
) -> Result<String, AllocError>
    requires figures { AreFigures plan.now own.now }
    requires root { root < length plan.now }
{
    let mut weights = vec![in alloc; 0u64; plan.len()]?;
    let _ = weigh(plan, root, own, &mut weights);
    let weight = weights.get(root.number()).copied().unwrap_or(0);
    let part = (plan.kinds(root).len() as u64)
        .saturating_add(10)
        .saturating_mul(8);
    format!(in alloc; "{weight}, with its output {}", weight.saturating_add(part))
}

// What is printed of a plan, or the limit that it passes.
fn printed_of(alloc: Global, plan: &Plan, root: PlanId) -> Result<String, AllocError>
    requires { root < length plan.now }
{
    match figured(alloc, plan)? {
        Ok(own) => weighed(alloc, plan, root, &own),
        Err(limit) => limit_told(alloc, limit),
    }
}

// The weight of the root of a plan, alone and with its output's part, or the limit that a figure passes.
fn weight_of(alloc: Global, plan: &Plan, root: PlanId) -> Result<String, AllocError>
    requires { root < length plan.now }
{
    match figured(alloc, plan)? {
        Ok(own) => heavy_told(alloc, plan, root, &own),
        Err(limit) => limit_told(alloc, limit),
    }
}

// What is asked of the plan of a statement.
#[derive(Clone, Copy)]
enum Asked {
    Lines,
    Printed,
    Weight,
}

// What is told of a plan.
fn plan_told(
    alloc: Global,
    schema: &Schema,
    plan: &Plan,
    root: PlanId,
    asked: Asked,
) -> Result<String, AllocError>
    requires { root < length plan.now }
{
    match asked {
        Asked::Lines => lines_of(alloc, schema, plan),
        Asked::Printed => printed_of(alloc, plan, root),
        Asked::Weight => weight_of(alloc, plan, root),
    }
}

// What is told of the plan of a text's statement over a schema.
fn text_told(alloc: Global, schema: &Schema, text: &str, asked: Asked) -> Result<String, Memory>
    requires { IsSchema schema.now }
{
    match plan_of(alloc, schema, text)? {
        Some((plan, root)) => Ok(plan_told(alloc, schema, &plan, root, asked)?),
        None => Ok(String::from_str(alloc, "not accepted")?),
    }
}

// What is told of the plan of a text's statement.
fn told(alloc: Global, schema: &str, text: &str, asked: Asked) -> Result<String, Memory> {
    match read_schema(alloc, schema.as_bytes()) {
        Ok(schema) => text_told(alloc, &schema, text, asked),
        Err(_) => Ok(String::from_str(alloc, "no schema")?),
    }
}

/// The lines of the plan of a statement's text.
pub fn planned(alloc: Global, schema: &str, text: &str) -> Result<String, Memory> {
    told(alloc, schema, text, Asked::Lines)
}

/// What is printed of a statement's text, or the limit that it passes.
pub fn printed(alloc: Global, schema: &str, text: &str) -> Result<String, Memory> {
    told(alloc, schema, text, Asked::Printed)
}

/// The weight of the root of the plan of a statement's text, alone and with its output's part.
pub fn weight_told(alloc: Global, schema: &str, text: &str) -> Result<String, Memory> {
    told(alloc, schema, text, Asked::Weight)
}
