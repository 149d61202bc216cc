//! Planning several statements together.

ghost use Rattle.std.specs.Prelude.{◌≡◌, ◌<◌, ◌++◌, [], length, IfErr, IfOk, MatchResult, OnOk};
ghost use Rattle.std.specs.List.{AllByRecursion};
ghost use Rattle.gl_algebra.specs.Fits.{IsPlan};
ghost use Rattle.gl_algebra.specs.Small.{AreFigures};
ghost use Rattle.gl_elaborate.specs.Plans.{plans_of};
ghost use Rattle.gl_plan.specs.Planned.{AreAllSmall};
ghost use Rattle.gl_plan.specs.Together.{plans_over, several_at, statements_of, ArePlanned, IsCheckedOver, PassLimit, PassOr};

use crate::PlanFault;
use crate::printed::{gap_together, latencies_of, ticks_together};
use crate::weights::{weight_limit, weights_of};
use gl_algebra::{Figures, Plan, PlanId};
use gl_bits::Memory as NoMemory;
use gl_elaborate::elaborating::elaborate_into;
use gl_elaborate::laws::several_are_right;
use gl_figures::{Limit, figures, places};
use gl_query_check::Checked;
use gl_schema::Schema;
use std::alloc::Global;

/// The joint plan of several statements.
#[derive(Drop)]
pub struct PlannedSeveral {
    /// Its nodes, among them each that some statements share once.
    pub plan: Plan,
    /// The node of the whole query, for each statement.
    pub roots: Vec<PlanId>,
    /// The figures of each node, in cycles and tuples.
    pub figures: Vec<Figures>,
    /// The most cycles from the last beat to the end of the result, for each statement.
    pub latencies: Vec<u64>,
    /// The fewest cycles from one beat to the next.
    pub gap: u32,
    /// The fewest cycles from a tick to the next one and to the end, where they are others.
    pub ticks: Option<u32>,
}

// Adds the plans of statements to a plan, each behind those before it, and their roots to others. Of the
// schema clauses alone speak.
fn put_statements(
    alloc: Global,
    schema: &Schema,
    statements: &[Checked],
    plan: &mut Plan,
    roots: &mut Vec<PlanId>,
) -> Result<(), NoMemory>
    requires plan { IsPlan plan.old }
    requires checked { AllByRecursion (IsCheckedOver schema.now) statements.now }
    ensures nodes { OnOk result
        (plan.new ≡ (plans_over plan.old schema.now statements.now).nodes) }
    ensures roots { OnOk result (roots.new.items
        ≡ roots.old.items ++ (plans_over plan.old schema.now statements.now).roots) }
{
    let Some((first, others)) = statements.split_first() else {
        return Ok(());
    };
    let root = elaborate_into(alloc, first, plan)?;
    roots.push(root)?;
    put_statements(alloc, schema, others, plan, roots)
}

// The joint plan of statements, and the root of each.
fn elaborated(
    alloc: Global,
    schema: &Schema,
    statements: &[Checked],
) -> Result<(Plan, Vec<PlanId>), NoMemory>
    requires { AllByRecursion (IsCheckedOver schema.now) statements.now }
    ensures at { IfOk result (λ r.
        several_at r.0 r.1.items ≡ plans_over [] schema.now statements.now) }
    ensures within { IfOk result (λ r. AllByRecursion (λ root. root < length r.0) r.1.items) }
{
    several_are_right();
    let mut plan = Plan::new(alloc);
    let mut roots = Vec::new(alloc);
    put_statements(alloc, schema, statements, &mut plan, &mut roots)?;
    Ok((plan, roots))
}

// Writes the figures of each node of a plan with these roots into the node's place, or gives the
// limit that it passes.
fn figure(plan: &Plan, roots: &[PlanId], into: &mut [Figures]) -> Result<(), Limit>
    requires { length into.old ≡ length plan.now }
    ensures figures { OnOk result (AreFigures plan.now into.new) }
    ensures small { OnOk result (AreAllSmall plan.now) }
    ensures limit { IfErr result (PassLimit (several_at plan.now roots.now)) }
{
    // Clauses alone speak of it.
    let _ = roots;
    figures(plan, into)
}

/// The joint plan of statements that were checked over one schema, each behind those before it, with its
/// figures and what is printed of each statement and of all.
///
/// A limit comes exactly where the plan passes it, latency before weight.
pub fn plan_several(
    alloc: Global,
    schema: &Schema,
    statements: &[Checked],
) -> Result<PlannedSeveral, PlanFault>
    requires { AllByRecursion (IsCheckedOver schema.now) statements.now }
    ensures { let asked = statements_of statements.now in
        MatchResult result (ArePlanned schema.now asked) (PassOr (plans_of [] schema.now asked)) }
{
    let (plan, roots) = elaborated(alloc, schema, statements)?;
    let mut figures = places(alloc, plan.len())?;
    if let Err(limit) = figure(&plan, &roots, &mut figures) {
        return Err(PlanFault::Limit(limit));
    }
    let weights = weights_of(alloc, &plan, &figures)?;
    if let Some(limit) = weight_limit(&plan, &roots, &weights) {
        return Err(PlanFault::Limit(limit));
    }
    let latencies = latencies_of(alloc, &plan, &roots, &figures)?;
    let gap = gap_together(&plan, &roots, &figures);
    let ticks = ticks_together(&plan, &roots, &figures);
    Ok(PlannedSeveral {
        plan,
        roots,
        figures,
        latencies,
        gap,
        ticks,
    })
}
