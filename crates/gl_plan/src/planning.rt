//! Planning a statement.

ghost use Rattle.std.specs.Prelude.{◌≡◌, ◌<◌, length, IfErr, IfOk, MatchResult, OnOk};
ghost use Rattle.gl_query.specs.Checked.{IsChecked};
ghost use Rattle.gl_algebra.specs.Added.{placed_at};
ghost use Rattle.gl_algebra.specs.Roots.{spare_at};
ghost use Rattle.gl_algebra.specs.Small.{AreFigures};
ghost use Rattle.gl_figures.specs.Answered.{IsPrinted};
ghost use Rattle.gl_elaborate.specs.Plans.{plan_of};
ghost use Rattle.gl_plan.specs.declared.planning.PlanFault.TheVariants as fault;
ghost use Rattle.gl_plan.specs.Planned.{AreAllSmall, IsPlanned, IsWithinLimits, PassesLimit, PassesOr};

use gl_algebra::{Figures, Plan, PlanId, Spare};
use gl_bits::Memory as NoMemory;
use gl_elaborate::elaborate;
use gl_figures::{Limit, Printed, figures, places, root_spare, weigh, zeros};
use gl_query_check::Checked;
use std::alloc::Global;
use thiserror::Error;

/// Why a statement has no plan within the limits.
#[derive(Debug, Drop, Error)]
pub enum PlanFault {
    /// Its plan passes this limit.
    #[error("the plan passes a limit")]
    Limit(Limit),
    /// Want of memory.
    #[error("out of memory")]
    Memory,
}

impl From<NoMemory> for PlanFault {
    ghost from_gives = { λ _ e. e ≡ fault.Memory };

    fn from(_: NoMemory) -> PlanFault {
        PlanFault::Memory
    }
}

/// The plan of a statement.
#[derive(Drop)]
pub struct Planned {
    /// Its nodes.
    pub plan: Plan,
    /// The node of the whole query.
    pub root: PlanId,
    /// The figures of each node, in cycles and tuples.
    pub figures: Vec<Figures>,
    /// What is printed of the whole: latency and gap in cycles, and copies of bodies.
    pub printed: Printed,
    /// The spare copies of its root, where it has some.
    pub spare: Option<Spare>,
}

// Writes the figures of each node of a plan with this root into the node's place, or gives the
// limit that it passes.
fn figure(plan: &Plan, root: PlanId, into: &mut [Figures]) -> Result<(), Limit>
    requires { length into.old ≡ length plan.now }
    ensures figures { OnOk result (AreFigures plan.now into.new) }
    ensures small { OnOk result (AreAllSmall plan.now) }
    ensures limit { IfErr result (PassesLimit (placed_at plan.now root)) }
{
    // Clauses alone speak of it.
    let _ = root;
    figures(plan, into)
}

// What is printed of a plan and the spare copies of its root, or the limit on weight that it passes.
fn weigh_root(
    plan: &Plan,
    root: PlanId,
    own: &[Figures],
    weights: &mut [u64],
) -> Result<(Printed, Option<Spare>), Limit>
    requires figures { AreFigures plan.now own.now }
    requires root { root < length plan.now }
    requires small { AreAllSmall plan.now }
    requires weights { length weights.old ≡ length plan.now }
    ensures printed { IfOk result (λ found. IsPrinted plan.now root found.0) }
    ensures spare { IfOk result (λ found. found.1 ≡ spare_at plan.now root) }
    ensures within { OnOk result (IsWithinLimits (placed_at plan.now root)) }
    ensures limit { IfErr result (PassesLimit (placed_at plan.now root)) }
{
    match weigh(plan, root, own, weights) {
        Ok(printed) => Ok((printed, root_spare(plan, root, own, weights))),
        Err(limit) => Err(limit),
    }
}

/// The plan of a checked statement, with its figures and what is printed of it.
///
/// A limit comes exactly where the plan passes it, latency before weight.
pub fn plan_statement(alloc: Global, checked: &Checked) -> Result<Planned, PlanFault>
    requires { IsChecked checked.now.schema checked.now.statement }
    ensures { let at = plan_of checked.now.schema checked.now.statement in
        MatchResult result (IsPlanned checked.now.schema checked.now.statement) (PassesOr at) }
{
    let (plan, root) = elaborate(alloc, checked)?;
    let mut figures = places(alloc, plan.len())?;
    if let Err(limit) = figure(&plan, root, &mut figures) {
        return Err(PlanFault::Limit(limit));
    }
    let mut weights = zeros(alloc, plan.len())?;
    let (printed, spare) = match weigh_root(&plan, root, &figures, &mut weights) {
        Ok(found) => found,
        Err(limit) => return Err(PlanFault::Limit(limit)),
    };
    Ok(Planned {
        plan,
        root,
        figures,
        printed,
        spare,
    })
}
