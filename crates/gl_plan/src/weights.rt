//! The weights of the roots of a joint plan.

ghost use Rattle.std.specs.Prelude.{◌≡◌, ◌+◌, ◌<◌, ◌^◌, length, IfOk, IfSome, IfNone};
ghost use Rattle.std.specs.List.{AllByRecursion};
ghost use Rattle.gl_algebra.specs.Roots.{output_part};
ghost use Rattle.gl_algebra.specs.Small.{AreFigures};
ghost use Rattle.gl_algebra.specs.Weights.{weight_of};
ghost use Rattle.gl_plan.specs.Planned.{AreAllSmall};
ghost use Rattle.gl_figures.specs.Answered.{capped, AreWeights};
ghost use Rattle.gl_plan.specs.Together.{several_at, weight_together, AreWithinLimits, PassLimit};

use gl_algebra::{Figures, Plan, PlanId};
use gl_bits::Memory as NoMemory;
use gl_bits::limits::MOST_WEIGHT;
use gl_figures::{Limit, cap, weigh, zeros};
use std::alloc::Global;

/// The weight of each node, or 2^62 where it is more.
pub(crate) fn weights_of(
    alloc: Global,
    plan: &Plan,
    figures: &[Figures],
) -> Result<Vec<u64>, NoMemory>
    requires { AreFigures plan.now figures.now }
    ensures { IfOk result (λ weights. AreWeights plan.now weights.items) }
{
    let mut weights = zeros(alloc, plan.len())?;
    if plan.len() > 0 {
        // It leaves each node's weight in the node's place, whatever it answers of this root.
        let _ = weigh(plan, plan.id(0), figures, &mut weights);
    }
    Ok(weights)
}

// The weight of a root, or 2^62 where it is more, and its output's part.
fn weight_with_output(plan: &Plan, weights: &[u64], root: PlanId) -> u128
    requires root { root < length plan.now }
    requires weights { AreWeights plan.now weights.now }
    ensures value { result ≡ capped (weight_of plan.now root) + output_part plan.now root }
    ensures below { result < 2 ^ 70 }
{
    let lines = plan.kinds(root).len() as u128 + 2;
    weights[root.number()] as u128 + 8 * (lines + 8)
}

// The weights of roots with their outputs' parts, or 2^62 where they are more.
fn weight_together(plan: &Plan, weights: &[u64], roots: &[PlanId]) -> u64
    requires roots { AllByRecursion (λ root. root < length plan.now) roots.now }
    requires weights { AreWeights plan.now weights.now }
    ensures { result ≡ capped (weight_together plan.now roots.now) }
{
    match roots.split_first() {
        None => 0,
        Some((root, others)) => {
            let own = weight_with_output(plan, weights, *root);
            cap(own + weight_together(plan, weights, others) as u128)
        }
    }
}

/// The limit on weight that the roots of a plan pass together, where they pass it.
pub(crate) fn weight_limit(plan: &Plan, roots: &[PlanId], weights: &[u64]) -> Option<Limit>
    requires roots { AllByRecursion (λ root. root < length plan.now) roots.now }
    requires weights { AreWeights plan.now weights.now }
    requires small { AreAllSmall plan.now }
    ensures passed { IfSome result (PassLimit (several_at plan.now roots.now)) }
    ensures within { IfNone result (AreWithinLimits (several_at plan.now roots.now)) }
{
    let weight = weight_together(plan, weights, roots);
    if weight > MOST_WEIGHT {
        return Some(Limit::Nodes { weight });
    }
    None
}
