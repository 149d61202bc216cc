//! What is printed of a joint plan.

ghost use Rattle.std.specs.Prelude.{◌≡◌, ◌<◌, ◌++◌, is_some, length, map, IfOk, OnOk};
ghost use Rattle.std.specs.List.{AllByRecursion, list_any};
ghost use Rattle.gl_algebra.specs.Small.{AreFigures};
ghost use Rattle.gl_root_gaps.specs.Roots.{tick_gaps_at};
ghost use Rattle.gl_root_gaps.specs.Together.{farthest_ticks, gap_together, ticks_together};
ghost use Rattle.gl_plan.specs.Together.{latency_alone};

use gl_algebra::{Figures, Plan, PlanId};
use gl_bits::Memory as NoMemory;
use gl_figures::{figures_at, gap_alone, root_ticks, ticks_alone};
use std::alloc::Global;

// Adds the latency of each root.
fn push_latencies(
    plan: &Plan,
    roots: &[PlanId],
    figures: &[Figures],
    into: &mut Vec<u64>,
) -> Result<(), NoMemory>
    requires figures { AreFigures plan.now figures.now }
    requires roots { AllByRecursion (λ root. root < length plan.now) roots.now }
    ensures { OnOk result
        (into.new.items ≡ into.old.items ++ map (latency_alone plan.now) roots.now) }
{
    let Some((root, others)) = roots.split_first() else {
        return Ok(());
    };
    into.push(figures_at(plan, figures, *root).le as u64 + 1)?;
    push_latencies(plan, others, figures, into)
}

/// The latency of each root.
pub(crate) fn latencies_of(
    alloc: Global,
    plan: &Plan,
    roots: &[PlanId],
    figures: &[Figures],
) -> Result<Vec<u64>, NoMemory>
    requires figures { AreFigures plan.now figures.now }
    requires roots { AllByRecursion (λ root. root < length plan.now) roots.now }
    ensures { IfOk result (λ v. v.items ≡ map (latency_alone plan.now) roots.now) }
{
    let mut latencies = Vec::new(alloc);
    push_latencies(plan, roots, figures, &mut latencies)?;
    Ok(latencies)
}

/// The greatest of the gaps of roots, or 0 where there is none.
pub(crate) fn gap_together(plan: &Plan, roots: &[PlanId], figures: &[Figures]) -> u32
    requires figures { AreFigures plan.now figures.now }
    requires roots { AllByRecursion (λ root. root < length plan.now) roots.now }
    ensures { result ≡ gap_together plan.now roots.now }
{
    match roots.split_first() {
        None => 0,
        Some((root, others)) => {
            let own = gap_alone(plan, *root, figures);
            own.max(gap_together(plan, others, figures))
        }
    }
}

// Whether ticks of some root are farther apart than tuples.
fn any_ticks(plan: &Plan, roots: &[PlanId], figures: &[Figures]) -> bool
    requires figures { AreFigures plan.now figures.now }
    requires roots { AllByRecursion (λ root. root < length plan.now) roots.now }
    ensures { result ≡ list_any (λ root. is_some (tick_gaps_at plan.now root)) roots.now }
{
    match roots.split_first() {
        None => false,
        Some((root, others)) => {
            let own = root_ticks(plan, *root, figures);
            own.is_some() || any_ticks(plan, others, figures)
        }
    }
}

// The greatest of the gaps of ticks of roots, or 0 where there is none.
fn farthest_ticks(plan: &Plan, roots: &[PlanId], figures: &[Figures]) -> u32
    requires figures { AreFigures plan.now figures.now }
    requires roots { AllByRecursion (λ root. root < length plan.now) roots.now }
    ensures { result ≡ farthest_ticks plan.now roots.now }
{
    match roots.split_first() {
        None => 0,
        Some((root, others)) => {
            let own = ticks_alone(plan, *root, figures);
            own.max(farthest_ticks(plan, others, figures))
        }
    }
}

/// That one, where ticks of some root are farther apart than tuples.
pub(crate) fn ticks_together(plan: &Plan, roots: &[PlanId], figures: &[Figures]) -> Option<u32>
    requires figures { AreFigures plan.now figures.now }
    requires roots { AllByRecursion (λ root. root < length plan.now) roots.now }
    ensures { result ≡ ticks_together plan.now roots.now }
{
    if any_ticks(plan, roots, figures) {
        Some(farthest_ticks(plan, roots, figures))
    } else {
        None
    }
}
