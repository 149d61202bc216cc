//! The weight of each node of a plan, and what is printed of it.

ghost use Rattle.std.specs.Prelude.{◌≡◌, ◌<◌, length, IfErr, IfOk};
ghost use Rattle.gl_algebra.specs.Small.{AreFigures};
ghost use Rattle.gl_algebra.specs.Weights.{weight_of};
ghost use Rattle.gl_figures.specs.Answered.{capped, AreWeights, IsHeavy, IsPrinted};
ghost use Rattle.gl_figures.specs.Known.{weight_alone, HasValues};

use crate::copied::{cap, count_copies};
use crate::roots::{copies_inside, printed_alone, printed_with, root_spare};
use crate::weights::{lines_of, weight_over};
use crate::{Limit, Printed};
use gl_algebra::laws::nodes_follow_tables;
use gl_algebra::{Figures, Plan, PlanId};
use gl_bits::Memory;
use gl_bits::limits::MOST_WEIGHT;
use std::alloc::Global;

/// A place for the weight of each of `many` nodes.
pub fn zeros(alloc: Global, many: usize) -> Result<Vec<u64>, Memory>
    ensures { IfOk result (λ v. length v.items ≡ many) }
{
    Ok(vec![in alloc; 0u64; many]?)
}

/// What is printed of a plan with this root, unless its weight with the output's part passes 262,144. The figures are those of
/// each node. Each node's place then has the node's weight, or 2^62 where it is more.
pub fn weigh(
    plan: &Plan,
    root: PlanId,
    figures: &[Figures],
    into: &mut [u64],
) -> Result<Printed, Limit>
    requires figures { AreFigures plan.now figures.now }
    requires root { root < length plan.now }
    requires into { length into.old ≡ length plan.now }
    ensures ok { IfOk result (λ printed. IsPrinted plan.now root printed) }
    ensures err { IfErr result (λ limit. IsHeavy plan.now root limit) }
    ensures weights { AreWeights plan.now into.new }
{
    // What `len` ensures of it is what the goals below ask for.
    let _ = plan.len();
    count_copies(plan, into);
    let copies = into[root.number()];
    let inside = copies_inside(plan, root, into);
    weigh_nodes(plan, figures, into);
    // A plan that is too heavy alone has no spare copies.
    let weight = weight_alone(plan, root, into[root.number()]);
    if weight > MOST_WEIGHT {
        return Err(Limit::Nodes { weight });
    }
    Ok(match root_spare(plan, root, figures, into) {
        None => printed_alone(plan, root, figures, copies),
        Some(it) => printed_with(plan, root, figures, copies, inside, it),
    })
}

// Writes the weight of each node into the node's place.
fn weigh_nodes(plan: &Plan, figures: &[Figures], into: &mut [u64])
    requires figures { AreFigures plan.now figures.now }
    requires into { length into.old ≡ length plan.now }
    ensures { HasValues (weight_of plan.now) into.new (length plan.now) }
{
    nodes_follow_tables();
    for number in 0..plan.len() {
        let id = plan.id(number);
        let lines = lines_of(plan, id);
        into[number] = weight_over(plan, figures, into, number, lines, plan.node(id));
    }
}

// The weight of a plan with its output and without spare copies, from that of its root.
fn weight_alone(plan: &Plan, root: PlanId, weight: u64) -> u64
    requires root { root < length plan.now }
    requires weight { weight ≡ capped (weight_of plan.now root) }
    ensures { result ≡ capped (weight_alone plan.now root) }
{
    cap(weight as u128 + 8 * (lines_of(plan, root) + 8))
}
