//! Plans that are made by hand: one with a node of every kind, and one that is given a node twice.

ghost use Rattle.std.specs.Prelude.{◌≡◌, ◌∷◌, [], length, IfOk, OnOk};
ghost use Rattle.gl_values.specs.declared.kind.Kind.TheVariants.{Unsigned};
ghost use Rattle.gl_algebra.specs.EveryNode as every;
ghost use Rattle.gl_algebra.specs.Fits.{Fits};
ghost use Rattle.gl_algebra.specs.Shapes.{shape_from, shape_of, HasShape, KeepsShapes};
ghost use Rattle.gl_algebra.specs.Worked.{WorkedBits, WorkedFigures, WorkedWeights};

use gl_algebra::*;
use gl_bits::{Listed, Memory};
use gl_values::{Kind, Op};
use std::alloc::{AllocError, Global};

// The figures, weights and bits of plans that were worked out by hand.
fn worked_plans()
    ensures figures { WorkedFigures }
    ensures weights { WorkedWeights }
    ensures bits { WorkedBits }
{}

// The kinds of one number.
fn kinds(alloc: Global) -> Result<Kinds, Memory>
    ensures { IfOk result (λ kinds. kinds ≡ Unsigned 8 ∷ []) }
{
    Ok(Listed::from_vec(vec![in alloc; Kind::Unsigned(8)]?))
}

// Adds a node that fits.
fn put(plan: &mut Plan, node: PlanNode) -> Result<PlanId, Memory>
    requires { Fits plan.old (length plan.old) node }
    ensures made { IfOk result (λ id. HasShape plan.new id (shape_from (shape_of plan.old) node)) }
    ensures kept { OnOk result (KeepsShapes plan.old plan.new) }
{
    // What `len` ensures of it is what the goals below ask for.
    let _ = plan.len();
    Ok(plan.add(node)?)
}

// The operations, the items and the aggregates of the plan below.
fn tests(alloc: Global) -> Result<Ops, Memory>
    ensures { IfOk result (λ ops. ops ≡ every.tests) }
{
    let same = ColOp::Binary(Op::Eq, Operand::Column(0), Operand::Column(0));
    Ok(Listed::from_vec(vec![in alloc; same]?))
}

fn items(alloc: Global) -> Result<Operands, Memory>
    ensures { IfOk result (λ xs. xs ≡ every.items) }
{
    Ok(Listed::from_vec(vec![in alloc; Operand::Column(0)]?))
}

fn sums(alloc: Global) -> Result<PlanAggs, Memory>
    ensures { IfOk result (λ aggs. aggs ≡ every.sums) }
{
    let mut aggs = Listed::new(alloc);
    aggs.push(PlanAgg::Sum(Operand::Column(0)))?;
    Ok(aggs)
}

// Adds the rows of a body that pass a test.
fn put_choice(alloc: Global, plan: &mut Plan) -> Result<PlanId, Memory>
    ensures { IfOk result (λ id. HasShape plan.new id every.of_choice) }
{
    let input = put(plan, PlanNode::Body(kinds(alloc)?))?;
    let ops = tests(alloc)?;
    let tested = put(plan, PlanNode::Compute { child: input, ops })?;
    put(
        plan,
        PlanNode::Select {
            child: tested,
            column: 1,
        },
    )
}

// Adds the sum of the numbers of such rows.
fn put_sums(alloc: Global, plan: &mut Plan, child: PlanId) -> Result<PlanId, Memory>
    requires { HasShape plan.old child every.of_choice }
    ensures { IfOk result (λ id. HasShape plan.new id every.of_sums) }
{
    let values = items(alloc)?;
    let values = put(
        plan,
        PlanNode::Project {
            child,
            items: values,
        },
    )?;
    let aggs = sums(alloc)?;
    put(
        plan,
        PlanNode::Aggregate {
            child: values,
            aggs,
        },
    )
}

// Adds a stream.
fn put_stream(alloc: Global, plan: &mut Plan) -> Result<PlanId, Memory>
    ensures made { IfOk result (λ id. HasShape plan.new id every.of_stream) }
    ensures kept { OnOk result (KeepsShapes plan.old plan.new) }
{
    put(plan, PlanNode::Stream(0, kinds(alloc)?))
}

// Adds sums of windows.
fn put_windows(plan: &mut Plan, source: PlanId, body: PlanId) -> Result<(), Memory>
    requires source { HasShape plan.old source every.of_stream }
    requires body { HasShape plan.old body every.of_sums }
    ensures { OnOk result (KeepsShapes plan.old plan.new) }
{
    let windows = PlanNode::Window {
        source,
        body,
        size: 4,
        advance: 2,
    };
    put(plan, windows)?;
    Ok(())
}

// Adds sums of groups, twice in any order.
fn put_groups(plan: &mut Plan, source: PlanId, body: PlanId) -> Result<(), Memory>
    requires source { HasShape plan.old source every.of_stream }
    requires body { HasShape plan.old body every.of_sums }
{
    let groups = PlanNode::Group {
        source,
        body,
        key: 0,
        groups: 4,
    };
    let side = put(plan, groups)?;
    put(
        plan,
        PlanNode::Union {
            left: side,
            right: side,
        },
    )?;
    Ok(())
}

// Adds a stream beside itself.
fn put_beside(plan: &mut Plan, source: PlanId) -> Result<(), Memory>
    requires { HasShape plan.old source every.of_stream }
    ensures { OnOk result (KeepsShapes plan.old plan.new) }
{
    let pairs = PlanNode::Beside {
        left: source,
        right: source,
    };
    put(plan, pairs)?;
    Ok(())
}

// The items of a node of frames.
fn lags(alloc: Global) -> Result<PlanFrames, Memory>
    ensures { IfOk result (λ items. items ≡ every.frames) }
{
    let before = PlanFrame::Lag(Operand::Column(0), 1);
    Ok(Listed::from_vec(vec![in alloc; before]?))
}

// Adds the number before each of a stream.
fn put_frames(alloc: Global, plan: &mut Plan, child: PlanId) -> Result<(), Memory>
    requires { HasShape plan.old child every.of_stream }
    ensures { OnOk result (KeepsShapes plan.old plan.new) }
{
    let items = lags(alloc)?;
    put(
        plan,
        PlanNode::Frames {
            child,
            by: None,
            items,
        },
    )?;
    Ok(())
}

// Adds a node of every other kind.
fn put_others(alloc: Global, plan: &mut Plan, body: PlanId) -> Result<(), Memory>
    requires { HasShape plan.old body every.of_sums }
{
    let source = put_stream(alloc, plan)?;
    put_beside(plan, source)?;
    put_frames(alloc, plan, source)?;
    put_windows(plan, source, body)?;
    put_groups(plan, source, body)
}

// Adds a node of every kind; how many nodes there are when half of them are added.
fn put_every(alloc: Global, plan: &mut Plan) -> Result<usize, Memory> {
    let choice = put_choice(alloc, plan)?;
    let sums = put_sums(alloc, plan, choice)?;
    let half = plan.len();
    put_others(alloc, plan, sums)?;
    Ok(half)
}

// How many nodes a plan has, and the first of them.
fn nodes_told(alloc: Global, plan: &Plan, half: usize) -> Result<String, AllocError> {
    let size = plan.len();
    if size == 0 {
        return String::from_str(alloc, "no node");
    }
    let first = plan.node(plan.id(0));
    format!(in alloc; "{half} nodes, then {size}; the first is {first:?}")
}

/// How many nodes a plan of every kind has when half of them are added, and at its end; and its first node.
pub(crate) fn every(alloc: Global) -> Result<String, Memory> {
    let mut plan = Plan::new(alloc);
    let half = put_every(alloc, &mut plan)?;
    Ok(nodes_told(alloc, &plan, half)?)
}

// Adds a stream two times.
fn put_twice(alloc: Global, plan: &mut Plan) -> Result<(PlanId, PlanId), Memory> {
    let first = put_stream(alloc, plan)?;
    let second = put_stream(alloc, plan)?;
    Ok((first, second))
}

/// The numbers of a node that is added twice, and how many nodes there are.
pub(crate) fn twice(alloc: Global) -> Result<String, Memory> {
    worked_plans();
    let mut plan = Plan::new(alloc);
    let (first, second) = put_twice(alloc, &mut plan)?;
    let (first, second) = (first.number(), second.number());
    Ok(format!(in alloc; "p{first} and p{second} of {} node", plan.len())?)
}
