//! Marks of the nodes that roots reach.

ghost use Rattle.std.specs.Prelude.{◌≡◌, ◌<◌, List, ℕ, suc, false, true, length, IfOk, replicate, slice_set};
ghost use Rattle.std.specs.List.{AllByRecursion};
ghost use Rattle.gl_algebra.specs.Views.{children_of};
ghost use Rattle.gl_figures.specs.Marks.{AreMarks, AreMarkedTo, with_marks};

use gl_algebra::{Plan, PlanId, PlanNode};
use gl_bits::Memory;
use std::alloc::Global;

// So many marks, on nothing.
fn no_marks(alloc: Global, many: usize) -> Result<Vec<bool>, Memory>
    ensures { IfOk result (λ marks. marks.items ≡ replicate many false) }
{
    match vec![in alloc; false; many] {
        Ok(marks) => Ok(marks),
        Err(_) => Err(Memory),
    }
}

// One more mark.
fn mark(marks: &mut [bool], id: PlanId)
    requires { id < length marks.old }
    ensures { marks.new ≡ slice_set marks.old id true }
{
    marks[id.number()] = true;
}

// Marks of a node's children.
fn mark_children(marks: &mut [bool], node: &PlanNode)
    requires { AllByRecursion (λ child. child < length marks.old) (children_of node.now) }
    ensures { marks.new ≡ with_marks marks.old (children_of node.now) }
{
    match node {
        PlanNode::Stream(_, _) | PlanNode::Body(_) => {}
        PlanNode::Compute { child, .. } => mark(marks, *child),
        PlanNode::Select { child, .. } => mark(marks, *child),
        PlanNode::Project { child, .. } => mark(marks, *child),
        PlanNode::Frames { child, .. } => mark(marks, *child),
        PlanNode::Aggregate { child, .. } => mark(marks, *child),
        PlanNode::Union { left, right }
        | PlanNode::Merge { left, right }
        | PlanNode::Beside { left, right } => {
            mark(marks, *left);
            mark(marks, *right);
        }
        PlanNode::Window { source, .. }
        | PlanNode::TimeWindow { source, .. }
        | PlanNode::Group { source, .. }
        | PlanNode::Partition { source, .. } => mark(marks, *source),
    }
}

// Marks of roots.
fn mark_roots(marks: &mut [bool], roots: &[PlanId])
    requires { AllByRecursion (λ root. root < length marks.old) roots.now }
    ensures { marks.new ≡ with_marks marks.old roots.now }
{
    if let Some((first, rest)) = roots.split_first() {
        mark(marks, *first);
        mark_roots(marks, rest);
    }
}

// The marks one node further down.
fn mark_below(plan: &Plan, marks: &mut [bool], number: usize)
    requires within { number < length plan.now }
    requires long { length marks.old ≡ length plan.now }
    ensures { (roots : List ℕ) → AllByRecursion (λ root. root < length plan.now) roots
        → AreMarkedTo plan.now roots (suc number) marks.old → AreMarkedTo plan.now roots number marks.new }
{
    let node = plan.node(plan.id(number));
    if marks[number] {
        mark_children(marks, node);
    }
}

// The marks of all that some of these roots reach.
fn mark_down(plan: &Plan, marks: &mut [bool], roots: &[PlanId])
    requires roots { AllByRecursion (λ root. root < length plan.now) roots.now }
    requires none { marks.old ≡ replicate (length plan.now) false }
    ensures { AreMarks plan.now roots.now marks.new }
{
    mark_roots(marks, roots);
    let mut number = plan.len();
    while number > 0 {
        number -= 1;
        mark_below(plan, marks, number);
    }
}

/// A mark for each node of a plan: whether some of these roots reaches it, bodies left out. Want of memory is the one other answer.
pub fn marks_of(alloc: Global, plan: &Plan, roots: &[PlanId]) -> Result<Vec<bool>, Memory>
    requires { AllByRecursion (λ root. root < length plan.now) roots.now }
    ensures { IfOk result (λ marks. AreMarks plan.now roots.now marks.items) }
{
    let mut marks = no_marks(alloc, plan.len())?;
    mark_down(plan, marks.as_mut_slice(), roots);
    Ok(marks)
}
