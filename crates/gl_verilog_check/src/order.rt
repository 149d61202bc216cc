//! An order of assignments in which each reads only what stands before it, or that there is none.

ghost use Rattle.std.specs.Prelude.{◌≡◌, length, slice_get, true, false, [], Some, IfOk, OnOk, IfSome};
ghost use Rattle.std.specs.List.{list_any};
ghost use Rattle.gl_verilog.specs.View.{assignment_of};
ghost use Rattle.gl_verilog_check.specs.Kept.{AreMarks, Marked, CannotMark};
ghost use Rattle.gl_verilog_check.specs.Orders.{meant, IsOrderOf, IsMissing};
ghost use Rattle.gl_verilog_check.specs.Passes.{AreOnce, CanMark, IsPlacing, is_ready, placed, passed, finds};

use crate::counting::proposed;
use crate::widths::reads;
use gl_bits::Memory;
use gl_verilog::Assignment;
use std::alloc::Global;

// Marks the net that an assignment drives, where it is one and not marked yet.
fn mark(marks: &mut Vec<bool>, assignment: &Assignment) -> bool
    ensures marked { result ≡ true → Marked marks.old.items marks.new.items assignment.now.target }
    ensures refused { result ≡ false → CannotMark marks.old.items assignment.now.target }
{
    let target = assignment.target;
    if target >= marks.len() || marks[target] {
        return false;
    }
    marks[target] = true;
    true
}

/// Marks the nets that assignments drive, where each drives another.
pub(crate) fn mark_targets(marks: &mut Vec<bool>, assignments: &[Assignment]) -> bool
    requires { AreMarks [] marks.old.items }
    ensures marks { result ≡ true → AreMarks (meant assignments.now) marks.new.items }
    ensures once { result ≡ true → AreOnce (meant assignments.now) }
    ensures complete { CanMark (length marks.old.items) (meant assignments.now) → result ≡ true }
    ensures size { result ≡ true → length marks.new.items ≡ length marks.old.items }
{
    for done in 0..assignments.len() {
        let at = assignments.len() - 1 - done;
        if !mark(marks, &assignments[at]) {
            return false;
        }
    }
    true
}

// Takes the mark from the net of an assignment if it waits and reads no net that waits; whether it
// was so.
fn clear(marks: &mut Vec<bool>, assignment: &Assignment) -> bool
    ensures marks { marks.new.items ≡ placed marks.old.items (assignment_of assignment.now) }
    ensures found { result ≡ is_ready marks.old.items (assignment_of assignment.now) }
{
    let target = assignment.target;
    if target >= marks.len() || !marks[target] {
        return false;
    }
    if reads(marks, &assignment.value) {
        return false;
    }
    marks[target] = false;
    true
}

// Places an assignment if it is ready; whether it was.
fn place(
    assignments: &[Assignment],
    k: usize,
    assignment: &Assignment,
    marks: &mut Vec<bool>,
    order: &mut Vec<usize>,
) -> Result<bool, Memory>
    requires once { AreOnce (meant assignments.now) }
    requires at { slice_get (meant assignments.now) k ≡ Some (assignment_of assignment.now) }
    requires placing { IsPlacing (meant assignments.now) marks.old.items order.old.items }
    ensures kept { OnOk result (IsPlacing (meant assignments.now) marks.new.items order.new.items) }
    ensures marks { marks.new.items ≡ placed marks.old.items (assignment_of assignment.now) }
    ensures found { IfOk result (λ b. b ≡ is_ready marks.old.items (assignment_of assignment.now)) }
{
    if !clear(marks, assignment) {
        return Ok(false);
    }
    if order.push(k).is_err() {
        return Err(Memory);
    }
    Ok(true)
}

// Places the assignment of this number, if there is one and it is ready.
fn place_number(
    assignments: &[Assignment],
    k: usize,
    marks: &mut Vec<bool>,
    order: &mut Vec<usize>,
) -> Result<(), Memory>
    requires once { AreOnce (meant assignments.now) }
    requires placing { IsPlacing (meant assignments.now) marks.old.items order.old.items }
    ensures kept { OnOk result (IsPlacing (meant assignments.now) marks.new.items order.new.items) }
    ensures size { length marks.new.items ≡ length marks.old.items }
{
    let Some(assignment) = assignments.get(k) else {
        return Ok(());
    };
    place(assignments, k, assignment, marks, order)?;
    Ok(())
}

// Places those of a proposal that are ready when their turn comes.
fn place_each(
    assignments: &[Assignment],
    proposal: &[usize],
    marks: &mut Vec<bool>,
    order: &mut Vec<usize>,
) -> Result<(), Memory>
    requires once { AreOnce (meant assignments.now) }
    requires placing { IsPlacing (meant assignments.now) marks.old.items order.old.items }
    ensures kept { OnOk result (IsPlacing (meant assignments.now) marks.new.items order.new.items) }
    ensures size { OnOk result (length marks.new.items ≡ length marks.old.items) }
{
    for k in proposal {
        place_number(assignments, *k, marks, order)?;
    }
    Ok(())
}

// Places those that are ready, one after another; whether there is one.
fn place_ready(
    assignments: &[Assignment],
    marks: &mut Vec<bool>,
    order: &mut Vec<usize>,
) -> Result<bool, Memory>
    requires once { AreOnce (meant assignments.now) }
    requires placing { IsPlacing (meant assignments.now) marks.old.items order.old.items }
    ensures kept { OnOk result (IsPlacing (meant assignments.now) marks.new.items order.new.items) }
    ensures marks { OnOk result (marks.new.items ≡ passed marks.old.items (meant assignments.now)) }
    ensures found { IfOk result (λ b. b ≡ finds marks.old.items (meant assignments.now)) }
{
    let mut found = false;
    for (k, assignment) in assignments.iter().enumerate() {
        let ready = place(assignments, k, assignment, marks, order)?;
        found = found || ready;
    }
    Ok(found)
}

// Whether some net waits.
fn any_waits(marks: &[bool]) -> bool
    ensures { result ≡ list_any (λ w. w) marks.now }
{
    marks.iter().any(|waits| *waits)
}

/// So many marks, on no net.
pub(crate) fn no_marks(alloc: Global, nets: usize) -> Result<Vec<bool>, Memory>
    ensures fresh { IfOk result (λ v. AreMarks [] v.items) }
    ensures size { IfOk result (λ v. length v.items ≡ nets) }
{
    Ok(vec![in alloc; false; nets]?)
}

/// The order of assignments that each drive another net. These nets are marked at first, and wait.
pub(crate) fn order_marked(
    alloc: Global,
    marks: &mut Vec<bool>,
    assignments: &[Assignment],
) -> Result<Option<Vec<usize>>, Memory>
    requires marks { AreMarks (meant assignments.now) marks.old.items }
    requires once { AreOnce (meant assignments.now) }
    ensures order { IfOk result (λ o. IfSome o (λ v. IsOrderOf (meant assignments.now) v.items)) }
    ensures none { IfOk result (λ o. IsMissing (length marks.old.items) (meant assignments.now) o) }
{
    let Ok(proposal) = proposed(alloc, marks, assignments) else {
        return Err(Memory);
    };
    let mut order = Vec::new(alloc);
    place_each(assignments, &proposal, marks, &mut order)?;
    'passes: while any_waits(marks) {
        let found = place_ready(assignments, marks, &mut order)?;
        if !found {
            return Ok(None);
        }
    }
    Ok(Some(order))
}

/// The numbers of assignments to `nets` nets in an order in which each reads only what stands
/// before it, or that there is none. An order is proposed by counting, in time that grows with the
/// text, and tried; where it were none, passes over the text would find one.
pub fn order_of(
    alloc: Global,
    nets: usize,
    assignments: &[Assignment],
) -> Result<Option<Vec<usize>>, Memory>
    ensures order { IfOk result (λ o. IfSome o (λ v. IsOrderOf (meant assignments.now) v.items)) }
    ensures none { IfOk result (λ o. IsMissing nets (meant assignments.now) o) }
{
    let mut marks = no_marks(alloc, nets)?;
    if !mark_targets(&mut marks, assignments) {
        return Ok(None);
    }
    order_marked(alloc, &mut marks, assignments)
}
