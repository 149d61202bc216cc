//! The nodes of as-of joins.

ghost use Rattle.std.specs.Prelude.{◌≡◌, ℕ, ◌+◌, ◌<◌, ◌≤◌, ◌++◌, length, map, remove, slice_set, IfOk, OnOk};
ghost use Rattle.std.specs.List.{range_with_len};
ghost use Rattle.gl_values.specs.Kinds.{IsKind};
ghost use Rattle.gl_query.specs.Laws.{AreKinds};
ghost use Rattle.gl_query.specs.Shapes.{slots_shape};
ghost use Rattle.gl_algebra.specs.declared.node.Operand.TheVariants as operand;
ghost use Rattle.gl_algebra.specs.declared.node.PlanFrame.TheVariants as frame;
ghost use Rattle.gl_algebra.specs.Added.{placed_at};
ghost use Rattle.gl_elaborate.specs.Fitting.{CanJoin, JoinFits};
ghost use Rattle.gl_elaborate.specs.Joins as joins;
ghost use Rattle.gl_elaborate.specs.Plans.{Keeps};

use crate::frames::key_at;
use crate::levels::put;
use crate::totals::word_of;
use gl_algebra::{Operand, Operands, Plan, PlanFrame, PlanFrameAgg, PlanFrames, PlanId, PlanNode};
use gl_bits::{Listed, Memory};
use gl_query::Slots;
use gl_query::kinds::column_number;
use gl_schema::Column;
use gl_values::Kind;
use std::alloc::Global;

/// The columns of both sides of an as-of join, and its key.
#[derive(Clone, Copy)]
pub struct Sides<'a> {
    /// The columns of the left side.
    pub lefts: &'a [Column],
    /// The columns of the right side.
    pub rights: &'a [Column],
    /// The key, and of how many keys rows are kept.
    pub slots: &'a Slots,
}

// 0 of a kind.
#[tactic(auto, using(std::proofs::lemmas::Nat::pow_pos))]
fn zero_of(kind: Kind) -> Operand
    requires { IsKind kind }
    ensures { result ≡ joins.zero_of kind }
{
    Operand::Literal(word_of(kind, 0), kind)
}

// A mark of one bit.
fn mark(bits: u128) -> Operand
    requires { bits ≤ 1 }
    ensures { result ≡ joins.mark bits }
{
    let kind = Kind::Unsigned(1);
    Operand::Literal(word_of(kind, bits), kind)
}

// Adds zeros for columns.
fn push_zeros(columns: &[Column], into: &mut Operands) -> Result<(), Memory>
    requires { AreKinds columns.now }
    ensures { OnOk result (into.new ≡ into.old ++ joins.zeros_for columns.now) }
{
    let _holds = Operand::Column(0);
    let Some((first, rest)) = columns.split_first() else {
        return Ok(());
    };
    into.push(zero_of(first.kind))?;
    push_zeros(rest, into)
}

// Adds zeros for columns, but at one place a column of this number.
#[tactic(auto, using(crate::proofs::JoinItems::with_key))]
fn push_with_key(
    columns: &[Column],
    place: usize,
    key: u16,
    into: &mut Operands,
) -> Result<(), Memory>
    requires within { place < length columns.now }
    requires kinds { AreKinds columns.now }
    ensures { let all = slice_set (joins.zeros_for columns.now) place (operand.Column key) in
        OnOk result (into.new ≡ into.old ++ all) }
{
    let Some((first, rest)) = columns.split_first() else {
        return Ok(());
    };
    if place == 0 {
        into.push(Operand::Column(key))?;
        return push_zeros(rest, into);
    }
    into.push(zero_of(first.kind))?;
    push_with_key(rest, place - 1, key, into)
}

// Adds so many columns from a number on.
fn push_columns(first: usize, count: usize, into: &mut Operands) -> Result<(), Memory>
    requires { first + count < 65536 }
    ensures { OnOk result (into.new ≡ into.old ++ joins.columns_from first count) }
{
    if count == 0 {
        return Ok(());
    }
    into.push(Operand::Column(first as u16))?;
    push_columns(first + 1, count - 1, into)
}

// Adds all columns but one.
#[tactic(auto, using(crate::proofs::JoinItems::all_but))]
fn push_but(count: usize, key: usize, into: &mut Operands) -> Result<(), Memory>
    requires below { key < count }
    requires most { count < 65536 }
    ensures { OnOk result (into.new ≡ into.old ++ remove (joins.columns_from 0 count) key) }
{
    push_columns(0, key, into)?;
    push_columns(key + 1, count - key - 1, into)
}

// Adds zeros for all columns but one.
fn push_zeros_but(columns: &[Column], key: usize, into: &mut Operands) -> Result<(), Memory>
    requires below { key < length columns.now }
    requires kinds { AreKinds columns.now }
    ensures { OnOk result (into.new ≡ into.old ++ joins.zeros_for (remove columns.now key)) }
{
    let _holds = Operand::Column(0);
    let Some((first, rest)) = columns.split_first() else {
        return Ok(());
    };
    if key == 0 {
        return push_zeros(rest, into);
    }
    into.push(zero_of(first.kind))?;
    push_zeros_but(rest, key - 1, into)
}

// What a row of the right side becomes.
fn right_items(alloc: Global, sides: Sides<'_>) -> Result<Operands, Memory>
    requires { CanJoin sides.lefts.now sides.rights.now (slots_shape sides.slots.now) }
    ensures { let of = sides.entry in let key = of.slots.now.key.text in
        IfOk result (λ items. items ≡ joins.right_items of.lefts.now of.rights.now key) }
{
    let _holds = Operand::Column(0);
    let name = sides.slots.key.text.as_slice();
    let place = column_number(sides.lefts, name);
    let key = column_number(sides.rights, name);
    let mut items = Listed::new(alloc);
    push_with_key(sides.lefts, place, key as u16, &mut items)?;
    push_but(sides.rights.len(), key, &mut items)?;
    items.push(mark(1))?;
    items.push(mark(0))?;
    Ok(items)
}

// What a row of the left side becomes.
fn left_items(alloc: Global, sides: Sides<'_>) -> Result<Operands, Memory>
    requires { CanJoin sides.lefts.now sides.rights.now (slots_shape sides.slots.now) }
    ensures { let of = sides.entry in let key = of.slots.now.key.text in
        IfOk result (λ items. items ≡ joins.left_items of.lefts.now of.rights.now key) }
{
    let _holds = Operand::Column(0);
    let key = column_number(sides.rights, sides.slots.key.text.as_slice());
    let mut items = Listed::new(alloc);
    push_columns(0, sides.lefts.len(), &mut items)?;
    push_zeros_but(sides.rights, key, &mut items)?;
    items.push(mark(0))?;
    items.push(mark(1))?;
    Ok(items)
}

// Adds so many columns of the row itself, from a number on.
fn push_own(first: usize, count: usize, into: &mut PlanFrames) -> Result<(), Memory>
    requires { first + count < 65536 }
    ensures { let own = λ (c : ℕ). frame.Own (operand.Column c) in
        OnOk result (into.new ≡ into.old ++ map own (range_with_len first count)) }
{
    let _holds = PlanFrameAgg::Count;
    if count == 0 {
        return Ok(());
    }
    into.push(PlanFrame::Own(Operand::Column(first as u16)))?;
    push_own(first + 1, count - 1, into)
}

// Adds the last values of so many columns, from a number on, in rows with a mark.
fn push_last(mark: u16, first: usize, count: usize, into: &mut PlanFrames) -> Result<(), Memory>
    requires { first + count < 65536 }
    ensures { let last = joins.last_marked mark in
        OnOk result (into.new ≡ into.old ++ map last (range_with_len first count)) }
{
    if count == 0 {
        return Ok(());
    }
    into.push(PlanFrame::Over {
        agg: PlanFrameAgg::LastValue(Operand::Column(first as u16)),
        filter: Some(mark),
        back: None,
    })?;
    push_last(mark, first + 1, count - 1, into)
}

// How many columns an as-of join gives.
#[tactic(auto, using(crate::proofs::JoinItems::fewer))]
fn joined_columns(sides: Sides<'_>) -> usize
    requires { CanJoin sides.lefts.now sides.rights.now (slots_shape sides.slots.now) }
    ensures all { let of = sides.entry in let key = of.slots.now.key.text in
        result ≡ joins.joined_columns of.lefts.now of.rights.now key }
    ensures most { result < 64 }
{
    let _ = column_number(sides.rights, sides.slots.key.text.as_slice());
    sides.lefts.len() + sides.rights.len() - 1
}

// The frames over both sides.
fn join_frames(alloc: Global, sides: Sides<'_>) -> Result<PlanFrames, Memory>
    requires { CanJoin sides.lefts.now sides.rights.now (slots_shape sides.slots.now) }
    ensures { let of = sides.entry in let key = of.slots.now.key.text in
        IfOk result (λ items. items ≡ joins.join_frames of.lefts.now of.rights.now key) }
{
    let _holds = PlanFrameAgg::Count;
    let all = joined_columns(sides);
    let first = sides.lefts.len();
    let mut items = Listed::new(alloc);
    push_own(0, first, &mut items)?;
    push_last(all as u16, first, all - first, &mut items)?;
    items.push(PlanFrame::Own(Operand::Column((all + 1) as u16)))?;
    Ok(items)
}

// Both sides with columns for all, in the order of arrival.
fn both_placed(
    alloc: Global,
    plan: &mut Plan,
    sides: Sides<'_>,
    left: PlanId,
    right: PlanId,
) -> Result<PlanId, Memory>
    requires can { CanJoin sides.lefts.now sides.rights.now (slots_shape sides.slots.now) }
    requires fit { JoinFits sides.lefts.now sides.rights.now (slots_shape sides.slots.now)
        left (placed_at plan.old right) }
    ensures added { let of = sides.entry in let key = of.slots.now.key.text in
        IfOk result (λ id. placed_at plan.new id
        ≡ joins.both_placed of.lefts.now of.rights.now key left (placed_at plan.old right)) }
    ensures keeps { Keeps plan.old plan.new }
{
    let items = right_items(alloc, sides)?;
    let first = put(
        plan,
        PlanNode::Project {
            child: right,
            items,
        },
    )?;
    let items = left_items(alloc, sides)?;
    let second = put(plan, PlanNode::Project { child: left, items })?;
    put(
        plan,
        PlanNode::Merge {
            left: first,
            right: second,
        },
    )
}

/// Adds an as-of join of two nodes, of which the right one was placed last.
pub fn as_of_over(
    alloc: Global,
    plan: &mut Plan,
    sides: Sides<'_>,
    left: PlanId,
    right: PlanId,
) -> Result<PlanId, Memory>
    requires can { CanJoin sides.lefts.now sides.rights.now (slots_shape sides.slots.now) }
    requires fit { JoinFits sides.lefts.now sides.rights.now (slots_shape sides.slots.now)
        left (placed_at plan.old right) }
    ensures added { let of = sides.entry in let slots = slots_shape of.slots.now in
        IfOk result (λ id. placed_at plan.new id
        ≡ joins.as_of_over of.lefts.now of.rights.now slots left (placed_at plan.old right)) }
    ensures keeps { Keeps plan.old plan.new }
{
    let both = both_placed(alloc, plan, sides, left, right)?;
    let column = column_number(sides.lefts, sides.slots.key.text.as_slice());
    let by = Some(key_at(column, sides.slots.groups.value));
    let items = join_frames(alloc, sides)?;
    let framed = put(
        plan,
        PlanNode::Frames {
            child: both,
            by,
            items,
        },
    )?;
    let all = joined_columns(sides);
    let kept = put(
        plan,
        PlanNode::Select {
            child: framed,
            column: all as u16,
        },
    )?;
    let mut items = Listed::new(alloc);
    push_columns(0, all, &mut items)?;
    put(plan, PlanNode::Project { child: kept, items })
}
