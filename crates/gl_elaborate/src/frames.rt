//! The nodes of selects of frames.

ghost use Rattle.std.specs.Prelude.{◌≡◌, ◌<◌, ◌≤◌, ◌++◌, length, map, option_map, option_to_list, IfOk, OnOk};
ghost use Rattle.std.specs.List.{AllByRecursion};
ghost use Rattle.gl_schema.specs.Schemas.{kinds_of};
ghost use Rattle.gl_query.specs.declared.tree.Num.{Num};
ghost use Rattle.gl_query.specs.Shapes.{expr_shape, frame_agg_shape, frame_item_shape, frame_shape, slots_shape, FrameItemShape};
ghost use Rattle.gl_query.specs.Accepted.{IsBack, IsFilter, IsFrame, IsFrameAgg};
ghost use Rattle.gl_algebra.specs.Added.{placed_at};
ghost use Rattle.gl_elaborate.specs.Terms.{IsTerm};
ghost use Rattle.gl_elaborate.specs.Trees.{term};
ghost use Rattle.gl_elaborate.specs.Plans.{behind_argument, behind_condition, behind_frame, condition_over, filter_of, frame_agg_over, frame_arguments, frame_over, frame_terms, frames_of, frames_over, frames_terms, key_over, Keeps};
ghost use Rattle.gl_elaborate.specs.Fitting.{CanPlaceFrames, CanPlaceSlots, FilterTerm, FrameTerms, FramesFit, HasReach};

use crate::Tree;
use crate::levels::{levelled, put};
use crate::rows::{column_in, filter_tree, select};
use crate::totals::{first_of, push_tree, rest_of};
use gl_algebra::{Operand, Plan, PlanFrame, PlanFrameAgg, PlanFrames, PlanId, PlanKey, PlanNode};
use gl_bits::{Listed, Memory};
use gl_query::kinds::column_number;
use gl_query::{Expr, Frame, FrameAgg, FrameItem, Num, Slots};
use gl_schema::Column;
use std::alloc::Global;

/// A node that frames are put over, and the key by which its rows are parted, if there is one.
#[derive(Clone, Copy)]
pub struct Parted<'a> {
    /// The number of the node.
    pub at: PlanId,
    /// Its columns.
    pub columns: &'a [Column],
    /// The key.
    pub by: Option<PlanKey>,
}

/// The column of this number as a key of so many groups.
pub fn key_at(column: usize, groups: u128) -> PlanKey
    requires column { column ≤ 255 }
    requires groups { groups ≤ 4096 }
    ensures { result ≡ record { key = column; groups = groups } }
{
    PlanKey {
        key: column as u8,
        groups: groups as u16,
    }
}

/// The key of a node of frames.
pub fn key_over(columns: &[Column], slots: &Option<Slots>) -> Option<PlanKey>
    requires { CanPlaceSlots columns.now (option_map slots_shape slots.now) }
    ensures { result ≡ key_over columns.now (option_map slots_shape slots.now) }
{
    match slots {
        Some(slots) => {
            let column = column_number(columns, slots.key.text.as_slice());
            Some(key_at(column, slots.groups.value))
        }
        None => None,
    }
}

// Adds the tree of the argument of a function over the rows of a frame, where it has one.
fn push_argument(
    alloc: Global,
    columns: &[Column],
    reach: &[Column],
    agg: &FrameAgg,
    trees: &mut Vec<Tree>,
) -> Result<(), Memory>
    requires typed { IsFrameAgg reach.now (frame_agg_shape agg.now) }
    requires fits { AllByRecursion (IsTerm (kinds_of columns.now))
        (frame_arguments columns.now reach.now (frame_agg_shape agg.now)) }
    requires most { length columns.now < 65536 }
    requires near { HasReach columns.now reach.now }
    ensures { OnOk result
        (map term trees.new.items ≡ map term trees.old.items
        ++ frame_arguments columns.now reach.now (frame_agg_shape agg.now)) }
{
    match agg {
        FrameAgg::Count => Ok(()),
        FrameAgg::Sum(expr) => push_tree(alloc, columns, reach, expr, trees),
        FrameAgg::Min(expr) => push_tree(alloc, columns, reach, expr, trees),
        FrameAgg::Max(expr) => push_tree(alloc, columns, reach, expr, trees),
        FrameAgg::Avg(expr) => push_tree(alloc, columns, reach, expr, trees),
        FrameAgg::LastValue(expr) => push_tree(alloc, columns, reach, expr, trees),
    }
}

// Adds the tree of a condition, where there is one.
fn push_condition(
    alloc: Global,
    columns: &[Column],
    reach: &[Column],
    filter: &Option<Expr>,
    trees: &mut Vec<Tree>,
) -> Result<(), Memory>
    requires typed { IsFilter reach.now (option_map expr_shape filter.now) }
    requires fits { FilterTerm columns.now reach.now (option_map expr_shape filter.now) }
    requires most { length columns.now < 65536 }
    requires near { HasReach columns.now reach.now }
    ensures { OnOk result
        (map term trees.new.items ≡ map term trees.old.items
        ++ option_to_list (filter_of columns.now reach.now (option_map expr_shape filter.now))) }
{
    match filter_tree(alloc, columns, reach, filter)? {
        Some(tree) => {
            trees.push(tree)?;
            Ok(())
        }
        None => Ok(()),
    }
}

// Adds the trees of a frame: of its argument, then of its condition.
#[tactic(auto, using(crate::proofs::ArgumentLemmas::argument_steps))]
fn push_frame(
    alloc: Global,
    columns: &[Column],
    reach: &[Column],
    frame: &Frame,
    trees: &mut Vec<Tree>,
) -> Result<(), Memory>
    requires typed { IsFrame reach.now (frame_shape frame.now) }
    requires fits { FrameTerms columns.now reach.now (frame_shape frame.now) }
    requires most { length columns.now < 65536 }
    requires near { HasReach columns.now reach.now }
    ensures { OnOk result
        (map term trees.new.items ≡ map term trees.old.items
        ++ frame_terms columns.now reach.now (frame_shape frame.now)) }
{
    match frame {
        Frame::Own(expr) => push_tree(alloc, columns, reach, expr, trees),
        Frame::Lag { arg, .. } => push_tree(alloc, columns, reach, arg, trees),
        Frame::Over { agg, filter, .. } => {
            push_argument(alloc, columns, reach, agg, trees)?;
            push_condition(alloc, columns, reach, filter, trees)
        }
    }
}

// Adds the trees of frames.
#[tactic(auto, using(crate::proofs::ArgumentLemmas::argument_steps))]
fn push_frames(
    alloc: Global,
    columns: &[Column],
    reach: &[Column],
    items: &[FrameItem],
    trees: &mut Vec<Tree>,
) -> Result<(), Memory>
    requires typed { AllByRecursion (λ (i : FrameItemShape). IsFrame reach.now i.frame)
        (map frame_item_shape items.now) }
    requires fits { AllByRecursion
        (λ (i : FrameItemShape). FrameTerms columns.now reach.now i.frame)
        (map frame_item_shape items.now) }
    requires most { length columns.now < 65536 }
    requires near { HasReach columns.now reach.now }
    ensures { OnOk result
        (map term trees.new.items ≡ map term trees.old.items
        ++ frames_terms columns.now reach.now (map frame_item_shape items.now)) }
{
    let Some((first, rest)) = items.split_first() else {
        return Ok(());
    };
    push_frame(alloc, columns, reach, &first.frame, trees)?;
    push_frames(alloc, columns, reach, rest, trees)
}

// A function over the first of the trees that are left.
fn frame_agg_over(agg: &FrameAgg, trees: &[Tree]) -> PlanFrameAgg
    ensures { result ≡ frame_agg_over (frame_agg_shape agg.now) (map term trees.now) }
{
    match agg {
        FrameAgg::Count => PlanFrameAgg::Count,
        FrameAgg::Sum(_) => PlanFrameAgg::Sum(first_of(trees)),
        FrameAgg::Min(_) => PlanFrameAgg::Min(first_of(trees)),
        FrameAgg::Max(_) => PlanFrameAgg::Max(first_of(trees)),
        FrameAgg::Avg(_) => PlanFrameAgg::Avg(first_of(trees)),
        FrameAgg::LastValue(_) => PlanFrameAgg::LastValue(first_of(trees)),
    }
}

// The trees behind its argument.
fn behind_argument<'a>(agg: &FrameAgg, trees: &'a [Tree]) -> &'a [Tree]
    ensures { map term result.now ≡ behind_argument (frame_agg_shape agg.now) (map term trees.now) }
{
    match agg {
        FrameAgg::Count => trees,
        FrameAgg::Sum(_) => rest_of(trees),
        FrameAgg::Min(_) => rest_of(trees),
        FrameAgg::Max(_) => rest_of(trees),
        FrameAgg::Avg(_) => rest_of(trees),
        FrameAgg::LastValue(_) => rest_of(trees),
    }
}

// The column of a condition, which the first of the trees that are left became.
fn condition_over(filter: &Option<Expr>, trees: &[Tree]) -> Option<u16>
    ensures { result ≡ condition_over (option_map expr_shape filter.now) (map term trees.now) }
{
    match filter {
        Some(_) => Some(column_in(&first_of(trees))),
        None => None,
    }
}

// The trees behind a condition.
fn behind_condition<'a>(filter: &Option<Expr>, trees: &'a [Tree]) -> &'a [Tree]
    ensures { map term result.now
        ≡ behind_condition (option_map expr_shape filter.now) (map term trees.now) }
{
    match filter {
        Some(_) => rest_of(trees),
        None => trees,
    }
}

// How many rows before a row are in its frame.
fn rows_back(back: &Option<Num>) -> Option<u32>
    requires { IsBack (option_map (λ (n : Num). n.value) back.now) }
    ensures { result ≡ option_map (λ (n : Num). n.value) back.now }
{
    match back {
        Some(number) => Some(number.value as u32),
        None => None,
    }
}

// An item of a node of frames over the first of the trees that are left.
fn frame_over(reach: &[Column], frame: &Frame, trees: &[Tree]) -> PlanFrame
    requires { IsFrame reach.now (frame_shape frame.now) }
    ensures { result ≡ frame_over (frame_shape frame.now) (map term trees.now) }
{
    // Clauses alone speak of it.
    let _ = reach;
    match frame {
        Frame::Own(_) => PlanFrame::Own(first_of(trees)),
        Frame::Lag { back, .. } => PlanFrame::Lag(first_of(trees), back.value as u32),
        Frame::Over {
            agg,
            filter,
            back,
            ..
        } => {
            PlanFrame::Over {
                agg: frame_agg_over(agg, trees),
                filter: condition_over(filter, behind_argument(agg, trees)),
                back: rows_back(back),
            }
        }
    }
}

// The trees behind those of a frame.
fn behind_frame<'a>(frame: &Frame, trees: &'a [Tree]) -> &'a [Tree]
    ensures { map term result.now ≡ behind_frame (frame_shape frame.now) (map term trees.now) }
{
    match frame {
        Frame::Own(_) => rest_of(trees),
        Frame::Lag { .. } => rest_of(trees),
        Frame::Over { agg, filter, .. } => behind_condition(filter, behind_argument(agg, trees)),
    }
}

// Adds items over the trees of their terms.
fn push_items(
    reach: &[Column],
    items: &[FrameItem],
    trees: &[Tree],
    frames: &mut PlanFrames,
) -> Result<(), Memory>
    requires { AllByRecursion (λ (i : FrameItemShape). IsFrame reach.now i.frame)
        (map frame_item_shape items.now) }
    ensures { OnOk result
        (frames.new ≡ frames.old
        ++ frames_of (map frame_item_shape items.now) (map term trees.now)) }
{
    let _holds = PlanFrameAgg::Sum(Operand::Column(0));
    let Some((first, rest)) = items.split_first() else {
        return Ok(());
    };
    frames.push(frame_over(reach, &first.frame, trees))?;
    push_items(reach, rest, behind_frame(&first.frame, trees), frames)
}

/// Adds the nodes of a select of frames over a node.
pub fn frames_over(
    alloc: Global,
    plan: &mut Plan,
    source: Parted<'_>,
    reach: &[Column],
    items: &[FrameItem],
    filter: &Option<Expr>,
) -> Result<PlanId, Memory>
    requires can { CanPlaceFrames source.columns.now reach.now
        (map frame_item_shape items.now) (option_map expr_shape filter.now) }
    requires fit { FramesFit source.columns.now reach.now
        (map frame_item_shape items.now) (option_map expr_shape filter.now)
        source.by (placed_at plan.old source.at) }
    ensures root { let s = source.entry in IfOk result (λ id.
        placed_at plan.new id ≡ frames_over s.columns.now reach.now
        (map frame_item_shape items.now) (option_map expr_shape filter.now)
        s.by (placed_at plan.old s.at)) }
    ensures keeps { Keeps plan.old plan.new }
{
    let columns = source.columns;
    let mut trees = Vec::new(alloc);
    push_frames(alloc, columns, reach, items, &mut trees)?;
    let mut condition = filter_tree(alloc, columns, reach, filter)?;
    let base = columns.len() as u16;
    let over = levelled(alloc, plan, source.at, base, &mut trees, &mut condition)?;
    let kept = select(plan, over, &condition)?;
    let mut frames = Listed::new(alloc);
    push_items(reach, items, &trees, &mut frames)?;
    put(
        plan,
        PlanNode::Frames {
            child: kept,
            by: source.by,
            items: frames,
        },
    )
}
