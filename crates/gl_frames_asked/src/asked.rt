//! The columns that the key and the items of a node of frames ask for.

ghost use Rattle.std.specs.Prelude.{◌≡◌, IfOk, nat_eq};
ghost use Rattle.std.specs.List.{list_any};
ghost use Rattle.gl_frames_asked.specs.Asked.{asked_columns, asks_for, columns_of_condition, columns_of_operand, columns_over, is_asked};

use gl_algebra::{Operand, PlanFrame, PlanFrameAgg};
use gl_bits::Memory;
use std::alloc::Global;

// Whether an operand takes a column.
fn is_operand(operand: &Operand, column: usize) -> bool
    ensures { result ≡ list_any (nat_eq column) (columns_of_operand operand.now) }
{
    match operand {
        Operand::Column(own) => column == usize::from(*own),
        Operand::Literal(_, _) | Operand::Parameter(_, _) => false,
    }
}

// Whether a function takes a column.
fn is_over(agg: &PlanFrameAgg, column: usize) -> bool
    ensures { result ≡ list_any (nat_eq column) (columns_over agg.now) }
{
    match agg {
        PlanFrameAgg::Count => false,
        PlanFrameAgg::Sum(operand) => is_operand(operand, column),
        PlanFrameAgg::Min(operand) => is_operand(operand, column),
        PlanFrameAgg::Max(operand) => is_operand(operand, column),
        PlanFrameAgg::Avg(operand) => is_operand(operand, column),
        PlanFrameAgg::LastValue(operand) => is_operand(operand, column),
    }
}

// Whether a condition is a column.
fn is_condition(filter: Option<u16>, column: usize) -> bool
    ensures { result ≡ list_any (nat_eq column) (columns_of_condition filter) }
{
    match filter {
        None => false,
        Some(own) => column == usize::from(own),
    }
}

// Whether an item takes a column.
fn asks_for(column: usize, item: &PlanFrame) -> bool
    ensures { result ≡ asks_for column item.now }
{
    match item {
        PlanFrame::Own(operand) => is_operand(operand, column),
        PlanFrame::Lag(operand, _) => is_operand(operand, column),
        PlanFrame::Over { agg, filter, .. } => {
            is_over(agg, column) || is_condition(*filter, column)
        }
    }
}

// Whether an item asks for a column.
fn is_asked_of_items(items: &[PlanFrame], column: usize) -> bool
    ensures { result ≡ list_any (asks_for column) items.now }
{
    items.iter().any(|item| asks_for(column, item))
}

// Whether the key or an item asks for a column.
fn is_asked(key: usize, items: &[PlanFrame], column: usize) -> bool
    ensures { result ≡ is_asked key items.now column }
{
    column == key || is_asked_of_items(items, column)
}

/// Those of so many columns that the key or an item asks for, in ascending order.
pub fn asked_columns(
    alloc: Global,
    count: usize,
    key: usize,
    items: &[PlanFrame],
) -> Result<Vec<usize>, Memory>
    ensures { IfOk result (λ asked. asked.items ≡ asked_columns count key items.now) }
{
    let mut asked = Vec::new(alloc);
    for column in 0..count {
        if is_asked(key, items, column) {
            asked.push(column)?;
        }
    }
    Ok(asked)
}
