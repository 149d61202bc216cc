//! The kinds of columns: of operands, of operations, of aggregates, and of lists of these.

ghost use Rattle.std.specs.Prelude.{◌≡◌, ◌++◌, ◌∷◌, IfOk, map};
ghost use Rattle.gl_algebra.specs.Columns.{kind_of_agg, kind_of_column, kind_of_frame, kind_of_frame_agg, kind_of_op, kind_of_operand};
ghost use Rattle.gl_values.specs.Operators.{result_kind};

use crate::node::{ColOp, Kinds, Operand, PlanAgg, PlanFrame, PlanFrameAgg};
use gl_bits::{Listed, Memory};
use gl_values::{Kind, Sort};
use std::alloc::Global;

/// The kind of a column; one bit where there is none.
pub fn kind_of_column(kinds: &[Kind], column: usize) -> Kind
    ensures { result ≡ kind_of_column kinds.now column }
{
    kinds.get(column).copied().unwrap_or(Kind::Unsigned(1))
}

/// The kind of an operand.
pub fn kind_of_operand(kinds: &[Kind], operand: &Operand) -> Kind
    ensures { result ≡ kind_of_operand kinds.now operand.now }
{
    match operand {
        Operand::Column(column) => kind_of_column(kinds, *column as usize),
        Operand::Literal(_, kind) | Operand::Parameter(_, kind) => *kind,
    }
}

// The kind of what an operator of a sort makes of operands of a kind.
fn kind_under(sort: Sort, kind: Kind) -> Kind
    ensures { result ≡ result_kind sort kind }
{
    match sort {
        Sort::Arithmetic => kind,
        Sort::Comparison | Sort::Logic => Kind::Unsigned(1),
    }
}

/// The kind of the column that an operation makes.
pub fn kind_of_op(kinds: &[Kind], op: &ColOp) -> Kind
    ensures { result ≡ kind_of_op kinds.now op.now }
{
    match op {
        ColOp::Not(_) => Kind::Unsigned(1),
        ColOp::Flip(operand) => kind_of_operand(kinds, operand),
        ColOp::Cast(_, kind) => *kind,
        ColOp::Binary(operator, left, _) => kind_under(
            operator.sort(),
            kind_of_operand(kinds, left),
        ),
    }
}

/// The kind of the column that an aggregate makes.
pub fn kind_of_agg(kinds: &[Kind], agg: &PlanAgg) -> Kind
    ensures { result ≡ kind_of_agg kinds.now agg.now }
{
    match agg {
        PlanAgg::Count => Kind::Unsigned(32),
        PlanAgg::Sum(operand) => kind_of_operand(kinds, operand),
        PlanAgg::Min(operand) => kind_of_operand(kinds, operand),
        PlanAgg::Max(operand) => kind_of_operand(kinds, operand),
        PlanAgg::Avg(operand) => kind_of_operand(kinds, operand),
        PlanAgg::Wsum(operand, _) => kind_of_operand(kinds, operand),
    }
}

/// The kind of the column that a function over the rows of a frame makes.
pub fn kind_of_frame_agg(kinds: &[Kind], agg: &PlanFrameAgg) -> Kind
    ensures { result ≡ kind_of_frame_agg kinds.now agg.now }
{
    match agg {
        PlanFrameAgg::Count => Kind::Unsigned(32),
        PlanFrameAgg::Sum(operand) => kind_of_operand(kinds, operand),
        PlanFrameAgg::Min(operand) => kind_of_operand(kinds, operand),
        PlanFrameAgg::Max(operand) => kind_of_operand(kinds, operand),
        PlanFrameAgg::Avg(operand) => kind_of_operand(kinds, operand),
        PlanFrameAgg::LastValue(operand) => kind_of_operand(kinds, operand),
    }
}

/// The kind of the column that an item of a node of frames makes.
pub fn kind_of_frame(kinds: &[Kind], item: &PlanFrame) -> Kind
    ensures { result ≡ kind_of_frame kinds.now item.now }
{
    match item {
        PlanFrame::Own(operand) => kind_of_operand(kinds, operand),
        PlanFrame::Lag(operand, _) => kind_of_operand(kinds, operand),
        PlanFrame::Over { agg, .. } => kind_of_frame_agg(kinds, agg),
    }
}

// These kinds.
pub(crate) fn same_columns(alloc: Global, kinds: &[Kind]) -> Result<Kinds, Memory>
    ensures { IfOk result (λ all. all ≡ kinds.now) }
{
    Ok(Listed::from_vec(Vec::from_slice(alloc, kinds)?))
}

// The kinds of some columns, then those of others.
pub(crate) fn columns_of_both(alloc: Global, left: &[Kind], right: &[Kind]) -> Result<Kinds, Memory>
    ensures { IfOk result (λ all. all ≡ left.now ++ right.now) }
{
    let mut all = Vec::from_slice(alloc, left)?;
    for kind in right {
        all.push(*kind)?;
    }
    Ok(Listed::from_vec(all))
}

// A key's kind, then those of the other columns.
pub(crate) fn columns_with_key(alloc: Global, key: Kind, kinds: &[Kind]) -> Result<Kinds, Memory>
    ensures { IfOk result (λ all. all ≡ key ∷ kinds.now) }
{
    columns_of_both(alloc, &[key], kinds)
}

// The kinds of the columns, then those of the columns that the operations make.
pub(crate) fn columns_with_ops(
    alloc: Global,
    kinds: &[Kind],
    ops: &[ColOp],
) -> Result<Kinds, Memory>
    ensures { IfOk result (λ all. all ≡ kinds.now ++ map (kind_of_op kinds.now) ops.now) }
{
    let mut all = Vec::from_slice(alloc, kinds)?;
    for op in ops {
        all.push(kind_of_op(kinds, op))?;
    }
    Ok(Listed::from_vec(all))
}

// The kinds of the operands.
pub(crate) fn columns_of_items(
    alloc: Global,
    kinds: &[Kind],
    items: &[Operand],
) -> Result<Kinds, Memory>
    ensures { IfOk result (λ all. all ≡ map (kind_of_operand kinds.now) items.now) }
{
    let mut all = Vec::new(alloc);
    for item in items {
        all.push(kind_of_operand(kinds, item))?;
    }
    Ok(Listed::from_vec(all))
}

// The kinds of the columns that the aggregates make.
pub(crate) fn columns_of_aggs(
    alloc: Global,
    kinds: &[Kind],
    aggs: &[PlanAgg],
) -> Result<Kinds, Memory>
    ensures { IfOk result (λ all. all ≡ map (kind_of_agg kinds.now) aggs.now) }
{
    let mut all = Vec::new(alloc);
    for agg in aggs {
        all.push(kind_of_agg(kinds, agg))?;
    }
    Ok(Listed::from_vec(all))
}

// The kinds of the columns that the items of a node of frames make.
pub(crate) fn columns_of_frames(
    alloc: Global,
    kinds: &[Kind],
    items: &[PlanFrame],
) -> Result<Kinds, Memory>
    ensures { IfOk result (λ all. all ≡ map (kind_of_frame kinds.now) items.now) }
{
    let mut all = Vec::new(alloc);
    for item in items {
        all.push(kind_of_frame(kinds, item))?;
    }
    Ok(Listed::from_vec(all))
}
