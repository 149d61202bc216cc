//! Whether operands, operations and aggregates fit columns.

ghost use Rattle.std.specs.Prelude.{[], All, IsTrue};
ghost use Rattle.gl_algebra.specs.Columns.{distance_fits, AggFits, OpFits, OperandFits, SortFits, WeightFits};
ghost use Rattle.gl_algebra.specs.Known.{AggKnown, OpKnown, OperandKnown};
ghost use Rattle.gl_values.specs.Kinds.{IsKind};

use gl_algebra::columns::kind_of_operand;
use gl_algebra::{ColOp, Operand, PlanAgg};
use gl_bits::Word;
use gl_values::{Kind, Op, Sort};

/// Whether there is such a kind.
#[tactic(auto, using(gl_values::proofs::KindLemmas::tested_kind))]
pub fn is_kind(kind: Kind) -> bool
    ensures { IsTrue result → IsKind kind }
{
    kind.is_kind()
}

/// Whether an operand fits.
pub fn operand_fits(kinds: &[Kind], operand: &Operand) -> bool
    ensures fits { IsTrue result → OperandFits kinds.now operand.now }
    ensures known { IsTrue result → OperandKnown [] operand.now }
{
    match operand {
        Operand::Column(column) => (*column as usize) < kinds.len(),
        Operand::Literal(word, kind) => is_kind(*kind) && word.width() == kind.width(),
        Operand::Parameter(..) => false,
    }
}

// Whether operands of a kind are taken.
fn sort_fits(sort: Sort, kind: Kind) -> bool
    ensures { IsTrue result → SortFits sort kind }
{
    match sort {
        Sort::Arithmetic => kind.is_number(),
        Sort::Comparison => true,
        Sort::Logic => kind == Kind::Unsigned(1),
    }
}

// Whether an operand may stand on the right of an operator.
fn distance_fits(op: Op, kind: Kind, operand: &Operand) -> bool
    ensures { IsTrue result → IsTrue (distance_fits op kind operand.now) }
{
    match operand {
        Operand::Literal(word, _) => op.shifts_within(kind, word.bits()),
        Operand::Column(_) | Operand::Parameter(..) => !op.is_shift(),
    }
}

// Whether an operation fits.
fn op_fits(kinds: &[Kind], op: &ColOp) -> bool
    ensures fits { IsTrue result → OpFits kinds.now op.now }
    ensures known { IsTrue result → OpKnown [] op.now }
{
    match op {
        ColOp::Not(operand) => {
            operand_fits(kinds, operand) && kind_of_operand(kinds, operand) == Kind::Unsigned(1)
        }
        ColOp::Flip(operand) => {
            operand_fits(kinds, operand) && kind_of_operand(kinds, operand).is_number()
        }
        ColOp::Cast(operand, kind) => {
            operand_fits(kinds, operand) && kind_of_operand(kinds, operand).can_cast(*kind)
        }
        ColOp::Binary(op, left, right) => {
            operand_fits(kinds, left)
                && operand_fits(kinds, right)
                && kind_of_operand(kinds, left) == kind_of_operand(kinds, right)
                && sort_fits(op.sort(), kind_of_operand(kinds, left))
                && distance_fits(*op, kind_of_operand(kinds, left), right)
        }
    }
}

/// Whether all of them fit.
pub fn operands_fit(kinds: &[Kind], operands: &[Operand]) -> bool
    ensures fits { IsTrue result → All (OperandFits kinds.now) operands.now }
    ensures known { IsTrue result → All (OperandKnown []) operands.now }
{
    match operands.split_first() {
        None => true,
        Some((operand, others)) => operand_fits(kinds, operand) && operands_fit(kinds, others),
    }
}

/// Whether all of them fit.
pub fn ops_fit(kinds: &[Kind], ops: &[ColOp]) -> bool
    ensures fits { IsTrue result → All (OpFits kinds.now) ops.now }
    ensures known { IsTrue result → All (OpKnown []) ops.now }
{
    match ops.split_first() {
        None => true,
        Some((op, others)) => op_fits(kinds, op) && ops_fit(kinds, others),
    }
}

// Whether words are weights of a kind.
fn weights_fit(kind: Kind, weights: &[Word]) -> bool
    requires { IsKind kind }
    ensures { IsTrue result → All (WeightFits kind) weights.now }
{
    match weights.split_first() {
        None => true,
        Some((weight, others)) => weight.width() == kind.width() && weights_fit(kind, others),
    }
}

// Whether an aggregate fits.
fn agg_fits(kinds: &[Kind], agg: &PlanAgg) -> bool
    ensures fits { IsTrue result → AggFits kinds.now agg.now }
    ensures known { IsTrue result → AggKnown [] agg.now }
{
    match agg {
        PlanAgg::Count => true,
        PlanAgg::Sum(operand) => {
            operand_fits(kinds, operand) && kind_of_operand(kinds, operand).is_number()
        }
        PlanAgg::Min(operand) => operand_fits(kinds, operand),
        PlanAgg::Max(operand) => operand_fits(kinds, operand),
        PlanAgg::Avg(operand) => {
            operand_fits(kinds, operand) && kind_of_operand(kinds, operand).is_number()
        }
        PlanAgg::Wsum(operand, weights) => {
            operand_fits(kinds, operand)
                && kind_of_operand(kinds, operand).is_number()
                && weights.len() <= 64
                && is_kind(kind_of_operand(kinds, operand))
                && weights_fit(kind_of_operand(kinds, operand), weights.as_slice())
        }
    }
}

/// Whether all of them fit.
pub fn aggs_fit(kinds: &[Kind], aggs: &[PlanAgg]) -> bool
    ensures fits { IsTrue result → All (AggFits kinds.now) aggs.now }
    ensures known { IsTrue result → All (AggKnown []) aggs.now }
{
    match aggs.split_first() {
        None => true,
        Some((agg, others)) => agg_fits(kinds, agg) && aggs_fit(kinds, others),
    }
}
