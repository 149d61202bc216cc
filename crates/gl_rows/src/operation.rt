//! What operations carry.

ghost use Rattle.std.specs.Prelude.{◌≡◌, ◌-◌, ◌^◌, All, IfOk, false};
ghost use Rattle.gl_algebra.specs.Columns.{OpFits, SortFits};
ghost use Rattle.gl_algebra.specs.Known.{OpKnown};
ghost use Rattle.gl_values.specs.Kinds.{width_of};
ghost use Rattle.gl_values.specs.Operators.{is_shift, sort_of};
ghost use Rattle.gl_net.specs.Net.{IsBus};
ghost use Rattle.gl_algebra.specs.declared.node.ColOp.TheVariants.{Binary, Cast, Flip, Not};
ghost use Rattle.gl_bits.specs.Words.{IsWidth};
ghost use Rattle.gl_values.specs.declared.kind.Kind.TheVariants.{Signed};
ghost use Rattle.gl_wire.specs.Wire.{widths};
ghost use Rattle.gl_rows.specs.Gates.{gate_of, is_order, is_turned};
ghost use Rattle.gl_values.specs.declared.op.Op.TheVariants.{Mul};
ghost use Rattle.gl_rows.specs.Made.{AreOperations, IsGated, IsGatedTurned, IsOperated, IsOperation, IsSource};

use crate::cast::put_cast;
use crate::operand::{Source, put_operand};
use crate::shift::{put_left, put_right, put_scaled};
use gl_algebra::columns::kind_of_operand;
use gl_algebra::{ColOp, Operand};
use gl_bits::{Memory, Word};
use gl_net::{BinaryOp, Bus, Buses, NetBuilder, Note};
use gl_values::{Kind, Op};
use std::alloc::Global;

// The gate of an operator; a shift has none of its own.
fn gate_of(op: Op) -> BinaryOp
    ensures { result ≡ gate_of op }
{
    match op {
        Op::Add => BinaryOp::Add,
        Op::Sub => BinaryOp::Sub,
        Op::Mul | Op::ShiftLeft | Op::ShiftRight => BinaryOp::Mul,
        Op::BitAnd | Op::And => BinaryOp::And,
        Op::BitOr | Op::Or => BinaryOp::Or,
        Op::BitXor => BinaryOp::Xor,
        Op::Eq => BinaryOp::Eq,
        Op::Ne => BinaryOp::Ne,
        Op::Lt | Op::Gt => BinaryOp::Lt,
        Op::Le | Op::Ge => BinaryOp::Le,
    }
}

// Whether the gate takes the right operand first.
fn is_turned(op: Op) -> bool
    ensures { result ≡ is_turned op }
{
    match op {
        Op::Gt | Op::Ge => true,
        Op::Add
        | Op::Sub
        | Op::Mul
        | Op::BitAnd
        | Op::BitOr
        | Op::BitXor
        | Op::ShiftLeft
        | Op::ShiftRight
        | Op::Eq
        | Op::Ne
        | Op::Lt
        | Op::Le
        | Op::And
        | Op::Or => false,
    }
}

// Whether an operator orders its operands.
fn is_order(op: Op) -> bool
    ensures { result ≡ is_order op }
{
    match op {
        Op::Lt | Op::Le | Op::Gt | Op::Ge => true,
        Op::Add
        | Op::Sub
        | Op::Mul
        | Op::BitAnd
        | Op::BitOr
        | Op::BitXor
        | Op::ShiftLeft
        | Op::ShiftRight
        | Op::Eq
        | Op::Ne
        | Op::And
        | Op::Or => false,
    }
}

// What the gate of an operator gives of two buses.
fn put_gate(net: &mut NetBuilder, op: Op, left: Bus, right: Bus) -> Result<Bus, Memory>
    requires left { IsBus net.old left }
    requires right { IsBus net.old right }
    requires widths { left.width ≡ right.width }
    ensures { IfOk result (IsGated net.old net.new op left right) }
{
    if is_turned(op) {
        let bus = net.binary(gate_of(op), right, left)?;
        return Ok(bus);
    }
    // Named, since a goal speaks of the value.
    let bus = net.binary(gate_of(op), left, right)?;
    Ok(bus)
}

// The word whose highest bit alone is 1.
fn top_word(width: u8) -> Word
    requires { IsWidth width }
    ensures bits { result.bits ≡ 2 ^ (width - 1) }
    ensures width { result.width ≡ width }
{
    Word::new(1u128 << (width - 1), width).unwrap()
}

// What the gate gives of two buses with the highest bit of both turned: so numbers with a sign compare.
fn put_turned(net: &mut NetBuilder, op: Op, left: Bus, right: Bus) -> Result<Bus, Memory>
    requires left { IsBus net.old left }
    requires right { IsBus net.old right }
    requires widths { left.width ≡ right.width }
    ensures { IfOk result (IsGatedTurned net.old net.new op left right) }
{
    let top = net.constant(top_word(left.width))?;
    let first = net.binary(BinaryOp::Xor, left, top)?;
    let second = net.binary(BinaryOp::Xor, right, top)?;
    // Named, since a goal speaks of the value.
    let bus = put_gate(net, op, first, second)?;
    Ok(bus)
}

// What an operator gives of two buses with a sign.
fn put_signed(net: &mut NetBuilder, op: Op, left: Bus, right: Bus) -> Result<Bus, Memory>
    requires left { IsBus net.old left }
    requires right { IsBus net.old right }
    requires widths { left.width ≡ right.width }
    requires fits { SortFits (sort_of op) (Signed left.width) }
    requires still { is_shift op ≡ false }
    ensures { IfOk result (IsOperated net.old net.new op (Signed left.width) left right) }
{
    if is_order(op) {
        return put_turned(net, op, left, right);
    }
    put_gate(net, op, left, right)
}

/// What an operator gives of two buses of a kind. A shift is no such operator.
pub fn put_operator(
    net: &mut NetBuilder,
    op: Op,
    kind: Kind,
    left: Bus,
    right: Bus,
) -> Result<Bus, Memory>
    requires left { IsBus net.old left }
    requires right { IsBus net.old right }
    requires left_width { left.width ≡ width_of kind }
    requires right_width { right.width ≡ width_of kind }
    requires fits { SortFits (sort_of op) kind }
    requires still { is_shift op ≡ false }
    ensures { IfOk result (IsOperated net.old net.new op kind left right) }
{
    if kind.is_signed() {
        return put_signed(net, op, left, right);
    }
    put_gate(net, op, left, right)
}

// The other bit.
fn put_not(net: &mut NetBuilder, source: Source, operand: Operand) -> Result<Bus, Memory>
    requires source { IsSource net.old source.columns.now source.kinds.now source.words.now }
    requires fits { OpFits source.kinds.now (Not operand) }
    requires known { OpKnown (widths source.words.now) (Not operand) }
    ensures { IfOk result (IsOperation net.old net.new
        source.entry.columns.now source.entry.kinds.now (Not operand)) }
{
    let arg = put_operand(net, source, operand)?;
    let bus = net.not(arg)?;
    Ok(bus)
}

// The other bits.
fn put_flip(net: &mut NetBuilder, source: Source, operand: Operand) -> Result<Bus, Memory>
    requires source { IsSource net.old source.columns.now source.kinds.now source.words.now }
    requires fits { OpFits source.kinds.now (Flip operand) }
    requires known { OpKnown (widths source.words.now) (Flip operand) }
    ensures { IfOk result (IsOperation net.old net.new
        source.entry.columns.now source.entry.kinds.now (Flip operand)) }
{
    let arg = put_operand(net, source, operand)?;
    let bus = net.not(arg)?;
    Ok(bus)
}

// The value as another kind.
fn put_as(net: &mut NetBuilder, source: Source, operand: Operand, kind: Kind) -> Result<Bus, Memory>
    requires source { IsSource net.old source.columns.now source.kinds.now source.words.now }
    requires fits { OpFits source.kinds.now (Cast operand kind) }
    requires known { OpKnown (widths source.words.now) (Cast operand kind) }
    ensures { IfOk result (IsOperation net.old net.new
        source.entry.columns.now source.entry.kinds.now (Cast operand kind)) }
{
    let arg = put_operand(net, source, operand)?;
    let from = kind_of_operand(source.kinds, &operand);
    let bus = put_cast(net, arg, from, kind)?;
    Ok(bus)
}

// Two operands under an operator that is no shift.
fn put_binary(
    net: &mut NetBuilder,
    source: Source,
    op: Op,
    left: Operand,
    right: Operand,
) -> Result<Bus, Memory>
    requires source { IsSource net.old source.columns.now source.kinds.now source.words.now }
    requires fits { OpFits source.kinds.now (Binary op left right) }
    requires known { OpKnown (widths source.words.now) (Binary op left right) }
    requires still { is_shift op ≡ false }
    ensures { IfOk result (IsOperation net.old net.new
        source.entry.columns.now source.entry.kinds.now (Binary op left right)) }
{
    let first = put_operand(net, source, left)?;
    let second = put_operand(net, source, right)?;
    let kind = kind_of_operand(source.kinds, &left);
    let bus = put_operator(net, op, kind, first, second)?;
    Ok(bus)
}

// The product of two operands: by a literal without a multiplier, where one or two shifts do.
fn put_product(
    net: &mut NetBuilder,
    source: Source,
    left: Operand,
    right: Operand,
) -> Result<Bus, Memory>
    requires source { IsSource net.old source.columns.now source.kinds.now source.words.now }
    requires fits { OpFits source.kinds.now (Binary Mul left right) }
    requires known { OpKnown (widths source.words.now) (Binary Mul left right) }
    ensures { IfOk result (IsOperation net.old net.new
        source.entry.columns.now source.entry.kinds.now (Binary Mul left right)) }
{
    match right {
        Operand::Literal(literal, _) => put_scaled(net, source, left, literal),
        _ => match left {
            Operand::Literal(literal, _) => put_scaled(net, source, right, literal),
            _ => put_binary(net, source, Op::Mul, left, right),
        },
    }
}

// Two operands under an operator.
fn put_under(
    net: &mut NetBuilder,
    source: Source,
    op: Op,
    left: Operand,
    right: Operand,
) -> Result<Bus, Memory>
    requires source { IsSource net.old source.columns.now source.kinds.now source.words.now }
    requires fits { OpFits source.kinds.now (Binary op left right) }
    requires known { OpKnown (widths source.words.now) (Binary op left right) }
    ensures { IfOk result (IsOperation net.old net.new
        source.entry.columns.now source.entry.kinds.now (Binary op left right)) }
{
    match op {
        Op::Mul => put_product(net, source, left, right),
        Op::ShiftLeft => put_left(net, source, left, right),
        Op::ShiftRight => put_right(net, source, left, right),
        Op::Add
        | Op::Sub
        | Op::BitAnd
        | Op::BitOr
        | Op::BitXor
        | Op::Eq
        | Op::Ne
        | Op::Lt
        | Op::Le
        | Op::Gt
        | Op::Ge
        | Op::And
        | Op::Or => put_binary(net, source, op, left, right),
    }
}

/// The bus of an operation.
pub fn put_operation(net: &mut NetBuilder, source: Source, op: ColOp) -> Result<Bus, Memory>
    requires source { IsSource net.old source.columns.now source.kinds.now source.words.now }
    requires fits { OpFits source.kinds.now op }
    requires known { OpKnown (widths source.words.now) op }
    ensures { IfOk result (IsOperation net.old net.new
        source.entry.columns.now source.entry.kinds.now op) }
{
    match op {
        ColOp::Not(operand) => put_not(net, source, operand),
        ColOp::Flip(operand) => put_flip(net, source, operand),
        ColOp::Cast(operand, kind) => put_as(net, source, operand, kind),
        ColOp::Binary(op, left, right) => put_under(net, source, op, left, right),
    }
}

// The same, told as the column at this place.
fn put_column(net: &mut NetBuilder, source: Source, op: ColOp, place: usize) -> Result<Bus, Memory>
    requires source { IsSource net.old source.columns.now source.kinds.now source.words.now }
    requires fits { OpFits source.kinds.now op }
    requires known { OpKnown (widths source.words.now) op }
    ensures { IfOk result (IsOperation net.old net.new
        source.entry.columns.now source.entry.kinds.now op) }
{
    net.note(Note::Part(place))?;
    let bus = put_operation(net, source, op)?;
    net.note(Note::Leave)?;
    Ok(bus)
}

/// The buses of some operations, which become the columns behind those of the source.
pub fn put_operations(
    alloc: Global,
    net: &mut NetBuilder,
    source: Source,
    ops: &[ColOp],
) -> Result<Buses, Memory>
    requires source { IsSource net.old source.columns.now source.kinds.now source.words.now }
    requires fit { All (OpFits source.kinds.now) ops.now }
    requires known { All (OpKnown (widths source.words.now)) ops.now }
    ensures { IfOk result (AreOperations net.old net.new
        source.entry.columns.now source.entry.kinds.now ops.now) }
{
    let mut all = Buses::new(alloc);
    for op in ops {
        let place = source.columns.len().saturating_add(all.len());
        let bus = put_column(net, source, *op, place)?;
        all.push(bus)?;
    }
    Ok(all)
}
