//! Products of operands by a literal, and shifts: such a product, or a cut.

ghost use Rattle.std.specs.Prelude.{◌≡◌, ◌^◌, ◌<◌, IfOk};
ghost use Rattle.gl_algebra.specs.Columns.{OpFits, OperandFits, kind_of_operand};
ghost use Rattle.gl_algebra.specs.Known.{OpKnown, OperandKnown};
ghost use Rattle.gl_algebra.specs.Values.{value_of_operand};
ghost use Rattle.gl_algebra.specs.declared.node.ColOp.TheVariants.{Binary};
ghost use Rattle.gl_rows.specs.Made.{Carries, IsOperation, IsSource};
ghost use Rattle.gl_rows.specs.Multiples.{IsScaled};
ghost use Rattle.gl_values.specs.Kinds.{shifted_down, width_of};
ghost use Rattle.gl_values.specs.declared.op.Op.TheVariants.{ShiftLeft, ShiftRight};
ghost use Rattle.gl_wire.specs.Wire.{row_at, widths};

use crate::cast::put_shifted;
use crate::multiple::{put_multiple, terms_of};
use crate::operand::{Source, put_operand};
use gl_algebra::Operand;
use gl_algebra::columns::kind_of_operand;
use gl_bits::{Memory, Word};
use gl_net::{Bus, NetBuilder};

/// The product of an operand and a literal of its kind.
pub fn put_scaled(
    net: &mut NetBuilder,
    source: Source,
    operand: Operand,
    literal: Word,
) -> Result<Bus, Memory>
    requires source { IsSource net.old source.columns.now source.kinds.now source.words.now }
    requires fits { OperandFits source.kinds.now operand }
    requires known { OperandKnown (widths source.words.now) operand }
    requires width { literal.width ≡ width_of (kind_of_operand source.kinds.now operand) }
    ensures { IfOk result (IsScaled net.old net.new
        source.entry.columns.now source.entry.kinds.now operand literal.bits) }
{
    let arg = put_operand(net, source, operand)?;
    let bus = put_multiple(net, arg, terms_of(literal))?;
    Ok(bus)
}

// The places that a word below its width tells.
fn places_in(by: Word) -> u8
    requires { by.bits < by.width }
    ensures { result ≡ by.bits }
{
    by.bits() as u8
}

// The word of the same width whose only 1 stands in a place.
fn power_word(by: Word) -> Word
    requires { by.bits < by.width }
    ensures bits { result.bits ≡ 2 ^ by.bits }
    ensures width { result.width ≡ by.width }
{
    Word::new(1u128 << places_in(by), by.width()).unwrap()
}

/// An operand so many places up: its product by a power of two, which needs no multiplier.
pub fn put_left(
    net: &mut NetBuilder,
    source: Source,
    left: Operand,
    right: Operand,
) -> Result<Bus, Memory>
    requires source { IsSource net.old source.columns.now source.kinds.now source.words.now }
    requires fits { OpFits source.kinds.now (Binary ShiftLeft left right) }
    requires known { OpKnown (widths source.words.now) (Binary ShiftLeft left right) }
    ensures { IfOk result (IsOperation net.old net.new
        source.entry.columns.now source.entry.kinds.now (Binary ShiftLeft left right)) }
{
    match right {
        Operand::Literal(by, _) => put_scaled(net, source, left, power_word(by)),
        Operand::Column(_) | Operand::Parameter(..) => unreachable!(),
    }
}

// An operand so many places down, by a literal of its kind.
fn put_down(net: &mut NetBuilder, source: Source, operand: Operand, by: Word) -> Result<Bus, Memory>
    requires source { IsSource net.old source.columns.now source.kinds.now source.words.now }
    requires fits { OperandFits source.kinds.now operand }
    requires known { OperandKnown (widths source.words.now) operand }
    requires width { by.width ≡ width_of (kind_of_operand source.kinds.now operand) }
    requires near { by.bits < by.width }
    ensures { IfOk result (Carries net.old net.new 7
        (width_of (kind_of_operand source.entry.kinds.now operand))
        (λ run t. shifted_down (kind_of_operand source.entry.kinds.now operand)
        (value_of_operand run.held (row_at run t source.entry.columns.now) operand) by.bits)) }
{
    let arg = put_operand(net, source, operand)?;
    let kind = kind_of_operand(source.kinds, &operand);
    let places = places_in(by);
    let bus = put_shifted(net, arg, kind, places)?;
    Ok(bus)
}

/// An operand so many places down.
pub fn put_right(
    net: &mut NetBuilder,
    source: Source,
    left: Operand,
    right: Operand,
) -> Result<Bus, Memory>
    requires source { IsSource net.old source.columns.now source.kinds.now source.words.now }
    requires fits { OpFits source.kinds.now (Binary ShiftRight left right) }
    requires known { OpKnown (widths source.words.now) (Binary ShiftRight left right) }
    ensures { IfOk result (IsOperation net.old net.new
        source.entry.columns.now source.entry.kinds.now (Binary ShiftRight left right)) }
{
    match right {
        Operand::Literal(by, _) => put_down(net, source, left, by),
        Operand::Column(_) | Operand::Parameter(..) => unreachable!(),
    }
}
