//! The average of the last rows, as late as its division.

ghost use Rattle.std.specs.Prelude.{◌≡◌, ◌+◌, ◌<◌, ◌≤◌, ◌^◌, All, IfOk, Some};
ghost use Rattle.gl_algebra.specs.Rings.{digits};
ghost use Rattle.gl_algebra.specs.Results.{counts_in};
ghost use Rattle.gl_algebra.specs.Columns.{ConditionFits, OperandFits, kind_of_operand};
ghost use Rattle.gl_algebra.specs.Known.{OperandKnown};
ghost use Rattle.gl_values.specs.Kinds.{IsKind, width_of};
ghost use Rattle.gl_values.specs.Totals.{average_of, count_of};
ghost use Rattle.gl_frames.specs.Frames.{frame_of, total_over};
ghost use Rattle.gl_frames_stages.specs.Average.{IsFrameFraction, cost_of_frame_average, cost_of_frame_number};
ghost use Rattle.gl_frames_stages.specs.Framing.{value_in};
ghost use Rattle.gl_frames_stages.specs.Inputs.{HasInput, IsItemIn};
ghost use Rattle.gl_wire.specs.Wire.{widths};

use crate::framed::put_passing_count;
use crate::input::{Input, put_masked};
use crate::number::put_number_item;
use crate::sum::put_wide_sum;
use gl_algebra::Operand;
use gl_algebra::columns::kind_of_operand;
use gl_algebra::frames::digits;
use gl_bits::Memory;
use gl_frames_wire::Reach;
use gl_net::{Bus, NetBuilder};
use gl_rows::cast::low_bits;
use gl_rows::operand::put_operand;
use gl_totals::average::{Fraction, put_quotient};
use gl_totals::delay::delay_bus;

/// The bits of the number of rows of a frame, this row and so many before it.
pub fn digits_of_rows(back: u32) -> u8
    requires { back < 2 ^ 16 }
    ensures value { result ≡ digits (back + 1) }
    ensures most { result ≤ 40 }
{
    digits(u64::from(back) + 1)
}

// How many rows of a frame pass, three cycles behind each row.
fn put_frame_number(
    net: &mut NetBuilder,
    input: Input,
    filter: Option<u16>,
    back: u32,
) -> Result<Bus, Memory>
    requires input { HasInput net.old input }
    requires filter { ConditionFits input.source.kinds.now filter }
    requires back { back < 2 ^ 16 }
    ensures { IfOk result (IsItemIn net.old net.new (cost_of_frame_number back) 3 32
        (λ _ rows. count_of (frame_of (Some back) (counts_in filter) rows)) input.entry) }
{
    match filter {
        Some(column) => put_passing_count(net, input, column, back),
        None => {
            let number = put_number_item(net, input, back)?;
            // Named, since a goal speaks of the value.
            let out = delay_bus(net, number, 2)?;
            Ok(out)
        }
    }
}

// The sum of the numbers of the rows of a frame that pass, and how many there are, each in the bits
// that it may take.
fn put_frame_fraction(
    net: &mut NetBuilder,
    input: Input,
    filter: Option<u16>,
    operand: Operand,
    back: u32,
) -> Result<Fraction, Memory>
    requires input { HasInput net.old input }
    requires kinds { All IsKind input.source.kinds.now }
    requires filter { ConditionFits input.source.kinds.now filter }
    requires fits { OperandFits input.source.kinds.now operand }
    requires known { OperandKnown (widths input.source.words.now) operand }
    requires back { back < 2 ^ 16 }
    ensures { IfOk result (IsFrameFraction net.old net.new input.entry filter operand back) }
{
    let kind = kind_of_operand(input.source.kinds, &operand);
    let value = put_operand(net, input.source, operand)?;
    let masked = put_masked(net, input, filter, value)?;
    let bits = digits_of_rows(back);
    let width = value.width + bits;
    let top = put_wide_sum(net, input.lines, Reach::new(back + 1), masked, kind, width)?;
    let number = put_frame_number(net, input, filter, back)?;
    let bottom = low_bits(net, number, bits)?;
    Ok(Fraction { top, bottom })
}

/// The average of the values of the rows that pass, of this row and so many before it.
pub fn put_average_item(
    net: &mut NetBuilder,
    input: Input,
    filter: Option<u16>,
    operand: Operand,
    back: u32,
) -> Result<Bus, Memory>
    requires input { HasInput net.old input }
    requires kinds { All IsKind input.source.kinds.now }
    requires filter { ConditionFits input.source.kinds.now filter }
    requires fits { OperandFits input.source.kinds.now operand }
    requires known { OperandKnown (widths input.source.words.now) operand }
    requires back { back < 2 ^ 16 }
    ensures { IfOk result (
        let kind = kind_of_operand input.entry.source.kinds.now operand in
        IsItemIn net.old net.new (cost_of_frame_average (width_of kind) back)
        (width_of kind + digits (back + 1) + 4) (width_of kind)
        (λ sets. total_over (average_of kind) (value_in sets operand) (Some back) (counts_in filter)) input.entry) }
{
    let kind = kind_of_operand(input.source.kinds, &operand);
    let fraction = put_frame_fraction(net, input, filter, operand, back)?;
    let quotient = put_quotient(net, kind, fraction, input.lines.valid)?;
    // Named, since a goal speaks of the value.
    let out = low_bits(net, quotient, fraction.top.width - digits_of_rows(back))?;
    Ok(out)
}
