//! The average of the last rows of each slot, and of all, as late as its division.

ghost use Rattle.std.specs.Prelude.{◌+◌, ◌-◌, ◌<◌, ◌≤◌, ◌^◌, All, IfOk, None, Some};
ghost use Rattle.gl_algebra.specs.Columns.{BackFits, ConditionFits, OperandFits, kind_of_frame_agg, kind_of_operand};
ghost use Rattle.gl_algebra.specs.Known.{OperandKnown};
ghost use Rattle.gl_algebra.specs.Frames.{delay_over};
ghost use Rattle.gl_algebra.specs.Results.{counts_in, value_over};
ghost use Rattle.gl_algebra.specs.Rings.{digits};
ghost use Rattle.gl_algebra.specs.declared.node.PlanFrameAgg.TheVariants.{Avg};
ghost use Rattle.gl_values.specs.Kinds.{IsKind, width_of};
ghost use Rattle.gl_values.specs.Totals.{average_of, count_of};
ghost use Rattle.gl_net.specs.Net.{IsBus};
ghost use Rattle.gl_frames.specs.Frames.{frame_of, total_over};
ghost use Rattle.gl_frames_stages.specs.Framing.{value_in};
ghost use Rattle.gl_frames_wire.specs.Reaches.{place_bits};
ghost use Rattle.gl_frames_slots.specs.Averages.{IsSlotFraction, IsSlotWholeFraction};
ghost use Rattle.gl_frames_slots.specs.ItemCosts.{cost_of_slot_average, cost_of_slot_over, cost_of_slot_passing, cost_of_slot_whole_average};
ghost use Rattle.gl_frames_slots.specs.Items.{HasSlotInput, IsSlotItemIn, IsSlotOver};
ghost use Rattle.gl_wire.specs.Wire.{widths};

use crate::counts::{put_slot_number, put_slot_passing};
use crate::items::SlotInput;
use crate::sum::{Wide, put_slot_summed, put_slot_wide_sum};
use crate::sums::put_slot_count_all;
use gl_algebra::Operand;
use gl_algebra::columns::kind_of_operand;
use gl_bits::Memory;
use gl_frames_stages::average::digits_of_rows;
use gl_frames_stages::input::put_masked;
use gl_frames_stages::{Input, Lines};
use gl_frames_wire::Reach;
use gl_net::{Bus, NetBuilder};
use gl_rows::cast::{low_bits, put_number};
use gl_rows::operand::put_operand;
use gl_totals::average::{Fraction, put_quotient};
use gl_totals::delay::delay_bus;

// How many rows of a frame pass, three cycles behind each row.
fn put_slot_frame_number(
    net: &mut NetBuilder,
    input: SlotInput,
    count: Bus,
    filter: Option<u16>,
    back: u32,
) -> Result<Bus, Memory>
    requires input { HasSlotInput net.old input }
    requires count { IsBus net.old count }
    requires filter { ConditionFits input.source.kinds.now filter }
    requires back { back < 2 ^ 16 }
    requires bits { place_bits (back + 1) + 1 ≤ count.width }
    requires address { input.rows.slot.width + place_bits (back + 1) ≤ 32 }
    requires few { count.width ≤ 18 }
    ensures { IfOk result (
        let slot = input.entry.rows.slot.width in
        IsSlotItemIn net.old net.new (cost_of_slot_passing slot back) 3 32
        (λ _ rows. count_of (frame_of (Some back) (counts_in filter) rows)) input.entry count) }
{
    match filter {
        Some(column) => put_slot_passing(net, input, count, column, back),
        None => {
            let number = put_slot_number(net, input, count, back)?;
            // Named, since a goal speaks of the value.
            let out = delay_bus(net, number, 2)?;
            Ok(out)
        }
    }
}

// The sum of the numbers of the rows of a frame that pass, and how many there are, each in the bits
// that it may take.
fn put_slot_fraction(
    net: &mut NetBuilder,
    input: SlotInput,
    count: Bus,
    filter: Option<u16>,
    operand: Operand,
    back: u32,
) -> Result<Fraction, Memory>
    requires input { HasSlotInput net.old input }
    requires count { IsBus net.old count }
    requires kinds { All IsKind input.source.kinds.now }
    requires filter { ConditionFits input.source.kinds.now filter }
    requires fits { OperandFits input.source.kinds.now operand }
    requires known { OperandKnown (widths input.source.words.now) operand }
    requires back { back < 2 ^ 16 }
    requires bits { place_bits (back + 1) + 1 ≤ count.width }
    requires address { input.rows.slot.width + place_bits (back + 1) ≤ 32 }
    requires few { count.width ≤ 18 }
    ensures { IfOk result
        (IsSlotFraction net.old net.new input.entry count filter operand back) }
{
    let kind = kind_of_operand(input.source.kinds, &operand);
    let value = put_operand(net, input.source, operand)?;
    // A mask does not ask of ends.
    let lines = Lines {
        valid: input.rows.valid,
        eos: input.rows.first,
    };
    let source = input.source;
    let masked = put_masked(net, Input { lines, source }, filter, value)?;
    let bits = digits_of_rows(back);
    let width = value.width + bits;
    let reach = Reach::new(back + 1);
    let wide = Wide { kind, width };
    let top = put_slot_wide_sum(net, input.rows, count, reach, masked, wide)?;
    let number = put_slot_frame_number(net, input, count, filter, back)?;
    let bottom = low_bits(net, number, bits)?;
    Ok(Fraction { top, bottom })
}

/// The average of the values of the rows that pass, of this row and so many of its slot before it.
pub fn put_slot_average_item(
    net: &mut NetBuilder,
    input: SlotInput,
    count: Bus,
    filter: Option<u16>,
    operand: Operand,
    back: u32,
) -> Result<Bus, Memory>
    requires input { HasSlotInput net.old input }
    requires count { IsBus net.old count }
    requires kinds { All IsKind input.source.kinds.now }
    requires filter { ConditionFits input.source.kinds.now filter }
    requires fits { OperandFits input.source.kinds.now operand }
    requires known { OperandKnown (widths input.source.words.now) operand }
    requires back { back < 2 ^ 16 }
    requires bits { place_bits (back + 1) + 1 ≤ count.width }
    requires address { input.rows.slot.width + place_bits (back + 1) ≤ 32 }
    requires few { count.width ≤ 18 }
    ensures { IfOk result (
        let kind = kind_of_operand input.entry.source.kinds.now operand in
        IsSlotItemIn net.old net.new (cost_of_slot_average input.entry.rows.slot.width (width_of kind) back)
        (width_of kind + digits (back + 1) + 4) (width_of kind)
        (λ sets. total_over (average_of kind) (value_in sets operand) (Some back) (counts_in filter)) input.entry count) }
{
    let kind = kind_of_operand(input.source.kinds, &operand);
    let fraction = put_slot_fraction(net, input, count, filter, operand, back)?;
    let quotient = put_quotient(net, kind, fraction, input.rows.valid)?;
    // Named, since a goal speaks of the value.
    let out = low_bits(net, quotient, fraction.top.width - digits_of_rows(back))?;
    Ok(out)
}

// The sum of the numbers of all rows of each slot so far that pass, in 32 bits more than they have,
// and how many there are, one cycle behind each row.
fn put_slot_whole_fraction(
    net: &mut NetBuilder,
    input: SlotInput,
    count: Bus,
    filter: Option<u16>,
    operand: Operand,
) -> Result<Fraction, Memory>
    requires input { HasSlotInput net.old input }
    requires kinds { All IsKind input.source.kinds.now }
    requires filter { ConditionFits input.source.kinds.now filter }
    requires fits { OperandFits input.source.kinds.now operand }
    requires known { OperandKnown (widths input.source.words.now) operand }
    ensures { IfOk result
        (IsSlotWholeFraction net.old net.new input.entry count filter operand) }
{
    let kind = kind_of_operand(input.source.kinds, &operand);
    let value = put_operand(net, input.source, operand)?;
    // A mask does not ask of ends.
    let lines = Lines {
        valid: input.rows.valid,
        eos: input.rows.first,
    };
    let source = input.source;
    let masked = put_masked(net, Input { lines, source }, filter, value)?;
    let wide = put_number(net, masked, kind, masked.width + 32)?;
    let top = put_slot_summed(net, input.rows, wide)?;
    let bottom = put_slot_count_all(net, input, count, filter)?;
    Ok(Fraction { top, bottom })
}

/// The average of the values of all rows of each slot so far that pass, 34 cycles later than they
/// have bits.
pub fn put_slot_average_all(
    net: &mut NetBuilder,
    input: SlotInput,
    count: Bus,
    filter: Option<u16>,
    operand: Operand,
) -> Result<Bus, Memory>
    requires input { HasSlotInput net.old input }
    requires kinds { All IsKind input.source.kinds.now }
    requires filter { ConditionFits input.source.kinds.now filter }
    requires fits { OperandFits input.source.kinds.now operand }
    requires known { OperandKnown (widths input.source.words.now) operand }
    ensures { IfOk result (
        let kind = kind_of_operand input.entry.source.kinds.now operand in
        IsSlotItemIn net.old net.new (cost_of_slot_whole_average input.entry.rows.slot.width (width_of kind))
        (width_of kind + 34) (width_of kind)
        (λ sets. total_over (average_of kind) (value_in sets operand) None (counts_in filter)) input.entry count) }
{
    let kind = kind_of_operand(input.source.kinds, &operand);
    let fraction = put_slot_whole_fraction(net, input, count, filter, operand)?;
    let quotient = put_quotient(net, kind, fraction, input.rows.valid)?;
    // Named, since a goal speaks of the value.
    let out = low_bits(net, quotient, fraction.top.width - 32)?;
    Ok(out)
}

/// An average of a frame.
pub fn put_slot_average_of(
    net: &mut NetBuilder,
    input: SlotInput,
    count: Bus,
    filter: Option<u16>,
    operand: Operand,
    back: Option<u32>,
) -> Result<Bus, Memory>
    requires input { HasSlotInput net.old input }
    requires count { IsBus net.old count }
    requires kinds { All IsKind input.source.kinds.now }
    requires filter { ConditionFits input.source.kinds.now filter }
    requires fits { OperandFits input.source.kinds.now operand }
    requires known { OperandKnown (widths input.source.words.now) operand }
    requires back { BackFits back }
    requires slot_item { IsSlotOver (count.width - 1) (Avg operand) filter back }
    requires some { 1 ≤ count.width }
    requires few { count.width ≤ 18 }
    requires address { input.rows.slot.width + count.width ≤ 33 }
    ensures { IfOk result (
        let kinds = input.entry.source.kinds.now in
        IsSlotItemIn net.old net.new (cost_of_slot_over input.entry.rows.slot.width kinds (Avg operand) filter back)
        (delay_over kinds (Avg operand) filter back) (width_of (kind_of_frame_agg kinds (Avg operand)))
        (λ sets rows. value_over sets kinds filter back rows (Avg operand)) input.entry count) }
{
    match back {
        Some(back) => put_slot_average_item(net, input, count, filter, operand, back),
        None => put_slot_average_all(net, input, count, filter, operand),
    }
}
