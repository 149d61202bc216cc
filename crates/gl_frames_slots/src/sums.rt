//! Sums as items: of the last rows of each slot, of all rows up to each, and of a one for each.

ghost use Rattle.std.specs.Prelude.{◌+◌, ◌<◌, ◌≤◌, ◌^◌, IfOk, None, Some};
ghost use Rattle.gl_algebra.specs.Columns.{ConditionFits, OperandFits, kind_of_operand};
ghost use Rattle.gl_algebra.specs.Known.{OperandKnown};
ghost use Rattle.gl_algebra.specs.Results.{counts_in};
ghost use Rattle.gl_values.specs.Kinds.{width_of};
ghost use Rattle.gl_values.specs.Totals.{count_of, sum_total};
ghost use Rattle.gl_net.specs.Net.{IsBus};
ghost use Rattle.gl_frames.specs.Frames.{frame_of, total_over};
ghost use Rattle.gl_frames_stages.specs.Framing.{value_in};
ghost use Rattle.gl_frames_wire.specs.Reaches.{place_bits};
ghost use Rattle.gl_frames_slots.specs.ItemCosts.{cost_of_slot_all, cost_of_slot_sum};
ghost use Rattle.gl_frames_slots.specs.Items.{HasSlotInput, IsSlotItemIn};
ghost use Rattle.gl_wire.specs.Wire.{widths};

use crate::items::SlotInput;
use crate::sum::{put_slot_sum, put_slot_summed};
use gl_algebra::Operand;
use gl_bits::Memory;
use gl_frames_stages::input::put_masked;
use gl_frames_stages::{Input, Lines};
use gl_frames_wire::Reach;
use gl_net::{Bus, NetBuilder};
use gl_rows::operand::put_operand;
use gl_totals::fold::small_word;

/// The sum of the values of the rows that pass, of this row and so many of its slot before it, three
/// cycles behind the row.
pub fn put_slot_sum_item(
    net: &mut NetBuilder,
    input: SlotInput,
    count: Bus,
    filter: Option<u16>,
    operand: Operand,
    back: u32,
) -> Result<Bus, Memory>
    requires input { HasSlotInput net.old input }
    requires count { IsBus net.old count }
    requires filter { ConditionFits input.source.kinds.now filter }
    requires fits { OperandFits input.source.kinds.now operand }
    requires known { OperandKnown (widths input.source.words.now) operand }
    requires back { back < 2 ^ 16 }
    requires bits { place_bits (back + 1) + 1 ≤ count.width }
    requires address { input.rows.slot.width + place_bits (back + 1) ≤ 32 }
    ensures { IfOk result (
        let width = width_of (kind_of_operand input.entry.source.kinds.now operand) in
        IsSlotItemIn net.old net.new (cost_of_slot_sum input.entry.rows.slot.width width back) 3 width
        (λ sets. total_over (sum_total width) (value_in sets operand) (Some back) (counts_in filter)) input.entry count) }
{
    let value = put_operand(net, input.source, operand)?;
    // A mask does not ask of ends.
    let lines = Lines {
        valid: input.rows.valid,
        eos: input.rows.first,
    };
    let source = input.source;
    let masked = put_masked(net, Input { lines, source }, filter, value)?;
    // Named, since a goal speaks of the value.
    let sum = put_slot_sum(net, input.rows, count, Reach::new(back + 1), masked)?;
    Ok(sum)
}

/// The sum of the values of the rows that pass, of all of its slot up to this row, one cycle behind
/// it.
pub fn put_slot_sum_all(
    net: &mut NetBuilder,
    input: SlotInput,
    count: Bus,
    filter: Option<u16>,
    operand: Operand,
) -> Result<Bus, Memory>
    requires input { HasSlotInput net.old input }
    requires filter { ConditionFits input.source.kinds.now filter }
    requires fits { OperandFits input.source.kinds.now operand }
    requires known { OperandKnown (widths input.source.words.now) operand }
    ensures { IfOk result (
        let width = width_of (kind_of_operand input.entry.source.kinds.now operand) in
        IsSlotItemIn net.old net.new (cost_of_slot_all input.entry.rows.slot.width width) 1 width
        (λ sets. total_over (sum_total width) (value_in sets operand) None (counts_in filter)) input.entry count) }
{
    // No count is read.
    let _ = count;
    let value = put_operand(net, input.source, operand)?;
    // A mask does not ask of ends.
    let lines = Lines {
        valid: input.rows.valid,
        eos: input.rows.first,
    };
    let source = input.source;
    let masked = put_masked(net, Input { lines, source }, filter, value)?;
    // Named, since a goal speaks of the value.
    let sum = put_slot_summed(net, input.rows, masked)?;
    Ok(sum)
}

/// How many rows have passed, of all of its slot up to this row, one cycle behind it: a sum of ones.
pub fn put_slot_count_all(
    net: &mut NetBuilder,
    input: SlotInput,
    count: Bus,
    filter: Option<u16>,
) -> Result<Bus, Memory>
    requires input { HasSlotInput net.old input }
    requires filter { ConditionFits input.source.kinds.now filter }
    ensures { IfOk result (
        let slot = input.entry.rows.slot.width in
        IsSlotItemIn net.old net.new (cost_of_slot_all slot 32) 1 32
        (λ _ rows. count_of (frame_of None (counts_in filter) rows)) input.entry count) }
{
    // No count is read.
    let _ = count;
    let one = net.constant(small_word(true, 32))?;
    // A mask does not ask of ends.
    let lines = Lines {
        valid: input.rows.valid,
        eos: input.rows.first,
    };
    let source = input.source;
    let masked = put_masked(net, Input { lines, source }, filter, one)?;
    // Named, since a goal speaks of the value.
    let sum = put_slot_summed(net, input.rows, masked)?;
    Ok(sum)
}
