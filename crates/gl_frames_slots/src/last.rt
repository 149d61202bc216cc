//! Last values as items: of all rows of each slot that pass, and of the row itself.

ghost use Rattle.std.specs.Prelude.{IfOk, None, Option, Some, ℕ};
ghost use Rattle.gl_algebra.specs.Columns.{BackFits, ConditionFits, OperandFits, kind_of_frame_agg, kind_of_operand};
ghost use Rattle.gl_algebra.specs.Known.{OperandKnown};
ghost use Rattle.gl_algebra.specs.Frames.{delay_over};
ghost use Rattle.gl_algebra.specs.Results.{counts_in, value_over};
ghost use Rattle.gl_algebra.specs.declared.node.PlanFrameAgg.TheVariants.{LastValue};
ghost use Rattle.gl_net.specs.Net.{IsBit, IsBus};
ghost use Rattle.gl_values.specs.Kinds.{width_of};
ghost use Rattle.gl_frames.specs.Frames.{last_value_of};
ghost use Rattle.gl_frames_stages.specs.Framing.{cost_of_own, every, value_in};
ghost use Rattle.gl_frames_slots.specs.ItemCosts.{cost_of_slot_last, cost_of_slot_over};
ghost use Rattle.gl_frames_slots.specs.Items.{HasSlotInput, IsSlotItemIn};
ghost use Rattle.gl_frames_slots.specs.LastNets.{IsSlotLastIn};
ghost use Rattle.gl_frames_slots.specs.Rows.{HasSlotRows};
ghost use Rattle.gl_wire.specs.Wire.{widths};

use crate::count::put_passing;
use crate::items::SlotInput;
use crate::recent::put_slot_recent_item;
use crate::rows::SlotRows;
use gl_algebra::Operand;
use gl_bits::Memory;
use gl_net::{Bit, Bus, NetBuilder};
use gl_rows::operand::put_operand;
use gl_totals::fold::small_word;
use gl_wire::{both, later, note_bus};

/// The value of the last row so far of its slot whose line is 1, and 0 where there is none: a word
/// for each slot.
pub(crate) fn put_slot_last(
    net: &mut NetBuilder,
    rows: SlotRows,
    takes: Bit,
    value: Bus,
) -> Result<Bus, Memory>
    requires rows { HasSlotRows net.old rows }
    requires takes { IsBit net.old takes }
    requires value { IsBus net.old value }
    ensures { IfOk result (IsSlotLastIn net.old net.new rows takes value) }
{
    let zero = small_word(false, value.width);
    let before = net.register(zero.width(), None)?;
    let now = net.choose(takes, value, before)?;
    let ahead = put_passing(net, rows, now)?;
    let again = net.constant(zero)?;
    let next = net.choose(rows.begins, again, ahead)?;
    net.drive(before, next)?;
    note_bus(net, b"state", before)?;
    Ok(now)
}

/// The value of the last row of its slot that passes, of all up to each, one cycle behind the row.
pub fn put_slot_last_item(
    net: &mut NetBuilder,
    input: SlotInput,
    count: Bus,
    column: u16,
    operand: Operand,
) -> Result<Bus, Memory>
    requires input { HasSlotInput net.old input }
    requires filter { ConditionFits input.source.kinds.now (Some column) }
    requires fits { OperandFits input.source.kinds.now operand }
    requires known { OperandKnown (widths input.source.words.now) operand }
    ensures { IfOk result (
        let width = width_of (kind_of_operand input.entry.source.kinds.now operand) in
        IsSlotItemIn net.old net.new (cost_of_slot_last input.entry.rows.slot.width width) 1 width
        (λ sets. last_value_of (value_in sets operand) None (counts_in (Some column))) input.entry count) }
{
    // No count is read.
    let _ = count;
    let passes = put_operand(net, input.source, Operand::Column(column))?;
    let value = put_operand(net, input.source, operand)?;
    let takes = both(net, input.rows.valid, passes.bit())?;
    let last = put_slot_last(net, input.rows, takes, value)?;
    // Named, since a goal speaks of the value.
    let out = later(net, last)?;
    Ok(out)
}

/// The last value of a frame without a FILTER: the row's own.
pub fn put_slot_own_last(
    net: &mut NetBuilder,
    input: SlotInput,
    count: Bus,
    operand: Operand,
) -> Result<Bus, Memory>
    requires input { HasSlotInput net.old input }
    requires fits { OperandFits input.source.kinds.now operand }
    requires known { OperandKnown (widths input.source.words.now) operand }
    ensures { (back : Option ℕ) → IfOk result (
        let width = width_of (kind_of_operand input.entry.source.kinds.now operand) in
        IsSlotItemIn net.old net.new (cost_of_own width) 1 width
        (λ sets. last_value_of (value_in sets operand) back every) input.entry count) }
{
    // No count is read.
    let _ = count;
    let value = put_operand(net, input.source, operand)?;
    // Named, since a goal speaks of the value.
    let out = later(net, value)?;
    Ok(out)
}

// The last value of the rows that pass.
fn put_slot_last_by(
    net: &mut NetBuilder,
    input: SlotInput,
    count: Bus,
    column: u16,
    operand: Operand,
    back: Option<u32>,
) -> Result<Bus, Memory>
    requires input { HasSlotInput net.old input }
    requires filter { ConditionFits input.source.kinds.now (Some column) }
    requires fits { OperandFits input.source.kinds.now operand }
    requires known { OperandKnown (widths input.source.words.now) operand }
    requires back { BackFits back }
    ensures { IfOk result (
        let kinds = input.entry.source.kinds.now in
        let slot = input.entry.rows.slot.width in
        IsSlotItemIn net.old net.new (cost_of_slot_over slot kinds (LastValue operand) (Some column) back)
        (delay_over kinds (LastValue operand) (Some column) back)
        (width_of (kind_of_frame_agg kinds (LastValue operand)))
        (λ sets rows. value_over sets kinds (Some column) back rows (LastValue operand)) input.entry count) }
{
    match back {
        Some(back) => put_slot_recent_item(net, input, count, column, operand, back),
        None => put_slot_last_item(net, input, count, column, operand),
    }
}

/// The last value of a frame.
pub fn put_slot_last_of(
    net: &mut NetBuilder,
    input: SlotInput,
    count: Bus,
    filter: Option<u16>,
    operand: Operand,
    back: Option<u32>,
) -> Result<Bus, Memory>
    requires input { HasSlotInput net.old input }
    requires filter { ConditionFits input.source.kinds.now filter }
    requires fits { OperandFits input.source.kinds.now operand }
    requires known { OperandKnown (widths input.source.words.now) operand }
    requires back { BackFits back }
    ensures { IfOk result (
        let kinds = input.entry.source.kinds.now in
        let slot = input.entry.rows.slot.width in
        IsSlotItemIn net.old net.new (cost_of_slot_over slot kinds (LastValue operand) filter back)
        (delay_over kinds (LastValue operand) filter back)
        (width_of (kind_of_frame_agg kinds (LastValue operand)))
        (λ sets rows. value_over sets kinds filter back rows (LastValue operand)) input.entry count) }
{
    match filter {
        Some(column) => put_slot_last_by(net, input, count, column, operand, back),
        None => put_slot_own_last(net, input, count, operand),
    }
}
