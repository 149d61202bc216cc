//! The last value that passes among the last rows of each slot, one cycle behind each row.

ghost use Rattle.std.specs.Prelude.{◌<◌, ◌^◌, IfOk, Some};
ghost use Rattle.gl_algebra.specs.Columns.{ConditionFits, OperandFits, kind_of_operand};
ghost use Rattle.gl_algebra.specs.Known.{OperandKnown};
ghost use Rattle.gl_algebra.specs.Results.{counts_in};
ghost use Rattle.gl_net.specs.Net.{IsBit, IsBus};
ghost use Rattle.gl_values.specs.Kinds.{width_of};
ghost use Rattle.gl_frames.specs.Frames.{last_value_of};
ghost use Rattle.gl_frames_stages.specs.Framing.{value_in};
ghost use Rattle.gl_frames_wire.specs.Reaches.{IsPlaceWidth};
ghost use Rattle.gl_frames_slots.specs.ItemCosts.{cost_of_slot_recent};
ghost use Rattle.gl_frames_slots.specs.Items.{HasSlotInput, IsSlotItemIn};
ghost use Rattle.gl_frames_slots.specs.RecentNets.{IsSlotAgeIn, IsSlotRecentIn, IsSlotSinceIn};
ghost use Rattle.gl_frames_slots.specs.Rows.{HasSlotRows};
ghost use Rattle.gl_wire.specs.Wire.{widths};

use crate::count::{put_passing, put_wound};
use crate::items::SlotInput;
use crate::lag::put_many;
use crate::last::put_slot_last;
use crate::rows::SlotRows;
use gl_algebra::Operand;
use gl_bits::Memory;
use gl_frames_stages::recent::put_young;
use gl_frames_wire::Reach;
use gl_net::{Bit, Bus, NetBuilder};
use gl_rows::operand::put_operand;
use gl_wire::{both, later, note_bus};
use gl_wire_registers::word;

// How many rows of its slot came since the last one that passes, before each row: a word for each
// slot, which goes round above a ring of 2 ^ `bits` words.
fn put_slot_since(net: &mut NetBuilder, rows: SlotRows, takes: Bit, bits: u8) -> Result<Bus, Memory>
    requires rows { HasSlotRows net.old rows }
    requires takes { IsBit net.old takes }
    requires bits { IsPlaceWidth bits }
    ensures { IfOk result (IsSlotSinceIn net.old net.new rows takes bits) }
{
    let zero = word(0, bits + 1);
    let before = net.register(zero.width(), None)?;
    let more = put_wound(net, rows.valid, before, bits)?;
    let none = net.constant(zero)?;
    let now = net.choose(takes, none, more)?;
    let ahead = put_passing(net, rows, now)?;
    let next = net.choose(rows.begins, none, ahead)?;
    net.drive(before, next)?;
    note_bus(net, b"count", before)?;
    Ok(before)
}

// Whether so many rows of its slot came since the last one that passes, before each row.
fn put_slot_age(net: &mut NetBuilder, rows: SlotRows, takes: Bit, back: u32) -> Result<Bit, Memory>
    requires rows { HasSlotRows net.old rows }
    requires takes { IsBit net.old takes }
    requires back { back < 2 ^ 16 }
    ensures { IfOk result (IsSlotAgeIn net.old net.new rows takes back) }
{
    let bits = Reach::new(back + 1).bits;
    let since = put_slot_since(net, rows, takes, bits)?;
    // Named, since a goal speaks of the value.
    let old = put_many(net, since, Reach { back, bits })?;
    Ok(old)
}

// The value of the last row that passes, of this row and so many of its slot before it.
fn put_slot_recent(
    net: &mut NetBuilder,
    rows: SlotRows,
    passes: Bit,
    value: Bus,
    back: u32,
) -> Result<Bus, Memory>
    requires rows { HasSlotRows net.old rows }
    requires passes { IsBit net.old passes }
    requires value { IsBus net.old value }
    requires back { back < 2 ^ 16 }
    ensures { IfOk result (IsSlotRecentIn net.old net.new rows passes value back) }
{
    let takes = both(net, rows.valid, passes)?;
    let last = put_slot_last(net, rows, takes, value)?;
    let old = put_slot_age(net, rows, takes, back)?;
    let now = put_young(net, passes, old, value, last)?;
    // Named, since a goal speaks of the value.
    let out = later(net, now)?;
    Ok(out)
}

/// The same as an item.
pub fn put_slot_recent_item(
    net: &mut NetBuilder,
    input: SlotInput,
    count: Bus,
    column: u16,
    operand: Operand,
    back: u32,
) -> Result<Bus, Memory>
    requires input { HasSlotInput net.old input }
    requires filter { ConditionFits input.source.kinds.now (Some column) }
    requires fits { OperandFits input.source.kinds.now operand }
    requires known { OperandKnown (widths input.source.words.now) operand }
    requires back { back < 2 ^ 16 }
    ensures { IfOk result (
        let width = width_of (kind_of_operand input.entry.source.kinds.now operand) in
        IsSlotItemIn net.old net.new (cost_of_slot_recent input.entry.rows.slot.width width back) 1 width
        (λ sets. last_value_of (value_in sets operand) (Some back) (counts_in (Some column))) input.entry count) }
{
    // No count is read: this one begins anew with each row that passes.
    let _ = count;
    let passes = put_operand(net, input.source, Operand::Column(column))?;
    let value = put_operand(net, input.source, operand)?;
    // Named, since a goal speaks of the value.
    let out = put_slot_recent(net, input.rows, passes.bit(), value, back)?;
    Ok(out)
}
