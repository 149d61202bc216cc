//! How many rows of each slot a frame has: by the count of its rows, or by the bits of a FILTER.

ghost use Rattle.std.specs.Prelude.{◌+◌, ◌<◌, ◌≤◌, ◌^◌, IfOk, Some};
ghost use Rattle.gl_algebra.specs.Columns.{ConditionFits};
ghost use Rattle.gl_algebra.specs.Frames.{delay_of_count};
ghost use Rattle.gl_algebra.specs.Results.{counts_in};
ghost use Rattle.gl_values.specs.Totals.{count_of};
ghost use Rattle.gl_net.specs.Net.{IsBus};
ghost use Rattle.gl_frames.specs.Frames.{frame_of};
ghost use Rattle.gl_frames_stages.specs.Framing.{every};
ghost use Rattle.gl_frames_wire.specs.Reaches.{place_bits};
ghost use Rattle.gl_frames_slots.specs.ItemCosts.{cost_of_slot_count, cost_of_slot_number, cost_of_slot_passing};
ghost use Rattle.gl_frames_slots.specs.Items.{HasSlotInput, IsSlotItemIn};

use crate::items::SlotInput;
use crate::sum::{Wide, put_slot_wide_sum};
use gl_algebra::Operand;
use gl_bits::Memory;
use gl_frames_stages::number::put_at_most;
use gl_frames_wire::Reach;
use gl_net::{Bus, NetBuilder};
use gl_rows::operand::put_operand;
use gl_values::Kind;
use gl_wire::later;

/// The number of rows of a frame without a FILTER, one cycle behind each row.
pub(crate) fn put_slot_number(
    net: &mut NetBuilder,
    input: SlotInput,
    count: Bus,
    back: u32,
) -> Result<Bus, Memory>
    requires input { HasSlotInput net.old input }
    requires count { IsBus net.old count }
    requires back { back < 2 ^ 16 }
    requires bits { place_bits (back + 1) + 1 ≤ count.width }
    requires few { count.width ≤ 18 }
    ensures { IfOk result (IsSlotItemIn net.old net.new cost_of_slot_number 1 32
        (λ _ rows. count_of (frame_of (Some back) every rows)) input.entry count) }
{
    // The count is that of these rows.
    let _ = input;
    let rows = put_at_most(net, count, back)?;
    // Named, since a goal speaks of the value.
    let out = later(net, rows)?;
    Ok(out)
}

/// How many rows pass, of this row and so many of its slot before it, three cycles behind the row.
pub(crate) fn put_slot_passing(
    net: &mut NetBuilder,
    input: SlotInput,
    count: Bus,
    column: u16,
    back: u32,
) -> Result<Bus, Memory>
    requires input { HasSlotInput net.old input }
    requires count { IsBus net.old count }
    requires filter { ConditionFits input.source.kinds.now (Some column) }
    requires back { back < 2 ^ 16 }
    requires bits { place_bits (back + 1) + 1 ≤ count.width }
    requires address { input.rows.slot.width + place_bits (back + 1) ≤ 32 }
    ensures { IfOk result (
        let slot = input.entry.rows.slot.width in
        IsSlotItemIn net.old net.new (cost_of_slot_passing slot back) 3 32
        (λ _ rows. count_of (frame_of (Some back) (counts_in (Some column)) rows)) input.entry count) }
{
    let bit = put_operand(net, input.source, Operand::Column(column))?;
    let wide = Wide {
        kind: Kind::Unsigned(1),
        width: 32,
    };
    // Named, since a goal speaks of the value.
    let sum = put_slot_wide_sum(net, input.rows, count, Reach::new(back + 1), bit, wide)?;
    Ok(sum)
}

/// How many rows of a frame pass, of this row and so many of its slot before it.
pub fn put_slot_count_last(
    net: &mut NetBuilder,
    input: SlotInput,
    count: Bus,
    filter: Option<u16>,
    back: u32,
) -> Result<Bus, Memory>
    requires input { HasSlotInput net.old input }
    requires count { IsBus net.old count }
    requires filter { ConditionFits input.source.kinds.now filter }
    requires back { back < 2 ^ 16 }
    requires bits { place_bits (back + 1) + 1 ≤ count.width }
    requires address { input.rows.slot.width + place_bits (back + 1) ≤ 32 }
    requires few { count.width ≤ 18 }
    ensures { IfOk result (
        let slot = input.entry.rows.slot.width in
        IsSlotItemIn net.old net.new (cost_of_slot_count slot filter back)
        (delay_of_count filter (Some back)) 32
        (λ _ rows. count_of (frame_of (Some back) (counts_in filter) rows)) input.entry count) }
{
    match filter {
        Some(column) => put_slot_passing(net, input, count, column, back),
        None => put_slot_number(net, input, count, back),
    }
}
