//! The least and the greatest value of the last rows of each slot, by doubling: a ring for each
//! slot on every level.

ghost use Rattle.std.specs.Prelude.{◌≡◌, ◌+◌, ◌<◌, ◌≤◌, ◌^◌, IfOk};
ghost use Rattle.gl_net.specs.Net.{IsBus};
ghost use Rattle.gl_values.specs.Kinds.{width_of};
ghost use Rattle.gl_frames_stages.specs.DoublingNets.{AreWindows};
ghost use Rattle.gl_frames_stages.specs.LevelNets.{word_width};
ghost use Rattle.gl_frames_wire.specs.Reaches.{IsReach, place_bits};
ghost use Rattle.gl_frames_slots.specs.BestNets.{IsSlotBestIn, IsSlotDoubledIn, IsSlotLevelIn};
ghost use Rattle.gl_frames_slots.specs.Rows.{HasSlotRows};

use crate::lag::put_slot_lagged;
use crate::stages::{CountedRows, put_counted_later};
use gl_bits::Memory;
use gl_frames_stages::doubling::Windows;
use gl_frames_stages::level::{Order, put_kept, put_stays};
use gl_frames_wire::Reach;
use gl_net::{Bus, NetBuilder};
use gl_wire::later;

/// Two cycles behind each row, the better of what the column had so many rows of its slot before and
/// of what it has. The comparison has a cycle of its own.
pub fn put_slot_level(
    net: &mut NetBuilder,
    counted: CountedRows,
    reach: Reach,
    order: Order,
    value: Bus,
) -> Result<Bus, Memory>
    requires rows { HasSlotRows net.old counted.rows }
    requires count { IsBus net.old counted.count }
    requires reach { IsReach reach }
    requires bits { reach.bits + 1 ≤ counted.count.width }
    requires address { counted.rows.slot.width + reach.bits ≤ 32 }
    requires value { IsBus net.old value }
    requires width { value.width ≡ word_width order }
    requires some { 1 ≤ width_of order.kind }
    ensures { IfOk result (IsSlotLevelIn net.old net.new counted reach order value) }
{
    let found = put_slot_lagged(net, counted.rows, counted.count, reach, value)?;
    let own = later(net, value)?;
    let stays = put_stays(net, found, own, order)?;
    // Named, since a goal speaks of the value.
    let out = put_kept(net, stays, found.word, own)?;
    Ok(out)
}

/// Two cycles a doubling behind each row, the best of all rows of its slot in a frame, from a column
/// of the best of some. There are no more than `more` rows to come.
pub fn put_slot_doubled(
    net: &mut NetBuilder,
    counted: CountedRows,
    more: u32,
    windows: Windows,
    order: Order,
    value: Bus,
) -> Result<Bus, Memory>
    requires rows { HasSlotRows net.old counted.rows }
    requires count { IsBus net.old counted.count }
    requires few { counted.count.width ≤ 18 }
    requires windows { AreWindows more windows }
    requires bits { place_bits windows.all + 1 ≤ counted.count.width }
    requires address { counted.rows.slot.width + place_bits windows.all ≤ 32 }
    requires value { IsBus net.old value }
    requires width { value.width ≡ word_width order }
    requires some { 1 ≤ width_of order.kind }
    ensures { IfOk result
        (IsSlotDoubledIn net.old net.new counted more windows order value) }
{
    let rows = windows.rows;
    let all = windows.all;
    if all <= rows {
        return Ok(value);
    }
    let gap = rows.min(all - rows);
    let wide = put_slot_level(net, counted, Reach::new(gap), order, value)?;
    let late = put_counted_later(net, counted)?;
    let next = Windows {
        rows: rows + gap,
        all,
    };
    // Named, since a goal speaks of the value.
    let out = put_slot_doubled(net, late, more - 1, next, order, wide)?;
    Ok(out)
}

/// The best of the last rows of each slot, each row and so many before it: two cycles for each
/// doubling, and one, behind the row.
pub fn put_slot_best(
    net: &mut NetBuilder,
    counted: CountedRows,
    back: u32,
    order: Order,
    value: Bus,
) -> Result<Bus, Memory>
    requires rows { HasSlotRows net.old counted.rows }
    requires count { IsBus net.old counted.count }
    requires few { counted.count.width ≤ 18 }
    requires back { back < 2 ^ 16 }
    requires bits { place_bits (back + 1) + 1 ≤ counted.count.width }
    requires address { counted.rows.slot.width + place_bits (back + 1) ≤ 32 }
    requires value { IsBus net.old value }
    requires width { value.width ≡ word_width order }
    requires some { 1 ≤ width_of order.kind }
    ensures { IfOk result (IsSlotBestIn net.old net.new counted back order value) }
{
    let windows = Windows {
        rows: 1,
        all: back + 1,
    };
    let best = put_slot_doubled(net, counted, back, windows, order, value)?;
    // Named, since a goal speaks of the value.
    let out = later(net, best)?;
    Ok(out)
}
