//! Frames of each key: from the lane of its first keys to the wire that leaves.

ghost use Rattle.std.specs.Prelude.{◌≡◌, ◌+◌, ◌≤◌, All, IfOk, map};
ghost use Rattle.gl_algebra.specs.Columns.{FrameFits};
ghost use Rattle.gl_algebra.specs.Known.{FrameKnown};
ghost use Rattle.gl_values.specs.Kinds.{IsKind, width_of};
ghost use Rattle.gl_bits.specs.Words.{IsWidth};
ghost use Rattle.gl_net.specs.Net.{IsAddressWidth, IsBit, IsBus};
ghost use Rattle.gl_frames_wire.specs.Reaches.{IsPlaceWidth};
ghost use Rattle.gl_wire.specs.Wire.{IsWire, widths};
ghost use Rattle.gl_rows.specs.Made.{AreHeldBuses};
ghost use Rattle.gl_frames_slots.specs.Items.{IsSlotItem};
ghost use Rattle.gl_frames_slots.specs.KeyNets.{AreKeyFramesIn, AreKeyItemsIn, AreKeyRowsIn};
ghost use Rattle.gl_frames_slots.specs.Rows.{HasSlotRows};

use crate::count::put_slot_count;
use crate::items::{SlotInput, put_slot_items};
use crate::rows::SlotRows;
use gl_algebra::PlanFrame;
use gl_algebra::frames::delay_of_frames;
use gl_bits::Memory;
use gl_frames_lanes::{KeyLane, Keys};
use gl_frames_stages::Lines;
use gl_frames_stages::delay::{put_late_line, put_late_lines};
use gl_net::{Bit, NetBuilder};
use gl_rows::{Scope, Source};
use gl_wire::{Wire, later, later_bit, later_wire};
use std::alloc::Global;

/// How rows are parted by a key, how far back lags of a key reach, and how long rows wait.
#[derive(Clone, Copy)]
pub struct Partition {
    /// Which keys of a stream have a slot.
    pub keys: Keys,
    /// The bits of a place of the greatest ring.
    pub bits: u8,
    /// The cycles that rows wait beside those of the look-up.
    pub wait: u32,
}

/// The rows of the first keys beside their slots.
#[derive(Drop)]
pub struct KeyRows {
    /// The rows and the ends.
    pub wire: Wire,
    /// Their slots, and those of the next cycle.
    pub rows: SlotRows,
}

/// Frames of each key.
#[derive(Drop)]
pub struct KeyFrames {
    /// The row of all items for each row of the first keys, and the ends.
    pub wire: Wire,
    /// 1 for each row of a further key, as many cycles behind it as its slot would take to find,
    /// and as rows wait.
    pub further: Bit,
}

// The rows of a lane one cycle later, in which the slot of the next cycle is known.
fn put_key_rows(alloc: Global, net: &mut NetBuilder, lane: &KeyLane) -> Result<KeyRows, Memory>
    requires wire { IsWire net.old lane.now.wire }
    requires slot { IsBus net.old lane.now.slot }
    requires bits { IsAddressWidth lane.now.slot.width }
    requires first { IsBit net.old lane.now.first }
    ensures { IfOk result (AreKeyRowsIn net.old net.new lane.now) }
{
    let first = later_bit(net, lane.first)?;
    let slot = later(net, lane.slot)?;
    let wire = later_wire(alloc, net, &lane.wire)?;
    let rows = SlotRows {
        valid: wire.valid,
        first,
        slot,
        begins: lane.first,
        next: lane.slot,
    };
    Ok(KeyRows { wire, rows })
}

// The items of such rows, as many cycles later as rows wait, and the slowest takes.
fn put_key_items(
    alloc: Global,
    net: &mut NetBuilder,
    late: &KeyRows,
    partition: Partition,
    scope: Scope,
    items: &[PlanFrame],
) -> Result<Wire, Memory>
    requires wire { IsWire net.old late.now.wire }
    requires kinds { widths late.now.wire.columns ≡ map width_of scope.kinds.now }
    requires words { AreHeldBuses net.old scope.words.now }
    requires are_kinds { All IsKind scope.kinds.now }
    requires rows { HasSlotRows net.old late.now.rows }
    requires bits { IsPlaceWidth partition.bits }
    requires address { late.now.rows.slot.width + partition.bits ≤ 32 }
    requires wait { partition.wait ≤ 100 }
    requires fit { All (FrameFits scope.kinds.now) items.now }
    requires known { All (FrameKnown (widths scope.words.now)) items.now }
    requires slot_items { All (IsSlotItem partition.bits) items.now }
    ensures { IfOk result
        (AreKeyItemsIn net.old net.new late.now partition scope.entry.kinds.now items.now) }
{
    let cycles = partition.wait + delay_of_frames(scope.kinds, items);
    let count = put_slot_count(net, late.rows, partition.bits)?;
    let lines = Lines {
        valid: late.wire.valid,
        eos: late.wire.eos,
    };
    let out = put_late_lines(net, lines, cycles)?;
    let input = SlotInput {
        rows: late.rows,
        source: Source {
            columns: late.wire.columns.as_slice(),
            kinds: scope.kinds,
            words: scope.words,
        },
    };
    let columns = put_slot_items(alloc, net, input, count, items, cycles)?;
    Ok(Wire {
        valid: out.valid,
        eos: out.eos,
        columns,
    })
}

/// Behind each row of a lane of the first keys of a stream, what these items make of the rows of
/// its key up to it: one cycle more than they wait and the slowest item takes. All items are made
/// whose rings fit the partition's bits (`IsSlotItem`), whichever circuit put the lane.
pub fn put_key_frames(
    alloc: Global,
    net: &mut NetBuilder,
    lane: &KeyLane,
    partition: Partition,
    scope: Scope,
    items: &[PlanFrame],
) -> Result<KeyFrames, Memory>
    requires wire { IsWire net.old lane.now.wire }
    requires kinds { widths lane.now.wire.columns ≡ map width_of scope.kinds.now }
    requires words { AreHeldBuses net.old scope.words.now }
    requires slot { IsBus net.old lane.now.slot }
    requires slot_width { lane.now.slot.width ≡ partition.keys.width }
    requires first { IsBit net.old lane.now.first }
    requires further { IsBit net.old lane.now.further }
    requires are_kinds { All IsKind scope.kinds.now }
    requires width { IsWidth partition.keys.width }
    requires bits { IsPlaceWidth partition.bits }
    requires address { partition.keys.width + partition.bits ≤ 32 }
    requires wait { partition.wait ≤ 100 }
    requires fit { All (FrameFits scope.kinds.now) items.now }
    requires known { All (FrameKnown (widths scope.words.now)) items.now }
    requires slot_items { All (IsSlotItem partition.bits) items.now }
    ensures { IfOk result
        (AreKeyFramesIn net.old net.new partition scope.entry.kinds.now items.now lane.now) }
{
    let late = put_key_rows(alloc, net, lane)?;
    let out = put_key_items(alloc, net, &late, partition, scope, items)?;
    let further = put_late_line(net, lane.further, partition.wait)?;
    Ok(KeyFrames { wire: out, further })
}
