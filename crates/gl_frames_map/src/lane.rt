//! Which slot has the key of a row, read in memories: three cycles behind the row its slot stands
//! beside it.

ghost use Rattle.std.specs.Prelude.{◌<◌, ◌≤◌, ◌^◌, IfOk, length, slice_index};
ghost use Rattle.gl_bits.specs.Words.{IsWidth};
ghost use Rattle.gl_net.specs.Net.{IsBit, IsBus};
ghost use Rattle.gl_wire.specs.Wire.{IsWire, widths};
ghost use Rattle.gl_frames_map.specs.MapNets.{IsMapLaneIn, IsToldLateIn};

use crate::memories::count_keys;
use crate::passing::pass;
use crate::telling::Told;
use gl_bits::Memory;
use gl_frames_lanes::{KeyLane, Keys};
use gl_net::NetBuilder;
use gl_wire::{Wire, later, later_bit, note_bit, note_bus, stage};
use std::alloc::Global;

// What is told one cycle later, with the ends and the columns.
fn put_late(alloc: Global, net: &mut NetBuilder, late: &Wire, told: Told) -> Result<KeyLane, Memory>
    requires late { IsWire net.old late.now }
    requires row { IsBit net.old told.decision.row }
    requires first { IsBit net.old told.decision.first }
    requires further { IsBit net.old told.decision.further }
    requires slot { IsBus net.old told.slot }
    ensures { IfOk result (IsToldLateIn net.old net.new late.now told) }
{
    let slot = later(net, told.slot)?;
    let first = later_bit(net, told.decision.first)?;
    let further = later_bit(net, told.decision.further)?;
    note_bus(net, b"slot", slot)?;
    note_bit(net, b"first", first)?;
    let wire = stage(
        alloc,
        net,
        told.decision.row,
        late.eos,
        late.columns.as_slice(),
    )?;
    Ok(KeyLane {
        wire,
        slot,
        first,
        further,
    })
}

/// Three cycles behind each row of one of the first keys of its stream: the row, its slot, and
/// whether its key is new. Three cycles behind a row of a further key a line tells of it.
pub fn put_map_lane(
    alloc: Global,
    net: &mut NetBuilder,
    wire: &Wire,
    keys: Keys,
) -> Result<KeyLane, Memory>
    requires wire { IsWire net.old wire.now }
    requires column { keys.column < length wire.now.columns }
    requires narrow { slice_index (widths wire.now.columns) keys.column ≤ 32 }
    requires width { IsWidth keys.width }
    requires few { keys.width ≤ 32 }
    requires fits { keys.groups ≤ 2 ^ keys.width }
    ensures { IfOk result (IsMapLaneIn net.old net.new keys wire.now) }
{
    let passing = pass(alloc, net, wire, keys.column)?;
    let told = count_keys(net, keys, passing.asked)?;
    // Named, since a goal speaks of the value.
    let lane = put_late(alloc, net, &passing.late, told)?;
    Ok(lane)
}
