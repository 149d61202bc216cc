//! Which slot has the key of a row, found in a tree: as many cycles behind the row as the tree has
//! levels its slot stands beside it.

ghost use Rattle.std.specs.Prelude.{◌<◌, ◌≤◌, ◌^◌, IfOk, length};
ghost use Rattle.gl_bits.specs.Words.{IsWidth};
ghost use Rattle.gl_wire.specs.Wire.{IsWire};
ghost use Rattle.gl_frames_tree.specs.TreeNets.{HasClimb, IsRaisedIn, IsRootIn, IsTreeLaneIn};

use crate::level::{Climb, put_level};
use gl_bits::Memory;
use gl_frames_lanes::{KeyLane, Keys};
use gl_net::NetBuilder;
use gl_wire::{Wire, but_not, note_bit, note_bus};
use gl_wire_registers::counters::latch;
use gl_wire_registers::numbers::never;
use gl_wire_registers::rows::same_buses;
use gl_wire_registers::word;
use std::alloc::Global;

// Rows at the root, which begins with the first row of a stream.
fn put_root(alloc: Global, net: &mut NetBuilder, wire: &Wire, width: u8) -> Result<Climb, Memory>
    requires wire { IsWire net.old wire.now }
    requires width { IsWidth width }
    ensures { IfOk result (IsRootIn net.old net.new wire.now width) }
{
    let node = net.constant(word(0, width))?;
    let goes_on = but_not(net, wire.valid, wire.eos)?;
    let begun = latch(net, goes_on, wire.eos)?;
    let fresh = but_not(net, wire.valid, begun)?;
    let lost = never(net)?;
    let columns = same_buses(alloc, wire.columns.as_slice())?;
    let wire = Wire {
        valid: wire.valid,
        eos: wire.eos,
        columns,
    };
    Ok(Climb {
        wire,
        node,
        next: node,
        fresh,
        lost,
    })
}

// Rows behind all levels: two bits of the key each, the highest first.
fn put_levels(
    alloc: Global,
    net: &mut NetBuilder,
    root: Climb,
    keys: Keys,
    levels: u8,
) -> Result<Climb, Memory>
    requires root { HasClimb net.old root.wire keys.width root }
    requires column { keys.column < length root.wire.columns }
    requires width { IsWidth keys.width }
    requires few { keys.width ≤ 31 }
    requires fits { keys.groups ≤ 2 ^ keys.width }
    requires levels { levels ≤ 64 }
    ensures { IfOk result (IsRaisedIn net.old net.new keys root levels levels) }
{
    let mut climb = root;
    for done in 0..levels {
        climb = put_level(alloc, net, &climb, keys, levels - 1 - done)?;
    }
    Ok(climb)
}

/// Behind each row of one of the first keys of its stream: the row, its slot, and whether its key
/// is new. As long behind a row of a further key a line tells of it.
pub fn put_tree_lane(
    alloc: Global,
    net: &mut NetBuilder,
    wire: &Wire,
    keys: Keys,
) -> Result<KeyLane, Memory>
    requires wire { IsWire net.old wire.now }
    requires column { keys.column < length wire.now.columns }
    requires some { 1 ≤ keys.groups }
    requires width { IsWidth keys.width }
    requires few { keys.width ≤ 31 }
    requires fits { keys.groups ≤ 2 ^ keys.width }
    ensures { IfOk result (IsTreeLaneIn net.old net.new keys wire.now) }
{
    let key = wire.columns.as_slice()[keys.column];
    let root = put_root(alloc, net, wire, keys.width)?;
    let climb = put_levels(alloc, net, root, keys, (key.width + 1) / 2)?;
    note_bus(net, b"slot", climb.node)?;
    note_bit(net, b"first", climb.fresh)?;
    Ok(KeyLane {
        wire: climb.wire,
        slot: climb.node,
        first: climb.fresh,
        further: climb.lost,
    })
}
