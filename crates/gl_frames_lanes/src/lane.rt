//! Which slot has the key of a row: two cycles behind the row its slot stands beside it. All slots
//! are compared with the key when it comes, and the cycle behind an end finds them free.

ghost use Rattle.std.specs.Prelude.{◌+◌, ◌<◌, ◌≤◌, ◌^◌, IfOk, length};
ghost use Rattle.gl_bits.specs.Words.{IsWidth};
ghost use Rattle.gl_net.specs.Net.{IsBit, IsBus};
ghost use Rattle.gl_wire.specs.Wire.{IsWire};
ghost use Rattle.gl_groups.specs.Finding.{HasSought};
ghost use Rattle.gl_frames_lanes.specs.LaneNets.{IsKeyLaneIn, IsLateIn, IsLookingIn, IsToldIn};

use gl_bits::Memory;
use gl_groups::finding::{Asking, Sought, find_slots};
use gl_net::{Bit, Bus, NetBuilder};
use gl_wire::{Wire, but_not, later, later_bit, later_wire, note_bit, note_bus, stage};
use gl_wire_registers::hold;
use std::alloc::Global;

/// Which keys of a stream have a slot.
#[derive(Clone, Copy)]
pub struct Keys {
    /// The place of the key's column among the source's columns.
    pub column: usize,
    /// How many keys, the first ones of the stream.
    pub groups: u32,
    /// The bits of a slot's number.
    pub width: u8,
}

/// The rows of the first keys of a stream on one wire.
#[derive(Drop)]
pub struct KeyLane {
    /// The rows of the first keys, and the ends.
    pub wire: Wire,
    /// The slot of the row's key.
    pub slot: Bus,
    /// 1 with the first row of a key.
    pub first: Bit,
    /// 1 where a row of a further key would stand.
    pub further: Bit,
}

/// What asks the slots.
#[derive(Drop)]
pub struct Looking {
    /// The source one cycle later.
    pub late: Wire,
    /// The key that is looked for.
    pub asking: Asking,
}

/// What the slots tell of a row.
#[derive(Clone, Copy)]
pub struct Told {
    /// 1 where one of them takes it.
    pub row: Bit,
    /// 1 where its key is new.
    pub first: Bit,
    /// The slot.
    pub slot: Bus,
}

// The source one cycle later, and the key that is looked for then.
fn look(alloc: Global, net: &mut NetBuilder, wire: &Wire, column: usize) -> Result<Looking, Memory>
    requires wire { IsWire net.old wire.now }
    requires column { column < length wire.now.columns }
    ensures { IfOk result (IsLookingIn net.old net.new wire.now column) }
{
    let here = wire.columns.as_slice()[column];
    let late = later_wire(alloc, net, wire)?;
    let last = hold(net, wire.valid, here)?;
    let free = later_bit(net, late.eos)?;
    let asking = Asking {
        free,
        ask: late.valid,
        last,
        come: wire.valid,
        here,
    };
    Ok(Looking { late, asking })
}

// What the slots tell of the row that came one cycle ago, in a number of `width` bits.
fn tell(net: &mut NetBuilder, valid: Bit, sought: &Sought, width: u8) -> Result<Told, Memory>
    requires valid { IsBit net.old valid }
    requires sought { HasSought net.old (width + 1) sought.now }
    requires width { IsWidth width }
    ensures { IfOk result (IsToldIn net.old net.new valid sought.now width) }
{
    let row = but_not(net, valid, sought.passes)?;
    let first = but_not(net, row, sought.one.one)?;
    let slot = net.cut(sought.place.number, width - 1, 0)?;
    Ok(Told { row, first, slot })
}

// The same one cycle later, with the ends and the columns.
fn put_late(
    alloc: Global,
    net: &mut NetBuilder,
    late: &Wire,
    passes: Bit,
    told: Told,
) -> Result<KeyLane, Memory>
    requires late { IsWire net.old late.now }
    requires passes { IsBit net.old passes }
    requires row { IsBit net.old told.row }
    requires first { IsBit net.old told.first }
    requires slot { IsBus net.old told.slot }
    ensures { IfOk result (IsLateIn net.old net.new late.now passes told) }
{
    let slot = later(net, told.slot)?;
    let first = later_bit(net, told.first)?;
    let further = later_bit(net, passes)?;
    note_bus(net, b"slot", slot)?;
    note_bit(net, b"first", first)?;
    let wire = stage(alloc, net, told.row, late.eos, late.columns.as_slice())?;
    Ok(KeyLane {
        wire,
        slot,
        first,
        further,
    })
}

/// Two cycles behind each row of one of the first keys of its stream: the row, its slot, and
/// whether its key is new. Two cycles behind a row of a further key a line tells of it.
pub fn put_key_lane(
    alloc: Global,
    net: &mut NetBuilder,
    wire: &Wire,
    keys: Keys,
) -> Result<KeyLane, Memory>
    requires wire { IsWire net.old wire.now }
    requires column { keys.column < length wire.now.columns }
    requires some { 1 ≤ keys.groups }
    requires width { IsWidth keys.width }
    requires few { keys.width ≤ 32 }
    requires fits { keys.groups ≤ 2 ^ keys.width }
    ensures { IfOk result (IsKeyLaneIn net.old net.new keys wire.now) }
{
    let looking = look(alloc, net, wire, keys.column)?;
    let found = find_slots(alloc, net, &looking.asking, keys.groups, keys.width + 1)?;
    let told = tell(net, looking.late.valid, &found.sought, keys.width)?;
    // Named, since a goal speaks of the value.
    let lane = put_late(alloc, net, &looking.late, found.sought.passes, told)?;
    Ok(lane)
}
