//! A memory with one place to write and one to read.

ghost use Rattle.std.specs.Prelude.{◌≡◌, IfOk};
ghost use Rattle.gl_net.specs.Net.{IsAddressWidth, IsBit, IsBus};
ghost use Rattle.gl_wire_lanes.specs.Memories.{IsStored};

use gl_bits::Memory;
use gl_net::{Bit, Bus, NetBuilder};
use gl_wire::note_bus;

/// A memory whose places have numbers of `bits` bits: a value is written at `place` where `write` is 1, and what stands at the place `at` is
/// read in its own cycle.
pub fn put_memory(
    net: &mut NetBuilder,
    bits: u8,
    write: Bit,
    place: Bus,
    at: Bus,
    value: Bus,
) -> Result<Bus, Memory>
    requires bits { IsAddressWidth bits }
    requires write { IsBit net.old write }
    requires place { IsBus net.old place }
    requires place_width { place.width ≡ bits }
    requires at { IsBus net.old at }
    requires at_width { at.width ≡ bits }
    requires value { IsBus net.old value }
    ensures { IfOk result (IsStored net.old net.new bits write place at value) }
{
    let store = net.memory(bits, value.width)?;
    net.drive_memory(store, write, place, value)?;
    // Named, since a goal speaks of the value.
    let out = net.read(store, at)?;
    let memory = Bus {
        node: store.node,
        width: store.width,
    };
    note_bus(net, b"memory", memory)?;
    Ok(out)
}
