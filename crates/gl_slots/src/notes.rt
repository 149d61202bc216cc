//! Notes for readers about slots and the parts of fronts.

ghost use Rattle.std.specs.Prelude.{◌≡◌};

use crate::parts::{Flush, Tail, Turns};
use crate::slots::{Seen, SlotLines};
use gl_bits::Memory;
use gl_net::{Bus, NetBuilder};
use gl_wire::{note_bit, note_bits, note_bus, note_buses};

/// Tells the flush after an end.
pub(crate) fn note_flush(net: &mut NetBuilder, flush: Flush) -> Result<(), Memory>
    ensures { net.new ≡ net.old }
{
    note_bit(net, b"flush", flush.flush)?;
    note_bit(net, b"idle", flush.idle)?;
    note_bit(net, b"free", flush.free)?;
    note_bus(net, b"wait", flush.wait)?;
    note_bit(net, b"due", flush.due)
}

/// Tells the slot whose turn it is.
pub(crate) fn note_turns(net: &mut NetBuilder, turns: Turns) -> Result<(), Memory>
    ensures { net.new ≡ net.old }
{
    note_bus(net, b"rest", turns.rest)?;
    note_bus(net, b"at", turns.at)?;
    note_bit(net, b"trigger", turns.trigger)
}

/// Tells whether a slot that ends takes the row that came last.
pub(crate) fn note_tail(net: &mut NetBuilder, tail: Tail) -> Result<(), Memory>
    ensures { net.new ≡ net.old }
{
    note_bit(net, b"held", tail.held)?;
    note_bit(net, b"tail", tail.tail)
}

// Tells what slots make of a key.
fn note_seen(net: &mut NetBuilder, seen: &Seen) -> Result<(), Memory>
    ensures { net.new ≡ net.old }
{
    note_bits(net, b"kept", seen.kept.as_slice())?;
    note_bits(net, b"found", seen.found.as_slice())?;
    note_bit(net, b"known", seen.one)?;
    note_bits(net, b"next", seen.nexts.as_slice())?;
    note_bits(net, b"takes", seen.takes.as_slice())?;
    note_bits(net, b"has", seen.has.as_slice())?;
    note_bit(net, b"passes", seen.passes)
}

/// Tells the slots with their keys.
pub(crate) fn note_slots(net: &mut NetBuilder, slots: &SlotLines) -> Result<(), Memory>
    ensures { net.new ≡ net.old }
{
    note_bits(net, b"used", slots.used.as_slice())?;
    note_buses(net, b"key", slots.keys.as_slice())?;
    note_seen(net, &slots.seen)
}

/// Tells the marks of slots, and that of the slot with the key of the row that came last.
pub(crate) fn note_home(net: &mut NetBuilder, marks: &[Bus], home: Bus) -> Result<(), Memory>
    ensures { net.new ≡ net.old }
{
    note_buses(net, b"mark", marks)?;
    note_bus(net, b"home", home)
}
