//! Notes for readers about the parts of lanes.

ghost use Rattle.std.specs.Prelude.{◌≡◌};

use crate::finding::{Asked, Many, One, Place, SlotsFound, Sought};
use crate::lane::{HeldEnd, Over, Told};
use gl_bits::Memory;
use gl_net::NetBuilder;
use gl_wire::{note_bit, note_bits, note_bus, note_buses};

// Tells whether a slot has a key.
fn note_one(net: &mut NetBuilder, one: One) -> Result<(), Memory>
    ensures { net.new ≡ net.old }
{
    note_bit(net, b"known", one.one)?;
    note_bit(net, b"had", one.had)
}

// Tells which slots a key asks.
fn note_asked(net: &mut NetBuilder, asked: &Asked) -> Result<(), Memory>
    ensures { net.new ≡ net.old }
{
    note_bits(net, b"next", asked.nexts.as_slice())?;
    note_bit(net, b"room", asked.room)?;
    note_bit(net, b"full", asked.full)
}

// Tells how many slots are used.
fn note_many(net: &mut NetBuilder, many: Many) -> Result<(), Memory>
    ensures { net.new ≡ net.old }
{
    note_bus(net, b"count", many.many)?;
    note_bus(net, b"base", many.base)
}

// Tells which slot has a key.
fn note_place(net: &mut NetBuilder, place: Place) -> Result<(), Memory>
    ensures { net.new ≡ net.old }
{
    note_bus(net, b"number", place.number)?;
    note_bus(net, b"home", place.home)
}

// Tells what slots make of the key of a row that came one cycle ago.
fn note_sought(net: &mut NetBuilder, sought: &Sought) -> Result<(), Memory>
    ensures { net.new ≡ net.old }
{
    note_bits(net, b"kept", sought.kept.as_slice())?;
    note_buses(net, b"key", sought.keys.as_slice())?;
    note_bits(net, b"hits", sought.hits.as_slice())?;
    note_bit(net, b"moved", sought.moved)?;
    note_one(net, sought.one)?;
    note_asked(net, &sought.asked)?;
    note_bit(net, b"new", sought.new)?;
    note_bit(net, b"passes", sought.passes)?;
    note_many(net, sought.many)?;
    note_place(net, sought.place)
}

/// Tells the slots that look for a key one cycle after its row came.
pub(crate) fn note_found(net: &mut NetBuilder, slots: &SlotsFound) -> Result<(), Memory>
    ensures { net.new ≡ net.old }
{
    note_bits(net, b"used", slots.used.as_slice())?;
    note_sought(net, &slots.sought)
}

/// Tells what came with the last end.
pub(crate) fn note_end(net: &mut NetBuilder, end: HeldEnd) -> Result<(), Memory>
    ensures { net.new ≡ net.old }
{
    note_bit(net, b"tail", end.with_end)?;
    note_bit(net, b"held", end.held)
}

/// Tells the turns of a flush.
pub(crate) fn note_over(net: &mut NetBuilder, over: Over) -> Result<(), Memory>
    ensures { net.new ≡ net.old }
{
    note_bus(net, b"rest", over.rest)?;
    note_bus(net, b"over", over.over)
}

/// Tells what one wire tells of the slots.
pub(crate) fn note_told(net: &mut NetBuilder, told: Told) -> Result<(), Memory>
    ensures { net.new ≡ net.old }
{
    note_bit(net, b"row", told.row)?;
    note_bit(net, b"end", told.end)?;
    note_bus(net, b"slot", told.slot)?;
    note_bit(net, b"new", told.key.new)?;
    note_bit(net, b"was", told.key.was)?;
    note_bit(net, b"first", told.first)
}
