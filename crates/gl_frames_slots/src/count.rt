//! How many rows of each slot came before a row: a word for each slot in a memory. The word of the
//! slot that comes next is read a cycle ahead, past what is written at once.

ghost use Rattle.std.specs.Prelude.{◌≡◌, ◌+◌, ◌^◌, IfOk};
ghost use Rattle.gl_net.specs.Net.{IsBit, IsBus};
ghost use Rattle.gl_frames_wire.specs.CountNets.{IsWoundIn};
ghost use Rattle.gl_frames_wire.specs.Reaches.{IsPlaceWidth};
ghost use Rattle.gl_totals.specs.Slots.{IsPassing};
ghost use Rattle.gl_frames_slots.specs.CountNets.{IsSlotCountIn};
ghost use Rattle.gl_frames_slots.specs.Rows.{HasSlotRows};

use crate::rows::SlotRows;
use gl_bits::{Memory, Word};
use gl_net::{BinaryOp, Bit, Bus, NetBuilder};
use gl_wire::{both, either, note_bus, same};
use gl_wire_lanes::put_memory;
use gl_wire_registers::word;

// How many words a ring has, in the bits of its count.
fn size_word(bits: u8) -> Word
    requires { IsPlaceWidth bits }
    ensures bits { result.bits ≡ 2 ^ bits }
    ensures width { result.width ≡ bits + 1 }
{
    word(1u128 << bits, bits + 1)
}

// The number behind which a count goes back to the size of its ring.
fn last_word(bits: u8) -> Word
    requires { IsPlaceWidth bits }
    ensures bits { result.bits + 1 ≡ 2 ^ bits + 2 ^ bits }
    ensures width { result.width ≡ bits + 1 }
{
    let size = 1u128 << bits;
    word(size + (size - 1), bits + 1)
}

/// One more where a row comes; behind the last number the size again.
pub(crate) fn put_wound(
    net: &mut NetBuilder,
    valid: Bit,
    count: Bus,
    bits: u8,
) -> Result<Bus, Memory>
    requires valid { IsBit net.old valid }
    requires count { IsBus net.old count }
    requires bits { IsPlaceWidth bits }
    requires width { count.width ≡ bits + 1 }
    ensures { IfOk result (IsWoundIn net.old net.new valid count (2 ^ bits)) }
{
    let one = net.constant(word(1, bits + 1))?;
    let last = net.constant(last_word(bits))?;
    let size = net.constant(size_word(bits))?;
    let more = net.binary(BinaryOp::Add, count, one)?;
    let full = same(net, count, last)?;
    let wound = net.choose(full, size, more)?;
    let now = net.choose(valid, wound, count)?;
    Ok(now)
}

/// The words of the slots, written with each row, and the word of the slot that comes next. What is
/// written at once is passed on.
pub(crate) fn put_passing(net: &mut NetBuilder, rows: SlotRows, now: Bus) -> Result<Bus, Memory>
    requires rows { HasSlotRows net.old rows }
    requires now { IsBus net.old now }
    ensures { IfOk result
        (IsPassing net.old net.new rows.valid rows.first rows.slot rows.next now) }
{
    let write = either(net, rows.valid, rows.first)?;
    let meets = same(net, rows.slot, rows.next)?;
    let passes = both(net, meets, write)?;
    let read = put_memory(net, rows.slot.width, write, rows.slot, rows.next, now)?;
    // Named, since a goal speaks of the value.
    let out = net.choose(passes, now, read)?;
    Ok(out)
}

/// The count of the rows of its slot before each row, which goes round above a ring of 2 ^ `bits`
/// words.
pub fn put_slot_count(net: &mut NetBuilder, rows: SlotRows, bits: u8) -> Result<Bus, Memory>
    requires rows { HasSlotRows net.old rows }
    requires bits { IsPlaceWidth bits }
    ensures { IfOk result (IsSlotCountIn net.old net.new rows bits) }
{
    let zero = word(0, bits + 1);
    let before = net.register(zero.width(), None)?;
    let now = put_wound(net, rows.valid, before, bits)?;
    let ahead = put_passing(net, rows, now)?;
    let again = net.constant(zero)?;
    let next = net.choose(rows.begins, again, ahead)?;
    net.drive(before, next)?;
    note_bus(net, b"count", before)?;
    Ok(before)
}
