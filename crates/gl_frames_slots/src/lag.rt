//! What a column had so many rows of the same slot before: a ring for each slot in one memory.

ghost use Rattle.std.specs.Prelude.{◌≡◌, ◌+◌, ◌<◌, ◌≤◌, ◌^◌, IfOk};
ghost use Rattle.gl_bits.specs.Words.{IsWidth};
ghost use Rattle.gl_net.specs.Net.{IsBus};
ghost use Rattle.gl_frames_wire.specs.LagNets.{IsManyIn};
ghost use Rattle.gl_frames_wire.specs.Reaches.{IsReach};
ghost use Rattle.gl_frames_slots.specs.LagNets.{IsSlotFoundIn, IsSlotLaggedIn};
ghost use Rattle.gl_frames_slots.specs.Rows.{HasSlotRows};

use crate::rows::SlotRows;
use gl_bits::{Memory, Word};
use gl_frames_stages::lagged::Maybe;
use gl_frames_wire::{Reach, put_slot_ring};
use gl_net::{BinaryOp, Bit, Bus, NetBuilder};
use gl_wire::{later, later_bit, note_bus};
use gl_wire_registers::word;

// How far back a ring reaches, in so many bits.
fn back_word(reach: Reach, width: u8) -> Word
    requires width { IsWidth width }
    requires fits { reach.back < 2 ^ width }
    ensures bits { result.bits ≡ reach.back }
    ensures width { result.width ≡ width }
{
    word(u128::from(reach.back), width)
}

/// Whether a count is at least so many.
pub(crate) fn put_many(net: &mut NetBuilder, count: Bus, reach: Reach) -> Result<Bit, Memory>
    requires count { IsBus net.old count }
    requires fits { reach.back < 2 ^ count.width }
    ensures { IfOk result (IsManyIn net.old net.new count reach) }
{
    let least = net.constant(back_word(reach, count.width))?;
    let there = net.binary(BinaryOp::Le, least, count)?;
    Ok(there.bit())
}

// What a column had so many rows of the slot before, in the cycle of the row.
fn put_slot_found(
    net: &mut NetBuilder,
    rows: SlotRows,
    count: Bus,
    reach: Reach,
    value: Bus,
) -> Result<Maybe, Memory>
    requires rows { HasSlotRows net.old rows }
    requires count { IsBus net.old count }
    requires reach { IsReach reach }
    requires bits { reach.bits + 1 ≤ count.width }
    requires address { rows.slot.width + reach.bits ≤ 32 }
    requires value { IsBus net.old value }
    ensures { IfOk result
        (IsSlotFoundIn net.old net.new rows count reach value) }
{
    let place = net.cut(count, reach.bits - 1, 0)?;
    let word = put_slot_ring(net, rows.valid, rows.slot, place, reach, value)?;
    let some = put_many(net, count, reach)?;
    Ok(Maybe { some, word })
}

/// One cycle behind each row, what a column had so many rows of the same slot before, where there
/// were so many. The count is that of a ring of at least as many words.
pub fn put_slot_lagged(
    net: &mut NetBuilder,
    rows: SlotRows,
    count: Bus,
    reach: Reach,
    value: Bus,
) -> Result<Maybe, Memory>
    requires rows { HasSlotRows net.old rows }
    requires count { IsBus net.old count }
    requires reach { IsReach reach }
    requires bits { reach.bits + 1 ≤ count.width }
    requires address { rows.slot.width + reach.bits ≤ 32 }
    requires value { IsBus net.old value }
    ensures { IfOk result
        (IsSlotLaggedIn net.old net.new rows count reach value) }
{
    let found = put_slot_found(net, rows, count, reach, value)?;
    let some = later_bit(net, found.some)?;
    let word = later(net, found.word)?;
    note_bus(net, b"earlier", word)?;
    Ok(Maybe { some, word })
}
