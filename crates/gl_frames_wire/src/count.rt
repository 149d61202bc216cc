//! The count of a stream's rows that goes round above a ring's size.

ghost use Rattle.std.specs.Prelude.{◌≡◌, ◌+◌, ◌^◌, IfOk};
ghost use Rattle.gl_net.specs.Net.{IsBit, IsBus};
ghost use Rattle.gl_frames_wire.specs.CountNets.{IsCountIn, IsWoundIn};
ghost use Rattle.gl_frames_wire.specs.Reaches.{IsPlaceWidth};

use crate::reach::{last_word, size_word, word};
use gl_bits::Memory;
use gl_net::{BinaryOp, Bit, Bus, NetBuilder};
use gl_wire::{note_bus, same};
use gl_wire_lanes::laws::one_is_single;

// One more where a row comes; behind the last number the size again.
fn put_wound(net: &mut NetBuilder, valid: Bit, count: Bus, bits: u8) -> Result<Bus, Memory>
    requires valid { IsBit net.old valid }
    requires count { IsBus net.old count }
    requires bits { IsPlaceWidth bits }
    requires width { count.width ≡ bits + 1 }
    ensures { IfOk result (IsWoundIn net.old net.new valid count (2 ^ bits)) }
{
    let one = net.constant(word(1, bits + 1))?;
    let last = net.constant(last_word(bits))?;
    let size = net.constant(size_word(bits))?;
    let more = net.binary(BinaryOp::Add, count, one)?;
    let full = same(net, count, last)?;
    let wound = net.choose(full, size, more)?;
    let now = net.choose(valid, wound, count)?;
    Ok(now)
}

/// The count of the rows before each row of streams one after another, in a register that begins
/// anew behind each end.
pub fn put_count(net: &mut NetBuilder, valid: Bit, eos: Bit, bits: u8) -> Result<Bus, Memory>
    requires valid { IsBit net.old valid }
    requires eos { IsBit net.old eos }
    requires bits { IsPlaceWidth bits }
    ensures { IfOk result (IsCountIn net.old net.new valid eos bits) }
{
    one_is_single();
    let zero = word(0, bits + 1);
    let before = net.register(zero.width(), Some(zero))?;
    let now = put_wound(net, valid, before, bits)?;
    let again = net.constant(zero)?;
    let next = net.choose(eos, again, now)?;
    net.drive(before, next)?;
    note_bus(net, b"count", before)?;
    Ok(before)
}
