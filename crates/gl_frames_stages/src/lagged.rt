//! What a column had so many rows before, one cycle later.

ghost use Rattle.std.specs.Prelude.{◌≡◌, ◌+◌, ◌<◌, ◌^◌, IfOk};
ghost use Rattle.gl_bits.specs.Words.{IsWidth};
ghost use Rattle.gl_net.specs.Net.{IsBit, IsBus};
ghost use Rattle.gl_frames_wire.specs.LagNets.{IsManyIn};
ghost use Rattle.gl_frames_wire.specs.Reaches.{IsReach};
ghost use Rattle.gl_frames_stages.specs.LaggedNets.{IsFoundIn, IsLaggedIn};

use crate::lines::Lines;
use gl_bits::{Memory, Word};
use gl_frames_wire::{Reach, put_count, put_ring};
use gl_net::{BinaryOp, Bit, Bus, NetBuilder};
use gl_wire::{later, later_bit, note_bus};

/// A value that may be absent.
#[derive(Clone, Copy)]
pub struct Maybe {
    /// 1 where it is there.
    pub some: Bit,
    /// The value.
    pub word: Bus,
}

/// A word of a number that fits it.
pub(crate) fn number_word(number: u128, width: u8) -> Word
    requires width { IsWidth width }
    requires fits { number < 2 ^ width }
    ensures bits { result.bits ≡ number }
    ensures width { result.width ≡ width }
{
    Word::new(number, width).unwrap()
}

// How far back a ring reaches, in the bits of its count.
fn back_word(reach: Reach) -> Word
    requires { IsReach reach }
    ensures bits { result.bits ≡ reach.back }
    ensures width { result.width ≡ reach.bits + 1 }
{
    number_word(u128::from(reach.back), reach.bits + 1)
}

// Whether a count is at least so many.
fn put_many(net: &mut NetBuilder, count: Bus, reach: Reach) -> Result<Bit, Memory>
    requires count { IsBus net.old count }
    requires reach { IsReach reach }
    requires width { count.width ≡ reach.bits + 1 }
    ensures { IfOk result (IsManyIn net.old net.new count reach) }
{
    let least = net.constant(back_word(reach))?;
    let there = net.binary(BinaryOp::Le, least, count)?;
    Ok(there.bit())
}

// What a column had so many rows before, in the cycle of the row.
fn put_found(net: &mut NetBuilder, lines: Lines, reach: Reach, value: Bus) -> Result<Maybe, Memory>
    requires valid { IsBit net.old lines.valid }
    requires eos { IsBit net.old lines.eos }
    requires reach { IsReach reach }
    requires value { IsBus net.old value }
    ensures { IfOk result (IsFoundIn net.old net.new lines reach value) }
{
    let count = put_count(net, lines.valid, lines.eos, reach.bits)?;
    let place = net.cut(count, reach.bits - 1, 0)?;
    let word = put_ring(net, lines.valid, place, reach, value)?;
    let some = put_many(net, count, reach)?;
    Ok(Maybe { some, word })
}

/// One cycle behind each row, what a column had so many rows before in the row's stream, where there
/// were so many.
pub fn put_lagged(
    net: &mut NetBuilder,
    lines: Lines,
    reach: Reach,
    value: Bus,
) -> Result<Maybe, Memory>
    requires valid { IsBit net.old lines.valid }
    requires eos { IsBit net.old lines.eos }
    requires reach { IsReach reach }
    requires value { IsBus net.old value }
    ensures { IfOk result (IsLaggedIn net.old net.new lines reach value) }
{
    let found = put_found(net, lines, reach, value)?;
    let some = later_bit(net, found.some)?;
    let word = later(net, found.word)?;
    note_bus(net, b"earlier", word)?;
    Ok(Maybe { some, word })
}
