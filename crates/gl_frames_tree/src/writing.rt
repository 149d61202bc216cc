//! What a row changes in its node's word, and the word of the row that comes next.

ghost use Rattle.std.specs.Prelude.{◌≡◌, ◌*◌, ◌≤◌, IfOk};
ghost use Rattle.gl_net.specs.Net.{IsAddressWidth, IsBit, IsBus};
ghost use Rattle.gl_frames_tree.specs.LevelNets.{AreTakesIn, AreWrittenIn, HasDigit, HasParts, HasTakes, IsAheadIn, IsNowIn, IsWordWrittenIn};

use crate::parts::{Digit, Parts, join_parts};
use gl_bits::Memory;
use gl_net::{Bit, Bus, NetBuilder};
use gl_wire::{both, but_not, either, same};
use gl_wire_lanes::put_memory;
use gl_wire_registers::number_or;

/// Which part of a word takes a child.
#[derive(Clone, Copy)]
pub struct Takes {
    /// 1 where the child 0 begins.
    pub zero: Bit,
    /// 1 where the child 1 begins.
    pub one: Bit,
    /// 1 where the child 2 begins.
    pub two: Bit,
    /// 1 where the child 3 begins.
    pub three: Bit,
}

/// A word with what a row changes in it.
#[derive(Clone, Copy)]
pub struct Written {
    /// The word.
    pub word: Bus,
    /// 1 where it is written.
    pub write: Bit,
}

// Which part takes the child that begins.
fn put_takes(net: &mut NetBuilder, make: Bit, digit: Digit) -> Result<Takes, Memory>
    requires make { IsBit net.old make }
    requires digit { HasDigit net.old digit }
    ensures { IfOk result (AreTakesIn net.old net.new make digit) }
{
    let upper = both(net, make, digit.high)?;
    let lower = but_not(net, make, digit.high)?;
    let three = both(net, upper, digit.low)?;
    let two = but_not(net, upper, digit.low)?;
    let one = both(net, lower, digit.low)?;
    let zero = but_not(net, lower, digit.low)?;
    Ok(Takes {
        zero,
        one,
        two,
        three,
    })
}

// A part with what a row changes in it: nothing is there where the node begins with the row.
fn put_now(
    net: &mut NetBuilder,
    part: Bus,
    takes: Bit,
    mark: Bus,
    fresh: Bit,
) -> Result<Bus, Memory>
    requires part { IsBus net.old part }
    requires takes { IsBit net.old takes }
    requires mark { IsBus net.old mark }
    requires widths { mark.width ≡ part.width }
    requires fresh { IsBit net.old fresh }
    ensures { IfOk result (IsNowIn net.old net.new part takes mark fresh) }
{
    let kept = number_or(net, fresh, 0, part)?;
    let now = net.choose(takes, mark, kept)?;
    Ok(now)
}

// All parts with what a row changes in them.
fn put_all_now(
    net: &mut NetBuilder,
    parts: Parts,
    takes: Takes,
    mark: Bus,
    fresh: Bit,
) -> Result<Parts, Memory>
    requires parts { HasParts net.old mark.width parts }
    requires takes { HasTakes net.old takes }
    requires mark { IsBus net.old mark }
    requires fresh { IsBit net.old fresh }
    ensures { IfOk result (AreWrittenIn net.old net.new parts takes mark fresh) }
{
    let zero = put_now(net, parts.zero, takes.zero, mark, fresh)?;
    let one = put_now(net, parts.one, takes.one, mark, fresh)?;
    let two = put_now(net, parts.two, takes.two, mark, fresh)?;
    let three = put_now(net, parts.three, takes.three, mark, fresh)?;
    Ok(Parts {
        zero,
        one,
        two,
        three,
    })
}

/// A node's word with what a row changes in it, and whether it is written.
pub fn put_written(
    net: &mut NetBuilder,
    parts: Parts,
    make: Bit,
    digit: Digit,
    mark: Bus,
    fresh: Bit,
) -> Result<Written, Memory>
    requires parts { HasParts net.old mark.width parts }
    requires make { IsBit net.old make }
    requires digit { HasDigit net.old digit }
    requires mark { IsBus net.old mark }
    requires four { 4 * mark.width ≤ 128 }
    requires fresh { IsBit net.old fresh }
    ensures { IfOk result (IsWordWrittenIn net.old net.new parts make digit mark fresh) }
{
    let takes = put_takes(net, make, digit)?;
    let now = put_all_now(net, parts, takes, mark, fresh)?;
    let word = join_parts(net, now, mark.width)?;
    let write = either(net, make, fresh)?;
    Ok(Written { word, write })
}

/// What stands one cycle later at the node of the row that comes next: what is written now, where
/// it is the same node, and else what its memory has.
pub fn put_ahead(
    net: &mut NetBuilder,
    bits: u8,
    written: Written,
    node: Bus,
    next: Bus,
) -> Result<Bus, Memory>
    requires bits { IsAddressWidth bits }
    requires word { IsBus net.old written.word }
    requires write { IsBit net.old written.write }
    requires node { IsBus net.old node }
    requires node_width { node.width ≡ bits }
    requires next { IsBus net.old next }
    requires next_width { next.width ≡ bits }
    ensures { IfOk result (IsAheadIn net.old net.new bits written node next) }
{
    let read = put_memory(net, bits, written.write, node, next, written.word)?;
    let meets = same(net, node, next)?;
    let passes = both(net, written.write, meets)?;
    let ahead = net.choose(passes, written.word, read)?;
    Ok(ahead)
}
