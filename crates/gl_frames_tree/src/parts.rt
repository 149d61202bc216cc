//! Two bits of a key, and the four parts of a node's word: one for each child that it may have.

ghost use Rattle.std.specs.Prelude.{◌≡◌, ◌+◌, ◌*◌, ◌≤◌, IfOk};
ghost use Rattle.gl_bits.specs.Words.{IsWidth};
ghost use Rattle.gl_net.specs.Net.{IsBus};
ghost use Rattle.gl_frames_tree.specs.LevelNets.{AreJoinedIn, ArePartsIn, HasDigit, HasParts, IsBitOfIn, IsDigitIn, IsPickedIn};

use gl_bits::Memory;
use gl_net::{Bit, Bus, NetBuilder};
use gl_wire_registers::numbers::never;

/// Which of its node's children a row names: two bits of its key.
#[derive(Clone, Copy)]
pub struct Digit {
    /// The higher bit.
    pub high: Bit,
    /// The lower one.
    pub low: Bit,
}

/// The parts of a word, the lowest first.
#[derive(Clone, Copy)]
pub struct Parts {
    /// The part of the child 0.
    pub zero: Bus,
    /// The part of the child 1.
    pub one: Bus,
    /// The part of the child 2.
    pub two: Bus,
    /// The part of the child 3.
    pub three: Bus,
}

// A bit of a key, 0 above its width.
fn put_bit(net: &mut NetBuilder, key: Bus, at: u8) -> Result<Bit, Memory>
    requires key { IsBus net.old key }
    ensures { IfOk result (IsBitOfIn net.old net.new key at) }
{
    if at < key.width {
        let bus = net.cut(key, at, at)?;
        return Ok(bus.bit());
    }
    // Named, since a goal speaks of the value.
    let none = never(net)?;
    Ok(none)
}

/// The two bits of a key that so many pairs of lower bits are below.
pub fn put_digit(net: &mut NetBuilder, key: Bus, rest: u8) -> Result<Digit, Memory>
    requires key { IsBus net.old key }
    requires rest { rest ≤ 63 }
    ensures { IfOk result (IsDigitIn net.old net.new key rest) }
{
    let high = put_bit(net, key, 2 * rest + 1)?;
    let low = put_bit(net, key, 2 * rest)?;
    Ok(Digit { high, low })
}

/// The parts of a word, each of `width` bits.
pub fn put_parts(net: &mut NetBuilder, word: Bus, width: u8) -> Result<Parts, Memory>
    requires word { IsBus net.old word }
    requires width { IsWidth width }
    requires four { word.width ≡ 4 * width }
    ensures { IfOk result (ArePartsIn net.old net.new word width) }
{
    let zero = net.cut(word, width - 1, 0)?;
    let one = net.cut(word, 2 * width - 1, width)?;
    let two = net.cut(word, 3 * width - 1, 2 * width)?;
    let three = net.cut(word, 4 * width - 1, 3 * width)?;
    Ok(Parts {
        zero,
        one,
        two,
        three,
    })
}

/// The part of the child that a digit names.
pub fn pick_part(net: &mut NetBuilder, digit: Digit, parts: Parts, width: u8) -> Result<Bus, Memory>
    requires digit { HasDigit net.old digit }
    requires parts { HasParts net.old width parts }
    ensures { IfOk result (IsPickedIn net.old net.new digit parts width) }
{
    let upper = net.choose(digit.low, parts.three, parts.two)?;
    let lower = net.choose(digit.low, parts.one, parts.zero)?;
    let part = net.choose(digit.high, upper, lower)?;
    Ok(part)
}

/// The word of four parts.
pub fn join_parts(net: &mut NetBuilder, parts: Parts, width: u8) -> Result<Bus, Memory>
    requires parts { HasParts net.old width parts }
    requires width { IsWidth width }
    requires four { 4 * width ≤ 128 }
    ensures { IfOk result (AreJoinedIn net.old net.new parts width) }
{
    let upper = net.join(parts.three, parts.two)?;
    let more = net.join(upper, parts.one)?;
    let word = net.join(more, parts.zero)?;
    Ok(word)
}
