//! One digit of a quotient.

ghost use Rattle.std.specs.Prelude.{◌≡◌, ◌<◌, IfOk};
ghost use Rattle.gl_net.specs.Net.{IsBus, IsBit};
ghost use Rattle.gl_divide.specs.Divider.{IsAtMost, IsDigit, IsHighest, IsShifted, IsTurned};

use gl_bits::{Memory, Word};
use gl_net::{BinaryOp, Bit, Bus, NetBuilder};
use gl_wire::either;

/// The highest bit of a bus.
pub fn highest(net: &mut NetBuilder, bus: Bus) -> Result<Bit, Memory>
    requires { IsBus net.old bus }
    ensures { IfOk result (IsHighest net.old net.new bus) }
{
    let out = net.cut(bus, bus.width - 1, bus.width - 1)?;
    Ok(out.bit())
}

/// A bus one place higher, with a line behind it; its highest bit is lost.
pub fn shift(net: &mut NetBuilder, bus: Bus, line: Bit) -> Result<Bus, Memory>
    requires bus { IsBus net.old bus }
    requires line { IsBit net.old line }
    ensures { IfOk result (IsShifted net.old net.new bus line) }
{
    if bus.width == 1 {
        return Ok(line.bus());
    }
    let low = net.cut(bus, bus.width - 2, 0)?;
    // Named, since a goal speaks of the value.
    let joined = net.join(low, line.bus())?;
    Ok(joined)
}

/// A line that is 1 where one bus carries at most what another does.
pub fn at_most(net: &mut NetBuilder, less: Bus, more: Bus) -> Result<Bit, Memory>
    requires less { IsBus net.old less }
    requires more { IsBus net.old more }
    requires widths { less.width ≡ more.width }
    ensures { IfOk result (IsAtMost net.old net.new less more) }
{
    let out = net.binary(BinaryOp::Le, less, more)?;
    Ok(out.bit())
}

/// A digit of the quotient, and what is left.
#[derive(Clone, Copy)]
pub struct Digit {
    /// The digit: 1 where the bottom fits.
    pub fits: Bit,
    /// What is left.
    pub left: Bus,
}

// The word 0.
fn zero_word() -> Word
    ensures bits { result.bits ≡ 0 }
    ensures width { result.width ≡ 1 }
{
    Word::new(0, 1).unwrap()
}

// The line that is 0 where the line is 1.
fn turn(net: &mut NetBuilder, line: Bit) -> Result<Bit, Memory>
    requires { IsBit net.old line }
    ensures { IfOk result (IsTurned net.old net.new line) }
{
    let out = net.not(line.bus())?;
    Ok(out.bit())
}

// The digit, by one difference of one more bit.
fn put_short(net: &mut NetBuilder, rest: Bus, bottom: Bus, next: Bit) -> Result<Digit, Memory>
    requires rest { IsBus net.old rest }
    requires bottom { IsBus net.old bottom }
    requires widths { rest.width ≡ bottom.width }
    requires short { bottom.width < 128 }
    requires next { IsBit net.old next }
    ensures { IfOk result (IsDigit net.old net.new rest bottom next) }
{
    let zero = net.constant(zero_word())?;
    let wide = net.join(zero, bottom)?;
    let more = net.join(rest, next.bus())?;
    let less = net.binary(BinaryOp::Sub, more, wide)?;
    let under = highest(net, less)?;
    let fits = turn(net, under)?;
    let kept = net.choose(under, more, less)?;
    let left = net.cut(kept, rest.width - 1, 0)?;
    Ok(Digit { fits, left })
}

// The digit, where no word has one more bit.
fn put_long(net: &mut NetBuilder, rest: Bus, bottom: Bus, next: Bit) -> Result<Digit, Memory>
    requires rest { IsBus net.old rest }
    requires bottom { IsBus net.old bottom }
    requires widths { rest.width ≡ bottom.width }
    requires next { IsBit net.old next }
    ensures { IfOk result (IsDigit net.old net.new rest bottom next) }
{
    let over = highest(net, rest)?;
    let more = shift(net, rest, next)?;
    let enough = at_most(net, bottom, more)?;
    let fits = either(net, over, enough)?;
    let less = net.binary(BinaryOp::Sub, more, bottom)?;
    let left = net.choose(fits, less, more)?;
    Ok(Digit { fits, left })
}

/// The digit of the quotient for one more digit of the top, behind what was left.
pub fn put_digit(net: &mut NetBuilder, rest: Bus, bottom: Bus, next: Bit) -> Result<Digit, Memory>
    requires rest { IsBus net.old rest }
    requires bottom { IsBus net.old bottom }
    requires widths { rest.width ≡ bottom.width }
    requires next { IsBit net.old next }
    ensures { IfOk result (IsDigit net.old net.new rest bottom next) }
{
    if bottom.width < 128 {
        return put_short(net, rest, bottom, next);
    }
    put_long(net, rest, bottom, next)
}
