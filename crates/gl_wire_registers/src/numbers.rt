//! Lines and buses that carry a number, and tests of a bus against one.

ghost use Rattle.std.specs.Prelude.{◌≡◌, ◌<◌, ◌^◌, IfOk};
ghost use Rattle.gl_bits.specs.Words.{IsWidth};
ghost use Rattle.gl_net.specs.Net.{IsBit, IsBus};
ghost use Rattle.gl_wire_registers.specs.Numbers.{IsAlways, IsNever, IsNumberAt, IsNumberOr, IsWhenEqual, IsWithOne};

use gl_bits::{Memory, Word};
use gl_net::{BinaryOp, Bit, Bus, NetBuilder};
use gl_wire::both;

/// A word of a number that fits it.
pub fn word(number: u128, width: u8) -> Word
    requires width { IsWidth width }
    requires fits { number < 2 ^ width }
    ensures bits { result.bits ≡ number }
    ensures width { result.width ≡ width }
{
    Word::new(number, width).unwrap()
}

/// A line that is 1 where another one is and a register holds the number.
pub fn when_equal(
    net: &mut NetBuilder,
    line: Bit,
    register: Bus,
    number: u128,
) -> Result<Bit, Memory>
    requires line { IsBit net.old line }
    requires register { IsBus net.old register }
    requires fits { number < 2 ^ register.width }
    ensures { IfOk result (IsWhenEqual net.old net.new line register number) }
{
    let number = net.constant(word(number, register.width))?;
    let same = net.binary(BinaryOp::Eq, register, number)?;
    // Named, since a goal speaks of the value.
    let bit = both(net, line, same.bit())?;
    Ok(bit)
}

/// A line that is 1 in no cycle.
pub fn never(net: &mut NetBuilder) -> Result<Bit, Memory>
    ensures { IfOk result (IsNever net.old net.new) }
{
    let bus = net.constant(word(0, 1))?;
    Ok(bus.bit())
}

/// A line that is 1 in each cycle after the reset cycle.
pub fn always(net: &mut NetBuilder) -> Result<Bit, Memory>
    ensures { IfOk result (IsAlways net.old net.new) }
{
    let bus = net.constant(word(1, 1))?;
    Ok(bus.bit())
}

/// The number where the line is 1, and else the other bus.
pub fn number_or(net: &mut NetBuilder, line: Bit, number: u128, other: Bus) -> Result<Bus, Memory>
    requires line { IsBit net.old line }
    requires other { IsBus net.old other }
    requires fits { number < 2 ^ other.width }
    ensures { IfOk result (IsNumberOr net.old net.new line number other) }
{
    let number = net.constant(word(number, other.width))?;
    let chosen = net.choose(line, number, other)?;
    Ok(chosen)
}

/// The number where the bus carries a certain one, and else the other bus.
pub fn number_at(
    net: &mut NetBuilder,
    bus: Bus,
    at: u128,
    number: u128,
    other: Bus,
) -> Result<Bus, Memory>
    requires bus { IsBus net.old bus }
    requires at { at < 2 ^ bus.width }
    requires other { IsBus net.old other }
    requires fits { number < 2 ^ other.width }
    ensures { IfOk result (IsNumberAt net.old net.new bus at number other) }
{
    let at = net.constant(word(at, bus.width))?;
    let same = net.binary(BinaryOp::Eq, bus, at)?;
    let chosen = number_or(net, same.bit(), number, other)?;
    Ok(chosen)
}

/// The bus with the operation on 1.
pub fn with_one(net: &mut NetBuilder, op: BinaryOp, bus: Bus) -> Result<Bus, Memory>
    requires { IsBus net.old bus }
    ensures { IfOk result (IsWithOne net.old net.new op bus) }
{
    let one = net.constant(word(1, bus.width))?;
    let made = net.binary(op, bus, one)?;
    Ok(made)
}
