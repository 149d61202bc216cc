//! Registers that drive themselves: counters, pointers, latches, and registers that take a bus where a line is 1.

ghost use Rattle.std.specs.Prelude.{◌<◌, ◌^◌, IfOk};
ghost use Rattle.gl_bits.specs.Words.{IsWidth};
ghost use Rattle.gl_net.specs.Net.{IsBit, IsBus};
ghost use Rattle.gl_wire_registers.specs.Counters.{IsCounter, IsHold, IsLatch, IsNextCount, IsNextPointer, IsPointer};

use crate::numbers::{number_at, number_or, with_one, word};
use gl_bits::Memory;
use gl_net::{BinaryOp, Bit, Bus, NetBuilder};
use gl_wire::{but_not, either};

/// The numbers of a counter that goes down.
#[derive(Clone, Copy, PartialEq, Eq, Debug)]
pub struct Counter {
    /// The bits of its register.
    pub width: u8,
    /// What it begins at behind reset.
    pub start: u128,
    /// What it begins anew at where it is cleared.
    pub cleared: u128,
    /// What it begins again at from 0.
    pub again: u128,
}

/// The next value of a counter that goes down where `tick` is 1 and from 0 begins again at `again`.
pub fn next_count(net: &mut NetBuilder, counter: Bus, tick: Bit, again: u128) -> Result<Bus, Memory>
    requires counter { IsBus net.old counter }
    requires tick { IsBit net.old tick }
    requires again { again < 2 ^ counter.width }
    ensures { IfOk result (IsNextCount net.old net.new counter tick again) }
{
    let less = with_one(net, BinaryOp::Sub, counter)?;
    let ticked = number_at(net, counter, 0, again, less)?;
    // Named, since a goal speaks of the value.
    let kept = net.choose(tick, ticked, counter)?;
    Ok(kept)
}

/// A counter that goes down where `tick` is 1, and where `clear` is 1 begins anew.
pub fn count_down(
    net: &mut NetBuilder,
    clear: Bit,
    tick: Bit,
    counter: Counter,
) -> Result<Bus, Memory>
    requires clear { IsBit net.old clear }
    requires tick { IsBit net.old tick }
    requires width { IsWidth counter.width }
    requires start { counter.start < 2 ^ counter.width }
    requires cleared { counter.cleared < 2 ^ counter.width }
    requires again { counter.again < 2 ^ counter.width }
    ensures { IfOk result (IsCounter net.old net.new clear tick
        counter.width counter.start counter.cleared counter.again) }
{
    let start = word(counter.start, counter.width);
    let register = net.register(counter.width, Some(start))?;
    let kept = next_count(net, register, tick, counter.again)?;
    let next = number_or(net, clear, counter.cleared, kept)?;
    net.drive(register, next)?;
    Ok(register)
}

/// The next value of a pointer that goes up where `tick` is 1 and from `last` begins again at 0.
pub fn next_pointer(
    net: &mut NetBuilder,
    pointer: Bus,
    tick: Bit,
    last: u128,
) -> Result<Bus, Memory>
    requires pointer { IsBus net.old pointer }
    requires tick { IsBit net.old tick }
    requires last { last < 2 ^ pointer.width }
    ensures { IfOk result (IsNextPointer net.old net.new pointer tick last) }
{
    let more = with_one(net, BinaryOp::Add, pointer)?;
    let ticked = number_at(net, pointer, last, 0, more)?;
    let next = net.choose(tick, ticked, pointer)?;
    Ok(next)
}

/// A pointer of `width` bits that begins at 0, goes up where `tick` is 1, and from `last` begins again.
pub fn pointer(net: &mut NetBuilder, tick: Bit, width: u8, last: u128) -> Result<Bus, Memory>
    requires tick { IsBit net.old tick }
    requires width { IsWidth width }
    requires last { last < 2 ^ width }
    ensures { IfOk result (IsPointer net.old net.new tick width last) }
{
    let register = net.register(width, Some(word(0, width)))?;
    let next = next_pointer(net, register, tick, last)?;
    net.drive(register, next)?;
    Ok(register)
}

/// A line that is 1 from the cycle after `set` is 1 to that in which `clear` alone is.
pub fn latch(net: &mut NetBuilder, set: Bit, clear: Bit) -> Result<Bit, Memory>
    requires set { IsBit net.old set }
    requires clear { IsBit net.old clear }
    ensures { IfOk result (IsLatch net.old net.new set clear) }
{
    let register = net.register(1, Some(word(0, 1)))?;
    let kept = but_not(net, register.bit(), clear)?;
    let next = either(net, set, kept)?;
    net.drive(register, next.bus())?;
    Ok(register.bit())
}

/// A register that takes the bus where `load` is 1.
pub fn hold(net: &mut NetBuilder, load: Bit, bus: Bus) -> Result<Bus, Memory>
    requires load { IsBit net.old load }
    requires bus { IsBus net.old bus }
    ensures { IfOk result (IsHold net.old net.new load bus) }
{
    let register = net.register(bus.width, None)?;
    let next = net.choose(load, bus, register)?;
    net.drive(register, next)?;
    Ok(register)
}
