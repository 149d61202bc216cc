//! A timer in place of a long row of registers, for a line that is seldom 1.

ghost use Rattle.std.specs.Prelude.{◌≡◌, IfOk};
ghost use Rattle.gl_net.specs.Net.{IsBit};
ghost use Rattle.gl_wire_registers.specs.Timers.{IsCloseLine, IsLaterBy, IsTimer};

use crate::counters::{Counter, count_down, latch};
use crate::numbers::{always, when_equal};
use crate::widths::bits_to;
use gl_bits::Memory;
use gl_net::{Bit, Bus, NetBuilder};
use gl_wire::{later_bit, note_bit, note_bus};

// Tells the lines of a timer.
fn note_timer(net: &mut NetBuilder, left: Bus, on: Bit, fired: Bit) -> Result<(), Memory>
    ensures { net.new ≡ net.old }
{
    note_bus(net, b"timer", left)?;
    note_bit(net, b"running", on)?;
    note_bit(net, b"fired", fired)
}

/// A line that is 1 `cycles` + 1 cycles after the line `set` was 1, unless that was 1 again in between.
pub fn timer(net: &mut NetBuilder, set: Bit, cycles: u32) -> Result<Bit, Memory>
    requires { IsBit net.old set }
    ensures { IfOk result (IsTimer net.old net.new set cycles) }
{
    let one = always(net)?;
    let bits = bits_to(cycles);
    let counter = Counter {
        width: bits,
        start: 0,
        cleared: u128::from(cycles),
        again: 0,
    };
    let left = count_down(net, set, one, counter)?;
    let over = when_equal(net, one, left, 0)?;
    let on = latch(net, set, over)?;
    // Named, since a goal speaks of the value.
    let fired = when_equal(net, on, left, 0)?;
    note_timer(net, left, on, fired)?;
    Ok(fired)
}

/// A line `cycles` cycles behind another, which is 0 before.
pub fn later_by(net: &mut NetBuilder, line: Bit, cycles: u32) -> Result<Bit, Memory>
    requires { IsBit net.old line }
    ensures { IfOk result (IsLaterBy net.old net.new cycles line) }
{
    let mut last = line;
    for _cycle in 0..cycles {
        last = later_bit(net, last)?;
    }
    Ok(last)
}

/// The line of ends `cycles` + 1 + `more` cycles later, where ends are farther apart than the timer runs.
pub fn close_line(net: &mut NetBuilder, ends: Bit, cycles: u32, more: u32) -> Result<Bit, Memory>
    requires { IsBit net.old ends }
    ensures { IfOk result (IsCloseLine net.old net.new cycles more ends) }
{
    let fired = timer(net, ends, cycles)?;
    let close = later_by(net, fired, more)?;
    note_bit(net, b"close", close)?;
    Ok(close)
}
