//! Buses some cycles later, in registers or in a ring that turns in each cycle.

ghost use Rattle.std.specs.Prelude.{◌≤◌, ◌^◌, IfOk};
ghost use Rattle.gl_net.specs.Net.{IsBit, IsBus};
ghost use Rattle.gl_frames_stages.specs.DelayNets.{AreLinesLate, IsFarIn, IsFarLineIn, IsLateIn, IsLateLineIn};

use crate::lagged::put_lagged;
use crate::lines::Lines;
use crate::slide::put_or_none;
use gl_bits::Memory;
use gl_frames_wire::Reach;
use gl_net::{Bit, Bus, NetBuilder};
use gl_totals::delay::{delay_bit, delay_bus};
use gl_totals::fold::small_word;

// A bus that carries what another does so many cycles later, in a ring: each cycle is a row of one
// stream that never ends.
fn put_far(net: &mut NetBuilder, bus: Bus, cycles: u32) -> Result<Bus, Memory>
    requires bus { IsBus net.old bus }
    requires some { 2 ≤ cycles }
    requires most { cycles ≤ 2 ^ 16 }
    ensures { IfOk result (IsFarIn net.old net.new cycles bus) }
{
    let one = net.constant(small_word(true, 1))?;
    let zero = net.constant(small_word(false, 1))?;
    let lines = Lines {
        valid: one.bit(),
        eos: zero.bit(),
    };
    let late = put_lagged(net, lines, Reach::new(cycles - 1), bus)?;
    Ok(late.word)
}

// A line that shows what another does so many cycles later, and 0 before, in such a ring of bits.
fn put_far_line(net: &mut NetBuilder, line: Bit, cycles: u32) -> Result<Bit, Memory>
    requires line { IsBit net.old line }
    requires some { 2 ≤ cycles }
    requires most { cycles ≤ 2 ^ 16 }
    ensures { IfOk result (IsFarLineIn net.old net.new cycles line) }
{
    let one = net.constant(small_word(true, 1))?;
    let zero = net.constant(small_word(false, 1))?;
    let lines = Lines {
        valid: one.bit(),
        eos: zero.bit(),
    };
    let late = put_lagged(net, lines, Reach::new(cycles - 1), line.bus())?;
    let out = put_or_none(net, late)?;
    Ok(out.bit())
}

/// A line that shows what another does `cycles` cycles later, and 0 before: in registers where they
/// are few, and else in a ring.
pub fn put_late_line(net: &mut NetBuilder, line: Bit, cycles: u32) -> Result<Bit, Memory>
    requires line { IsBit net.old line }
    requires most { cycles ≤ 2 ^ 16 }
    ensures { IfOk result (IsLateLineIn net.old net.new cycles line) }
{
    if cycles <= 23 {
        let near = delay_bit(net, line, cycles)?;
        return Ok(near);
    }
    // Named, since a goal speaks of the value.
    let far = put_far_line(net, line, cycles)?;
    Ok(far)
}

/// Lines `cycles` cycles later, in what is cheaper.
pub fn put_late_lines(net: &mut NetBuilder, lines: Lines, cycles: u32) -> Result<Lines, Memory>
    requires valid { IsBit net.old lines.valid }
    requires eos { IsBit net.old lines.eos }
    requires most { cycles ≤ 2 ^ 16 }
    ensures { IfOk result (AreLinesLate net.old net.new cycles lines) }
{
    let valid = put_late_line(net, lines.valid, cycles)?;
    let eos = put_late_line(net, lines.eos, cycles)?;
    Ok(Lines { valid, eos })
}

/// A bus that carries what another does `cycles` cycles later: in registers where they are few, and
/// else in a ring.
pub fn put_late(net: &mut NetBuilder, bus: Bus, cycles: u32) -> Result<Bus, Memory>
    requires bus { IsBus net.old bus }
    requires most { cycles ≤ 2 ^ 16 }
    ensures { IfOk result (IsLateIn net.old net.new cycles bus) }
{
    if cycles <= 4 {
        let near = delay_bus(net, bus, cycles)?;
        return Ok(near);
    }
    // Named, since a goal speaks of the value.
    let far = put_far(net, bus, cycles)?;
    Ok(far)
}
