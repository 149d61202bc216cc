//! Buses and lines some cycles later.

ghost use Rattle.std.specs.Prelude.{IfOk};
ghost use Rattle.gl_net.specs.Net.{IsBit, IsBus};
ghost use Rattle.gl_totals.specs.Delays.{IsBitBehind, IsBusBehind};

use gl_bits::Memory;
use gl_net::{Bit, Bus, NetBuilder};
use gl_wire::{later, later_bit, note_bit, note_bus};

/// A bus that carries what another does `cycles` cycles later.
pub fn delay_bus(net: &mut NetBuilder, bus: Bus, cycles: u32) -> Result<Bus, Memory>
    requires { IsBus net.old bus }
    ensures { IfOk result (IsBusBehind net.old net.new cycles bus) }
{
    let mut out = bus;
    for _cycle in 0..cycles {
        out = later(net, out)?;
        note_bus(net, b"stage", out)?;
    }
    Ok(out)
}

/// The same for a line, which is 0 before.
pub fn delay_bit(net: &mut NetBuilder, line: Bit, cycles: u32) -> Result<Bit, Memory>
    requires { IsBit net.old line }
    ensures { IfOk result (IsBitBehind net.old net.new cycles line) }
{
    let mut out = line;
    for _cycle in 0..cycles {
        out = later_bit(net, out)?;
        note_bit(net, b"stage", out)?;
    }
    Ok(out)
}
