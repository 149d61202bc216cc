//! Registers behind buses, lines and whole wires.

ghost use Rattle.std.specs.Prelude.{◌≡◌, IfOk};
ghost use Rattle.gl_net.specs.Net.{IsBus, IsBit};
ghost use Rattle.gl_wire.specs.Stages.{AreLater, IsLaterBus, IsLaterLine, IsPad};
ghost use Rattle.gl_wire.specs.Wire.{AreBuses, IsWire, wire_of};

use crate::notes::note_stage;
use crate::wire::Wire;
use gl_bits::{Memory, Word};
use gl_net::{Bit, Bus, Buses, NetBuilder};
use std::alloc::Global;

/// A register that carries in each cycle what the bus carried in the one before. What it carries in cycle 0 is not known.
pub fn later(net: &mut NetBuilder, bus: Bus) -> Result<Bus, Memory>
    requires { IsBus net.old bus }
    ensures { IfOk result (IsLaterBus net.old net.new bus) }
{
    let register = net.register(bus.width, None)?;
    net.drive(register, bus)?;
    Ok(register)
}

// The word 0 of one bit.
fn clear() -> Word
    ensures bits { result.bits ≡ 0 }
    ensures width { result.width ≡ 1 }
{
    Word::new(0, 1).unwrap()
}

/// The same for a line, which reset clears.
pub fn later_bit(net: &mut NetBuilder, line: Bit) -> Result<Bit, Memory>
    requires { IsBit net.old line }
    ensures { IfOk result (IsLaterLine net.old net.new line) }
{
    let register = net.register(1, Some(clear()))?;
    net.drive(register, line.bus())?;
    Ok(register.bit())
}

/// The same for each of some columns.
pub fn later_all(alloc: Global, net: &mut NetBuilder, columns: &[Bus]) -> Result<Buses, Memory>
    requires { AreBuses net.old columns.now }
    ensures { IfOk result (AreLater net.old net.new columns.now) }
{
    let mut all = Buses::new(alloc);
    for bus in columns {
        let register = later(net, *bus)?;
        all.push(register)?;
    }
    Ok(all)
}

/// A wire that carries one cycle later what these lines and columns carry together.
pub fn stage(
    alloc: Global,
    net: &mut NetBuilder,
    valid: Bit,
    eos: Bit,
    columns: &[Bus],
) -> Result<Wire, Memory>
    requires valid { IsBit net.old valid }
    requires eos { IsBit net.old eos }
    requires columns { AreBuses net.old columns.now }
    ensures { IfOk result (IsPad net.old net.new 1 (wire_of valid eos columns.now)) }
{
    let valid = later_bit(net, valid)?;
    let eos = later_bit(net, eos)?;
    let columns = later_all(alloc, net, columns)?;
    Ok(Wire {
        valid,
        eos,
        columns,
    })
}

/// A wire that carries what another does one cycle later.
pub fn later_wire(alloc: Global, net: &mut NetBuilder, wire: &Wire) -> Result<Wire, Memory>
    requires { IsWire net.old wire.now }
    ensures { IfOk result (IsPad net.old net.new 1 wire.now) }
{
    // Named, since a goal speaks of the value.
    let later = stage(alloc, net, wire.valid, wire.eos, wire.columns.as_slice())?;
    Ok(later)
}

// A copy of a wire.
fn copied(alloc: Global, wire: &Wire) -> Result<Wire, Memory>
    ensures { IfOk result (λ w. w ≡ wire.now) }
{
    match Vec::from_slice(alloc, wire.columns.as_slice()) {
        Ok(columns) => Ok(Wire {
            valid: wire.valid,
            eos: wire.eos,
            columns: Buses::from_vec(columns),
        }),
        Err(_) => Err(Memory),
    }
}

/// A wire that carries what another does `cycles` cycles later, and nothing before.
pub fn pad(alloc: Global, net: &mut NetBuilder, wire: &Wire, cycles: u32) -> Result<Wire, Memory>
    requires { IsWire net.old wire.now }
    ensures { IfOk result (IsPad net.old net.new cycles wire.now) }
{
    let mut padded = copied(alloc, wire)?;
    for _cycle in 0..cycles {
        padded = later_wire(alloc, net, &padded)?;
        note_stage(net, &padded)?;
    }
    Ok(padded)
}
