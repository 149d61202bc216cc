//! The row that came last, in registers, and the wires of copies.

ghost use Rattle.std.specs.Prelude.{◌≡◌, IfOk, length};
ghost use Rattle.gl_net.specs.Net.{IsBit};
ghost use Rattle.gl_wire.specs.Wire.{AreBuses};
ghost use Rattle.gl_wire_registers.specs.Lines.{AreBits};
ghost use Rattle.gl_wire_registers.specs.Rows.{AddsWire, AddsWires, HoldsRow};

use crate::counters::hold;
use crate::lines::Bits;
use gl_bits::{Listed, Memory};
use gl_net::{Bit, Bus, Buses, NetBuilder};
use gl_wire::{Wire, later_bit, note_buses};
use std::alloc::Global;

/// A wire for each copy.
pub type Wires = Listed<Wire>;

// For each column a register that takes it where the line is 1.
fn hold_each(
    alloc: Global,
    net: &mut NetBuilder,
    load: Bit,
    columns: &[Bus],
) -> Result<Buses, Memory>
    requires load { IsBit net.old load }
    requires columns { AreBuses net.old columns.now }
    ensures { IfOk result (HoldsRow net.old net.new load columns.now) }
{
    let mut all = Buses::new(alloc);
    for bus in columns {
        let register = hold(net, load, *bus)?;
        all.push(register)?;
    }
    Ok(all)
}

/// A list of the same buses.
pub fn same_buses(alloc: Global, buses: &[Bus]) -> Result<Buses, Memory>
    ensures { IfOk result (λ bs. bs ≡ buses.now) }
{
    match Vec::from_slice(alloc, buses) {
        Ok(columns) => Ok(Buses::from_vec(columns)),
        Err(_) => Err(Memory),
    }
}

// The wire of one copy: its lines a cycle later, beside the row.
fn copy_wire(
    alloc: Global,
    net: &mut NetBuilder,
    valid: Bit,
    end: Bit,
    row: &[Bus],
) -> Result<Wire, Memory>
    requires valid { IsBit net.old valid }
    requires end { IsBit net.old end }
    requires row { AreBuses net.old row.now }
    ensures { IfOk result (AddsWire net.old net.new valid end row.now) }
{
    let valid = later_bit(net, valid)?;
    let eos = later_bit(net, end)?;
    let columns = same_buses(alloc, row)?;
    Ok(Wire {
        valid,
        eos,
        columns,
    })
}

// For each copy a wire that carries a cycle later its lines, beside the row.
fn copy_each(
    alloc: Global,
    net: &mut NetBuilder,
    valids: &[Bit],
    ends: &[Bit],
    row: &[Bus],
) -> Result<Wires, Memory>
    requires valids { AreBits net.old valids.now }
    requires ends { AreBits net.old ends.now }
    requires count { length ends.now ≡ length valids.now }
    requires row { AreBuses net.old row.now }
    ensures { IfOk result (λ ws.
        AddsWires net.old net.new (length valids.now) valids.now ends.now row.now ws) }
{
    let mut all = Wires::new(alloc);
    for (i, valid) in valids.iter().enumerate() {
        let wire = copy_wire(alloc, net, *valid, ends[i], row)?;
        all.push(wire)?;
    }
    Ok(all)
}

/// For each column a register that takes it where the line is 1.
pub fn hold_all(
    alloc: Global,
    net: &mut NetBuilder,
    load: Bit,
    columns: &Buses,
) -> Result<Buses, Memory>
    requires load { IsBit net.old load }
    requires columns { AreBuses net.old columns.now }
    ensures { IfOk result (HoldsRow net.old net.new load columns.now) }
{
    // Named, since a goal speaks of the value.
    let row = hold_each(alloc, net, load, columns.as_slice())?;
    note_buses(net, b"row", row.as_slice())?;
    Ok(row)
}

/// For each copy a wire that carries a cycle later its lines, beside the row of the last tuple, which all copies share.
pub fn copy_wires(
    alloc: Global,
    net: &mut NetBuilder,
    valids: &Bits,
    ends: &Bits,
    row: &Buses,
) -> Result<Wires, Memory>
    requires valids { AreBits net.old valids.now }
    requires ends { AreBits net.old ends.now }
    requires count { length ends.now ≡ length valids.now }
    requires row { AreBuses net.old row.now }
    ensures { IfOk result (λ ws.
        AddsWires net.old net.new (length valids.now) valids.now ends.now row.now ws) }
{
    let wires = copy_each(
        alloc,
        net,
        valids.as_slice(),
        ends.as_slice(),
        row.as_slice(),
    )?;
    Ok(wires)
}
