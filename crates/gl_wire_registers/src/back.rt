//! The back of copies: what they carry, on one wire.

ghost use Rattle.std.specs.Prelude.{◌≡◌, ◌<◌, IfOk, length};
ghost use Rattle.gl_net.specs.Net.{IsBit};
ghost use Rattle.gl_wire.specs.Wire.{AreBuses, widths};
ghost use Rattle.gl_wire_registers.specs.Backs.{AreWires, ChoosesRow, JoinsCopies, Merges, MergesTwo};

use crate::numbers::never;
use crate::rows::same_buses;
use gl_bits::Memory;
use gl_net::{Bit, Bus, Buses, NetBuilder};
use gl_wire::{Wire, either, note_bit, note_buses, stage};
use std::alloc::Global;

/// The tuple that one of some copies carries.
#[derive(Drop)]
pub struct Merged {
    /// 1 where one of them carries one.
    pub valid: Bit,
    /// Its columns.
    pub columns: Buses,
}

/// The first row where the line is 1, and else the second.
pub fn choose_row(
    alloc: Global,
    net: &mut NetBuilder,
    test: Bit,
    first: &[Bus],
    second: &[Bus],
) -> Result<Buses, Memory>
    requires test { IsBit net.old test }
    requires first { AreBuses net.old first.now }
    requires second { AreBuses net.old second.now }
    requires widths { widths second.now ≡ widths first.now }
    ensures { IfOk result (ChoosesRow net.old net.new test first.now second.now) }
{
    let mut all = Buses::new(alloc);
    for (i, bus) in first.iter().enumerate() {
        let chosen = net.choose(test, *bus, second[i])?;
        all.push(chosen)?;
    }
    Ok(all)
}

// What the only copy carries; where there is none, nothing, beside these columns.
fn merge_few(
    alloc: Global,
    net: &mut NetBuilder,
    wires: &[Wire],
    columns: &[Bus],
) -> Result<Merged, Memory>
    requires wires { AreWires net.old wires.now (widths columns.now) }
    requires columns { AreBuses net.old columns.now }
    requires few { length wires.now < 2 }
    ensures { IfOk result (Merges net.old net.new wires.now (widths columns.now)) }
{
    let Some((wire, _)) = wires.split_first() else {
        let valid = never(net)?;
        let columns = same_buses(alloc, columns)?;
        return Ok(Merged { valid, columns });
    };
    let columns = same_buses(alloc, wire.columns.as_slice())?;
    Ok(Merged {
        valid: wire.valid,
        columns,
    })
}

// Tells the lines of what copies carry.
fn note_merged(net: &mut NetBuilder, merged: &Merged) -> Result<(), Memory>
    ensures { net.new ≡ net.old }
{
    note_bit(net, b"turn", merged.valid)?;
    note_buses(net, b"row", merged.columns.as_slice())
}

// The tuples of the first copies, and else of the others.
fn merge_two(
    alloc: Global,
    net: &mut NetBuilder,
    first: &Merged,
    second: &Merged,
) -> Result<Merged, Memory>
    requires first_valid { IsBit net.old first.now.valid }
    requires first_columns { AreBuses net.old first.now.columns }
    requires second_valid { IsBit net.old second.now.valid }
    requires second_columns { AreBuses net.old second.now.columns }
    requires widths { widths second.now.columns ≡ widths first.now.columns }
    ensures { IfOk result (MergesTwo net.old net.new first.now second.now) }
{
    let left = first.columns.as_slice();
    let right = second.columns.as_slice();
    let columns = choose_row(alloc, net, first.valid, left, right)?;
    let valid = either(net, first.valid, second.valid)?;
    let merged = Merged { valid, columns };
    note_merged(net, &merged)?;
    Ok(merged)
}

// The tuples of all copies: of the first one that carries one, in the first half or else in the second.
fn merge_all(
    alloc: Global,
    net: &mut NetBuilder,
    wires: &[Wire],
    columns: &[Bus],
) -> Result<Merged, Memory>
    requires wires { AreWires net.old wires.now (widths columns.now) }
    requires columns { AreBuses net.old columns.now }
    ensures { IfOk result (Merges net.old net.new wires.now (widths columns.now)) }
{
    if wires.len() < 2 {
        let merged = merge_few(alloc, net, wires, columns)?;
        return Ok(merged);
    }
    let (first, second) = wires.split_at(wires.len() / 2);
    let left = merge_all(alloc, net, first, columns)?;
    let right = merge_all(alloc, net, second, columns)?;
    let merged = merge_two(alloc, net, &left, &right)?;
    Ok(merged)
}

/// The tuples of all copies on one wire, a cycle later, chosen in a tree, with the ends of a line. The columns are any of the copies' widths.
pub fn join_copies(
    alloc: Global,
    net: &mut NetBuilder,
    wires: &[Wire],
    close: Bit,
    columns: &[Bus],
) -> Result<Wire, Memory>
    requires wires { AreWires net.old wires.now (widths columns.now) }
    requires close { IsBit net.old close }
    requires columns { AreBuses net.old columns.now }
    ensures { IfOk result (JoinsCopies net.old net.new wires.now close (widths columns.now)) }
{
    let merged = merge_all(alloc, net, wires, columns)?;
    // Named, since a goal speaks of the value.
    let joined = stage(alloc, net, merged.valid, close, merged.columns.as_slice())?;
    Ok(joined)
}
