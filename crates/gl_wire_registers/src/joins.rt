//! The wires and the lines of copies, joined.

ghost use Rattle.std.specs.Prelude.{◌≡◌, ◌<◌, ◌≤◌, IfOk, length};
ghost use Rattle.gl_net.specs.Net.{IsBit};
ghost use Rattle.gl_wire.specs.Faults.{AreLines};
ghost use Rattle.gl_wire_registers.specs.Joins.{AreCopies, HaveLines, JoinsAll, JoinsAlone, JoinsLines, faults_of, wires_of};

use crate::back::join_copies;
use crate::rows::{Wires, same_buses};
use gl_bits::Memory;
use gl_net::{Bit, NetBuilder};
use gl_wire::{Emitted, Faults, Wire, both_faults};
use std::alloc::Global;

// A copy of a wire.
fn same_wire(alloc: Global, wire: &Wire) -> Result<Wire, Memory>
    ensures { IfOk result (λ w. w ≡ wire.now) }
{
    let columns = same_buses(alloc, wire.columns.as_slice())?;
    Ok(Wire {
        valid: wire.valid,
        eos: wire.eos,
        columns,
    })
}

// The wires of copies.
fn copied_wires(alloc: Global, copies: &[Emitted]) -> Result<Wires, Memory>
    ensures { IfOk result (λ ws. ws ≡ wires_of copies.now) }
{
    let mut all = Wires::new(alloc);
    for copy in copies {
        let wire = same_wire(alloc, &copy.wire)?;
        all.push(wire)?;
    }
    Ok(all)
}

// The lines of the only copy; where there is none, none.
fn lines_of_few(copies: &[Emitted]) -> Faults
    requires { length copies.now < 2 }
    ensures { result ≡ faults_of copies.now }
{
    match copies.split_first() {
        None => Faults {
            passed: None,
            further: None,
        },
        Some((copy, _)) => copy.faults,
    }
}

// The lines of all copies together: those of the first half, and of the second.
fn lines_of_copies(net: &mut NetBuilder, copies: &[Emitted]) -> Result<Faults, Memory>
    requires { HaveLines net.old copies.now }
    ensures { IfOk result (JoinsAlone net.old net.new copies.now) }
{
    if copies.len() < 2 {
        let faults = lines_of_few(copies);
        return Ok(faults);
    }
    let (first, second) = copies.split_at(copies.len() / 2);
    let left = lines_of_copies(net, first)?;
    let right = lines_of_copies(net, second)?;
    let faults = both_faults(net, left, right)?;
    Ok(faults)
}

/// The lines of a source and of all copies together, by gates in a tree.
pub fn join_lines(
    net: &mut NetBuilder,
    source: Faults,
    copies: &[Emitted],
) -> Result<Faults, Memory>
    requires source { AreLines net.old source }
    requires copies { HaveLines net.old copies.now }
    ensures { IfOk result (JoinsLines net.old net.new source copies.now (length copies.now)) }
{
    if copies.is_empty() {
        return Ok(source);
    }
    let own = lines_of_copies(net, copies)?;
    let faults = both_faults(net, source, own)?;
    Ok(faults)
}

/// What all copies carry on one wire, a cycle later, with the ends of a line, and the lines of a source and of all copies together.
pub fn join_all(
    alloc: Global,
    net: &mut NetBuilder,
    source: Faults,
    close: Bit,
    copies: &[Emitted],
) -> Result<Emitted, Memory>
    requires source { AreLines net.old source }
    requires close { IsBit net.old close }
    requires copies { AreCopies net.old copies.now }
    requires some_copy { 1 ≤ length copies.now }
    ensures { IfOk result (JoinsAll net.old net.new source close copies.now) }
{
    let faults = join_lines(net, source, copies)?;
    let wires = copied_wires(alloc, copies)?;
    let columns = copies[0].wire.columns.as_slice();
    let wire = join_copies(alloc, net, wires.as_slice(), close, columns)?;
    Ok(Emitted { wire, faults })
}
