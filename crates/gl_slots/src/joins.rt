//! The wires of copies with the keys of their slots in front, and the lines of copies, joined.

ghost use Rattle.std.specs.Prelude.{◌≡◌, ◌≤◌, ◌∷◌, IfOk, length};
ghost use Rattle.gl_net.specs.Net.{IsBit};
ghost use Rattle.gl_wire.specs.Faults.{AreLines, IsLine};
ghost use Rattle.gl_slots.specs.Joins.{AreKeyBuses, AreKeyed, JoinsAll, JoinsFaults, keyed_wire};
ghost use Rattle.gl_wire_registers.specs.Joins.{AreCopies, HaveLines};

use gl_bits::Memory;
use gl_net::{Bit, Bus, Buses, NetBuilder};
use gl_wire::{Emitted, Faults, Wire, both_faults};
use gl_wire_registers::{Front, Wires, join_copies, join_lines};
use std::alloc::Global;

/// A bus in front of others.
pub fn with_first(alloc: Global, first: Bus, others: &[Bus]) -> Result<Buses, Memory>
    ensures { IfOk result (λ bs. bs ≡ first ∷ others.now) }
{
    let mut all = Buses::new(alloc);
    all.push(first)?;
    for bus in others {
        all.push(*bus)?;
    }
    Ok(all)
}

// A wire with a bus in front of its columns.
fn key_wire(alloc: Global, key: Bus, wire: &Wire) -> Result<Wire, Memory>
    ensures { IfOk result (λ w. w ≡ keyed_wire key wire.now) }
{
    let columns = with_first(alloc, key, wire.columns.as_slice())?;
    Ok(Wire {
        valid: wire.valid,
        eos: wire.eos,
        columns,
    })
}

/// The wires of copies, with the key of its slot in front of the columns of each.
pub fn key_wires(alloc: Global, copies: &[Emitted], keys: &[Bus]) -> Result<Wires, Memory>
    requires count { length keys.now ≡ length copies.now }
    ensures { IfOk result (AreKeyed copies.now keys.now (length copies.now)) }
{
    let mut all = Wires::new(alloc);
    for (i, copy) in copies.iter().enumerate() {
        let wire = key_wire(alloc, keys[i], &copy.wire)?;
        all.push(wire)?;
    }
    Ok(all)
}

/// These lines, and the line that tells of rows of further keys.
pub fn join_faults(
    net: &mut NetBuilder,
    source: Faults,
    further: Option<Bit>,
    copies: &[Emitted],
) -> Result<Faults, Memory>
    requires source { AreLines net.old source }
    requires further { IsLine net.old further }
    requires copies { HaveLines net.old copies.now }
    ensures { IfOk result (JoinsFaults net.old net.new source further copies.now) }
{
    let faults = join_lines(net, source, copies)?;
    let own = Faults {
        passed: None,
        further,
    };
    // Named, since a goal speaks of the value.
    let all = both_faults(net, faults, own)?;
    Ok(all)
}

/// What all copies behind a front carry on one wire, a cycle later, with their keys in front and the ends of its line, and all lines together.
pub fn join_all(
    alloc: Global,
    net: &mut NetBuilder,
    front: &Front,
    copies: &[Emitted],
) -> Result<Emitted, Memory>
    requires source { AreLines net.old front.now.source.faults }
    requires further { IsLine net.old front.now.further }
    requires close { IsBit net.old front.now.close }
    requires keys { AreKeyBuses net.old front.now.keys }
    requires keys_count { length front.now.keys ≡ length copies.now }
    requires copies { AreCopies net.old copies.now }
    requires some_copy { 1 ≤ length copies.now }
    ensures { IfOk result (JoinsAll net.old net.new front.now.source.faults front.now.further
        front.now.close front.now.keys copies.now) }
{
    let keys = front.keys.as_slice();
    let faults = join_faults(net, front.source.faults, front.further, copies)?;
    let wires = key_wires(alloc, copies, keys)?;
    let columns = with_first(alloc, keys[0], copies[0].wire.columns.as_slice())?;
    let wire = join_copies(
        alloc,
        net,
        wires.as_slice(),
        front.close,
        columns.as_slice(),
    )?;
    Ok(Emitted { wire, faults })
}
