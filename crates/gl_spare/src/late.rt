//! A wire with late ends.

ghost use Rattle.std.specs.Prelude.{◌≡◌, ◌≤◌, IfOk};
ghost use Rattle.gl_wire.specs.Wire.{IsWire};
ghost use Rattle.gl_spare.specs.LateWires.{AddsLate, HasLate};

use gl_bits::Memory;
use gl_net::{Bit, NetBuilder};
use gl_wire::{Wire, both, but_not, either, note_bit, note_stage};
use gl_wire_registers::{choose_row, close_line, hold_all, latch, same_buses};
use std::alloc::Global;

// Tells a wire whose ends are late, and whether a tuple came with the last end.
fn note_late(net: &mut NetBuilder, had: Bit, last: Bit, wire: &Wire) -> Result<(), Memory>
    ensures { net.new ≡ net.old }
{
    note_bit(net, b"held", had)?;
    note_bit(net, b"last", last)?;
    note_stage(net, wire)
}

/// A wire that carries what another does, but for each end, which comes with its tuple `shift` cycles later.
#[tactic(auto, using(gl_wire::proofs::ColumnLemmas::bit_kept, gl_wire::proofs::ColumnLemmas::buses_kept))]
pub fn late_ends(
    alloc: Global,
    net: &mut NetBuilder,
    wire: &Wire,
    shift: u32,
) -> Result<Wire, Memory>
    requires wire { IsWire net.old wire.now }
    requires shift { 1 ≤ shift }
    ensures { IfOk result (AddsLate net.old net.new shift wire.now) }
{
    let fired = close_line(net, wire.eos, shift - 1, 0)?;
    let alone = but_not(net, wire.valid, wire.eos)?;
    let with_end = both(net, wire.eos, wire.valid)?;
    let had = latch(net, with_end, wire.eos)?;
    let held = hold_all(alloc, net, wire.valid, &wire.columns)?;
    let last = both(net, fired, had)?;
    let valid = either(net, alone, last)?;
    let columns = choose_row(alloc, net, fired, held.as_slice(), wire.columns.as_slice())?;
    let late = Wire {
        valid,
        eos: fired,
        columns,
    };
    note_late(net, had, last, &late)?;
    Ok(late)
}

/// The same, or the wire itself where ends are not late.
pub fn late_wire(
    alloc: Global,
    net: &mut NetBuilder,
    wire: &Wire,
    shift: u32,
) -> Result<Wire, Memory>
    requires wire { IsWire net.old wire.now }
    ensures { IfOk result (HasLate net.old net.new shift wire.now) }
{
    if shift == 0 {
        let columns = same_buses(alloc, wire.columns.as_slice())?;
        Ok(Wire {
            valid: wire.valid,
            eos: wire.eos,
            columns,
        })
    } else {
        let late = late_ends(alloc, net, wire, shift)?;
        Ok(late)
    }
}
