//! Notes for readers about operators. None of them changes a netlist.

ghost use Rattle.std.specs.Prelude.{◌≡◌};

use gl_bits::Memory;
use gl_net::{Bit, NetBuilder, Note};
use gl_wire::{Emitted, Wire, note_bit, note_bus, note_faults, note_wire};
use gl_wire_lanes::TableOut;

/// Tells an operator's wire and its lines, and that its nodes end here.
pub(crate) fn note_circuit(net: &mut NetBuilder, e: &Emitted) -> Result<(), Memory>
    ensures { net.new ≡ net.old }
{
    note_wire(net, &e.wire)?;
    note_faults(net, e.faults)?;
    net.note(Note::Leave)
}

/// Tells the totals of all slots, and that the nodes of their operator end here.
pub(crate) fn note_table(net: &mut NetBuilder, out: &TableOut) -> Result<(), Memory>
    ensures { net.new ≡ net.old }
{
    note_wire(net, &out.wire)?;
    note_bus(net, b"slot", out.slot)?;
    net.note(Note::Leave)
}

/// Tells the wire and the two lines of an output.
pub(crate) fn note_output(
    net: &mut NetBuilder,
    wire: &Wire,
    group: Bit,
    queue: Bit,
) -> Result<(), Memory>
    ensures { net.new ≡ net.old }
{
    note_wire(net, wire)?;
    note_bit(net, b"fault_group", group)?;
    note_bit(net, b"fault_queue", queue)
}
