//! Notes for readers about several nodes at once. None of them changes a netlist.

ghost use Rattle.std.specs.Prelude.{◌≡◌};

use crate::emitted::Faults;
use crate::wire::Wire;
use gl_bits::Memory;
use gl_net::{Bit, Bus, NetBuilder, Note};

/// Tells the task of a bus in one word.
pub fn note_bus(net: &mut NetBuilder, word: &'static [u8], bus: Bus) -> Result<(), Memory>
    ensures { net.new ≡ net.old }
{
    net.note(Note::Role(word, 0, bus))
}

/// Tells the task of a line.
pub fn note_bit(net: &mut NetBuilder, word: &'static [u8], line: Bit) -> Result<(), Memory>
    ensures { net.new ≡ net.old }
{
    note_bus(net, word, line.bus())
}

/// Tells that each of these buses has this task.
pub fn note_buses(net: &mut NetBuilder, word: &'static [u8], buses: &[Bus]) -> Result<(), Memory>
    ensures { net.new ≡ net.old }
{
    for (at, bus) in buses.iter().enumerate() {
        net.note(Note::Role(word, at, *bus))?;
    }
    Ok(())
}

/// Tells that each of these lines has this task.
pub fn note_bits(net: &mut NetBuilder, word: &'static [u8], lines: &[Bit]) -> Result<(), Memory>
    ensures { net.new ≡ net.old }
{
    for (at, line) in lines.iter().enumerate() {
        net.note(Note::Role(word, at, line.bus()))?;
    }
    Ok(())
}

// Tells that a line has this task, where it is there.
fn note_line(net: &mut NetBuilder, word: &'static [u8], line: Option<Bit>) -> Result<(), Memory>
    ensures { net.new ≡ net.old }
{
    match line {
        Some(line) => note_bit(net, word, line),
        None => Ok(()),
    }
}

/// Tells the lines of a circuit that tell of faults.
pub fn note_faults(net: &mut NetBuilder, faults: Faults) -> Result<(), Memory>
    ensures { net.new ≡ net.old }
{
    note_line(net, b"queue", faults.passed)?;
    note_line(net, b"group", faults.further)
}

/// Tells the lines and the columns of a wire inside an operator.
pub fn note_stage(net: &mut NetBuilder, wire: &Wire) -> Result<(), Memory>
    ensures { net.new ≡ net.old }
{
    note_bit(net, b"row", wire.valid)?;
    note_bit(net, b"end", wire.eos)?;
    note_buses(net, b"stage", wire.columns.as_slice())
}

// Tells the columns of an operator.
fn note_columns(net: &mut NetBuilder, columns: &[Bus]) -> Result<(), Memory>
    ensures { net.new ≡ net.old }
{
    for (at, column) in columns.iter().enumerate() {
        net.note(Note::Column(at, *column))?;
    }
    Ok(())
}

/// Tells the lines and the columns of an operator's wire.
pub fn note_wire(net: &mut NetBuilder, wire: &Wire) -> Result<(), Memory>
    ensures { net.new ≡ net.old }
{
    net.note(Note::Valid(wire.valid))?;
    net.note(Note::Eos(wire.eos))?;
    note_columns(net, wire.columns.as_slice())
}
