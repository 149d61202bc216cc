//! Circuits of one block behind two columns at ports.

ghost use Rattle.std.specs.Prelude.{◌≡◌, ◌≤◌, ◌∷◌, [], All, IfOk, None, length, map, ℕ};
ghost use Rattle.gl_algebra.specs.Columns.{AggFits};
ghost use Rattle.gl_algebra.specs.Known.{AggKnown};
ghost use Rattle.gl_algebra.specs.FigureTable.{IsSound};
ghost use Rattle.gl_values.specs.Kinds.{IsKind, width_of};
ghost use Rattle.gl_bits.specs.Words.{IsWidth};
ghost use Rattle.gl_net.specs.Net.{Net, open_at};
ghost use Rattle.gl_blocks_tests.specs.Circuits.{IsSourceOf};

use gl_algebra::Figures;
use gl_bits::Memory;
use gl_divide::divide;
use gl_net::{Buses, NetBuilder, Netlist};
use gl_queue::UnionOf;
use gl_totals::Table;
use gl_values::Kind;
use gl_wire::{Emitted, Faults, Operator, Wire, pad};
use std::alloc::Global;

/// A netlist, and the wire that is looked at.
#[derive(Drop)]
pub struct Circuit {
    /// The netlist, finished.
    pub netlist: Netlist,
    /// The wire that is looked at.
    pub wire: Wire,
}

// No line that tells of a fault.
const NO_FAULTS: Faults = Faults {
    passed: None,
    further: None,
};

// Two columns at the ports of an empty netlist.
fn put_source(alloc: Global, net: &mut NetBuilder, first: u8, second: u8) -> Result<Emitted, Memory>
    requires ports { net.old.ports ≡ [] }
    requires undriven { (n : ℕ) → open_at net.old n ≡ None }
    requires first { IsWidth first }
    requires second { IsWidth second }
    ensures { IfOk result (IsSourceOf net.new first second) }
{
    let _rst = net.input(b"rst", 1)?;
    let valid = net.input(b"valid", 1)?;
    let eos = net.input(b"eos", 1)?;
    let a = net.input(b"a", first)?;
    let b = net.input(b"b", second)?;
    let mut columns = Buses::new(alloc);
    columns.push(a)?;
    columns.push(b)?;
    Ok(Emitted {
        wire: Wire {
            valid: valid.bit(),
            eos: eos.bit(),
            columns,
        },
        faults: NO_FAULTS,
    })
}

/// An operator behind columns of these two kinds.
pub(crate) fn circuit_of<O: Operator>(
    alloc: Global,
    first: Kind,
    second: Kind,
    operator: &O,
) -> Result<Circuit, Memory>
    requires first { IsKind first }
    requires second { IsKind second }
    requires takes { (net : Net)
        → O.takes operator.now net (width_of first ∷ width_of second ∷ []) }
{
    let mut net = NetBuilder::new(alloc);
    let source = put_source(alloc, &mut net, first.width(), second.width())?;
    let out = operator.emit(alloc, &mut net, source)?;
    net.module(b"tested")?;
    Ok(Circuit {
        netlist: net.finish(),
        wire: out.wire,
    })
}

/// A table behind columns of these two kinds, and the slot as its last column. Of the first column, which has three bits, the highest tells
/// where streams begin, and the others whose they are.
pub(crate) fn table_of(
    alloc: Global,
    first: Kind,
    second: Kind,
    table: &Table,
) -> Result<Circuit, Memory>
    requires first { IsKind first }
    requires bits { width_of first ≡ 3 }
    requires second { IsKind second }
    requires kinds { map width_of table.now.kinds.now ≡ width_of first ∷ width_of second ∷ [] }
    requires are_kinds { All IsKind table.now.kinds.now }
    requires aggs { All (AggFits table.now.kinds.now) table.now.aggs.now }
    requires some { 1 ≤ length table.now.aggs.now }
    requires words { table.now.words.now ≡ [] }
    requires known { All (AggKnown []) table.now.aggs.now }
{
    let mut net = NetBuilder::new(alloc);
    let source = put_source(alloc, &mut net, first.width(), second.width())?;
    let place = source.wire.columns.as_slice()[0];
    let slot = net.cut(place, 1, 0)?;
    let begins = net.cut(place, 2, 2)?;
    let out = table.emit(alloc, &mut net, &source.wire, slot, begins.bit())?;
    net.module(b"tested")?;
    let mut wire = out.wire;
    wire.columns.push(out.slot)?;
    Ok(Circuit {
        netlist: net.finish(),
        wire,
    })
}

/// The first column by the second, of these widths; `ready` is the valid line, and the end line is the stream's own.
pub(crate) fn divider_of(alloc: Global, first: u8, second: u8) -> Result<Circuit, Memory>
    requires first { IsWidth first }
    requires second { IsWidth second }
{
    let mut net = NetBuilder::new(alloc);
    let source = put_source(alloc, &mut net, first, second)?;
    let (top, bottom) = (
        source.wire.columns.as_slice()[0],
        source.wire.columns.as_slice()[1],
    );
    let quotient = divide(&mut net, top, bottom, source.wire.valid)?;
    net.module(b"tested")?;
    let mut columns = Buses::new(alloc);
    columns.push(quotient.value)?;
    Ok(Circuit {
        netlist: net.finish(),
        wire: Wire {
            valid: quotient.ready,
            eos: source.wire.eos,
            columns,
        },
    })
}

/// The columns, of these widths, `cycles` cycles later.
pub(crate) fn padded_of(
    alloc: Global,
    first: u8,
    second: u8,
    cycles: u32,
) -> Result<Circuit, Memory>
    requires first { IsWidth first }
    requires second { IsWidth second }
{
    let mut net = NetBuilder::new(alloc);
    let source = put_source(alloc, &mut net, first, second)?;
    let later = pad(alloc, &mut net, &source.wire, cycles)?;
    net.module(b"tested")?;
    Ok(Circuit {
        netlist: net.finish(),
        wire: later,
    })
}

/// A union of columns of these widths with themselves, whose sides have these figures.
pub(crate) fn union_of(
    alloc: Global,
    first: u8,
    second: u8,
    side: Figures,
) -> Result<Circuit, Memory>
    requires first { IsWidth first }
    requires second { IsWidth second }
    requires sound { IsSound side }
{
    let mut net = NetBuilder::new(alloc);
    let source = put_source(alloc, &mut net, first, second)?;
    let again = pad(alloc, &mut net, &source.wire, 0)?;
    let one = Emitted {
        wire: source.wire,
        faults: NO_FAULTS,
    };
    let other = Emitted {
        wire: again,
        faults: NO_FAULTS,
    };
    let union = UnionOf {
        left: side,
        right: side,
    };
    let out = union.emit(alloc, &mut net, one, other)?;
    net.module(b"tested")?;
    Ok(Circuit {
        netlist: net.finish(),
        wire: out.wire,
    })
}
