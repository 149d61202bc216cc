//! The rows whose column is 1.

ghost use Rattle.std.specs.Prelude.{◌≡◌, Some, slice_get, IfOk};
ghost use Rattle.gl_algebra.specs.FigureTable.{delayed, settled};
ghost use Rattle.gl_wire.specs.Blocks.{IsBehind};
ghost use Rattle.gl_wire.specs.Shapes.{Steady, Mapped, keep_where};
ghost use Rattle.gl_wire.specs.Wire.{IsWire, widths};
ghost use Rattle.gl_rows.specs.Costs.{cost_of_rows};

use crate::figures::later_figures;
use gl_algebra::Figures;
use gl_bits::Memory;
use gl_net::NetBuilder;
use gl_wire::laws::steady_serves;
use gl_wire::{Emitted, Operator, both, note_bit, stage};
use std::alloc::Global;

/// The rows whose column at this place, of one bit, is 1.
#[derive(Clone, Copy, PartialEq, Eq, Debug)]
pub struct SelectRow {
    /// The place of the column that is tested, counted from 0.
    pub column: usize,
}

/// One cycle later, the tuples whose column is 1.
pub fn put_select(
    alloc: Global,
    net: &mut NetBuilder,
    below: Emitted,
    column: usize,
) -> Result<Emitted, Memory>
    requires wire { IsWire net.old below.wire }
    requires column { slice_get (widths below.wire.columns) column ≡ Some 1 }
    ensures { IfOk result (IsBehind net.old net.new (λ _. Steady 1 (keep_where column))
        (widths below.wire.columns) (cost_of_rows (widths below.wire.columns) 0) below) }
{
    let test = below.wire.columns.as_slice()[column];
    let keep = both(net, below.wire.valid, test.bit())?;
    let wire = stage(
        alloc,
        net,
        keep,
        below.wire.eos,
        below.wire.columns.as_slice(),
    )?;
    note_bit(net, b"keep", keep)?;
    Ok(Emitted {
        wire,
        faults: below.faults,
    })
}

impl Operator for SelectRow {
    ghost takes = { λ s _ columns. slice_get columns s.column ≡ Some 1 };

    ghost gives = { λ _ columns. columns };

    ghost most = { λ _ columns. cost_of_rows columns 0 };

    ghost shape = { λ s _. Steady 1 (keep_where s.column) };

    ghost means = { λ s _. Mapped (keep_where s.column) };

    ghost figures_of = { λ _ f. settled (delayed 1 f) };

    fn figures(&self, source: Figures) -> Figures {
        later_figures(source)
    }

    fn emit(&self, alloc: Global, net: &mut NetBuilder, below: Emitted) -> Result<Emitted, Memory> {
        steady_serves();
        // Named, since a goal speaks of the value.
        let put = put_select(alloc, net, below, self.column)?;
        Ok(put)
    }
}
