//! Each row with one more column for each operation.

ghost use Rattle.std.specs.Prelude.{◌≡◌, ◌++◌, All, IfOk, Some, length, map};
ghost use Rattle.gl_algebra.specs.Columns.{OpFits};
ghost use Rattle.gl_algebra.specs.Known.{OpKnown};
ghost use Rattle.gl_algebra.specs.FigureTable.{delayed, settled};
ghost use Rattle.gl_algebra.specs.Results.{computed};
ghost use Rattle.gl_values.specs.Kinds.{width_of};
ghost use Rattle.gl_net.specs.declared.node.Bus.{Bus};
ghost use Rattle.gl_rows.specs.Made.{AreHeldBuses};
ghost use Rattle.gl_rows.specs.Costs.{computed_widths, cost_of_rows};
ghost use Rattle.gl_wire.specs.Blocks.{IsBehind};
ghost use Rattle.gl_wire.specs.Shapes.{Mapped, Steady};
ghost use Rattle.gl_wire.specs.Wire.{IsWire, widths};

use crate::figures::later_figures;
use crate::operand::Source;
use crate::operation::put_operations;
use gl_algebra::{ColOp, Figures};
use gl_bits::Memory;
use gl_net::{Bus, Buses, NetBuilder};
use gl_values::Kind;
use gl_wire::laws::steady_serves;
use gl_wire::{Emitted, Operator, stage};
use std::alloc::Global;

/// Each row with one more column for each operation, over columns of these kinds.
#[derive(Clone, Copy)]
pub struct ComputeRow<'a> {
    /// The kinds of the columns that come in.
    pub kinds: &'a [Kind],
    /// The buses of the parameters, in the order of their numbers.
    pub words: &'a [Bus],
    /// The operations, one for each new column.
    pub ops: &'a [ColOp],
}

// The columns of both.
fn all_columns(alloc: Global, left: &[Bus], right: &[Bus]) -> Result<Buses, Memory>
    ensures { IfOk result (λ all. all ≡ left.now ++ right.now) }
{
    let mut columns = match Vec::from_slice(alloc, left) {
        Ok(columns) => columns,
        Err(_) => return Err(Memory),
    };
    match columns.extend_from_slice(right) {
        Ok(()) => Ok(Buses::from_vec(columns)),
        Err(_) => Err(Memory),
    }
}

/// One cycle later, each row with one more column for each operation.
pub fn put_compute(
    alloc: Global,
    net: &mut NetBuilder,
    below: Emitted,
    kinds: &[Kind],
    words: &[Bus],
    ops: &[ColOp],
) -> Result<Emitted, Memory>
    requires wire { IsWire net.old below.wire }
    requires kinds { widths below.wire.columns ≡ map width_of kinds.now }
    requires ops { All (OpFits kinds.now) ops.now }
    requires words { AreHeldBuses net.old words.now }
    requires known { All (OpKnown (widths words.now)) ops.now }
    ensures { IfOk result (IsBehind net.old net.new
        (λ sets. Steady 1 (λ row. Some (computed sets kinds.now ops.now row)))
        (computed_widths kinds.now ops.now)
        (cost_of_rows (computed_widths kinds.now ops.now) (length ops.now)) below) }
{
    let source = Source {
        columns: below.wire.columns.as_slice(),
        kinds,
        words,
    };
    let made = put_operations(alloc, net, source, ops)?;
    let columns = all_columns(alloc, below.wire.columns.as_slice(), made.as_slice())?;
    let wire = stage(
        alloc,
        net,
        below.wire.valid,
        below.wire.eos,
        columns.as_slice(),
    )?;
    Ok(Emitted {
        wire,
        faults: below.faults,
    })
}

impl Operator for ComputeRow<'_> {
    ghost takes = { λ s net columns. (columns ≡ map width_of s.kinds.now) × All (OpFits s.kinds.now) s.ops.now
        × AreHeldBuses net s.words.now × All (OpKnown (widths s.words.now)) s.ops.now };

    ghost gives = { λ s _. computed_widths s.kinds.now s.ops.now };

    ghost most = { λ s _. cost_of_rows (computed_widths s.kinds.now s.ops.now) (length s.ops.now) };

    ghost shape = { λ s sets. Steady 1 (λ row. Some (computed sets s.kinds.now s.ops.now row)) };

    ghost means = { λ s sets. Mapped (λ row. Some (computed sets s.kinds.now s.ops.now row)) };

    ghost figures_of = { λ _ f. settled (delayed 1 f) };

    fn figures(&self, source: Figures) -> Figures {
        later_figures(source)
    }

    fn emit(&self, alloc: Global, net: &mut NetBuilder, below: Emitted) -> Result<Emitted, Memory> {
        steady_serves();
        // Named, since a goal speaks of the value.
        let put = put_compute(alloc, net, below, self.kinds, self.words, self.ops)?;
        Ok(put)
    }
}
