//! Of each row some values.

ghost use Rattle.std.specs.Prelude.{◌≡◌, All, IfOk, Some, map};
ghost use Rattle.gl_algebra.specs.Columns.{OperandFits};
ghost use Rattle.gl_algebra.specs.Known.{OperandKnown};
ghost use Rattle.gl_algebra.specs.FigureTable.{settled};
ghost use Rattle.gl_algebra.specs.Results.{projected};
ghost use Rattle.gl_values.specs.Kinds.{width_of};
ghost use Rattle.gl_rows.specs.Made.{AreHeldBuses};
ghost use Rattle.gl_rows.specs.Costs.{cost_of_items, projected_widths};
ghost use Rattle.gl_wire.specs.Blocks.{IsBehind};
ghost use Rattle.gl_wire.specs.Shapes.{Mapped, Steady};
ghost use Rattle.gl_wire.specs.Wire.{IsWire, widths};

use crate::operand::{Source, put_operands};
use gl_algebra::{Figures, Operand};
use gl_bits::Memory;
use gl_net::{Bus, NetBuilder};
use gl_values::Kind;
use gl_wire::laws::steady_serves;
use gl_wire::{Emitted, Operator, Wire, settled_figures};
use std::alloc::Global;

/// Of each row these values, over columns of these kinds.
#[derive(Clone, Copy)]
pub struct ProjectRow<'a> {
    /// The kinds of the columns that come in.
    pub kinds: &'a [Kind],
    /// The buses of the parameters, in the order of their numbers.
    pub words: &'a [Bus],
    /// The columns, literals and parameters that make a row.
    pub items: &'a [Operand],
}

/// In the same cycle, of each row these values.
pub fn put_project(
    alloc: Global,
    net: &mut NetBuilder,
    below: Emitted,
    kinds: &[Kind],
    words: &[Bus],
    items: &[Operand],
) -> Result<Emitted, Memory>
    requires wire { IsWire net.old below.wire }
    requires kinds { widths below.wire.columns ≡ map width_of kinds.now }
    requires items { All (OperandFits kinds.now) items.now }
    requires words { AreHeldBuses net.old words.now }
    requires known { All (OperandKnown (widths words.now)) items.now }
    ensures { IfOk result (IsBehind net.old net.new
        (λ sets. Steady 0 (λ row. Some (projected sets items.now row)))
        (projected_widths kinds.now items.now)
        (cost_of_items (projected_widths kinds.now items.now)) below) }
{
    let source = Source {
        columns: below.wire.columns.as_slice(),
        kinds,
        words,
    };
    let columns = put_operands(alloc, net, source, items)?;
    Ok(Emitted {
        wire: Wire {
            valid: below.wire.valid,
            eos: below.wire.eos,
            columns,
        },
        faults: below.faults,
    })
}

impl Operator for ProjectRow<'_> {
    ghost takes = { λ s net columns. (columns ≡ map width_of s.kinds.now) × All (OperandFits s.kinds.now) s.items.now
        × AreHeldBuses net s.words.now × All (OperandKnown (widths s.words.now)) s.items.now };

    ghost gives = { λ s _. projected_widths s.kinds.now s.items.now };

    ghost most = { λ s _. cost_of_items (projected_widths s.kinds.now s.items.now) };

    ghost shape = { λ s sets. Steady 0 (λ row. Some (projected sets s.items.now row)) };

    ghost means = { λ s sets. Mapped (λ row. Some (projected sets s.items.now row)) };

    ghost figures_of = { λ _. settled };

    fn figures(&self, source: Figures) -> Figures {
        settled_figures(source)
    }

    fn emit(&self, alloc: Global, net: &mut NetBuilder, below: Emitted) -> Result<Emitted, Memory> {
        steady_serves();
        // Named, since a goal speaks of the value.
        let put = put_project(alloc, net, below, self.kinds, self.words, self.items)?;
        Ok(put)
    }
}
