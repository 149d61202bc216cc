//! All aggregates of a node.

ghost use Rattle.std.specs.Prelude.{◌≡◌, All, IfOk, map};
ghost use Rattle.gl_algebra.specs.Columns.{AggFits};
ghost use Rattle.gl_algebra.specs.Known.{AggKnown};
ghost use Rattle.gl_algebra.specs.FigureTable.{aggregate_figures, delay_of_aggs};
ghost use Rattle.gl_values.specs.Kinds.{IsKind, width_of};
ghost use Rattle.gl_rows.specs.Made.{AreHeldBuses};
ghost use Rattle.gl_totals.specs.Costs.{cost_of_aggs};
ghost use Rattle.gl_totals.specs.Totals.{total_row, total_widths};
ghost use Rattle.gl_wire.specs.Blocks.{IsBehind};
ghost use Rattle.gl_wire.specs.Shapes.{AtEnds, Totalled};
ghost use Rattle.gl_wire.specs.Wire.{IsWire, widths};

use crate::delay::delay_bit;
use crate::rows::{Keep, Rows};
use crate::total::{Stream, put_aggs};
use gl_algebra::table::delay_of_aggs;
use gl_algebra::{Figures, PlanAgg};
use gl_bits::Memory;
use gl_net::{Bus, NetBuilder};
use gl_rows::Source;
use gl_values::Kind;
use gl_wire::laws::ends_serve;
use gl_wire::{Emitted, Operator, Wire, total_figures};
use gl_wire_lanes::laws::one_is_single;
use std::alloc::Global;

/// One row with each end: these aggregates side by side, over columns of these kinds.
#[derive(Clone, Copy)]
pub struct Totals<'a> {
    /// The kinds of the columns that come in.
    pub kinds: &'a [Kind],
    /// The buses of the parameters, in the order of their numbers.
    pub words: &'a [Bus],
    /// The aggregates, one for each column of the row.
    pub aggs: &'a [PlanAgg],
}

/// As many cycles after each end as the slowest aggregate takes, one row of all aggregates, and the end.
pub fn put_totals(
    alloc: Global,
    net: &mut NetBuilder,
    below: Emitted,
    kinds: &[Kind],
    words: &[Bus],
    aggs: &[PlanAgg],
) -> Result<Emitted, Memory>
    requires wire { IsWire net.old below.wire }
    requires kinds { widths below.wire.columns ≡ map width_of kinds.now }
    requires are_kinds { All IsKind kinds.now }
    requires aggs { All (AggFits kinds.now) aggs.now }
    requires words { AreHeldBuses net.old words.now }
    requires known { All (AggKnown (widths words.now)) aggs.now }
    ensures { IfOk result (IsBehind net.old net.new
        (λ sets. AtEnds (delay_of_aggs kinds.now aggs.now) (total_row sets kinds.now aggs.now))
        (total_widths kinds.now aggs.now) (cost_of_aggs kinds.now aggs.now) below) }
{
    one_is_single();
    let cycles = delay_of_aggs(kinds, aggs);
    let stream = Stream {
        rows: Rows {
            valid: below.wire.valid,
            eos: below.wire.eos,
            keep: Keep::Register,
        },
        source: Source {
            columns: below.wire.columns.as_slice(),
            kinds,
            words,
        },
    };
    let columns = put_aggs(alloc, net, stream, aggs, cycles)?;
    let end = delay_bit(net, below.wire.eos, cycles)?;
    Ok(Emitted {
        wire: Wire {
            valid: end,
            eos: end,
            columns,
        },
        faults: below.faults,
    })
}

impl Operator for Totals<'_> {
    ghost takes = { λ s net columns. (columns ≡ map width_of s.kinds.now) × All IsKind s.kinds.now × All (AggFits s.kinds.now) s.aggs.now
        × AreHeldBuses net s.words.now × All (AggKnown (widths s.words.now)) s.aggs.now };

    ghost gives = { λ s _. total_widths s.kinds.now s.aggs.now };

    ghost most = { λ s _. cost_of_aggs s.kinds.now s.aggs.now };

    ghost shape = { λ s sets. AtEnds (delay_of_aggs s.kinds.now s.aggs.now) (total_row sets s.kinds.now s.aggs.now) };

    ghost means = { λ s sets. Totalled (total_row sets s.kinds.now s.aggs.now) };

    ghost figures_of = { λ s. aggregate_figures (delay_of_aggs s.kinds.now s.aggs.now) };

    fn figures(&self, source: Figures) -> Figures {
        let cycles = delay_of_aggs(self.kinds, self.aggs);
        total_figures(source, cycles)
    }

    fn emit(&self, alloc: Global, net: &mut NetBuilder, below: Emitted) -> Result<Emitted, Memory> {
        ends_serve();
        // Named, since a goal speaks of the value.
        let put = put_totals(alloc, net, below, self.kinds, self.words, self.aggs)?;
        Ok(put)
    }
}
