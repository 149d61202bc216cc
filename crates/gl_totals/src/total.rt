//! The aggregates of a node, one by one.

ghost use Rattle.std.specs.Prelude.{◌≤◌, ◌+◌, ◌-◌, All, IfOk};
ghost use Rattle.gl_algebra.specs.Columns.{AggFits, OperandFits};
ghost use Rattle.gl_algebra.specs.Known.{AggKnown, OperandKnown};
ghost use Rattle.gl_algebra.specs.FigureTable.{delay_of_agg, delay_of_aggs};
ghost use Rattle.gl_algebra.specs.declared.node.PlanAgg.TheVariants.{Avg, Sum, Wsum};
ghost use Rattle.gl_values.specs.Kinds.{IsKind};
ghost use Rattle.gl_wire.specs.Wire.{widths};
ghost use Rattle.gl_totals.specs.Totals.{AreAggsOf, IsAggOf, IsStream, IsValueOf, agg_of_extreme};

use crate::average::put_average;
use crate::delay::delay_bus;
use crate::extreme::put_extreme;
use crate::fold::Extreme;
use crate::rows::{Keep, Rows};
use crate::sum::{put_count, put_sum};
use crate::weighted::put_weighted;
use gl_algebra::columns::kind_of_operand;
use gl_algebra::table::delay_of_agg;
use gl_algebra::{Operand, PlanAgg, Weights};
use gl_bits::Memory;
use gl_net::{Bus, Buses, NetBuilder, Note};
use gl_rows::Source;
use gl_rows::operand::put_operand;
use gl_wire::later;
use std::alloc::Global;

/// The lines of streams, their columns with their kinds, and the buses of the parameters.
#[derive(Clone, Copy)]
pub struct Stream<'a> {
    /// Its lines.
    pub rows: Rows,
    /// The columns of the row.
    pub source: Source<'a>,
}

// The value of an operand, in the cycle of the lines.
fn put_value(net: &mut NetBuilder, stream: Stream, operand: Operand) -> Result<Bus, Memory>
    requires stream { IsStream net.old stream }
    requires fits { OperandFits stream.source.kinds.now operand }
    requires known { OperandKnown (widths stream.source.words.now) operand }
    ensures { IfOk result (IsValueOf net.old net.new stream.entry operand) }
{
    let value = put_operand(net, stream.source, operand)?;
    match stream.rows.keep {
        Keep::Register => Ok(value),
        Keep::Slots { .. } => {
            // Named, since a goal speaks of the value.
            let held = later(net, value)?;
            Ok(held)
        }
    }
}

// The sum of an operand's values.
fn put_sum_of(net: &mut NetBuilder, stream: Stream, operand: Operand) -> Result<Bus, Memory>
    requires stream { IsStream net.old stream }
    requires fits { AggFits stream.source.kinds.now (Sum operand) }
    requires known { AggKnown (widths stream.source.words.now) (Sum operand) }
    ensures { IfOk result (IsAggOf net.old net.new 0 0 stream.entry (Sum operand)) }
{
    let value = put_value(net, stream, operand)?;
    // Named, since a goal speaks of the value.
    let sum = put_sum(net, stream.rows, value)?;
    Ok(sum)
}

// An extreme of an operand's values.
fn put_extreme_of(
    net: &mut NetBuilder,
    stream: Stream,
    extreme: Extreme,
    operand: Operand,
) -> Result<Bus, Memory>
    requires stream { IsStream net.old stream }
    requires fits { AggFits stream.source.kinds.now (agg_of_extreme extreme operand) }
    requires known { AggKnown (widths stream.source.words.now) (agg_of_extreme extreme operand) }
    ensures { IfOk result
        (IsAggOf net.old net.new 0 0 stream.entry (agg_of_extreme extreme operand)) }
{
    let kind = kind_of_operand(stream.source.kinds, &operand);
    let value = put_value(net, stream, operand)?;
    let best = put_extreme(net, stream.rows, extreme, kind, value)?;
    Ok(best)
}

// The average of an operand's values, which is there one cycle before the aggregate's own delay is over.
fn put_average_of(net: &mut NetBuilder, stream: Stream, operand: Operand) -> Result<Bus, Memory>
    requires stream { IsStream net.old stream }
    requires kinds { All IsKind stream.source.kinds.now }
    requires fits { AggFits stream.source.kinds.now (Avg operand) }
    requires known { AggKnown (widths stream.source.words.now) (Avg operand) }
    ensures { IfOk result (
        let gone = delay_of_agg stream.entry.source.kinds.now (Avg operand) - 1 in
        IsAggOf net.old net.new gone gone stream.entry (Avg operand)) }
{
    let kind = kind_of_operand(stream.source.kinds, &operand);
    let value = put_value(net, stream, operand)?;
    let average = put_average(net, stream.rows, kind, value)?;
    Ok(average)
}

// The sum of an operand's values by their weights.
fn put_weighted_of(
    net: &mut NetBuilder,
    stream: Stream,
    operand: Operand,
    weights: &Weights,
) -> Result<Bus, Memory>
    requires stream { IsStream net.old stream }
    requires fits { AggFits stream.source.kinds.now (Wsum operand weights.now) }
    requires known { AggKnown (widths stream.source.words.now) (Wsum operand weights.now) }
    ensures { IfOk result (IsAggOf net.old net.new 0 0 stream.entry (Wsum operand weights.now)) }
{
    let value = put_value(net, stream, operand)?;
    let sum = put_weighted(net, stream.rows, weights.as_slice(), value)?;
    Ok(sum)
}

// An aggregate of the open stream, one cycle before its own delay is over.
fn put_early(net: &mut NetBuilder, stream: Stream, agg: &PlanAgg) -> Result<Bus, Memory>
    requires stream { IsStream net.old stream }
    requires kinds { All IsKind stream.source.kinds.now }
    requires fits { AggFits stream.source.kinds.now agg.now }
    requires known { AggKnown (widths stream.source.words.now) agg.now }
    ensures { IfOk result (
        let gone = delay_of_agg stream.entry.source.kinds.now agg.now - 1 in
        IsAggOf net.old net.new gone gone stream.entry agg.now) }
{
    match agg {
        PlanAgg::Count => put_count(net, stream.rows),
        PlanAgg::Sum(operand) => put_sum_of(net, stream, *operand),
        PlanAgg::Min(operand) => put_extreme_of(net, stream, Extreme::Least, *operand),
        PlanAgg::Max(operand) => put_extreme_of(net, stream, Extreme::Greatest, *operand),
        PlanAgg::Avg(operand) => put_average_of(net, stream, *operand),
        PlanAgg::Wsum(operand, weights) => put_weighted_of(net, stream, *operand, weights),
    }
}

/// An aggregate of the open stream, `cycles` cycles later, which are no fewer than its own delay but for one.
pub fn put_agg(
    net: &mut NetBuilder,
    stream: Stream,
    agg: &PlanAgg,
    cycles: u32,
) -> Result<Bus, Memory>
    requires stream { IsStream net.old stream }
    requires kinds { All IsKind stream.source.kinds.now }
    requires fits { AggFits stream.source.kinds.now agg.now }
    requires known { AggKnown (widths stream.source.words.now) agg.now }
    requires late { delay_of_agg stream.source.kinds.now agg.now ≤ cycles + 1 }
    ensures { IfOk result (IsAggOf net.old net.new cycles cycles stream.entry agg.now) }
{
    let early = put_early(net, stream, agg)?;
    let gone = delay_of_agg(stream.source.kinds, agg) - 1;
    let out = delay_bus(net, early, cycles - gone)?;
    Ok(out)
}

// The same, told as the column at this place.
fn put_part(
    net: &mut NetBuilder,
    stream: Stream,
    agg: &PlanAgg,
    cycles: u32,
    place: usize,
) -> Result<Bus, Memory>
    requires stream { IsStream net.old stream }
    requires kinds { All IsKind stream.source.kinds.now }
    requires fits { AggFits stream.source.kinds.now agg.now }
    requires known { AggKnown (widths stream.source.words.now) agg.now }
    requires late { delay_of_agg stream.source.kinds.now agg.now ≤ cycles + 1 }
    ensures { IfOk result (IsAggOf net.old net.new cycles cycles stream.entry agg.now) }
{
    net.note(Note::Part(place))?;
    let bus = put_agg(net, stream, agg, cycles)?;
    net.note(Note::Leave)?;
    Ok(bus)
}

/// Some aggregates of the open stream, `cycles` cycles later, which are no fewer than the delay of the slowest but for one.
pub fn put_aggs(
    alloc: Global,
    net: &mut NetBuilder,
    stream: Stream,
    aggs: &[PlanAgg],
    cycles: u32,
) -> Result<Buses, Memory>
    requires stream { IsStream net.old stream }
    requires kinds { All IsKind stream.source.kinds.now }
    requires fit { All (AggFits stream.source.kinds.now) aggs.now }
    requires known { All (AggKnown (widths stream.source.words.now)) aggs.now }
    requires late { delay_of_aggs stream.source.kinds.now aggs.now ≤ cycles + 1 }
    ensures { IfOk result (AreAggsOf net.old net.new cycles stream.entry aggs.now) }
{
    let mut all = Buses::new(alloc);
    for agg in aggs {
        let bus = put_part(net, stream, agg, cycles, all.len())?;
        all.push(bus)?;
    }
    Ok(all)
}
