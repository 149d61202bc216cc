//! Items one by one, each as late as it is.

ghost use Rattle.std.specs.Prelude.{◌<◌, ◌^◌, All, IfOk, None, Some};
ghost use Rattle.gl_algebra.specs.Frames.{delay_of_count, delay_of_extreme, delay_of_frame, delay_over};
ghost use Rattle.gl_algebra.specs.Results.{counts_in, value_of_frame, value_over};
ghost use Rattle.gl_algebra.specs.declared.node.PlanFrame.TheVariants.{Over, Own};
ghost use Rattle.gl_algebra.specs.declared.node.PlanFrameAgg.TheVariants.{Count};
ghost use Rattle.gl_algebra.specs.Columns.{BackFits, ConditionFits, FrameAggFits, FrameFits, OperandFits, kind_of_frame, kind_of_frame_agg, kind_of_operand};
ghost use Rattle.gl_algebra.specs.Known.{FrameAggKnown, FrameKnown, OperandKnown};
ghost use Rattle.gl_values.specs.Kinds.{IsKind, width_of};
ghost use Rattle.gl_frames.specs.Frames.{last_value_of, total_over};
ghost use Rattle.gl_totals.specs.Totals.{extreme_of};
ghost use Rattle.gl_frames_stages.specs.Framing.{cost_of_last, cost_of_recent, value_in};
ghost use Rattle.gl_frames_stages.specs.Inputs.{HasInput, IsItemIn};
ghost use Rattle.gl_frames_stages.specs.ItemCosts.{cost_of_all, cost_of_extreme_by, cost_of_item, cost_of_last_rows};
ghost use Rattle.gl_wire.specs.Wire.{widths};

use crate::average::put_average_item;
use crate::filtered::put_filtered_item;
use crate::framed::{put_extreme_item, put_lag_item, put_passing_count, put_sum_item};
use crate::input::Input;
use crate::last::{put_last_item, put_own_item};
use crate::number::put_number_item;
use crate::recent::put_recent_item;
use crate::whole::{put_all_average, put_all_count, put_all_extreme, put_all_sum};
use gl_algebra::{Operand, PlanFrame, PlanFrameAgg};
use gl_bits::Memory;
use gl_net::{Bus, NetBuilder};
use gl_rows::operand::put_operand;
use gl_totals::fold::Extreme;
use gl_wire::later;

// The last value of all rows up to each.
fn put_all_last(
    net: &mut NetBuilder,
    input: Input,
    filter: Option<u16>,
    operand: Operand,
) -> Result<Bus, Memory>
    requires input { HasInput net.old input }
    requires filter { ConditionFits input.source.kinds.now filter }
    requires fits { OperandFits input.source.kinds.now operand }
    requires known { OperandKnown (widths input.source.words.now) operand }
    ensures { IfOk result (
        let width = width_of (kind_of_operand input.entry.source.kinds.now operand) in
        IsItemIn net.old net.new (cost_of_last width) 1 width
        (λ sets. last_value_of (value_in sets operand) None (counts_in filter)) input.entry) }
{
    match filter {
        Some(column) => put_last_item(net, input, column, operand),
        None => put_own_item(net, input, operand),
    }
}

// The last value of the last rows.
fn put_last_of(
    net: &mut NetBuilder,
    input: Input,
    filter: Option<u16>,
    operand: Operand,
    back: u32,
) -> Result<Bus, Memory>
    requires input { HasInput net.old input }
    requires filter { ConditionFits input.source.kinds.now filter }
    requires fits { OperandFits input.source.kinds.now operand }
    requires known { OperandKnown (widths input.source.words.now) operand }
    requires back { back < 2 ^ 16 }
    ensures { IfOk result (
        let width = width_of (kind_of_operand input.entry.source.kinds.now operand) in
        IsItemIn net.old net.new (cost_of_recent width back) 1 width
        (λ sets. last_value_of (value_in sets operand) (Some back) (counts_in filter)) input.entry) }
{
    match filter {
        Some(column) => put_recent_item(net, input, column, operand, back),
        None => put_own_item(net, input, operand),
    }
}

// How many of the last rows pass.
fn put_count_of(
    net: &mut NetBuilder,
    input: Input,
    filter: Option<u16>,
    back: u32,
) -> Result<Bus, Memory>
    requires input { HasInput net.old input }
    requires filter { ConditionFits input.source.kinds.now filter }
    requires back { back < 2 ^ 16 }
    ensures { IfOk result (
        let kinds = input.entry.source.kinds.now in
        IsItemIn net.old net.new (cost_of_last_rows kinds Count filter back)
        (delay_of_count filter (Some back)) 32
        (λ sets rows. value_over sets kinds filter (Some back) rows Count) input.entry) }
{
    match filter {
        Some(column) => put_passing_count(net, input, column, back),
        None => put_number_item(net, input, back),
    }
}

// The least or the greatest value of the last rows that pass.
fn put_extreme_of(
    net: &mut NetBuilder,
    input: Input,
    extreme: Extreme,
    filter: Option<u16>,
    operand: Operand,
    back: u32,
) -> Result<Bus, Memory>
    requires input { HasInput net.old input }
    requires kinds { All IsKind input.source.kinds.now }
    requires filter { ConditionFits input.source.kinds.now filter }
    requires fits { OperandFits input.source.kinds.now operand }
    requires known { OperandKnown (widths input.source.words.now) operand }
    requires back { back < 2 ^ 16 }
    ensures { IfOk result (
        let kind = kind_of_operand input.entry.source.kinds.now operand in
        IsItemIn net.old net.new (cost_of_extreme_by filter (width_of kind) back) (delay_of_extreme (Some back))
        (width_of kind)
        (λ sets. total_over (extreme_of extreme kind) (value_in sets operand) (Some back) (counts_in filter)) input.entry) }
{
    match filter {
        Some(column) => put_filtered_item(net, input, extreme, column, operand, back),
        None => put_extreme_item(net, input, extreme, operand, back),
    }
}

// A function over all rows up to each.
fn put_over_all(
    net: &mut NetBuilder,
    input: Input,
    agg: PlanFrameAgg,
    filter: Option<u16>,
) -> Result<Bus, Memory>
    requires input { HasInput net.old input }
    requires kinds { All IsKind input.source.kinds.now }
    requires filter { ConditionFits input.source.kinds.now filter }
    requires agg { FrameAggFits input.source.kinds.now agg }
    requires known { FrameAggKnown (widths input.source.words.now) agg }
    ensures { IfOk result (
        let kinds = input.entry.source.kinds.now in
        IsItemIn net.old net.new (cost_of_all kinds agg) (delay_over kinds agg filter None)
        (width_of (kind_of_frame_agg kinds agg)) (λ sets rows. value_over sets kinds filter None rows agg) input.entry) }
{
    match agg {
        PlanFrameAgg::Count => put_all_count(net, input, filter),
        PlanFrameAgg::Sum(operand) => put_all_sum(net, input, filter, operand),
        PlanFrameAgg::Min(operand) => put_all_extreme(net, input, filter, Extreme::Least, operand),
        PlanFrameAgg::Max(operand) => put_all_extreme(
            net,
            input,
            filter,
            Extreme::Greatest,
            operand,
        ),
        PlanFrameAgg::Avg(operand) => put_all_average(net, input, filter, operand),
        PlanFrameAgg::LastValue(operand) => put_all_last(net, input, filter, operand),
    }
}

// A function over the last rows up to each.
fn put_over_last(
    net: &mut NetBuilder,
    input: Input,
    agg: PlanFrameAgg,
    filter: Option<u16>,
    back: u32,
) -> Result<Bus, Memory>
    requires input { HasInput net.old input }
    requires kinds { All IsKind input.source.kinds.now }
    requires filter { ConditionFits input.source.kinds.now filter }
    requires agg { FrameAggFits input.source.kinds.now agg }
    requires known { FrameAggKnown (widths input.source.words.now) agg }
    requires back { back < 2 ^ 16 }
    ensures { IfOk result (let kinds = input.entry.source.kinds.now in
        IsItemIn net.old net.new (cost_of_last_rows kinds agg filter back)
        (delay_over kinds agg filter (Some back)) (width_of (kind_of_frame_agg kinds agg))
        (λ sets rows. value_over sets kinds filter (Some back) rows agg) input.entry) }
{
    match agg {
        PlanFrameAgg::Count => put_count_of(net, input, filter, back),
        PlanFrameAgg::Sum(operand) => put_sum_item(net, input, filter, operand, back),
        PlanFrameAgg::Min(operand) => put_extreme_of(
            net,
            input,
            Extreme::Least,
            filter,
            operand,
            back,
        ),
        PlanFrameAgg::Max(operand) => put_extreme_of(
            net,
            input,
            Extreme::Greatest,
            filter,
            operand,
            back,
        ),
        PlanFrameAgg::Avg(operand) => put_average_item(net, input, filter, operand, back),
        PlanFrameAgg::LastValue(operand) => put_last_of(net, input, filter, operand, back),
    }
}

// A function over a frame.
fn put_over(
    net: &mut NetBuilder,
    input: Input,
    agg: PlanFrameAgg,
    filter: Option<u16>,
    back: Option<u32>,
) -> Result<Bus, Memory>
    requires input { HasInput net.old input }
    requires kinds { All IsKind input.source.kinds.now }
    requires filter { ConditionFits input.source.kinds.now filter }
    requires agg { FrameAggFits input.source.kinds.now agg }
    requires known { FrameAggKnown (widths input.source.words.now) agg }
    requires back { BackFits back }
    ensures { IfOk result (
        let kinds = input.entry.source.kinds.now in
        IsItemIn net.old net.new (cost_of_item kinds (Over agg filter back))
        (delay_over kinds agg filter back) (width_of (kind_of_frame_agg kinds agg))
        (λ sets rows. value_over sets kinds filter back rows agg) input.entry) }
{
    match back {
        Some(back) => put_over_last(net, input, agg, filter, back),
        None => put_over_all(net, input, agg, filter),
    }
}

// An operand of the row itself, in a register.
fn put_own(net: &mut NetBuilder, input: Input, operand: Operand) -> Result<Bus, Memory>
    requires input { HasInput net.old input }
    requires fits { OperandFits input.source.kinds.now operand }
    requires known { OperandKnown (widths input.source.words.now) operand }
    ensures { IfOk result (
        let kinds = input.entry.source.kinds.now in
        IsItemIn net.old net.new (cost_of_item kinds (Own operand)) 1
        (width_of (kind_of_operand kinds operand))
        (λ sets rows. value_of_frame sets kinds rows (Own operand)) input.entry) }
{
    let value = put_operand(net, input.source, operand)?;
    // Named, since a goal speaks of the value.
    let out = later(net, value)?;
    Ok(out)
}

/// An item, as many cycles behind each row as it takes.
pub fn put_item(net: &mut NetBuilder, input: Input, item: PlanFrame) -> Result<Bus, Memory>
    requires input { HasInput net.old input }
    requires kinds { All IsKind input.source.kinds.now }
    requires item { FrameFits input.source.kinds.now item }
    requires known { FrameKnown (widths input.source.words.now) item }
    ensures { IfOk result (
        let kinds = input.entry.source.kinds.now in
        IsItemIn net.old net.new (cost_of_item kinds item) (delay_of_frame kinds item)
        (width_of (kind_of_frame kinds item)) (λ sets rows. value_of_frame sets kinds rows item) input.entry) }
{
    match item {
        PlanFrame::Own(operand) => put_own(net, input, operand),
        PlanFrame::Lag(operand, back) => put_lag_item(net, input, operand, back),
        PlanFrame::Over { agg, filter, back } => put_over(net, input, agg, filter, back),
    }
}
