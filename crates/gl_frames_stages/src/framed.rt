//! Frames of the last rows up to each: lags, sums, counts and extremes.

ghost use Rattle.std.specs.Prelude.{◌<◌, ◌≤◌, ◌^◌, All, IfOk, Some};
ghost use Rattle.gl_algebra.specs.Frames.{delay_of_extreme};
ghost use Rattle.gl_algebra.specs.Results.{counts_in};
ghost use Rattle.gl_algebra.specs.Columns.{ConditionFits, OperandFits, kind_of_operand};
ghost use Rattle.gl_algebra.specs.Known.{OperandKnown};
ghost use Rattle.gl_values.specs.Kinds.{IsKind, width_of};
ghost use Rattle.gl_values.specs.Totals.{count_of, sum_total};
ghost use Rattle.gl_frames.specs.Frames.{frame_of, lag_of, total_over};
ghost use Rattle.gl_totals.specs.Totals.{extreme_of};
ghost use Rattle.gl_frames_stages.specs.Framing.{cost_of_frame_extreme, cost_of_frame_sum, cost_of_lag, cost_of_passing_count, every, value_in};
ghost use Rattle.gl_frames_stages.specs.Inputs.{HasInput, IsItemIn};
ghost use Rattle.gl_wire.specs.Wire.{widths};

use crate::doubling::put_frame_best;
use crate::input::{Input, put_masked};
use crate::lagged::put_lagged;
use crate::level::Order;
use crate::slide::put_or_none;
use crate::sum::{put_slide_sum, put_wide_sum};
use gl_algebra::Operand;
use gl_algebra::columns::kind_of_operand;
use gl_bits::Memory;
use gl_frames_wire::Reach;
use gl_net::{Bus, NetBuilder};
use gl_rows::operand::put_operand;
use gl_totals::fold::Extreme;
use gl_values::Kind;

/// The value of the row so many rows before, one cycle behind the row.
pub fn put_lag_item(
    net: &mut NetBuilder,
    input: Input,
    operand: Operand,
    back: u32,
) -> Result<Bus, Memory>
    requires input { HasInput net.old input }
    requires fits { OperandFits input.source.kinds.now operand }
    requires known { OperandKnown (widths input.source.words.now) operand }
    requires some { 1 ≤ back }
    requires most { back ≤ 2 ^ 16 }
    ensures { IfOk result (
        let width = width_of (kind_of_operand input.entry.source.kinds.now operand) in
        IsItemIn net.old net.new (cost_of_lag width back) 1 width
        (λ sets. lag_of (value_in sets operand) back) input.entry) }
{
    let value = put_operand(net, input.source, operand)?;
    let found = put_lagged(net, input.lines, Reach::new(back), value)?;
    // Named, since a goal speaks of the value.
    let out = put_or_none(net, found)?;
    Ok(out)
}

/// The sum of the values of the rows that pass, of this row and so many before it, three cycles
/// behind the row.
pub fn put_sum_item(
    net: &mut NetBuilder,
    input: Input,
    filter: Option<u16>,
    operand: Operand,
    back: u32,
) -> Result<Bus, Memory>
    requires input { HasInput net.old input }
    requires filter { ConditionFits input.source.kinds.now filter }
    requires fits { OperandFits input.source.kinds.now operand }
    requires known { OperandKnown (widths input.source.words.now) operand }
    requires back { back < 2 ^ 16 }
    ensures { IfOk result (
        let width = width_of (kind_of_operand input.entry.source.kinds.now operand) in
        IsItemIn net.old net.new (cost_of_frame_sum width back) 3 width
        (λ sets. total_over (sum_total width) (value_in sets operand) (Some back) (counts_in filter)) input.entry) }
{
    let value = put_operand(net, input.source, operand)?;
    let masked = put_masked(net, input, filter, value)?;
    // Named, since a goal speaks of the value.
    let sum = put_slide_sum(net, input.lines, Reach::new(back + 1), masked)?;
    Ok(sum)
}

/// How many rows pass, of this row and so many before it, three cycles behind the row.
pub fn put_passing_count(
    net: &mut NetBuilder,
    input: Input,
    column: u16,
    back: u32,
) -> Result<Bus, Memory>
    requires input { HasInput net.old input }
    requires filter { ConditionFits input.source.kinds.now (Some column) }
    requires back { back < 2 ^ 16 }
    ensures { IfOk result (IsItemIn net.old net.new (cost_of_passing_count back) 3 32
        (λ _ rows. count_of (frame_of (Some back) (counts_in (Some column)) rows)) input.entry) }
{
    let bit = put_operand(net, input.source, Operand::Column(column))?;
    // Named, since a goal speaks of the value.
    let sum = put_wide_sum(
        net,
        input.lines,
        Reach::new(back + 1),
        bit,
        Kind::Unsigned(1),
        32,
    )?;
    Ok(sum)
}

/// The least or the greatest value of this row and so many before it.
pub fn put_extreme_item(
    net: &mut NetBuilder,
    input: Input,
    extreme: Extreme,
    operand: Operand,
    back: u32,
) -> Result<Bus, Memory>
    requires input { HasInput net.old input }
    requires kinds { All IsKind input.source.kinds.now }
    requires fits { OperandFits input.source.kinds.now operand }
    requires known { OperandKnown (widths input.source.words.now) operand }
    requires back { back < 2 ^ 16 }
    ensures { IfOk result (
        let kind = kind_of_operand input.entry.source.kinds.now operand in
        IsItemIn net.old net.new (cost_of_frame_extreme (width_of kind) back) (delay_of_extreme (Some back)) (width_of kind)
        (λ sets. total_over (extreme_of extreme kind) (value_in sets operand) (Some back) every) input.entry) }
{
    let kind = kind_of_operand(input.source.kinds, &operand);
    let value = put_operand(net, input.source, operand)?;
    let order = Order {
        extreme,
        kind,
        packed: false,
    };
    // Named, since a goal speaks of the value.
    let best = put_frame_best(net, input.lines, back, order, value)?;
    Ok(best)
}
