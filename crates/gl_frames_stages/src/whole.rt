//! Frames of all rows up to each: aggregates of the rows that pass, one cycle behind the row, and an
//! average as late as its division.

ghost use Rattle.std.specs.Prelude.{◌+◌, All, IfOk};
ghost use Rattle.gl_algebra.specs.Columns.{ConditionFits, OperandFits, kind_of_operand};
ghost use Rattle.gl_algebra.specs.Known.{OperandKnown};
ghost use Rattle.gl_values.specs.Kinds.{IsKind, width_of};
ghost use Rattle.gl_values.specs.Totals.{average_of, count_of, sum_total};
ghost use Rattle.gl_totals.specs.Totals.{extreme_of};
ghost use Rattle.gl_frames_stages.specs.Inputs.{HasInput, IsItemIn};
ghost use Rattle.gl_frames_stages.specs.Wholes.{cost_of_all_average, cost_of_all_count, cost_of_all_extreme, cost_of_all_sum, passed, rows_passed};
ghost use Rattle.gl_wire.specs.Wire.{widths};

use crate::input::{Input, put_passing};
use gl_algebra::Operand;
use gl_algebra::columns::kind_of_operand;
use gl_bits::Memory;
use gl_net::{Bus, NetBuilder};
use gl_rows::operand::put_operand;
use gl_totals::average::put_average;
use gl_totals::extreme::put_extreme;
use gl_totals::fold::Extreme;
use gl_totals::rows::{Keep, Rows};
use gl_totals::sum::{put_count, put_sum};
use gl_wire::later;

/// How many rows have passed.
pub fn put_all_count(net: &mut NetBuilder, input: Input, filter: Option<u16>) -> Result<Bus, Memory>
    requires input { HasInput net.old input }
    requires filter { ConditionFits input.source.kinds.now filter }
    ensures { IfOk result (IsItemIn net.old net.new cost_of_all_count 1 32
        (λ _ rows. count_of (rows_passed filter rows)) input.entry) }
{
    let lines = put_passing(net, input, filter)?;
    let rows = Rows {
        valid: lines.valid,
        eos: lines.eos,
        keep: Keep::Register,
    };
    let count = put_count(net, rows)?;
    // Named, since a goal speaks of the value.
    let out = later(net, count)?;
    Ok(out)
}

/// The sum of the values of the rows that have passed.
pub fn put_all_sum(
    net: &mut NetBuilder,
    input: Input,
    filter: Option<u16>,
    operand: Operand,
) -> Result<Bus, Memory>
    requires input { HasInput net.old input }
    requires filter { ConditionFits input.source.kinds.now filter }
    requires fits { OperandFits input.source.kinds.now operand }
    requires known { OperandKnown (widths input.source.words.now) operand }
    ensures { IfOk result (
        let width = width_of (kind_of_operand input.entry.source.kinds.now operand) in
        IsItemIn net.old net.new (cost_of_all_sum width) 1 width
        (λ sets rows. sum_total width (passed sets filter operand rows)) input.entry) }
{
    let lines = put_passing(net, input, filter)?;
    let value = put_operand(net, input.source, operand)?;
    let rows = Rows {
        valid: lines.valid,
        eos: lines.eos,
        keep: Keep::Register,
    };
    let sum = put_sum(net, rows, value)?;
    // Named, since a goal speaks of the value.
    let out = later(net, sum)?;
    Ok(out)
}

/// The least or the greatest value of the rows that have passed.
pub fn put_all_extreme(
    net: &mut NetBuilder,
    input: Input,
    filter: Option<u16>,
    extreme: Extreme,
    operand: Operand,
) -> Result<Bus, Memory>
    requires input { HasInput net.old input }
    requires filter { ConditionFits input.source.kinds.now filter }
    requires fits { OperandFits input.source.kinds.now operand }
    requires known { OperandKnown (widths input.source.words.now) operand }
    ensures { IfOk result (
        let kind = kind_of_operand input.entry.source.kinds.now operand in
        IsItemIn net.old net.new (cost_of_all_extreme (width_of kind)) 1 (width_of kind)
        (λ sets rows. extreme_of extreme kind (passed sets filter operand rows)) input.entry) }
{
    let kind = kind_of_operand(input.source.kinds, &operand);
    let lines = put_passing(net, input, filter)?;
    let value = put_operand(net, input.source, operand)?;
    let rows = Rows {
        valid: lines.valid,
        eos: lines.eos,
        keep: Keep::Register,
    };
    let best = put_extreme(net, rows, extreme, kind, value)?;
    // Named, since a goal speaks of the value.
    let out = later(net, best)?;
    Ok(out)
}

/// The average of the values of the rows that have passed, 34 cycles later than they have bits.
pub fn put_all_average(
    net: &mut NetBuilder,
    input: Input,
    filter: Option<u16>,
    operand: Operand,
) -> Result<Bus, Memory>
    requires input { HasInput net.old input }
    requires kinds { All IsKind input.source.kinds.now }
    requires filter { ConditionFits input.source.kinds.now filter }
    requires fits { OperandFits input.source.kinds.now operand }
    requires known { OperandKnown (widths input.source.words.now) operand }
    ensures { IfOk result (
        let kind = kind_of_operand input.entry.source.kinds.now operand in
        IsItemIn net.old net.new (cost_of_all_average (width_of kind)) (width_of kind + 34) (width_of kind)
        (λ sets rows. average_of kind (passed sets filter operand rows)) input.entry) }
{
    let kind = kind_of_operand(input.source.kinds, &operand);
    let lines = put_passing(net, input, filter)?;
    let value = put_operand(net, input.source, operand)?;
    let rows = Rows {
        valid: lines.valid,
        eos: lines.eos,
        keep: Keep::Register,
    };
    let average = put_average(net, rows, kind, value)?;
    // Named, since a goal speaks of the value.
    let out = later(net, average)?;
    Ok(out)
}
