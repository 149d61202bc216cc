//! The least and the greatest value of the last rows that pass, by doubling: a bit more for each
//! word tells whether there is one.

ghost use Rattle.std.specs.Prelude.{◌<◌, ◌^◌, All, IfOk, Some};
ghost use Rattle.gl_algebra.specs.Frames.{delay_of_extreme};
ghost use Rattle.gl_algebra.specs.Results.{counts_in};
ghost use Rattle.gl_algebra.specs.Columns.{ConditionFits, OperandFits, kind_of_operand};
ghost use Rattle.gl_algebra.specs.Known.{OperandKnown};
ghost use Rattle.gl_values.specs.Kinds.{IsKind, width_of};
ghost use Rattle.gl_frames.specs.Frames.{total_over};
ghost use Rattle.gl_totals.specs.Totals.{extreme_of};
ghost use Rattle.gl_frames_stages.specs.FilteredNets.{IsPackedIn, cost_of_filtered_extreme};
ghost use Rattle.gl_frames_stages.specs.Framing.{value_in};
ghost use Rattle.gl_frames_stages.specs.Inputs.{HasInput, IsItemIn};
ghost use Rattle.gl_wire.specs.Wire.{widths};

use crate::doubling::put_frame_best;
use crate::input::{Input, put_masked};
use crate::level::Order;
use gl_algebra::Operand;
use gl_algebra::columns::kind_of_operand;
use gl_bits::Memory;
use gl_net::{Bus, NetBuilder};
use gl_rows::cast::low_bits;
use gl_rows::operand::put_operand;
use gl_totals::fold::Extreme;

/// A value below a bit that is 1 where the row passes, and 0 in all bits where it does not.
pub fn put_packed(
    net: &mut NetBuilder,
    input: Input,
    column: u16,
    operand: Operand,
) -> Result<Bus, Memory>
    requires input { HasInput net.old input }
    requires kinds { All IsKind input.source.kinds.now }
    requires filter { ConditionFits input.source.kinds.now (Some column) }
    requires fits { OperandFits input.source.kinds.now operand }
    requires known { OperandKnown (widths input.source.words.now) operand }
    ensures { IfOk result (IsPackedIn net.old net.new input.entry column operand) }
{
    let value = put_operand(net, input.source, operand)?;
    let masked = put_masked(net, input, Some(column), value)?;
    let passes = put_operand(net, input.source, Operand::Column(column))?;
    let packed = net.join(passes, masked)?;
    Ok(packed)
}

/// The least or the greatest value of the rows that pass, of this row and so many before it.
pub fn put_filtered_item(
    net: &mut NetBuilder,
    input: Input,
    extreme: Extreme,
    column: u16,
    operand: Operand,
    back: u32,
) -> Result<Bus, Memory>
    requires input { HasInput net.old input }
    requires kinds { All IsKind input.source.kinds.now }
    requires filter { ConditionFits input.source.kinds.now (Some column) }
    requires fits { OperandFits input.source.kinds.now operand }
    requires known { OperandKnown (widths input.source.words.now) operand }
    requires back { back < 2 ^ 16 }
    ensures { IfOk result (
        let kind = kind_of_operand input.entry.source.kinds.now operand in
        IsItemIn net.old net.new (cost_of_filtered_extreme (width_of kind) back) (delay_of_extreme (Some back))
        (width_of kind)
        (λ sets. total_over (extreme_of extreme kind) (value_in sets operand) (Some back) (counts_in (Some column)))
        input.entry) }
{
    let kind = kind_of_operand(input.source.kinds, &operand);
    let packed = put_packed(net, input, column, operand)?;
    let order = Order {
        extreme,
        kind,
        packed: true,
    };
    let best = put_frame_best(net, input.lines, back, order, packed)?;
    // Named, since a goal speaks of the value.
    let out = low_bits(net, best, packed.width - 1)?;
    Ok(out)
}
