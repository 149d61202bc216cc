//! The last value of a frame, one cycle behind each row.

ghost use Rattle.std.specs.Prelude.{IfOk, None, Option, Some, ℕ};
ghost use Rattle.gl_algebra.specs.Results.{counts_in};
ghost use Rattle.gl_algebra.specs.Columns.{ConditionFits, OperandFits, kind_of_operand};
ghost use Rattle.gl_algebra.specs.Known.{OperandKnown};
ghost use Rattle.gl_net.specs.Net.{IsBit, IsBus};
ghost use Rattle.gl_values.specs.Kinds.{width_of};
ghost use Rattle.gl_frames.specs.Frames.{last_value_of};
ghost use Rattle.gl_frames_stages.specs.Framing.{cost_of_last, cost_of_own, every, value_in};
ghost use Rattle.gl_frames_stages.specs.Inputs.{HasInput, IsItemIn};
ghost use Rattle.gl_frames_stages.specs.LastNets.{IsLastIn};
ghost use Rattle.gl_wire.specs.Wire.{widths};

use crate::input::Input;
use crate::lines::Lines;
use gl_algebra::Operand;
use gl_bits::Memory;
use gl_net::{Bit, Bus, NetBuilder};
use gl_rows::operand::put_operand;
use gl_totals::fold::{Fold, small_word};
use gl_wire::{both, later, note_bus};

/// The last value of a frame without a FILTER: the row's own.
pub fn put_own_item(net: &mut NetBuilder, input: Input, operand: Operand) -> Result<Bus, Memory>
    requires input { HasInput net.old input }
    requires fits { OperandFits input.source.kinds.now operand }
    requires known { OperandKnown (widths input.source.words.now) operand }
    ensures { (back : Option ℕ) → IfOk result (
        let width = width_of (kind_of_operand input.entry.source.kinds.now operand) in
        IsItemIn net.old net.new (cost_of_own width) 1 width
        (λ sets. last_value_of (value_in sets operand) back every) input.entry) }
{
    let value = put_operand(net, input.source, operand)?;
    // Named, since a goal speaks of the value.
    let out = later(net, value)?;
    Ok(out)
}

/// The value of the last row so far that passes, and 0 where none does, before this cycle's row and
/// with it.
pub(crate) fn put_last(
    net: &mut NetBuilder,
    lines: Lines,
    takes: Bit,
    value: Bus,
) -> Result<Fold, Memory>
    requires eos { IsBit net.old lines.eos }
    requires takes { IsBit net.old takes }
    requires value { IsBus net.old value }
    ensures { IfOk result (IsLastIn net.old net.new lines takes value) }
{
    let zero = small_word(false, value.width);
    let before = net.register(zero.width(), Some(zero))?;
    let now = net.choose(takes, value, before)?;
    let again = net.constant(zero)?;
    let next = net.choose(lines.eos, again, now)?;
    net.drive(before, next)?;
    note_bus(net, b"state", before)?;
    Ok(Fold { before, now })
}

/// The value of the last row of all up to each that passes.
pub fn put_last_item(
    net: &mut NetBuilder,
    input: Input,
    column: u16,
    operand: Operand,
) -> Result<Bus, Memory>
    requires input { HasInput net.old input }
    requires filter { ConditionFits input.source.kinds.now (Some column) }
    requires fits { OperandFits input.source.kinds.now operand }
    requires known { OperandKnown (widths input.source.words.now) operand }
    ensures { IfOk result (
        let width = width_of (kind_of_operand input.entry.source.kinds.now operand) in
        IsItemIn net.old net.new (cost_of_last width) 1 width
        (λ sets. last_value_of (value_in sets operand) None (counts_in (Some column))) input.entry) }
{
    let passes = put_operand(net, input.source, Operand::Column(column))?;
    let value = put_operand(net, input.source, operand)?;
    let takes = both(net, input.lines.valid, passes.bit())?;
    let last = put_last(net, input.lines, takes, value)?;
    // Named, since a goal speaks of the value.
    let out = later(net, last.now)?;
    Ok(out)
}
