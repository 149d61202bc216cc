//! The last value that passes among the last rows, one cycle behind each row.

ghost use Rattle.std.specs.Prelude.{◌≡◌, ◌<◌, ◌^◌, IfOk, Some};
ghost use Rattle.gl_algebra.specs.Results.{counts_in};
ghost use Rattle.gl_algebra.specs.Columns.{ConditionFits, OperandFits, kind_of_operand};
ghost use Rattle.gl_algebra.specs.Known.{OperandKnown};
ghost use Rattle.gl_net.specs.Net.{IsBit, IsBus};
ghost use Rattle.gl_values.specs.Kinds.{width_of};
ghost use Rattle.gl_frames.specs.Frames.{last_value_of};
ghost use Rattle.gl_frames_stages.specs.Framing.{cost_of_recent, value_in};
ghost use Rattle.gl_frames_stages.specs.Inputs.{HasInput, IsItemIn};
ghost use Rattle.gl_frames_stages.specs.RecentNets.{IsAgeIn, IsRecentIn, IsYoungIn};
ghost use Rattle.gl_wire.specs.Wire.{widths};

use crate::input::Input;
use crate::lagged::number_word;
use crate::last::put_last;
use crate::lines::Lines;
use gl_algebra::Operand;
use gl_bits::Memory;
use gl_frames_wire::{Reach, put_count};
use gl_net::{BinaryOp, Bit, Bus, NetBuilder};
use gl_rows::operand::put_operand;
use gl_totals::fold::small_word;
use gl_wire::{both, either, later};

// Whether so many rows of the stream came since the last one that passes, before this cycle's row.
fn put_age(net: &mut NetBuilder, lines: Lines, takes: Bit, back: u32) -> Result<Bit, Memory>
    requires valid { IsBit net.old lines.valid }
    requires eos { IsBit net.old lines.eos }
    requires takes { IsBit net.old takes }
    requires back { back < 2 ^ 16 }
    ensures { IfOk result (IsAgeIn net.old net.new lines takes back) }
{
    let reach = Reach::new(back + 1);
    let fresh = either(net, lines.eos, takes)?;
    let count = put_count(net, lines.valid, fresh, reach.bits)?;
    let least = net.constant(number_word(u128::from(back), reach.bits + 1))?;
    let old = net.binary(BinaryOp::Le, least, count)?;
    Ok(old.bit())
}

/// The value where the row passes, and else what was there, or 0 where that is too old.
pub fn put_young(
    net: &mut NetBuilder,
    passes: Bit,
    old: Bit,
    value: Bus,
    before: Bus,
) -> Result<Bus, Memory>
    requires passes { IsBit net.old passes }
    requires old { IsBit net.old old }
    requires value { IsBus net.old value }
    requires before { IsBus net.old before }
    requires widths { before.width ≡ value.width }
    ensures { IfOk result (IsYoungIn net.old net.new passes old value before) }
{
    let none = net.constant(small_word(false, value.width))?;
    let kept = net.choose(old, none, before)?;
    let now = net.choose(passes, value, kept)?;
    Ok(now)
}

// The same by the lines and a line that is 1 where the row passes.
fn put_recent(
    net: &mut NetBuilder,
    lines: Lines,
    passes: Bit,
    value: Bus,
    back: u32,
) -> Result<Bus, Memory>
    requires valid { IsBit net.old lines.valid }
    requires eos { IsBit net.old lines.eos }
    requires passes { IsBit net.old passes }
    requires value { IsBus net.old value }
    requires back { back < 2 ^ 16 }
    ensures { IfOk result (IsRecentIn net.old net.new lines passes value back) }
{
    let takes = both(net, lines.valid, passes)?;
    let last = put_last(net, lines, takes, value)?;
    let old = put_age(net, lines, takes, back)?;
    let now = put_young(net, passes, old, value, last.before)?;
    // Named, since a goal speaks of the value.
    let out = later(net, now)?;
    Ok(out)
}

/// The value of the last row that passes, of this row and so many before it.
pub fn put_recent_item(
    net: &mut NetBuilder,
    input: Input,
    column: u16,
    operand: Operand,
    back: u32,
) -> Result<Bus, Memory>
    requires input { HasInput net.old input }
    requires filter { ConditionFits input.source.kinds.now (Some column) }
    requires fits { OperandFits input.source.kinds.now operand }
    requires known { OperandKnown (widths input.source.words.now) operand }
    requires back { back < 2 ^ 16 }
    ensures { IfOk result (
        let width = width_of (kind_of_operand input.entry.source.kinds.now operand) in
        IsItemIn net.old net.new (cost_of_recent width back) 1 width
        (λ sets. last_value_of (value_in sets operand) (Some back) (counts_in (Some column))) input.entry) }
{
    let passes = put_operand(net, input.source, Operand::Column(column))?;
    let value = put_operand(net, input.source, operand)?;
    // Named, since a goal speaks of the value.
    let out = put_recent(net, input.lines, passes.bit(), value, back)?;
    Ok(out)
}
