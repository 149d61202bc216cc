//! The sum of the rows of a frame, three cycles behind each row.

ghost use Rattle.std.specs.Prelude.{◌≡◌, IfOk};
ghost use Rattle.gl_bits.specs.Words.{IsWidth};
ghost use Rattle.gl_net.specs.Net.{IsBit, IsBus};
ghost use Rattle.gl_values.specs.Kinds.{width_of};
ghost use Rattle.gl_frames_wire.specs.Reaches.{IsReach};
ghost use Rattle.gl_frames_stages.specs.SumNets.{IsSlideSumIn, IsSummedIn, IsWideSumIn};

use crate::lines::{Lines, delay_lines};
use crate::slide::{put_change, put_slide, put_wide_change};
use gl_bits::Memory;
use gl_frames_wire::Reach;
use gl_net::{Bus, NetBuilder};
use gl_totals::rows::{Keep, Rows};
use gl_totals::sum::put_sum;
use gl_values::Kind;
use gl_wire::later;

/// One cycle behind each row, the sum of the values of its stream up to it, which wraps in their
/// width.
pub fn put_summed(net: &mut NetBuilder, lines: Lines, value: Bus) -> Result<Bus, Memory>
    requires valid { IsBit net.old lines.valid }
    requires eos { IsBit net.old lines.eos }
    requires value { IsBus net.old value }
    ensures { IfOk result (IsSummedIn net.old net.new lines value) }
{
    let rows = Rows {
        valid: lines.valid,
        eos: lines.eos,
        keep: Keep::Register,
    };
    let sum = put_sum(net, rows, value)?;
    // Named, since a goal speaks of the value.
    let out = later(net, sum)?;
    Ok(out)
}

/// Three cycles behind each row, the sum of its value and of those before it in its stream, so many
/// in all, which wraps in their width.
pub fn put_slide_sum(
    net: &mut NetBuilder,
    lines: Lines,
    reach: Reach,
    value: Bus,
) -> Result<Bus, Memory>
    requires valid { IsBit net.old lines.valid }
    requires eos { IsBit net.old lines.eos }
    requires reach { IsReach reach }
    requires value { IsBus net.old value }
    ensures { IfOk result (IsSlideSumIn net.old net.new lines reach value) }
{
    let slide = put_slide(net, lines, reach, value)?;
    let change = put_change(net, slide)?;
    let late = delay_lines(net, lines, 2)?;
    // Named, since a goal speaks of the value.
    let sum = put_summed(net, late, change)?;
    Ok(sum)
}

/// The same of the numbers that words of a kind stand for, which wraps in a width of its own.
pub fn put_wide_sum(
    net: &mut NetBuilder,
    lines: Lines,
    reach: Reach,
    value: Bus,
    kind: Kind,
    width: u8,
) -> Result<Bus, Memory>
    requires valid { IsBit net.old lines.valid }
    requires eos { IsBit net.old lines.eos }
    requires reach { IsReach reach }
    requires value { IsBus net.old value }
    requires value_width { value.width ≡ width_of kind }
    requires width { IsWidth width }
    ensures { IfOk result (IsWideSumIn net.old net.new lines reach value kind width) }
{
    let slide = put_slide(net, lines, reach, value)?;
    let change = put_wide_change(net, slide, kind, width)?;
    let late = delay_lines(net, lines, 2)?;
    // Named, since a goal speaks of the value.
    let sum = put_summed(net, late, change)?;
    Ok(sum)
}
