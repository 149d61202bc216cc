//! How many rows a frame has, one cycle behind each row.

ghost use Rattle.std.specs.Prelude.{◌<◌, ◌≤◌, ◌^◌, IfOk, Some};
ghost use Rattle.gl_net.specs.Net.{IsBit, IsBus};
ghost use Rattle.gl_values.specs.Totals.{count_of};
ghost use Rattle.gl_frames.specs.Frames.{frame_of};
ghost use Rattle.gl_frames_stages.specs.Framing.{cost_of_number, every};
ghost use Rattle.gl_frames_stages.specs.Inputs.{HasInput, IsItemIn};
ghost use Rattle.gl_frames_stages.specs.NumberNets.{IsAtMostIn, IsNumberIn, IsOneMoreIn};

use crate::input::Input;
use crate::lagged::number_word;
use crate::lines::Lines;
use gl_bits::Memory;
use gl_frames_wire::{Reach, put_count};
use gl_net::{BinaryOp, Bus, NetBuilder};
use gl_wire::later;

// One more than a count, in 32 bits.
fn put_one_more(net: &mut NetBuilder, count: Bus) -> Result<Bus, Memory>
    requires count { IsBus net.old count }
    requires width { count.width ≤ 18 }
    ensures { IfOk result (IsOneMoreIn net.old net.new count) }
{
    let high = net.constant(number_word(0, 32 - count.width))?;
    let wide = net.join(high, count)?;
    let one = net.constant(number_word(1, 32))?;
    let more = net.binary(BinaryOp::Add, wide, one)?;
    Ok(more)
}

/// One more than a count, or one more than so many where the count is at least so many.
pub fn put_at_most(net: &mut NetBuilder, count: Bus, back: u32) -> Result<Bus, Memory>
    requires count { IsBus net.old count }
    requires width { count.width ≤ 18 }
    requires fits { back < 2 ^ count.width }
    requires back { back < 2 ^ 16 }
    ensures { IfOk result (IsAtMostIn net.old net.new count back) }
{
    let more = put_one_more(net, count)?;
    let least = net.constant(number_word(u128::from(back), count.width))?;
    let full = net.binary(BinaryOp::Le, least, count)?;
    let most = net.constant(number_word(u128::from(back) + 1, 32))?;
    let rows = net.choose(full.bit(), most, more)?;
    Ok(rows)
}

/// One cycle behind each row, how many rows of its stream the row and so many before it are.
pub fn put_number(net: &mut NetBuilder, lines: Lines, back: u32) -> Result<Bus, Memory>
    requires valid { IsBit net.old lines.valid }
    requires eos { IsBit net.old lines.eos }
    requires back { back < 2 ^ 16 }
    ensures { IfOk result (IsNumberIn net.old net.new lines back) }
{
    let reach = Reach::new(back + 1);
    let count = put_count(net, lines.valid, lines.eos, reach.bits)?;
    let rows = put_at_most(net, count, back)?;
    let out = later(net, rows)?;
    Ok(out)
}

/// The number of rows of a frame without a FILTER.
pub fn put_number_item(net: &mut NetBuilder, input: Input, back: u32) -> Result<Bus, Memory>
    requires input { HasInput net.old input }
    requires back { back < 2 ^ 16 }
    ensures { IfOk result (IsItemIn net.old net.new (cost_of_number back) 1 32
        (λ _ rows. count_of (frame_of (Some back) every rows)) input.entry) }
{
    let out = put_number(net, input.lines, back)?;
    Ok(out)
}
