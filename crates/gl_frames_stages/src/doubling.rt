//! The least and the greatest value of the rows of a frame, by doubling.

ghost use Rattle.std.specs.Prelude.{◌≡◌, ◌+◌, ◌<◌, ◌≤◌, ◌^◌, IfOk};
ghost use Rattle.gl_net.specs.Net.{IsBit, IsBus};
ghost use Rattle.gl_values.specs.Kinds.{width_of};
ghost use Rattle.gl_frames_stages.specs.DoublingNets.{AreWindows, IsDoubledIn, IsFrameBestIn};
ghost use Rattle.gl_frames_stages.specs.LevelNets.{word_width};

use crate::level::{Order, put_level};
use crate::lines::{Lines, delay_lines};
use gl_bits::Memory;
use gl_frames_wire::Reach;
use gl_net::{Bus, NetBuilder};
use gl_wire::later;

/// The last rows, so many of them, and so many in all.
#[derive(Clone, Copy)]
pub struct Windows {
    /// So many rows have been looked at.
    pub rows: u32,
    /// So many rows has the frame.
    pub all: u32,
}

/// Two cycles a doubling behind each row, the best of all rows of a frame, from a column of the best
/// of some. There are no more than `more` rows to come.
pub fn put_doubled(
    net: &mut NetBuilder,
    lines: Lines,
    more: u32,
    windows: Windows,
    order: Order,
    value: Bus,
) -> Result<Bus, Memory>
    requires valid { IsBit net.old lines.valid }
    requires eos { IsBit net.old lines.eos }
    requires windows { AreWindows more windows }
    requires value { IsBus net.old value }
    requires width { value.width ≡ word_width order }
    requires some { 1 ≤ width_of order.kind }
    ensures { IfOk result (IsDoubledIn net.old net.new lines more windows order value) }
{
    let rows = windows.rows;
    let all = windows.all;
    if all <= rows {
        return Ok(value);
    }
    let gap = rows.min(all - rows);
    let wide = put_level(net, lines, Reach::new(gap), order, value)?;
    let late = delay_lines(net, lines, 2)?;
    let next = Windows {
        rows: rows + gap,
        all,
    };
    // Named, since a goal speaks of the value.
    let out = put_doubled(net, late, more - 1, next, order, wide)?;
    Ok(out)
}

/// The best of the last rows of a stream, each row and so many before it: two cycles for each
/// doubling, and one, behind the row.
pub fn put_frame_best(
    net: &mut NetBuilder,
    lines: Lines,
    back: u32,
    order: Order,
    value: Bus,
) -> Result<Bus, Memory>
    requires valid { IsBit net.old lines.valid }
    requires eos { IsBit net.old lines.eos }
    requires back { back < 2 ^ 16 }
    requires value { IsBus net.old value }
    requires width { value.width ≡ word_width order }
    requires some { 1 ≤ width_of order.kind }
    ensures { IfOk result (IsFrameBestIn net.old net.new lines back order value) }
{
    let windows = Windows {
        rows: 1,
        all: back + 1,
    };
    let best = put_doubled(net, lines, back, windows, order, value)?;
    // Named, since a goal speaks of the value.
    let out = later(net, best)?;
    Ok(out)
}
