//! What comes to a frame of rows and what leaves it, and the change of a sum by both.

ghost use Rattle.std.specs.Prelude.{◌≡◌, IfOk};
ghost use Rattle.gl_bits.specs.Words.{IsWidth};
ghost use Rattle.gl_net.specs.Net.{IsBit, IsBus};
ghost use Rattle.gl_values.specs.Kinds.{width_of};
ghost use Rattle.gl_frames_wire.specs.Reaches.{IsReach};
ghost use Rattle.gl_frames_stages.specs.SlideNets.{IsChangeIn, IsOrNoneIn, IsSlideIn, IsWideChangeIn};

use crate::lagged::{Maybe, put_lagged};
use crate::lines::Lines;
use gl_bits::Memory;
use gl_frames_wire::Reach;
use gl_net::{BinaryOp, Bus, NetBuilder};
use gl_rows::cast::put_number;
use gl_totals::fold::small_word;
use gl_values::Kind;
use gl_wire::later;

/// What comes to a frame with a row, and what leaves it then.
#[derive(Clone, Copy)]
pub struct Slide {
    /// The row's own value.
    pub own: Bus,
    /// The value of the row that leaves, and 0 where none does.
    pub gone: Bus,
}

/// A value, and 0 where it is absent.
pub fn put_or_none(net: &mut NetBuilder, value: Maybe) -> Result<Bus, Memory>
    requires some { IsBit net.old value.some }
    requires word { IsBus net.old value.word }
    ensures { IfOk result (IsOrNoneIn net.old net.new value) }
{
    let none = net.constant(small_word(false, value.word.width))?;
    let out = net.choose(value.some, value.word, none)?;
    Ok(out)
}

/// One cycle behind each row, its own value and the one so many rows before.
pub fn put_slide(
    net: &mut NetBuilder,
    lines: Lines,
    reach: Reach,
    value: Bus,
) -> Result<Slide, Memory>
    requires valid { IsBit net.old lines.valid }
    requires eos { IsBit net.old lines.eos }
    requires reach { IsReach reach }
    requires value { IsBus net.old value }
    ensures { IfOk result (IsSlideIn net.old net.new lines reach value) }
{
    let lagged = put_lagged(net, lines, reach, value)?;
    let gone = put_or_none(net, lagged)?;
    let own = later(net, value)?;
    Ok(Slide { own, gone })
}

/// One cycle later, what comes without what leaves.
pub fn put_change(net: &mut NetBuilder, slide: Slide) -> Result<Bus, Memory>
    requires own { IsBus net.old slide.own }
    requires gone { IsBus net.old slide.gone }
    requires widths { slide.own.width ≡ slide.gone.width }
    ensures { IfOk result (IsChangeIn net.old net.new slide) }
{
    let change = net.binary(BinaryOp::Sub, slide.own, slide.gone)?;
    // Named, since a goal speaks of the value.
    let out = later(net, change)?;
    Ok(out)
}

/// The same of the numbers that words of a kind stand for, in a width of its own.
pub fn put_wide_change(
    net: &mut NetBuilder,
    slide: Slide,
    kind: Kind,
    width: u8,
) -> Result<Bus, Memory>
    requires own { IsBus net.old slide.own }
    requires gone { IsBus net.old slide.gone }
    requires own_width { slide.own.width ≡ width_of kind }
    requires gone_width { slide.gone.width ≡ width_of kind }
    requires width { IsWidth width }
    ensures { IfOk result (IsWideChangeIn net.old net.new slide kind width) }
{
    let own = put_number(net, slide.own, kind, width)?;
    let gone = put_number(net, slide.gone, kind, width)?;
    // Named, since a goal speaks of the value.
    let out = put_change(net, Slide { own, gone })?;
    Ok(out)
}
