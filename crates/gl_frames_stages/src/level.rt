//! The better of two windows of rows, two cycles behind each row: one level of doubling.

ghost use Rattle.std.specs.Prelude.{◌≡◌, ◌+◌, ◌≤◌, false, true, IfOk};
ghost use Rattle.gl_net.specs.Net.{IsBit, IsBus};
ghost use Rattle.gl_values.specs.Kinds.{width_of};
ghost use Rattle.gl_frames_wire.specs.Reaches.{IsReach};
ghost use Rattle.gl_frames_stages.specs.LevelNets.{IsKeptIn, IsLevelIn, IsStaysIn, IsWinsIn, nodes_of_stays, word_width};

use crate::lagged::{Maybe, put_lagged};
use crate::lines::Lines;
use gl_bits::Memory;
use gl_divide::digit::highest;
use gl_frames_wire::Reach;
use gl_net::{Bit, Bus, NetBuilder};
use gl_totals::fold::{Best, Extreme, put_better};
use gl_values::Kind;
use gl_wire::{both, but_not, later, later_bit};

/// Which of two words of a kind is kept.
#[derive(Clone, Copy)]
pub struct Order {
    /// The end of the order that is kept.
    pub extreme: Extreme,
    /// The kind of both.
    pub kind: Kind,
    /// Whether a word has a bit above its value that is 1 where there is one.
    pub packed: bool,
}

// Whether a word is no better than an earlier one.
fn put_plain_stays(
    net: &mut NetBuilder,
    found: Maybe,
    own: Bus,
    order: Order,
) -> Result<Bit, Memory>
    requires some { IsBit net.old found.some }
    requires word { IsBus net.old found.word }
    requires own { IsBus net.old own }
    requires plain { order.packed ≡ false }
    requires own_width { own.width ≡ word_width order }
    requires word_width { found.word.width ≡ word_width order }
    ensures { IfOk result (IsStaysIn net.old net.new 5 found own order) }
{
    let best = Best {
        extreme: order.extreme,
        kind: order.kind,
        some: found.some,
        value: own,
    };
    let better = put_better(net, found.word, best)?;
    // Named, since a goal speaks of the value.
    let stays = but_not(net, found.some, better.bit())?;
    Ok(stays)
}

// Whether a value is better than an earlier one, of words with a bit above the value.
fn put_wins(net: &mut NetBuilder, word: Bus, own: Bus, order: Order) -> Result<Bit, Memory>
    requires word { IsBus net.old word }
    requires own { IsBus net.old own }
    requires own_width { own.width ≡ width_of order.kind + 1 }
    requires word_width { word.width ≡ width_of order.kind + 1 }
    requires width { 1 ≤ width_of order.kind }
    ensures { IfOk result (IsWinsIn net.old net.new word own order) }
{
    let top = own.width - 2;
    let has = highest(net, own)?;
    let earlier = net.cut(word, top, 0)?;
    let value = net.cut(own, top, 0)?;
    let best = Best {
        extreme: order.extreme,
        kind: order.kind,
        some: has,
        value,
    };
    let better = put_better(net, earlier, best)?;
    let wins = both(net, has, better.bit())?;
    Ok(wins)
}

// Whether an earlier word has a value, and a word has none that is better.
fn put_packed_stays(
    net: &mut NetBuilder,
    found: Maybe,
    own: Bus,
    order: Order,
) -> Result<Bit, Memory>
    requires some { IsBit net.old found.some }
    requires word { IsBus net.old found.word }
    requires own { IsBus net.old own }
    requires packed { order.packed ≡ true }
    requires own_width { own.width ≡ word_width order }
    requires word_width { found.word.width ≡ word_width order }
    requires width { 1 ≤ width_of order.kind }
    ensures { IfOk result (IsStaysIn net.old net.new 12 found own order) }
{
    let wins = put_wins(net, found.word, own, order)?;
    let held = highest(net, found.word)?;
    let there = both(net, found.some, held)?;
    // Named, since a goal speaks of the value.
    let stays = but_not(net, there, wins)?;
    Ok(stays)
}

/// Whether an earlier word is there and is kept.
pub fn put_stays(net: &mut NetBuilder, found: Maybe, own: Bus, order: Order) -> Result<Bit, Memory>
    requires some { IsBit net.old found.some }
    requires word { IsBus net.old found.word }
    requires own { IsBus net.old own }
    requires own_width { own.width ≡ word_width order }
    requires word_width { found.word.width ≡ word_width order }
    requires width { 1 ≤ width_of order.kind }
    ensures { IfOk result (IsStaysIn net.old net.new (nodes_of_stays order) found own order) }
{
    if order.packed {
        let stays = put_packed_stays(net, found, own, order)?;
        return Ok(stays);
    }
    // Named, since a goal speaks of the value.
    let stays = put_plain_stays(net, found, own, order)?;
    Ok(stays)
}

/// One cycle later one bus where a line is 1, and else another.
pub fn put_kept(net: &mut NetBuilder, line: Bit, word: Bus, own: Bus) -> Result<Bus, Memory>
    requires line { IsBit net.old line }
    requires word { IsBus net.old word }
    requires own { IsBus net.old own }
    requires widths { word.width ≡ own.width }
    ensures { IfOk result (IsKeptIn net.old net.new line word own) }
{
    let late = later_bit(net, line)?;
    let first = later(net, word)?;
    let second = later(net, own)?;
    let out = net.choose(late, first, second)?;
    Ok(out)
}

/// Two cycles behind each row, the better of what the column had so many rows before and of what it
/// has. The comparison has a cycle of its own.
pub fn put_level(
    net: &mut NetBuilder,
    lines: Lines,
    reach: Reach,
    order: Order,
    value: Bus,
) -> Result<Bus, Memory>
    requires valid { IsBit net.old lines.valid }
    requires eos { IsBit net.old lines.eos }
    requires reach { IsReach reach }
    requires value { IsBus net.old value }
    requires width { value.width ≡ word_width order }
    requires some { 1 ≤ width_of order.kind }
    ensures { IfOk result (IsLevelIn net.old net.new lines reach order value) }
{
    let found = put_lagged(net, lines, reach, value)?;
    let own = later(net, value)?;
    let stays = put_stays(net, found, own, order)?;
    // Named, since a goal speaks of the value.
    let out = put_kept(net, stays, found.word, own)?;
    Ok(out)
}
