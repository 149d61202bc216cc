//! What a level tells of the row at it: whether the child that the row names is there, and the
//! number of that child, or of the next one.

ghost use Rattle.std.specs.Prelude.{◌≡◌, ◌+◌, ◌*◌, ◌<◌, ◌≤◌, ◌^◌, IfOk};
ghost use Rattle.gl_bits.specs.Words.{IsWidth};
ghost use Rattle.gl_net.specs.Net.{IsBit, IsBus};
ghost use Rattle.gl_frames_tree.specs.LevelNets.{HasLooked, HasStand, IsDecisionIn, IsLookedIn, IsMarkIn, IsSeenIn, IsSettledIn};

use crate::parts::{Digit, Parts, pick_part, put_parts};
use gl_bits::Memory;
use gl_frames_lanes::Keys;
use gl_net::{Bit, Bus, NetBuilder};
use gl_wire::but_not;
use gl_wire_registers::numbers::when_equal;
use gl_wire_registers::word;

/// The row at a level.
#[derive(Clone, Copy)]
pub struct Stand {
    /// 1 where a row stands there.
    pub valid: Bit,
    /// 1 where its stream ends.
    pub ends: Bit,
    /// 1 where its node begins with it.
    pub fresh: Bit,
    /// The number of its node.
    pub node: Bus,
    /// The number of the node of the row that comes next, where that node was there before.
    pub next: Bus,
    /// Which of its node's children it names.
    pub digit: Digit,
}

/// Whether a child is there, with its number.
#[derive(Clone, Copy)]
pub struct Seen {
    /// 1 where it is.
    pub here: Bit,
    /// Its number.
    pub child: Bus,
}

/// What is seen of a row's child.
#[derive(Clone, Copy)]
pub struct Looked {
    /// The parts of its node's word.
    pub parts: Parts,
    /// The child.
    pub seen: Seen,
}

/// What becomes of a row.
#[derive(Clone, Copy)]
pub struct Decision {
    /// 1 where it is kept.
    pub row: Bit,
    /// 1 where a child begins with it.
    pub make: Bit,
    /// 1 where it is lost.
    pub lost: Bit,
}

/// The number of the next child, and the part of a word that tells of it.
#[derive(Clone, Copy)]
pub struct Mark {
    /// The number.
    pub free: Bus,
    /// The part: the number below a bit that is 1.
    pub mark: Bus,
}

/// What a level tells of a row.
#[derive(Clone, Copy)]
pub struct Settled {
    /// What becomes of the row.
    pub decision: Decision,
    /// The part of a new child.
    pub mark: Bus,
    /// The number of the row's child.
    pub number: Bus,
}

// Whether the child of a part is there, where its node did not begin with the row.
fn put_seen(net: &mut NetBuilder, part: Bus, fresh: Bit, width: u8) -> Result<Seen, Memory>
    requires part { IsBus net.old part }
    requires part_width { part.width ≡ width + 1 }
    requires fresh { IsBit net.old fresh }
    requires width { IsWidth width }
    ensures { IfOk result (IsSeenIn net.old net.new part fresh width) }
{
    let top = net.cut(part, width, width)?;
    let here = but_not(net, top.bit(), fresh)?;
    let child = net.cut(part, width - 1, 0)?;
    Ok(Seen { here, child })
}

/// Whether a row's child is there, by its node's word.
pub fn look(net: &mut NetBuilder, keys: Keys, stand: Stand, word: Bus) -> Result<Looked, Memory>
    requires stand { HasStand net.old keys.width stand }
    requires word { IsBus net.old word }
    requires word_width { word.width ≡ 4 * (keys.width + 1) }
    requires width { IsWidth keys.width }
    requires few { keys.width ≤ 31 }
    ensures { IfOk result (IsLookedIn net.old net.new keys stand word) }
{
    let parts = put_parts(net, word, keys.width + 1)?;
    let part = pick_part(net, stand.digit, parts, keys.width + 1)?;
    let seen = put_seen(net, part, stand.fresh, keys.width)?;
    Ok(Looked { parts, seen })
}

// What becomes of a row: where its child is not there it is lost if no number is left.
fn decide(
    net: &mut NetBuilder,
    valid: Bit,
    here: Bit,
    used: Bus,
    groups: u32,
) -> Result<Decision, Memory>
    requires valid { IsBit net.old valid }
    requires here { IsBit net.old here }
    requires used { IsBus net.old used }
    requires fits { groups < 2 ^ used.width }
    ensures { IfOk result (IsDecisionIn net.old net.new valid here used groups) }
{
    let new = but_not(net, valid, here)?;
    let lost = when_equal(net, new, used, u128::from(groups))?;
    let make = but_not(net, new, lost)?;
    let row = but_not(net, valid, lost)?;
    Ok(Decision { row, make, lost })
}

// The number of the next child, and the part that tells of it.
fn put_mark(net: &mut NetBuilder, used: Bus, width: u8) -> Result<Mark, Memory>
    requires used { IsBus net.old used }
    requires used_width { used.width ≡ width + 1 }
    requires width { IsWidth width }
    ensures { IfOk result (IsMarkIn net.old net.new used width) }
{
    let one = net.constant(word(1, 1))?;
    let free = net.cut(used, width - 1, 0)?;
    let mark = net.join(one, free)?;
    Ok(Mark { free, mark })
}

/// What a level tells of a row, by whether its child is there and how many children there are.
pub fn settle(
    net: &mut NetBuilder,
    keys: Keys,
    stand: Stand,
    looked: Looked,
    used: Bus,
) -> Result<Settled, Memory>
    requires stand { HasStand net.old keys.width stand }
    requires looked { HasLooked net.old keys.width looked }
    requires used { IsBus net.old used }
    requires used_width { used.width ≡ keys.width + 1 }
    requires width { IsWidth keys.width }
    requires few { keys.width ≤ 31 }
    requires fits { keys.groups ≤ 2 ^ keys.width }
    ensures { IfOk result (IsSettledIn net.old net.new keys stand looked used) }
{
    let decision = decide(net, stand.valid, looked.seen.here, used, keys.groups)?;
    let new = put_mark(net, used, keys.width)?;
    let number = net.choose(looked.seen.here, looked.seen.child, new.free)?;
    let mark = new.mark;
    Ok(Settled {
        decision,
        mark,
        number,
    })
}
