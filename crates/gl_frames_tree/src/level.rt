//! One level of a tree: a memory with a word for each node, and how many children all nodes have.

ghost use Rattle.std.specs.Prelude.{◌≡◌, ◌+◌, ◌*◌, ◌<◌, ◌≤◌, ◌^◌, IfOk, length};
ghost use Rattle.gl_bits.specs.Words.{IsWidth};
ghost use Rattle.gl_net.specs.Net.{IsBit, IsBus};
ghost use Rattle.gl_frames_tree.specs.LevelNets.{HasStand, HasTold, IsCountedIn, IsNextUsedIn, IsRecalledIn, IsToldIn};
ghost use Rattle.gl_frames_tree.specs.TreeNets.{HasClimb, IsLevelIn, IsStageIn};

use crate::looking::{Decision, Stand, look, settle};
use crate::parts::put_digit;
use crate::writing::{Written, put_ahead, put_written};
use gl_bits::Memory;
use gl_frames_lanes::Keys;
use gl_net::{BinaryOp, Bit, Bus, NetBuilder};
use gl_wire::{Wire, either, later, later_bit, stage};
use gl_wire_registers::numbers::with_one;
use gl_wire_registers::{number_or, word};
use std::alloc::Global;

/// Rows on their way through a tree.
#[derive(Drop)]
pub struct Climb {
    /// The rows that were not lost, and the ends.
    pub wire: Wire,
    /// The number of each row's node.
    pub node: Bus,
    /// That of the row that comes next, where its node was there before.
    pub next: Bus,
    /// 1 with a row that its node begins with.
    pub fresh: Bit,
    /// 1 where a row that was lost would stand.
    pub lost: Bit,
}

/// What a level tells of a row.
#[derive(Clone, Copy)]
pub struct Told {
    /// 1 where the row's child was there before.
    pub here: Bit,
    /// What becomes of the row.
    pub decision: Decision,
    /// The number of its child.
    pub number: Bus,
    /// The same, where the child was there before.
    pub seen: Bus,
    /// Its node's word.
    pub written: Written,
}

// What a level tells of a row, with its node's word and how many children there are.
fn tell(
    net: &mut NetBuilder,
    keys: Keys,
    stand: Stand,
    word: Bus,
    used: Bus,
) -> Result<Told, Memory>
    requires stand { HasStand net.old keys.width stand }
    requires word { IsBus net.old word }
    requires word_width { word.width ≡ 4 * (keys.width + 1) }
    requires used { IsBus net.old used }
    requires used_width { used.width ≡ keys.width + 1 }
    requires width { IsWidth keys.width }
    requires few { keys.width ≤ 31 }
    requires fits { keys.groups ≤ 2 ^ keys.width }
    ensures { IfOk result (IsToldIn net.old net.new keys stand word used) }
{
    let looked = look(net, keys, stand, word)?;
    let settled = settle(net, keys, stand, looked, used)?;
    let make = settled.decision.make;
    let written = put_written(
        net,
        looked.parts,
        make,
        stand.digit,
        settled.mark,
        stand.fresh,
    )?;
    Ok(Told {
        here: looked.seen.here,
        decision: settled.decision,
        number: settled.number,
        seen: looked.seen.child,
        written,
    })
}

// The same with the word that was read one cycle before.
fn recall(net: &mut NetBuilder, keys: Keys, stand: Stand, used: Bus) -> Result<Told, Memory>
    requires stand { HasStand net.old keys.width stand }
    requires used { IsBus net.old used }
    requires used_width { used.width ≡ keys.width + 1 }
    requires width { IsWidth keys.width }
    requires few { keys.width ≤ 31 }
    requires fits { keys.groups ≤ 2 ^ keys.width }
    ensures { IfOk result (IsRecalledIn net.old net.new keys stand used) }
{
    let word = net.register(4 * (keys.width + 1), None)?;
    let told = tell(net, keys, stand, word, used)?;
    let ahead = put_ahead(net, keys.width, told.written, stand.node, stand.next)?;
    net.drive(word, ahead)?;
    Ok(told)
}

// How many children there are one cycle later: none behind an end, and one more where one begins.
fn next_used(net: &mut NetBuilder, used: Bus, make: Bit, ends: Bit) -> Result<Bus, Memory>
    requires used { IsBus net.old used }
    requires make { IsBit net.old make }
    requires ends { IsBit net.old ends }
    ensures { IfOk result (IsNextUsedIn net.old net.new used make ends) }
{
    let more = with_one(net, BinaryOp::Add, used)?;
    let kept = net.choose(make, more, used)?;
    let next = number_or(net, ends, 0, kept)?;
    Ok(next)
}

/// What a level tells of a row, with all that it keeps.
pub fn count_children(net: &mut NetBuilder, keys: Keys, stand: Stand) -> Result<Told, Memory>
    requires stand { HasStand net.old keys.width stand }
    requires width { IsWidth keys.width }
    requires few { keys.width ≤ 31 }
    requires fits { keys.groups ≤ 2 ^ keys.width }
    ensures { IfOk result (IsCountedIn net.old net.new keys stand) }
{
    let used = net.register(keys.width + 1, Some(word(0, keys.width + 1)))?;
    let told = recall(net, keys, stand, used)?;
    let next = next_used(net, used, told.decision.make, stand.ends)?;
    net.drive(used, next)?;
    Ok(told)
}

// What a level tells one cycle later, with the ends and the columns.
fn put_stage(
    alloc: Global,
    net: &mut NetBuilder,
    climb: &Climb,
    told: Told,
    width: u8,
) -> Result<Climb, Memory>
    requires climb { HasClimb net.old climb.now.wire width climb.now }
    requires told { HasTold net.old width told }
    ensures { IfOk result (IsStageIn net.old net.new width climb.now told) }
{
    let node = later(net, told.number)?;
    let fresh = later_bit(net, told.decision.make)?;
    let both = either(net, climb.lost, told.decision.lost)?;
    let lost = later_bit(net, both)?;
    let columns = climb.wire.columns.as_slice();
    let wire = stage(alloc, net, told.decision.row, climb.wire.eos, columns)?;
    Ok(Climb {
        wire,
        node,
        next: told.seen,
        fresh,
        lost,
    })
}

/// Rows at the level below, one cycle later: `rest` levels are behind this one.
pub fn put_level(
    alloc: Global,
    net: &mut NetBuilder,
    climb: &Climb,
    keys: Keys,
    rest: u8,
) -> Result<Climb, Memory>
    requires climb { HasClimb net.old climb.now.wire keys.width climb.now }
    requires column { keys.column < length climb.now.wire.columns }
    requires width { IsWidth keys.width }
    requires few { keys.width ≤ 31 }
    requires fits { keys.groups ≤ 2 ^ keys.width }
    requires rest { rest ≤ 63 }
    ensures { IfOk result (IsLevelIn net.old net.new keys rest climb.now) }
{
    let key = climb.wire.columns.as_slice()[keys.column];
    let digit = put_digit(net, key, rest)?;
    let stand = Stand {
        valid: climb.wire.valid,
        ends: climb.wire.eos,
        fresh: climb.fresh,
        node: climb.node,
        next: climb.next,
        digit,
    };
    let told = count_children(net, keys, stand)?;
    // Named, since a goal speaks of the value.
    let up = put_stage(alloc, net, climb, told, keys.width)?;
    Ok(up)
}
