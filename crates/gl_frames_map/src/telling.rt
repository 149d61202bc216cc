//! What is told of a row: its slot, whether its key is new, and whether it is left out.

ghost use Rattle.std.specs.Prelude.{◌≡◌, ◌+◌, ◌<◌, ◌≤◌, ◌^◌, IfOk};
ghost use Rattle.gl_bits.specs.Words.{IsWidth};
ghost use Rattle.gl_net.specs.Net.{IsBit, IsBus};
ghost use Rattle.gl_frames_map.specs.MapNets.{HasAsked, HasSeen, IsDecisionIn, IsHitIn, IsKnownIn, IsLess, IsNumberIn, IsPlaceReadIn, IsRecentIn, IsToldIn, IsWider};

use crate::passing::Asked;
use gl_bits::Memory;
use gl_frames_lanes::Keys;
use gl_net::{BinaryOp, Bit, Bus, NetBuilder};
use gl_wire::{both, but_not, either, later, later_bit, same};
use gl_wire_registers::numbers::when_equal;
use gl_wire_registers::word;

/// The slots that the keys of the two rows before took, where they were new.
#[derive(Clone, Copy)]
pub struct Recent {
    /// 1 where the key is that of the row before, which was new.
    pub one: Bit,
    /// 1 where it is that of the row two before, which was new.
    pub two: Bit,
    /// How many keys there were before the row before: its slot, where its key was new.
    pub before: Bus,
    /// The same of the row two before.
    pub earlier: Bus,
}

/// The slot that was read at a row's key.
#[derive(Clone, Copy)]
pub struct PlaceRead {
    /// 1 where a key of the row's stream has that slot.
    pub below: Bit,
    /// Its number, with one bit more.
    pub number: Bus,
}

/// What is seen of a row's key.
#[derive(Clone, Copy)]
pub struct Seen {
    /// How many keys the row's stream has.
    pub used: Bus,
    /// What the rows before it did.
    pub recent: Recent,
    /// What was read.
    pub read: PlaceRead,
}

/// What a row is.
#[derive(Clone, Copy)]
pub struct Decision {
    /// 1 with a row of one of the first keys.
    pub row: Bit,
    /// 1 with the first row of a key.
    pub first: Bit,
    /// 1 with a row of a further key.
    pub further: Bit,
}

/// What is told of a row.
#[derive(Clone, Copy)]
pub struct Told {
    /// What it is.
    pub decision: Decision,
    /// The slot of its key.
    pub slot: Bus,
}

// A line that is 1 where a bus carries less than another.
fn less(net: &mut NetBuilder, left: Bus, right: Bus) -> Result<Bit, Memory>
    requires left { IsBus net.old left }
    requires right { IsBus net.old right }
    requires widths { left.width ≡ right.width }
    ensures { IfOk result (IsLess net.old net.new left right) }
{
    let bus = net.binary(BinaryOp::Lt, left, right)?;
    Ok(bus.bit())
}

// The same number with one bit more.
fn widen(net: &mut NetBuilder, bus: Bus) -> Result<Bus, Memory>
    requires bus { IsBus net.old bus }
    requires room { bus.width + 1 ≤ 128 }
    ensures { IfOk result (IsWider net.old net.new bus) }
{
    let zero = net.constant(word(0, 1))?;
    let wide = net.join(zero, bus)?;
    Ok(wide)
}

/// Which slots the keys of the two rows before took.
pub fn put_recent(net: &mut NetBuilder, used: Bus, near: Bit, far: Bit) -> Result<Recent, Memory>
    requires used { IsBus net.old used }
    requires near { IsBit net.old near }
    requires far { IsBit net.old far }
    ensures { IfOk result (IsRecentIn net.old net.new used near far) }
{
    let before = later(net, used)?;
    let earlier = later(net, before)?;
    let grows = less(net, before, used)?;
    let grew = later_bit(net, grows)?;
    let one = both(net, near, grows)?;
    let two = both(net, far, grew)?;
    Ok(Recent {
        one,
        two,
        before,
        earlier,
    })
}

/// The slot that was read one cycle ago, and whether a key of the same stream has it.
pub fn put_read(net: &mut NetBuilder, found: Bus, used: Bus, ends: Bit) -> Result<PlaceRead, Memory>
    requires found { IsBus net.old found }
    requires used { IsBus net.old used }
    requires width { used.width ≡ found.width + 1 }
    requires ends { IsBit net.old ends }
    ensures { IfOk result (IsPlaceReadIn net.old net.new found used ends) }
{
    let wide = widen(net, found)?;
    let lower = less(net, wide, used)?;
    let stays = but_not(net, lower, ends)?;
    let below = later_bit(net, stays)?;
    let number = later(net, wide)?;
    Ok(PlaceRead { below, number })
}

// Whether the slot that was read has the row's key.
fn put_hit(net: &mut NetBuilder, below: Bit, last: Bus, stored: Bus) -> Result<Bit, Memory>
    requires below { IsBit net.old below }
    requires last { IsBus net.old last }
    requires stored { IsBus net.old stored }
    requires widths { last.width ≡ stored.width }
    ensures { IfOk result (IsHitIn net.old net.new below last stored) }
{
    let equal = same(net, last, stored)?;
    let hit = both(net, below, equal)?;
    Ok(hit)
}

// Whether a key of the stream is the row's.
fn put_known(net: &mut NetBuilder, hit: Bit, one: Bit, two: Bit) -> Result<Bit, Memory>
    requires hit { IsBit net.old hit }
    requires one { IsBit net.old one }
    requires two { IsBit net.old two }
    ensures { IfOk result (IsKnownIn net.old net.new hit one two) }
{
    let read = either(net, hit, one)?;
    let known = either(net, read, two)?;
    Ok(known)
}

// The slot of the row's key; of a new one the next slot.
fn choose_number(net: &mut NetBuilder, hit: Bit, seen: Seen, width: u8) -> Result<Bus, Memory>
    requires hit { IsBit net.old hit }
    requires seen { HasSeen net.old width seen }
    ensures { IfOk result (IsNumberIn net.old net.new hit seen) }
{
    let new = net.choose(seen.recent.two, seen.recent.earlier, seen.used)?;
    let near = net.choose(seen.recent.one, seen.recent.before, new)?;
    let number = net.choose(hit, seen.read.number, near)?;
    Ok(number)
}

// What a row is: one of a new key is kept where a slot is left.
fn decide(
    net: &mut NetBuilder,
    valid: Bit,
    known: Bit,
    used: Bus,
    groups: u32,
) -> Result<Decision, Memory>
    requires valid { IsBit net.old valid }
    requires known { IsBit net.old known }
    requires used { IsBus net.old used }
    requires fits { groups < 2 ^ used.width }
    ensures { IfOk result (IsDecisionIn net.old net.new valid known used groups) }
{
    let new = but_not(net, valid, known)?;
    let further = when_equal(net, new, used, u128::from(groups))?;
    let first = but_not(net, new, further)?;
    let row = but_not(net, valid, further)?;
    Ok(Decision {
        row,
        first,
        further,
    })
}

/// What is told of a row, with the key that stands in the slot that was read.
pub fn tell(
    net: &mut NetBuilder,
    keys: Keys,
    asked: Asked,
    stored: Bus,
    seen: Seen,
) -> Result<Told, Memory>
    requires asked { HasAsked net.old stored.width asked }
    requires stored { IsBus net.old stored }
    requires seen { HasSeen net.old (keys.width + 1) seen }
    requires width { IsWidth keys.width }
    requires few { keys.width ≤ 32 }
    requires fits { keys.groups ≤ 2 ^ keys.width }
    ensures { IfOk result (IsToldIn net.old net.new keys asked stored seen) }
{
    let hit = put_hit(net, seen.read.below, asked.last, stored)?;
    let known = put_known(net, hit, seen.recent.one, seen.recent.two)?;
    let number = choose_number(net, hit, seen, keys.width + 1)?;
    let slot = net.cut(number, keys.width - 1, 0)?;
    let decision = decide(net, asked.valid, known, seen.used, keys.groups)?;
    Ok(Told { decision, slot })
}
