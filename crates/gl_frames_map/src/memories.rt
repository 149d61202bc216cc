//! The memories of a look-up: the slot of each key, and the key of each slot. Both are written
//! where a key takes a slot. Beside them stands how many keys the stream has.

ghost use Rattle.std.specs.Prelude.{◌≡◌, ◌+◌, ◌≤◌, ◌^◌, IfOk};
ghost use Rattle.gl_bits.specs.Words.{IsWidth};
ghost use Rattle.gl_net.specs.Net.{IsBit, IsBus};
ghost use Rattle.gl_frames_map.specs.MapNets.{HasAsked, HasRecent, HasSeen, IsCountedIn, IsKeyFoundIn, IsNextUsedIn, IsPlaceFoundIn};

use crate::passing::Asked;
use crate::telling::{Recent, Seen, Told, put_read, put_recent, tell};
use gl_bits::Memory;
use gl_frames_lanes::Keys;
use gl_net::{BinaryOp, Bit, Bus, NetBuilder};
use gl_wire::later;
use gl_wire_registers::numbers::with_one;
use gl_wire_registers::{number_or, word};

// How many keys there are one cycle later: none behind an end, and one more with a new key.
fn next_used(net: &mut NetBuilder, used: Bus, first: Bit, ends: Bit) -> Result<Bus, Memory>
    requires used { IsBus net.old used }
    requires first { IsBit net.old first }
    requires ends { IsBit net.old ends }
    ensures { IfOk result (IsNextUsedIn net.old net.new used first ends) }
{
    let more = with_one(net, BinaryOp::Add, used)?;
    let kept = net.choose(first, more, used)?;
    let next = number_or(net, ends, 0, kept)?;
    Ok(next)
}

// The key of each slot: that of the slot that was read tells whether the row's key has it.
fn find_key(
    net: &mut NetBuilder,
    keys: Keys,
    asked: Asked,
    found: Bus,
    seen: Seen,
) -> Result<Told, Memory>
    requires asked { HasAsked net.old asked.last.width asked }
    requires found { IsBus net.old found }
    requires found_width { found.width ≡ keys.width }
    requires seen { HasSeen net.old (keys.width + 1) seen }
    requires width { IsWidth keys.width }
    requires few { keys.width ≤ 32 }
    requires fits { keys.groups ≤ 2 ^ keys.width }
    ensures { IfOk result (IsKeyFoundIn net.old net.new keys asked found seen) }
{
    let store = net.memory(keys.width, asked.last.width)?;
    let key = net.read(store, found)?;
    let stored = later(net, key)?;
    let told = tell(net, keys, asked, stored, seen)?;
    net.drive_memory(store, told.decision.first, told.slot, asked.last)?;
    Ok(told)
}

// The slot of each key: the one at a row's key is read when the row comes.
fn find_place(
    net: &mut NetBuilder,
    keys: Keys,
    asked: Asked,
    used: Bus,
    recent: Recent,
) -> Result<Told, Memory>
    requires asked { HasAsked net.old asked.last.width asked }
    requires narrow { asked.last.width ≤ 32 }
    requires used { IsBus net.old used }
    requires used_width { used.width ≡ keys.width + 1 }
    requires recent { HasRecent net.old (keys.width + 1) recent }
    requires width { IsWidth keys.width }
    requires few { keys.width ≤ 32 }
    requires fits { keys.groups ≤ 2 ^ keys.width }
    ensures { IfOk result (IsPlaceFoundIn net.old net.new keys asked used recent) }
{
    let store = net.memory(asked.last.width, keys.width)?;
    let place = net.read(store, asked.here)?;
    let found = later(net, place)?;
    let read = put_read(net, found, used, asked.ends)?;
    let seen = Seen { used, recent, read };
    let told = find_key(net, keys, asked, found, seen)?;
    net.drive_memory(store, told.decision.first, asked.last, told.slot)?;
    Ok(told)
}

/// How many keys the stream has, and what that and the memories tell of the row that asks.
pub fn count_keys(net: &mut NetBuilder, keys: Keys, asked: Asked) -> Result<Told, Memory>
    requires asked { HasAsked net.old asked.last.width asked }
    requires narrow { asked.last.width ≤ 32 }
    requires width { IsWidth keys.width }
    requires few { keys.width ≤ 32 }
    requires fits { keys.groups ≤ 2 ^ keys.width }
    ensures { IfOk result (IsCountedIn net.old net.new keys asked) }
{
    let used = net.register(keys.width + 1, Some(word(0, keys.width + 1)))?;
    let recent = put_recent(net, used, asked.near, asked.far)?;
    let told = find_place(net, keys, asked, used, recent)?;
    let next = next_used(net, used, told.decision.first, asked.ends)?;
    net.drive(used, next)?;
    Ok(told)
}
