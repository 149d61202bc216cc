//! The slots: which slot has the key that is looked for, and which one takes a further key.

ghost use Rattle.std.specs.Prelude.{◌≡◌, IfOk, length};
ghost use Rattle.gl_net.specs.Net.{IsBit, IsBus};
ghost use Rattle.gl_wire_registers.specs.Lines.{AddsLines, AreBits};
ghost use Rattle.gl_slots.specs.SlotLines.{AddsAsks, AddsFound, AddsKept, AddsKeys, AddsNexts, AddsSeek, AddsSeen, AreKeysOf, same_to};

use crate::choices::choose_each;
use crate::notes::note_slots;
use gl_bits::Memory;
use gl_net::{Bit, Bus, Buses, NetBuilder};
use gl_wire::{both, but_not, same};
use gl_wire_registers::{
    Bits, LineOp, any, buses_of, drive_all, lines_of, open_same, pairwise, with_all, word,
};
use std::alloc::Global;

/// The key that is looked for.
#[derive(Clone, Copy, PartialEq, Eq, Debug)]
pub struct Wanted {
    /// 1 where all slots are set free before.
    pub free: Bit,
    /// 1 where a row comes.
    pub ask: Bit,
    /// Its key.
    pub here: Bus,
}

/// Which slots have the key that is looked for.
#[derive(Drop)]
pub struct Found {
    /// The slots that are used and stay so.
    pub kept: Bits,
    /// Those whose key it is.
    pub found: Bits,
    /// 1 where one of them has it.
    pub one: Bit,
}

/// Which slots a key asks.
#[derive(Drop)]
pub struct Asks {
    /// The slots: the first one, and each one behind a slot that is used.
    pub asks: Bits,
    /// 1 where the last slot is used too.
    pub passes: Bit,
}

/// What the slots make of the key that is looked for. Whether one of them has it is known last: whatever else is, is known from their registers.
#[derive(Drop)]
pub struct Seen {
    /// The slots that are used and stay so.
    pub kept: Bits,
    /// Those whose key it is.
    pub found: Bits,
    /// 1 where one of them has it.
    pub one: Bit,
    /// The slot that takes the key if none of them has it: the first one that is free, where a key comes.
    pub nexts: Bits,
    /// The slot that takes it.
    pub takes: Bits,
    /// The slots that are used with what comes in this cycle.
    pub has: Bits,
    /// 1 where the key is left: it is none of the slots', and no slot is free.
    pub passes: Bit,
}

/// The same, and the keys that the slots keep.
#[derive(Drop)]
pub struct Seek {
    /// What the slots make of the key.
    pub seen: Seen,
    /// Their keys with what comes in this cycle, those of the slots that are used then.
    pub keys: Buses,
}

/// Slots with their keys.
#[derive(Drop)]
pub struct KeyLines {
    /// Their keys at the beginning of the cycle.
    pub keys: Buses,
    /// What they make of the key that is looked for.
    pub seen: Seen,
}

/// All slots, the first one first.
#[derive(Drop)]
pub struct SlotLines {
    /// The slots that are used at the beginning of the cycle.
    pub used: Bits,
    /// Their keys then.
    pub keys: Buses,
    /// What they make of the key that is looked for.
    pub seen: Seen,
}

/// For each slot whether its key is this one.
pub fn same_each(
    alloc: Global,
    net: &mut NetBuilder,
    value: Bus,
    keys: &[Bus],
) -> Result<Bits, Memory>
    requires value { IsBus net.old value }
    requires keys { AreKeysOf net.old value keys.now }
    ensures { IfOk result (λ bs.
        AddsLines net.old net.new (length keys.now) 1 bs (same_to value keys.now)) }
{
    let mut all = Bits::new(alloc);
    for key in keys {
        let bit = same(net, value, *key)?;
        all.push(bit)?;
    }
    Ok(all)
}

/// Looks at all slots at once: which ones have the key, where they are not set free. That of the row that comes is compared; where none
/// comes, `homes` tells which slot has that of the row that came last.
pub fn find_all(
    alloc: Global,
    net: &mut NetBuilder,
    used: &Bits,
    keys: &[Bus],
    wanted: Wanted,
    homes: &Bits,
) -> Result<Found, Memory>
    requires used { AreBits net.old used.now }
    requires keys { AreKeysOf net.old wanted.here keys.now }
    requires count { length keys.now ≡ length used.now }
    requires free { IsBit net.old wanted.free }
    requires ask { IsBit net.old wanted.ask }
    requires here { IsBus net.old wanted.here }
    requires homes { AreBits net.old homes.now }
    requires homes_count { length homes.now ≡ length used.now }
    ensures { IfOk result
        (AddsFound net.old net.new used.now keys.now
        wanted.free wanted.ask wanted.here homes.now) }
{
    let kept = with_all(alloc, net, LineOp::ButNot, used, wanted.free)?;
    let same = same_each(alloc, net, wanted.here, keys)?;
    let has = choose_each(alloc, net, wanted.ask, same.as_slice(), homes.as_slice())?;
    let found = pairwise(alloc, net, LineOp::Both, &kept, &has)?;
    let one = any(net, &found)?;
    Ok(Found { kept, found, one })
}

// Slots fill in order: a key asks the first one, and each one behind a slot that is used.
pub fn ask_each(alloc: Global, net: &mut NetBuilder, ask: Bit, kept: &[Bit]) -> Result<Asks, Memory>
    requires ask { IsBit net.old ask }
    requires kept { AreBits net.old kept.now }
    ensures { IfOk result (AddsAsks net.old net.new ask kept.now (length kept.now)) }
{
    let mut asks = Bits::new(alloc);
    let mut passes = ask;
    for line in kept {
        asks.push(passes)?;
        passes = both(net, ask, *line)?;
    }
    Ok(Asks { asks, passes })
}

// For each slot its key, or the one that it may take.
pub fn key_each(
    alloc: Global,
    net: &mut NetBuilder,
    nexts: &[Bit],
    value: Bus,
    keys: &[Bus],
) -> Result<Buses, Memory>
    requires nexts { AreBits net.old nexts.now }
    requires value { IsBus net.old value }
    requires keys { AreKeysOf net.old value keys.now }
    requires count { length nexts.now ≡ length keys.now }
    ensures { IfOk result (AddsNexts net.old net.new nexts.now value keys.now (length keys.now)) }
{
    let mut all = Buses::new(alloc);
    for (i, key) in keys.iter().enumerate() {
        let next = net.choose(nexts[i], value, *key)?;
        all.push(next)?;
    }
    Ok(all)
}

/// The first slot that is free takes the key where none has it.
pub fn see_key(
    alloc: Global,
    net: &mut NetBuilder,
    used: &Bits,
    keys: &[Bus],
    wanted: Wanted,
    homes: &Bits,
) -> Result<Seen, Memory>
    requires used { AreBits net.old used.now }
    requires keys { AreKeysOf net.old wanted.here keys.now }
    requires count { length keys.now ≡ length used.now }
    requires free { IsBit net.old wanted.free }
    requires ask { IsBit net.old wanted.ask }
    requires here { IsBus net.old wanted.here }
    requires homes { AreBits net.old homes.now }
    requires homes_count { length homes.now ≡ length used.now }
    ensures { IfOk result (AddsSeen net.old net.new used.now keys.now
        wanted.free wanted.ask wanted.here homes.now) }
{
    let found = find_all(alloc, net, used, keys, wanted, homes)?;
    let asked = ask_each(alloc, net, wanted.ask, found.kept.as_slice())?;
    let nexts = pairwise(alloc, net, LineOp::ButNot, &asked.asks, &found.kept)?;
    let takes = with_all(alloc, net, LineOp::ButNot, &nexts, found.one)?;
    let has = pairwise(alloc, net, LineOp::Either, &found.kept, &takes)?;
    let passes = but_not(net, asked.passes, found.one)?;
    Ok(Seen {
        kept: found.kept,
        found: found.found,
        one: found.one,
        nexts,
        takes,
        has,
        passes,
    })
}

/// What the slots make of the key, and the keys that they keep: the one that may take it, takes it whether it is used then or not.
pub fn seek_key(
    alloc: Global,
    net: &mut NetBuilder,
    used: &Bits,
    keys: &[Bus],
    wanted: Wanted,
    homes: &Bits,
) -> Result<Seek, Memory>
    requires used { AreBits net.old used.now }
    requires keys { AreKeysOf net.old wanted.here keys.now }
    requires count { length keys.now ≡ length used.now }
    requires free { IsBit net.old wanted.free }
    requires ask { IsBit net.old wanted.ask }
    requires here { IsBus net.old wanted.here }
    requires homes { AreBits net.old homes.now }
    requires homes_count { length homes.now ≡ length used.now }
    ensures { IfOk result (AddsSeek net.old net.new used.now keys.now
        wanted.free wanted.ask wanted.here homes.now) }
{
    let seen = see_key(alloc, net, used, keys, wanted, homes)?;
    let keys = key_each(alloc, net, seen.nexts.as_slice(), wanted.here, keys)?;
    Ok(Seek { seen, keys })
}

/// The slots' keys in registers, beside the lines that tell which ones are used.
pub fn keep_keys(
    alloc: Global,
    net: &mut NetBuilder,
    used: &Bits,
    wanted: Wanted,
    homes: &Bits,
) -> Result<KeyLines, Memory>
    requires used { AreBits net.old used.now }
    requires free { IsBit net.old wanted.free }
    requires ask { IsBit net.old wanted.ask }
    requires here { IsBus net.old wanted.here }
    requires homes { AreBits net.old homes.now }
    requires homes_count { length homes.now ≡ length used.now }
    ensures { IfOk result (AddsKeys net.old net.new used.now
        wanted.free wanted.ask wanted.here homes.now) }
{
    let keys = open_same(alloc, net, word(0, wanted.here.width), used.len())?;
    let seek = seek_key(alloc, net, used, keys.as_slice(), wanted, homes)?;
    drive_all(net, keys.as_slice(), seek.keys.as_slice())?;
    Ok(KeyLines {
        keys,
        seen: seek.seen,
    })
}

/// All slots in their registers, which look for the key at once, beside the lines that tell which one has that of the row that came last.
pub fn keep_slots(
    alloc: Global,
    net: &mut NetBuilder,
    wanted: Wanted,
    homes: &Bits,
    count: u32,
) -> Result<SlotLines, Memory>
    requires free { IsBit net.old wanted.free }
    requires ask { IsBit net.old wanted.ask }
    requires here { IsBus net.old wanted.here }
    requires homes { AreBits net.old homes.now }
    requires homes_count { length homes.now ≡ count }
    ensures { IfOk result (AddsKept net.old net.new
        wanted.free wanted.ask wanted.here homes.now count) }
{
    let flags = open_same(alloc, net, word(0, 1), count as usize)?;
    let used = Bits::from_vec(lines_of(alloc, flags.as_slice())?);
    let slots = keep_keys(alloc, net, &used, wanted, homes)?;
    let nexts = buses_of(alloc, slots.seen.has.as_slice())?;
    drive_all(net, flags.as_slice(), nexts.as_slice())?;
    let made = SlotLines {
        used,
        keys: slots.keys,
        seen: slots.seen,
    };
    note_slots(net, &made)?;
    Ok(made)
}
