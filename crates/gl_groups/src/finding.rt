//! Which slot has the key of a row, told one cycle after the row came: the keys of the slots were compared with it when it came, and what the
//! row before it did with the slots in that cycle is known from that row alone.

ghost use Rattle.std.specs.Prelude.{◌≡◌, ◌<◌, ◌≤◌, ◌^◌, IfOk, length};
ghost use Rattle.gl_bits.specs.Words.{IsWidth};
ghost use Rattle.gl_net.specs.Net.{IsBit, IsBus};
ghost use Rattle.gl_wire_registers.specs.Lines.{AreBits};
ghost use Rattle.gl_groups.specs.Finding.{AddsAsked, AddsHeld, AddsKeysTaken, AddsLater, AddsMany, AddsMet, AddsMoved, AddsOne, AddsPlace, AddsPlaceOf, AddsSlotsFound, AddsSought, AreAsking};
ghost use Rattle.gl_slots.specs.Picks.{AreAlike};
ghost use Rattle.gl_slots.specs.SlotLines.{AreKeysOf};

use crate::notes::note_found;
use gl_bits::Memory;
use gl_net::{BinaryOp, Bit, Bus, Buses, NetBuilder};
use gl_slots::choices::choose_bit;
use gl_slots::pick::{numbers, pick};
use gl_slots::slots::{ask_each, key_each, same_each};
use gl_wire::{but_not, either, later_bit, same};
use gl_wire_registers::numbers::with_one;
use gl_wire_registers::{
    Bits, LineOp, any, buses_of, drive_all, lines_of, number_or, open_same, pairwise, with_all,
    word,
};
use std::alloc::Global;

/// What comes to the slots in a cycle.
#[derive(Clone, Copy, PartialEq, Eq, Debug)]
pub struct Asking {
    /// 1 where all slots are set free.
    pub free: Bit,
    /// 1 where a row came one cycle ago.
    pub ask: Bit,
    /// The key of the row that came last, up to one cycle ago.
    pub last: Bus,
    /// 1 where a row comes.
    pub come: Bit,
    /// Its key.
    pub here: Bus,
}

/// Which slots a row's key asks.
#[derive(Drop)]
pub struct Asked {
    /// The slot that takes it if none of them has it.
    pub nexts: Bits,
    /// 1 where there is such a slot.
    pub room: Bit,
    /// 1 where a row comes and there is none.
    pub full: Bit,
}

/// Whether a slot has a key.
#[derive(Clone, Copy, PartialEq, Eq, Debug)]
pub struct One {
    /// 1 where one has the key that is looked for.
    pub one: Bit,
    /// 1 where one has that of the row before.
    pub had: Bit,
}

/// How many slots are used.
#[derive(Clone, Copy, PartialEq, Eq, Debug)]
pub struct Many {
    /// At the beginning of the cycle.
    pub many: Bus,
    /// With those set free.
    pub base: Bus,
}

/// Which slot has a key, by its number.
#[derive(Clone, Copy, PartialEq, Eq, Debug)]
pub struct Place {
    /// That of the key that is looked for; where none has it, the one that may take it.
    pub number: Bus,
    /// That of the row before.
    pub home: Bus,
}

/// What chooses the slot of a key.
#[derive(Clone, Copy, PartialEq, Eq, Debug)]
pub struct Choice {
    /// 1 where a slot has the key.
    pub one: Bit,
    /// 1 where the key is another one than that of the row before.
    pub moved: Bit,
    /// The number of the slot that takes the key where none has it.
    pub base: Bus,
}

/// What the slots make of a row's key.
#[derive(Drop)]
pub struct Sought {
    /// The slots that are used and stay so.
    pub kept: Bits,
    /// Their keys.
    pub keys: Buses,
    /// Those that had the key when it came.
    pub hits: Bits,
    /// 1 where the key is another one than that of the row before.
    pub moved: Bit,
    /// Whether a slot has it.
    pub one: One,
    /// Which slots it asks.
    pub asked: Asked,
    /// 1 where one takes it.
    pub new: Bit,
    /// 1 where the key is left: it is none of the slots', and no slot is free.
    pub passes: Bit,
    /// How many slots are used.
    pub many: Many,
    /// The number of its slot.
    pub place: Place,
}

/// Slots in registers, and what they make of a row's key.
#[derive(Drop)]
pub struct SlotsFound {
    /// The slots that are used at the beginning of the cycle.
    pub used: Bits,
    /// What they make of it.
    pub sought: Sought,
}

/// For each line a register that carries it one cycle later.
pub fn later_each(alloc: Global, net: &mut NetBuilder, lines: &[Bit]) -> Result<Bits, Memory>
    requires lines { AreBits net.old lines.now }
    ensures { IfOk result (AddsLater net.old net.new lines.now (length lines.now)) }
{
    let mut all = Bits::new(alloc);
    for line in lines {
        let bit = later_bit(net, *line)?;
        all.push(bit)?;
    }
    Ok(all)
}

/// Which of the slots that stay used have the key of the row that comes, one cycle later.
#[tactic(auto, using(gl_wire_registers::proofs::LineLemmas::bits_kept))]
pub fn meet_each(
    alloc: Global,
    net: &mut NetBuilder,
    kept: &Bits,
    keys: &[Bus],
    here: Bus,
) -> Result<Bits, Memory>
    requires kept { AreBits net.old kept.now }
    requires here { IsBus net.old here }
    requires keys { AreKeysOf net.old here keys.now }
    requires count { length keys.now ≡ length kept.now }
    ensures { IfOk result (AddsMet net.old net.new kept.now keys.now here) }
{
    let same = same_each(alloc, net, here, keys)?;
    let both = pairwise(alloc, net, LineOp::Both, kept, &same)?;
    let met = later_each(alloc, net, both.as_slice())?;
    Ok(met)
}

/// Which slots a key asks: slots fill in order.
#[tactic(auto, using(gl_wire_registers::proofs::LineLemmas::bits_kept))]
pub fn ask_slots(
    alloc: Global,
    net: &mut NetBuilder,
    ask: Bit,
    kept: &Bits,
) -> Result<Asked, Memory>
    requires ask { IsBit net.old ask }
    requires kept { AreBits net.old kept.now }
    ensures { IfOk result (AddsAsked net.old net.new ask kept.now) }
{
    let asked = ask_each(alloc, net, ask, kept.as_slice())?;
    let nexts = pairwise(alloc, net, LineOp::ButNot, &asked.asks, kept)?;
    let room = but_not(net, ask, asked.passes)?;
    Ok(Asked {
        nexts,
        room,
        full: asked.passes,
    })
}

/// A key for each slot in a register: one that may take the key of the row that came last takes it, whether it is used then or not.
pub fn take_keys(
    alloc: Global,
    net: &mut NetBuilder,
    nexts: &Bits,
    last: Bus,
) -> Result<Buses, Memory>
    requires nexts { AreBits net.old nexts.now }
    requires last { IsBus net.old last }
    ensures { IfOk result (AddsKeysTaken net.old net.new nexts.now last) }
{
    let keys = open_same(alloc, net, word(0, last.width), nexts.len())?;
    let taken = key_each(alloc, net, nexts.as_slice(), last, keys.as_slice())?;
    drive_all(net, keys.as_slice(), taken.as_slice())?;
    Ok(keys)
}

/// 1 where the key that is looked for is another one than one cycle ago.
pub fn put_moved(net: &mut NetBuilder, asking: &Asking) -> Result<Bit, Memory>
    requires asking { AreAsking net.old asking.now }
    ensures { IfOk result (AddsMoved net.old net.new asking.now) }
{
    let again = same(net, asking.here, asking.last)?;
    let other = but_not(net, asking.come, again)?;
    let moved = later_bit(net, other)?;
    Ok(moved)
}

/// Whether a slot has the key: where it is another one than before, one that had it when it came, and else the one that had it before.
#[tactic(auto, using(gl_wire_registers::proofs::LineLemmas::bits_kept))]
pub fn find_one(
    net: &mut NetBuilder,
    hits: &Bits,
    moved: Bit,
    free: Bit,
    room: Bit,
) -> Result<One, Memory>
    requires hits { AreBits net.old hits.now }
    requires moved { IsBit net.old moved }
    requires free { IsBit net.old free }
    requires room { IsBit net.old room }
    ensures { IfOk result (AddsOne net.old net.new hits.now moved free room) }
{
    let register = net.register(1, Some(word(0, 1)))?;
    let some = any(net, hits)?;
    let there = choose_bit(net, moved, some, register.bit())?;
    let one = but_not(net, there, free)?;
    let next = either(net, one, room)?;
    net.drive(register, next.bus())?;
    Ok(One {
        one,
        had: register.bit(),
    })
}

/// Counts the slots that are used, in `width` bits.
pub fn count_used(net: &mut NetBuilder, free: Bit, new: Bit, width: u8) -> Result<Many, Memory>
    requires free { IsBit net.old free }
    requires new { IsBit net.old new }
    requires width { IsWidth width }
    ensures { IfOk result (AddsMany net.old net.new free new width) }
{
    let many = net.register(width, Some(word(0, width)))?;
    let base = number_or(net, free, 0, many)?;
    let more = with_one(net, BinaryOp::Add, base)?;
    let next = net.choose(new, more, base)?;
    net.drive(many, next)?;
    Ok(Many { many, base })
}

/// The number of the slot that has the key, or that takes it.
pub fn find_place(
    net: &mut NetBuilder,
    choice: Choice,
    hits: &[Bit],
    numbers: &[Bus],
) -> Result<Place, Memory>
    requires one { IsBit net.old choice.one }
    requires moved { IsBit net.old choice.moved }
    requires hits { AreBits net.old hits.now }
    requires base { IsBus net.old choice.base }
    requires numbers { AreAlike net.old choice.base.width numbers.now }
    requires count { length numbers.now ≡ length hits.now }
    requires some { 1 ≤ length hits.now }
    ensures { IfOk result (AddsPlace net.old net.new
        choice.one choice.moved hits.now choice.base numbers.now) }
{
    let home = net.register(choice.base.width, None)?;
    let met = pick(net, hits, numbers, choice.base.width)?;
    let there = net.choose(choice.moved, met, home)?;
    let number = net.choose(choice.one, there, choice.base)?;
    net.drive(home, number)?;
    Ok(Place { number, home })
}

// The number of the slot that has the key, or that takes it, of `count` slots.
fn place_of(
    alloc: Global,
    net: &mut NetBuilder,
    choice: Choice,
    hits: &Bits,
    count: u32,
) -> Result<Place, Memory>
    requires one { IsBit net.old choice.one }
    requires moved { IsBit net.old choice.moved }
    requires hits { AreBits net.old hits.now }
    requires base { IsBus net.old choice.base }
    requires count { length hits.now ≡ count }
    requires some { 1 ≤ count }
    requires fits { count ≤ 2 ^ choice.base.width }
    ensures { IfOk result (AddsPlaceOf net.old net.new
        choice.one choice.moved hits.now choice.base count) }
{
    let places = numbers(alloc, net, count, choice.base.width)?;
    // Named, since a goal speaks of the value.
    let place = find_place(net, choice, hits.as_slice(), places.as_slice())?;
    Ok(place)
}

/// What slots that are used make of a row's key, and their keys; numbers have `width` bits.
#[tactic(auto, using(gl_wire_registers::proofs::LineLemmas::bits_kept))]
pub fn seek_slots(
    alloc: Global,
    net: &mut NetBuilder,
    asking: &Asking,
    used: &Bits,
    count: u32,
    width: u8,
) -> Result<Sought, Memory>
    requires asking { AreAsking net.old asking.now }
    requires used { AreBits net.old used.now }
    requires count { length used.now ≡ count }
    requires some { 1 ≤ count }
    requires width { IsWidth width }
    requires fits { count ≤ 2 ^ width }
    ensures { IfOk result (AddsSought net.old net.new asking.now used.now count width) }
{
    let kept = with_all(alloc, net, LineOp::ButNot, used, asking.free)?;
    let asked = ask_slots(alloc, net, asking.ask, &kept)?;
    let keys = take_keys(alloc, net, &asked.nexts, asking.last)?;
    let hits = meet_each(alloc, net, &kept, keys.as_slice(), asking.here)?;
    let moved = put_moved(net, asking)?;
    let one = find_one(net, &hits, moved, asking.free, asked.room)?;
    let new = but_not(net, asked.room, one.one)?;
    let passes = but_not(net, asked.full, one.one)?;
    let many = count_used(net, asking.free, new, width)?;
    let choice = Choice {
        one: one.one,
        moved,
        base: many.base,
    };
    let place = place_of(alloc, net, choice, &hits, count)?;
    Ok(Sought {
        kept,
        keys,
        hits,
        moved,
        one,
        asked,
        new,
        passes,
        many,
        place,
    })
}

/// The slots that are used one cycle later.
#[tactic(auto, using(gl_wire_registers::proofs::LineLemmas::bits_kept))]
pub fn stay_used(
    alloc: Global,
    net: &mut NetBuilder,
    kept: &Bits,
    nexts: &Bits,
    one: Bit,
) -> Result<Bits, Memory>
    requires kept { AreBits net.old kept.now }
    requires nexts { AreBits net.old nexts.now }
    requires one { IsBit net.old one }
    requires count { length nexts.now ≡ length kept.now }
    ensures { IfOk result (AddsHeld net.old net.new kept.now nexts.now one) }
{
    let takes = with_all(alloc, net, LineOp::ButNot, nexts, one)?;
    let has = pairwise(alloc, net, LineOp::Either, kept, &takes)?;
    Ok(has)
}

/// `count` slots in registers, and what they make of the key of the row that came one cycle ago.
pub fn find_slots(
    alloc: Global,
    net: &mut NetBuilder,
    asking: &Asking,
    count: u32,
    width: u8,
) -> Result<SlotsFound, Memory>
    requires asking { AreAsking net.old asking.now }
    requires count { 1 ≤ count }
    requires width { IsWidth width }
    requires fits { count < 2 ^ width }
    ensures { IfOk result (AddsSlotsFound net.old net.new asking.now count width) }
{
    let flags = open_same(alloc, net, word(0, 1), count as usize)?;
    let used = Bits::from_vec(lines_of(alloc, flags.as_slice())?);
    let sought = seek_slots(alloc, net, asking, &used, count, width)?;
    let has = stay_used(
        alloc,
        net,
        &sought.kept,
        &sought.asked.nexts,
        sought.one.one,
    )?;
    let nexts = buses_of(alloc, has.as_slice())?;
    drive_all(net, flags.as_slice(), nexts.as_slice())?;
    let made = SlotsFound { used, sought };
    note_found(net, &made)?;
    Ok(made)
}
