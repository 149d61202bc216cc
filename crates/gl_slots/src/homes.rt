//! Where the key of the row that came last is: a register tells which slot has it, so that only the row that comes is compared with keys.

ghost use Rattle.std.specs.Prelude.{◌≡◌, ◌+◌, ◌<◌, ◌≤◌, ◌^◌, suc, IfOk, length};
ghost use Rattle.gl_bits.specs.Words.{IsWidth};
ghost use Rattle.gl_net.specs.Net.{IsBit, IsBus};
ghost use Rattle.gl_slots.specs.Homes.{AddsMark, AreMarks};
ghost use Rattle.gl_slots.specs.Picks.{AddsNumbers, bits_of_slots};
ghost use Rattle.gl_slots.specs.SlotLines.{AddsSlots, AreSeen};

use crate::notes::note_home;
use crate::pick::{number, pick, slot_bits};
use crate::slots::{Seen, SlotLines, Wanted, keep_slots, same_each};
use gl_bits::Memory;
use gl_net::{Bus, Buses, NetBuilder};
use gl_wire_registers::word;
use std::alloc::Global;

/// The bits of a slot's mark.
pub fn mark_bits(slots: u32) -> u8
    ensures value { result ≡ bits_of_slots slots + 1 }
    ensures width { IsWidth result }
    ensures enough { slots < 2 ^ result }
{
    slot_bits(slots) + 1
}

/// For each slot its mark: its number from 1 on, since 0 tells that none has the key.
pub fn marks(alloc: Global, net: &mut NetBuilder, count: u32, width: u8) -> Result<Buses, Memory>
    requires width { IsWidth width }
    requires fits { count < 2 ^ width }
    ensures { IfOk result (AddsNumbers net.old net.new (λ k. suc k) count width) }
{
    let mut all = Buses::new(alloc);
    for slot in 0..count {
        let bus = number(net, slot + 1, width)?;
        all.push(bus)?;
    }
    Ok(all)
}

/// The mark of the slot that has the key, or else of the one that may take it. Whether one has it chooses at the very end.
pub fn mark_slot(net: &mut NetBuilder, seen: &Seen, marks: &[Bus], width: u8) -> Result<Bus, Memory>
    requires seen { AreSeen net.old (length marks.now) seen.now }
    requires some { 1 ≤ length marks.now }
    requires marks { AreMarks net.old (length marks.now) width marks.now }
    ensures { IfOk result (AddsMark net.old net.new seen.now (length marks.now) width) }
{
    let has = pick(net, seen.found.as_slice(), marks, width)?;
    let next = pick(net, seen.nexts.as_slice(), marks, width)?;
    // Named, since a goal speaks of the value.
    let mark = net.choose(seen.one, has, next)?;
    Ok(mark)
}

/// All slots in their registers, which look for the key at once: that of the row that comes, or else of the one that came last. A mark has
/// `width` bits.
pub fn put_slots(
    alloc: Global,
    net: &mut NetBuilder,
    wanted: Wanted,
    count: u32,
    width: u8,
) -> Result<SlotLines, Memory>
    requires free { IsBit net.old wanted.free }
    requires ask { IsBit net.old wanted.ask }
    requires here { IsBus net.old wanted.here }
    requires count { 1 ≤ count }
    requires width { IsWidth width }
    requires fits { count < 2 ^ width }
    ensures { IfOk result (AddsSlots net.old net.new
        wanted.free wanted.ask wanted.here count width) }
{
    let marks = marks(alloc, net, count, width)?;
    let home = net.register(width, Some(word(0, width)))?;
    let homes = same_each(alloc, net, home, marks.as_slice())?;
    let slots = keep_slots(alloc, net, wanted, &homes, count)?;
    let next = mark_slot(net, &slots.seen, marks.as_slice(), width)?;
    net.drive(home, next)?;
    note_home(net, marks.as_slice(), home)?;
    Ok(slots)
}
