//! Groups over one wire in place of a wire for each slot: the lane, and what puts the keys in front of the totals of its slots.

ghost use Rattle.std.specs.Prelude.{◌≡◌, ◌*◌, ◌^◌, ◌<◌, ◌≤◌, IfOk, length};
ghost use Rattle.gl_net.specs.Net.{IsBit, IsBus};
ghost use Rattle.gl_wire.specs.Wire.{IsWire};
ghost use Rattle.gl_wire_registers.specs.Lines.{AreBits};
ghost use Rattle.gl_groups.specs.Groupings.{IsGrouping};
ghost use Rattle.gl_slots.specs.Joins.{AreKeyBuses, width_of_keys};
ghost use Rattle.gl_groups.specs.Laned.{AddsKey, IsGathered, IsLaned, words_of_keys};
ghost use Rattle.gl_slots.specs.Picks.{bits_of_slots};

use crate::grouping::Grouping;
use crate::lane::put_lane;
use gl_bits::Memory;
use gl_net::{Bit, Bus, Buses, NetBuilder};
use gl_slots::front::Numbers;
use gl_slots::joins::with_first;
use gl_slots::pick::{numbers, pick, slot_bits};
use gl_slots::slots::same_each;
use gl_wire::{Wire, note_bus, stage};
use gl_wire_lanes::{TableOut, put_memory};
use gl_wire_registers::{Bits, any, close_line, stride};
use std::alloc::Global;

/// One wire for the streams of all slots.
#[derive(Drop)]
pub struct Lane {
    /// In each cycle what the one copy with an event would get.
    pub wire: Wire,
    /// The number of its slot.
    pub slot: Bus,
    /// 1 with the first event of a slot's stream.
    pub first: Bit,
    /// The ends of the whole, one cycle before the group gives them.
    pub close: Bit,
    /// For each slot its key.
    pub keys: Buses,
    /// The slot that may take the key that comes.
    pub nexts: Bits,
    /// That key.
    pub here: Bus,
    /// 1 one cycle after a row of a further key.
    pub further: Bit,
}

// The key of a slot, picked from the registers.
fn picked_key(
    alloc: Global,
    net: &mut NetBuilder,
    lane: &Lane,
    slot: Bus,
    slots: u32,
) -> Result<Bus, Memory>
    requires keys { AreKeyBuses net.old lane.now.keys }
    requires keys_count { length lane.now.keys ≡ slots }
    requires some { 1 ≤ slots }
    requires slot { IsBus net.old slot }
    requires slot_width { slot.width ≡ bits_of_slots slots }
    ensures { IfOk result (AddsKey net.old net.new slots lane.now slot 0) }
{
    let keys = lane.keys.as_slice();
    let places = numbers(alloc, net, slots, slot_bits(slots))?;
    let lines = same_each(alloc, net, slot, places.as_slice())?;
    let picked = pick(net, lines.as_slice(), keys, keys[0].width)?;
    note_bus(net, b"key", picked)?;
    Ok(picked)
}

// The key of a slot, read of a memory, which a slot that may take a key takes it to.
fn stored_key(
    alloc: Global,
    net: &mut NetBuilder,
    lane: &Lane,
    slot: Bus,
    slots: u32,
) -> Result<Bus, Memory>
    requires nexts { AreBits net.old lane.now.nexts }
    requires nexts_count { length lane.now.nexts ≡ slots }
    requires some { 1 ≤ slots }
    requires here { IsBus net.old lane.now.here }
    requires here_width { lane.now.here.width ≡ width_of_keys lane.now.keys }
    requires slot { IsBus net.old slot }
    requires slot_width { slot.width ≡ bits_of_slots slots }
    ensures { IfOk result
        (AddsKey net.old net.new slots lane.now slot (2 ^ bits_of_slots slots * width_of_keys lane.now.keys)) }
{
    let bits = slot_bits(slots);
    let places = numbers(alloc, net, slots, bits)?;
    let write = any(net, &lane.nexts)?;
    let place = pick(net, lane.nexts.as_slice(), places.as_slice(), bits)?;
    // Named, since a goal speaks of the value.
    let key = put_memory(net, bits, write, place, slot, lane.here)?;
    note_bus(net, b"key", key)?;
    Ok(key)
}

// The key of a slot, from a memory where `stored` says so.
fn slot_key(
    alloc: Global,
    net: &mut NetBuilder,
    lane: &Lane,
    slot: Bus,
    slots: u32,
    stored: bool,
) -> Result<Bus, Memory>
    requires keys { AreKeyBuses net.old lane.now.keys }
    requires keys_count { length lane.now.keys ≡ slots }
    requires nexts { AreBits net.old lane.now.nexts }
    requires nexts_count { length lane.now.nexts ≡ slots }
    requires some { 1 ≤ slots }
    requires here { IsBus net.old lane.now.here }
    requires here_width { lane.now.here.width ≡ width_of_keys lane.now.keys }
    requires slot { IsBus net.old slot }
    requires slot_width { slot.width ≡ bits_of_slots slots }
    ensures { IfOk result
        (AddsKey net.old net.new slots lane.now slot (words_of_keys stored slots lane.now)) }
{
    if stored {
        stored_key(alloc, net, lane, slot, slots)
    } else {
        picked_key(alloc, net, lane, slot, slots)
    }
}

impl Grouping {
    /// One wire for all slots, whose shares are what a front's wires would carry, with the keys and the line of ends.
    pub fn lane(&self, alloc: Global, net: &mut NetBuilder, source: &Wire) -> Result<Lane, Memory>
        requires grouping { IsGrouping self.now }
        requires wire { IsWire net.old source.now }
        requires key { self.now.key < length source.now.columns }
        ensures { IfOk result (IsLaned net.old net.new self.now source.now) }
    {
        let cycles = self.cycles();
        let numbers = Numbers {
            key: self.key,
            slots: self.slots,
            stride: stride(&self.body),
            width: slot_bits(self.slots),
        };
        let lane = put_lane(alloc, net, source, numbers)?;
        let close = close_line(net, source.eos, cycles, 0)?;
        Ok(Lane {
            wire: lane.wire,
            slot: lane.slot,
            first: lane.first,
            close,
            keys: lane.keys,
            nexts: lane.nexts,
            here: lane.here,
            further: lane.further,
        })
    }

    /// What a table gives for the slots, with the key of its slot in front of each row, and the ends of the whole. The keys are read of a memory
    /// where `stored` says so, and else picked from the registers.
    pub fn gather(
        &self,
        alloc: Global,
        net: &mut NetBuilder,
        lane: &Lane,
        out: &TableOut,
        stored: bool,
    ) -> Result<Wire, Memory>
        requires grouping { IsGrouping self.now }
        requires close { IsBit net.old lane.now.close }
        requires keys { AreKeyBuses net.old lane.now.keys }
        requires keys_count { length lane.now.keys ≡ self.now.slots }
        requires nexts { AreBits net.old lane.now.nexts }
        requires nexts_count { length lane.now.nexts ≡ self.now.slots }
        requires here { IsBus net.old lane.now.here }
        requires here_width { lane.now.here.width ≡ width_of_keys lane.now.keys }
        requires wire { IsWire net.old out.now.wire }
        requires slot { IsBus net.old out.now.slot }
        requires slot_width { out.now.slot.width ≡ bits_of_slots self.now.slots }
        ensures { IfOk result (IsGathered net.old net.new self.now lane.now out.now stored) }
    {
        let key = slot_key(alloc, net, lane, out.slot, self.slots, stored)?;
        let columns = with_first(alloc, key, out.wire.columns.as_slice())?;
        // Named, since a goal speaks of the value.
        let wire = stage(alloc, net, out.wire.valid, lane.close, columns.as_slice())?;
        Ok(wire)
    }
}
