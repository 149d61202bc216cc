//! The front of windows of each key: which copies take a tuple, and which takes an end.

ghost use Rattle.std.specs.Prelude.{◌≡◌, ◌++◌, ◌<◌, ◌≤◌, ◌^◌, IfOk, OnOk, length, replicate};
ghost use Rattle.gl_bits.specs.Words.{IsWidth};
ghost use Rattle.gl_net.specs.Net.{IsBit};
ghost use Rattle.gl_wire.specs.Wire.{IsWire};
ghost use Rattle.gl_wire_registers.specs.Lines.{AreBits};
ghost use Rattle.gl_partition.specs.Fronts.{AddsFront, AddsLook, ChoosesSlots, repeated};

use crate::parts::count_turns;
use crate::slot::{Chosen, Sizes, put_windows};
use gl_bits::Memory;
use gl_net::{Bit, Bus, Buses, NetBuilder};
use gl_slots::front::look_up;
use gl_slots::homes::put_slots;
use gl_slots::parts::{count_flush, keep_tail, turn_lines};
use gl_slots::slots::Wanted;
use gl_wire::{Wire, later_bit, note_bit, note_bits};
use gl_wire_registers::{Arrival, Bits, LineOp, Wires, copy_wires, pairwise};
use std::alloc::Global;

/// The numbers of a front.
#[derive(Clone, Copy)]
pub struct Numbers {
    /// The place of the key's column among the source's columns.
    pub key: usize,
    /// The slots.
    pub slots: u32,
    /// The numbers of a slot's windows.
    pub sizes: Sizes,
    /// The cycles from one turn to the next one in a flush.
    pub stride: u32,
    /// The bits of a slot's mark.
    pub width: u8,
}

/// What the slots make of what comes, but for their windows.
#[derive(Drop)]
pub struct Look {
    /// The row that came last, one cycle later.
    pub row: Buses,
    /// For each slot its key.
    pub keys: Buses,
    /// For each slot whether it has the key of the row that comes, and else of the one that came last.
    pub matches: Bits,
    /// For each slot whether it has its turn.
    pub dues: Bits,
    /// 1 where what ends takes that row, if it has its key.
    pub tail: Bit,
    /// 1 with a row of a further key.
    pub passes: Bit,
}

/// What a front gives.
#[derive(Drop)]
pub struct Front {
    /// For each copy the wire of its input, slot by slot.
    pub wires: Wires,
    /// For each copy the key of its slot.
    pub keys: Buses,
    /// 1 one cycle after a row of a further key.
    pub further: Bit,
}

// A key `times` times behind others.
fn push_times(to: &mut Buses, key: Bus, times: u32) -> Result<(), Memory>
    ensures { OnOk result (to.new ≡ to.old ++ replicate times key) }
{
    for _ in 0..times {
        to.push(key)?;
    }
    Ok(())
}

/// Each key as often as its slot has copies.
pub fn repeat(alloc: Global, keys: &[Bus], copies: u32) -> Result<Buses, Memory>
    ensures { IfOk result (λ bs. bs ≡ repeated copies keys.now) }
{
    let mut all = Buses::new(alloc);
    for key in keys {
        push_times(&mut all, *key, copies)?;
    }
    Ok(all)
}

/// Looks at the slots, by the key in a column: each has a turn for each of its copies.
#[tactic(auto, using(gl_wire_registers::proofs::LineLemmas::bits_kept, gl_wire::proofs::ColumnLemmas::buses_kept))]
pub fn look_at(
    alloc: Global,
    net: &mut NetBuilder,
    wire: &Wire,
    numbers: Numbers,
) -> Result<Look, Memory>
    requires wire { IsWire net.old wire.now }
    requires key { numbers.key < length wire.now.columns }
    requires slots { 1 ≤ numbers.slots }
    requires copies { 1 ≤ numbers.sizes.copies }
    requires stride { 1 ≤ numbers.stride }
    requires width { IsWidth numbers.width }
    requires fits { numbers.slots < 2 ^ numbers.width }
    ensures { IfOk result (AddsLook net.old net.new
        numbers.key numbers.slots numbers.sizes.copies numbers.stride numbers.width wire.now) }
{
    let flush = count_flush(net, wire.valid, wire.eos, numbers.stride)?;
    let tail = keep_tail(net, wire.valid, wire.eos, flush.idle)?;
    let look = look_up(alloc, net, wire, numbers.key)?;
    let wanted = Wanted {
        free: flush.free,
        ask: wire.valid,
        here: look.here,
    };
    let slots = numbers.slots;
    let lines = put_slots(alloc, net, wanted, slots, numbers.width)?;
    let turns = count_turns(net, wire.eos, flush.due, slots, numbers.sizes.copies)?;
    let dues = turn_lines(alloc, net, flush.due, turns.rest, slots)?;
    let seen = &lines.seen;
    let matches = pairwise(alloc, net, LineOp::Either, &seen.found, &seen.takes)?;
    note_bits(net, b"match", matches.as_slice())?;
    Ok(Look {
        row: look.row,
        keys: lines.keys,
        matches,
        dues,
        tail: tail.tail,
        passes: lines.seen.passes,
    })
}

// The windows of the slots that are looked at.
fn put_looked(
    alloc: Global,
    net: &mut NetBuilder,
    wire: &Wire,
    look: &Look,
    sizes: Sizes,
) -> Result<Chosen, Memory>
    requires wire { IsWire net.old wire.now }
    requires tail { IsBit net.old look.now.tail }
    requires matches { AreBits net.old look.now.matches }
    requires dues { AreBits net.old look.now.dues }
    requires count { length look.now.dues ≡ length look.now.matches }
    requires size { 1 ≤ sizes.size }
    requires advance { 1 ≤ sizes.advance }
    requires copies { 1 ≤ sizes.copies }
    ensures { IfOk result (ChoosesSlots net.old net.new wire.now look.now
        sizes.size sizes.advance sizes.copies) }
{
    let matches = look.matches.as_slice();
    let dues = look.dues.as_slice();
    let comes = Arrival {
        valid: wire.valid,
        eos: wire.eos,
        tail: look.tail,
    };
    // Named, since a goal speaks of the value.
    let chosen = put_windows(alloc, net, comes, matches, dues, sizes)?;
    Ok(chosen)
}

/// The wires of all copies of all slots, by the key in a column.
#[tactic(auto, using(gl_wire_registers::proofs::LineLemmas::bits_kept, gl_wire::proofs::ColumnLemmas::buses_kept))]
pub fn put_front(
    alloc: Global,
    net: &mut NetBuilder,
    wire: &Wire,
    numbers: Numbers,
) -> Result<Front, Memory>
    requires wire { IsWire net.old wire.now }
    requires key { numbers.key < length wire.now.columns }
    requires slots { 1 ≤ numbers.slots }
    requires size { 1 ≤ numbers.sizes.size }
    requires advance { 1 ≤ numbers.sizes.advance }
    requires copies { 1 ≤ numbers.sizes.copies }
    requires stride { 1 ≤ numbers.stride }
    requires width { IsWidth numbers.width }
    requires fits { numbers.slots < 2 ^ numbers.width }
    ensures { IfOk result (AddsFront net.old net.new numbers.key numbers.slots
        numbers.sizes.size numbers.sizes.advance numbers.sizes.copies
        numbers.stride numbers.width wire.now) }
{
    let look = look_at(alloc, net, wire, numbers)?;
    let chosen = put_looked(alloc, net, wire, &look, numbers.sizes)?;
    let wires = copy_wires(alloc, net, &chosen.takes, &chosen.ends, &look.row)?;
    let further = later_bit(net, look.passes)?;
    let keys = repeat(alloc, look.keys.as_slice(), numbers.sizes.copies)?;
    note_bit(net, b"further", further)?;
    Ok(Front {
        wires,
        keys,
        further,
    })
}
