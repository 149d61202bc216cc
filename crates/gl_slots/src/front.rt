//! The front of slots: which slot takes a tuple, and which takes an end.

ghost use Rattle.std.specs.Prelude.{◌<◌, ◌≤◌, ◌^◌, IfOk, length};
ghost use Rattle.gl_bits.specs.Words.{IsWidth};
ghost use Rattle.gl_net.specs.Net.{IsBit};
ghost use Rattle.gl_wire.specs.Wire.{IsWire};
ghost use Rattle.gl_slots.specs.Fronts.{AddsChosen, AddsFront, AddsLooked, AddsLookup, AddsTurning};

use crate::homes::put_slots;
use crate::parts::{count_flush, count_turns, keep_tail, take_rows, turn_lines};
use crate::slots::{Seen, Wanted};
use gl_bits::Memory;
use gl_net::{Bit, Bus, Buses, NetBuilder};
use gl_wire::{Wire, later_bit, note_bit, note_bits};
use gl_wire_registers::{Arrival, Bits, LineOp, Wires, copy_wires, hold_all, pairwise};
use std::alloc::Global;

/// The numbers of a front.
#[derive(Clone, Copy, PartialEq, Eq, Debug)]
pub struct Numbers {
    /// The place of the key's column among the source's columns.
    pub key: usize,
    /// The slots.
    pub slots: u32,
    /// The cycles from one slot's turn to the next one's in a flush.
    pub stride: u32,
    /// The bits of what tells one slot from another.
    pub width: u8,
}

/// The row that came last, and the key of the row that comes.
#[derive(Drop)]
pub struct Lookup {
    /// The columns of the row that came last, before this cycle.
    pub row: Buses,
    /// The key of the row that comes.
    pub here: Bus,
}

/// Whose turn it is.
#[derive(Drop)]
pub struct Turning {
    /// The slots from the one whose turn is next on.
    pub rest: Bus,
    /// For each slot whether it ends, if it is used.
    pub turns: Bits,
}

/// The slots in a cycle, and what comes: which one takes a row and which one ends follows from this alone.
#[derive(Drop)]
pub struct Looked {
    /// The row that came last, one cycle later.
    pub row: Buses,
    /// For each slot its key.
    pub keys: Buses,
    /// What the slots make of the key that is looked for.
    pub seen: Seen,
    /// For each slot whether it ends, if it is used.
    pub turns: Bits,
    /// 1 where the slot that ends takes that row, if it has its key.
    pub tail: Bit,
}

/// Which slots take a row, and which one ends.
#[derive(Drop)]
pub struct Chosen {
    /// The row that came last, one cycle later.
    pub row: Buses,
    /// For each slot its key.
    pub keys: Buses,
    /// For each slot whether it takes that row.
    pub takes: Bits,
    /// For each slot whether it ends.
    pub ends: Bits,
    /// 1 with a row of a further key.
    pub passes: Bit,
}

/// What a front gives.
#[derive(Drop)]
pub struct Front {
    /// For each slot the wire of its input.
    pub wires: Wires,
    /// For each slot its key.
    pub keys: Buses,
    /// 1 one cycle after a row of a further key.
    pub further: Bit,
}

/// Keeps the row that came last, beside the key of the row that comes.
pub fn look_up(
    alloc: Global,
    net: &mut NetBuilder,
    wire: &Wire,
    key: usize,
) -> Result<Lookup, Memory>
    requires wire { IsWire net.old wire.now }
    requires key { key < length wire.now.columns }
    ensures { IfOk result (AddsLookup net.old net.new wire.now key) }
{
    let row = hold_all(alloc, net, wire.valid, &wire.columns)?;
    let here = wire.columns.as_slice()[key];
    Ok(Lookup { row, here })
}

/// The slot whose turn it is.
pub fn turn_slots(
    alloc: Global,
    net: &mut NetBuilder,
    eos: Bit,
    due: Bit,
    count: u32,
) -> Result<Turning, Memory>
    requires eos { IsBit net.old eos }
    requires due { IsBit net.old due }
    requires some_slot { 1 ≤ count }
    ensures { IfOk result (AddsTurning net.old net.new eos due count) }
{
    let turns = count_turns(net, eos, due, count)?;
    let lines = turn_lines(alloc, net, turns.trigger, turns.at, count)?;
    Ok(Turning {
        rest: turns.rest,
        turns: lines,
    })
}

/// Looks at the slots, by the key in a column; a slot's mark has `width` bits.
#[tactic(auto, using(gl_wire_registers::proofs::LineLemmas::bits_kept, gl_wire::proofs::ColumnLemmas::buses_kept))]
pub fn look_all(
    alloc: Global,
    net: &mut NetBuilder,
    wire: &Wire,
    numbers: Numbers,
) -> Result<Looked, Memory>
    requires wire { IsWire net.old wire.now }
    requires key { numbers.key < length wire.now.columns }
    requires count { 1 ≤ numbers.slots }
    requires stride { 1 ≤ numbers.stride }
    requires width { IsWidth numbers.width }
    requires fits { numbers.slots < 2 ^ numbers.width }
    ensures { IfOk result (AddsLooked net.old net.new
        numbers.key numbers.slots numbers.stride numbers.width wire.now) }
{
    let flush = count_flush(net, wire.valid, wire.eos, numbers.stride)?;
    let tail = keep_tail(net, wire.valid, wire.eos, flush.idle)?;
    let look = look_up(alloc, net, wire, numbers.key)?;
    let wanted = Wanted {
        free: flush.free,
        ask: wire.valid,
        here: look.here,
    };
    let slots = put_slots(alloc, net, wanted, numbers.slots, numbers.width)?;
    let turning = turn_slots(alloc, net, wire.eos, flush.due, numbers.slots)?;
    Ok(Looked {
        row: look.row,
        keys: slots.keys,
        seen: slots.seen,
        turns: turning.turns,
        tail: tail.tail,
    })
}

/// Which slots take the row that came last and which one ends.
#[tactic(auto, using(gl_wire_registers::proofs::LineLemmas::bits_kept, gl_wire::proofs::ColumnLemmas::buses_kept))]
pub fn choose_slots(
    alloc: Global,
    net: &mut NetBuilder,
    wire: &Wire,
    numbers: Numbers,
) -> Result<Chosen, Memory>
    requires wire { IsWire net.old wire.now }
    requires key { numbers.key < length wire.now.columns }
    requires count { 1 ≤ numbers.slots }
    requires stride { 1 ≤ numbers.stride }
    requires width { IsWidth numbers.width }
    requires fits { numbers.slots < 2 ^ numbers.width }
    ensures { IfOk result (AddsChosen net.old net.new
        numbers.key numbers.slots numbers.stride numbers.width wire.now) }
{
    let look = look_all(alloc, net, wire, numbers)?;
    let ends = pairwise(alloc, net, LineOp::Both, &look.turns, &look.seen.has)?;
    let has_key = pairwise(
        alloc,
        net,
        LineOp::Either,
        &look.seen.found,
        &look.seen.takes,
    )?;
    let comes = Arrival {
        valid: wire.valid,
        eos: wire.eos,
        tail: look.tail,
    };
    let takes = take_rows(alloc, net, comes, &has_key, &ends)?;
    note_bits(net, b"match", has_key.as_slice())?;
    note_bits(net, b"ends", ends.as_slice())?;
    Ok(Chosen {
        row: look.row,
        keys: look.keys,
        takes,
        ends,
        passes: look.seen.passes,
    })
}

/// The wires of the slots, by the key in a column.
pub fn put_front(
    alloc: Global,
    net: &mut NetBuilder,
    wire: &Wire,
    numbers: Numbers,
) -> Result<Front, Memory>
    requires wire { IsWire net.old wire.now }
    requires key { numbers.key < length wire.now.columns }
    requires count { 1 ≤ numbers.slots }
    requires stride { 1 ≤ numbers.stride }
    requires width { IsWidth numbers.width }
    requires fits { numbers.slots < 2 ^ numbers.width }
    ensures { IfOk result (AddsFront net.old net.new
        numbers.key numbers.slots numbers.stride numbers.width wire.now) }
{
    let chosen = choose_slots(alloc, net, wire, numbers)?;
    let wires = copy_wires(alloc, net, &chosen.takes, &chosen.ends, &chosen.row)?;
    let further = later_bit(net, chosen.passes)?;
    note_bit(net, b"further", further)?;
    Ok(Front {
        wires,
        keys: chosen.keys,
        further,
    })
}
