//! The parts of a front of slots, each with its registers.

ghost use Rattle.std.specs.Prelude.{◌≡◌, ◌<◌, ◌≤◌, ◌^◌, IfOk, length};
ghost use Rattle.gl_net.specs.Net.{IsBit, IsBus};
ghost use Rattle.gl_wire_registers.specs.Lines.{AddsLine, AddsLines, AreBits};
ghost use Rattle.gl_slots.specs.Parts.{AddsFlush, AddsTail, AddsTurns, TakesOf, turned_at, turned_to};

use crate::notes::{note_flush, note_tail, note_turns};
use gl_bits::Memory;
use gl_net::{Bit, Bus, NetBuilder};
use gl_wire::{both, but_not, either, note_bits};
use gl_wire_registers::{
    Arrival, Bits, Counter, LineOp, bits_to, count_down, latch, number_or, pairwise, when_equal,
    with_all,
};
use std::alloc::Global;

/// The flush after an end, up to what comes next.
#[derive(Clone, Copy, PartialEq, Eq, Debug)]
pub struct Flush {
    /// 1 where an end was the last that came.
    pub flush: Bit,
    /// 1 where it is, and nothing comes.
    pub idle: Bit,
    /// 1 where it is, and something comes, before which all slots are free.
    pub free: Bit,
    /// The cycles before the next slot takes its end.
    pub wait: Bus,
    /// 1 where one has its turn.
    pub due: Bit,
}

/// The slot whose turn it is, counted from behind the last one.
#[derive(Clone, Copy, PartialEq, Eq, Debug)]
pub struct Turns {
    /// The slots from the one whose turn is next on.
    pub rest: Bus,
    /// The slots from the one whose turn it is on: with an end from the first one.
    pub at: Bus,
    /// 1 where that one ends, if it is used.
    pub trigger: Bit,
}

/// Whether a slot that ends takes the row that came last.
#[derive(Clone, Copy, PartialEq, Eq, Debug)]
pub struct Tail {
    /// 1 where a tuple came with the last end.
    pub held: Bit,
    /// 1 where the slot that ends takes it, if it has its key.
    pub tail: Bit,
}

/// Counts the cycles between the ends of a flush. Windows have a part of their own: they have no slots to set free with what comes.
pub fn count_flush(net: &mut NetBuilder, valid: Bit, eos: Bit, stride: u32) -> Result<Flush, Memory>
    requires valid { IsBit net.old valid }
    requires eos { IsBit net.old eos }
    requires stride { 1 ≤ stride }
    ensures { IfOk result (AddsFlush net.old net.new valid eos stride) }
{
    let last = u128::from(stride - 1);
    let comes = either(net, valid, eos)?;
    let flush = latch(net, eos, valid)?;
    let idle = but_not(net, flush, comes)?;
    let free = both(net, flush, comes)?;
    let counter = Counter {
        width: bits_to(stride - 1),
        start: 0,
        cleared: last,
        again: last,
    };
    let wait = count_down(net, eos, idle, counter)?;
    let due = when_equal(net, idle, wait, 0)?;
    let made = Flush {
        flush,
        idle,
        free,
        wait,
        due,
    };
    note_flush(net, made)?;
    Ok(made)
}

/// Counts the slots that have not had their turn: the first one has it with the end.
pub fn count_turns(net: &mut NetBuilder, eos: Bit, due: Bit, count: u32) -> Result<Turns, Memory>
    requires eos { IsBit net.old eos }
    requires due { IsBit net.old due }
    requires count { 1 ≤ count }
    ensures { IfOk result (AddsTurns net.old net.new eos due count) }
{
    let all = u128::from(count);
    let others = u128::from(count - 1);
    let counter = Counter {
        width: bits_to(count),
        start: all,
        cleared: others,
        again: 0,
    };
    let rest = count_down(net, eos, due, counter)?;
    let at = number_or(net, eos, all, rest)?;
    let trigger = either(net, eos, due)?;
    let made = Turns { rest, at, trigger };
    note_turns(net, made)?;
    Ok(made)
}

/// Keeps whether a tuple came with the end. `idle` is 0 where the next end comes, so that no gate keeps the tail of the last one from it.
pub fn keep_tail(net: &mut NetBuilder, valid: Bit, eos: Bit, idle: Bit) -> Result<Tail, Memory>
    requires valid { IsBit net.old valid }
    requires eos { IsBit net.old eos }
    requires idle { IsBit net.old idle }
    ensures { IfOk result (AddsTail net.old net.new valid eos idle) }
{
    let with_end = both(net, eos, valid)?;
    let held = latch(net, with_end, eos)?;
    let resting = both(net, idle, held)?;
    let tail = either(net, with_end, resting)?;
    let made = Tail { held, tail };
    note_tail(net, made)?;
    Ok(made)
}

// The line of one slot where its turn is.
#[tactic(auto, unfolding(crate::specs::Parts::turned_at))]
fn at_slot(net: &mut NetBuilder, line: Bit, at: Bus, count: u32, slot: u32) -> Result<Bit, Memory>
    requires line { IsBit net.old line }
    requires at { IsBus net.old at }
    requires fits { count < 2 ^ at.width }
    requires below { slot < count }
    ensures { IfOk result (λ b. AddsLine net.old net.new 3 b (turned_at count line at slot)) }
{
    // Named, since a goal speaks of the value.
    let bit = when_equal(net, line, at, u128::from(count - slot))?;
    Ok(bit)
}

/// For each slot whether the line is 1 and its turn is.
pub fn turn_lines(
    alloc: Global,
    net: &mut NetBuilder,
    line: Bit,
    at: Bus,
    count: u32,
) -> Result<Bits, Memory>
    requires line { IsBit net.old line }
    requires at { IsBus net.old at }
    requires fits { count < 2 ^ at.width }
    ensures { IfOk result (λ bs. AddsLines net.old net.new count 3 bs (turned_to count line at)) }
{
    let mut all = Bits::new(alloc);
    for slot in 0..count {
        let bit = at_slot(net, line, at, count, slot)?;
        all.push(bit)?;
    }
    note_bits(net, b"turn", all.as_slice())?;
    Ok(all)
}

/// For each slot whether it takes the row: one with its key a tuple without the end, and the one that ends what came with the end.
#[tactic(auto, using(gl_wire_registers::proofs::LineLemmas::bits_kept))]
pub fn take_rows(
    alloc: Global,
    net: &mut NetBuilder,
    comes: Arrival,
    matches: &Bits,
    ends: &Bits,
) -> Result<Bits, Memory>
    requires valid { IsBit net.old comes.valid }
    requires eos { IsBit net.old comes.eos }
    requires tail { IsBit net.old comes.tail }
    requires matches { AreBits net.old matches.now }
    requires ends { AreBits net.old ends.now }
    requires count { length ends.now ≡ length matches.now }
    ensures { IfOk result
        (TakesOf net.old net.new comes.valid comes.eos comes.tail matches.now ends.now) }
{
    let alone = but_not(net, comes.valid, comes.eos)?;
    let last = with_all(alloc, net, LineOp::Both, ends, comes.tail)?;
    let may = with_all(alloc, net, LineOp::Either, &last, alone)?;
    let takes = pairwise(alloc, net, LineOp::Both, matches, &may)?;
    note_bits(net, b"takes", takes.as_slice())?;
    Ok(takes)
}
