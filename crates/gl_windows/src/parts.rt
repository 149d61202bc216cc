//! The parts of a front of windows, each with its registers.

ghost use Rattle.std.specs.Prelude.{◌≡◌, ◌≤◌, IfOk, length};
ghost use Rattle.gl_net.specs.Net.{IsBit};
ghost use Rattle.gl_wire_registers.specs.Lines.{AreBits};
ghost use Rattle.gl_windows.specs.Parts.{AddsFlush, AddsOpening, AddsTail, AddsTrigger, TakesOf};

use crate::notes::{note_flush, note_opening, note_tail, note_trigger};
use gl_bits::Memory;
use gl_net::{Bit, Bus, NetBuilder};
use gl_wire::{both, but_not, either, note_bits};
use gl_wire_registers::{
    Arrival, Bits, Counter, LineOp, bits_to, count_down, latch, pairwise, when_equal, with_all,
};
use std::alloc::Global;

/// When a copy opens.
#[derive(Clone, Copy, PartialEq, Eq, Debug)]
pub struct Opening {
    /// The units before the next window opens.
    pub until: Bus,
    /// 1 with the unit that opens one.
    pub opens: Bit,
}

/// The flush after an end.
#[derive(Clone, Copy, PartialEq, Eq, Debug)]
pub struct Flush {
    /// 1 where an end was the last that came.
    pub flush: Bit,
    /// 1 where it is, and no tuple comes.
    pub idle: Bit,
    /// The cycles before the next open copy takes its end.
    pub wait: Bus,
    /// 1 where one has its turn.
    pub due: Bit,
}

/// When the oldest copy ends, if it is open.
#[derive(Clone, Copy, PartialEq, Eq, Debug)]
pub struct Trigger {
    /// The units before the one that completes the oldest window.
    pub left: Bus,
    /// 1 with that one.
    pub last: Bit,
    /// 1 where it ends.
    pub trigger: Bit,
}

/// Whether a copy that ends takes the row that came last.
#[derive(Clone, Copy, PartialEq, Eq, Debug)]
pub struct Tail {
    /// 1 where a tuple came with the last end.
    pub held: Bit,
    /// 1 where the copy that ends takes it.
    pub tail: Bit,
}

/// Counts the units to the next opening: `before` of each stream come before the first one.
pub fn count_openings(
    net: &mut NetBuilder,
    unit: Bit,
    eos: Bit,
    before: u32,
    advance: u32,
) -> Result<Opening, Memory>
    requires unit { IsBit net.old unit }
    requires eos { IsBit net.old eos }
    requires advance { 1 ≤ advance }
    ensures { IfOk result (AddsOpening net.old net.new unit eos before advance) }
{
    let first = u128::from(before);
    let again = u128::from(advance - 1);
    let bits = bits_to(before.max(advance - 1));
    let counter = Counter {
        width: bits,
        start: first,
        cleared: first,
        again,
    };
    let until = count_down(net, eos, unit, counter)?;
    let opens = when_equal(net, unit, until, 0)?;
    let made = Opening { until, opens };
    note_opening(net, made)?;
    Ok(made)
}

/// Counts the cycles between the ends of a flush. Groups have a part of their own, which tells what comes behind an end apart: there the
/// slots are set free with it.
pub fn count_flush(net: &mut NetBuilder, valid: Bit, eos: Bit, stride: u32) -> Result<Flush, Memory>
    requires valid { IsBit net.old valid }
    requires eos { IsBit net.old eos }
    requires stride { 1 ≤ stride }
    ensures { IfOk result (AddsFlush net.old net.new valid eos stride) }
{
    let last = u128::from(stride - 1);
    let flush = latch(net, eos, valid)?;
    let idle = but_not(net, flush, valid)?;
    let bits = bits_to(stride - 1);
    let counter = Counter {
        width: bits,
        start: 0,
        cleared: last,
        again: last,
    };
    let wait = count_down(net, eos, idle, counter)?;
    let due = when_equal(net, idle, wait, 0)?;
    let made = Flush {
        flush,
        idle,
        wait,
        due,
    };
    note_flush(net, made)?;
    Ok(made)
}

/// Counts the units to the one that completes the oldest window.
pub fn count_left(
    net: &mut NetBuilder,
    unit: Bit,
    eos: Bit,
    due: Bit,
    size: u32,
    advance: u32,
) -> Result<Trigger, Memory>
    requires unit { IsBit net.old unit }
    requires eos { IsBit net.old eos }
    requires due { IsBit net.old due }
    requires size { 1 ≤ size }
    requires advance { 1 ≤ advance }
    ensures { IfOk result (AddsTrigger net.old net.new unit eos due size advance) }
{
    let rows = u128::from(size - 1);
    let again = u128::from(advance - 1);
    let bits = bits_to(size.max(advance) - 1);
    let counter = Counter {
        width: bits,
        start: rows,
        cleared: rows,
        again,
    };
    let left = count_down(net, eos, unit, counter)?;
    let last = when_equal(net, unit, left, 0)?;
    let may = either(net, last, due)?;
    let trigger = either(net, eos, may)?;
    let made = Trigger {
        left,
        last,
        trigger,
    };
    note_trigger(net, made)?;
    Ok(made)
}

/// Keeps whether a tuple came with the end. `idle` is 1 too where the next end comes without a tuple, and then no copy takes what is kept:
/// hence the gate that groups, whose `idle` is 0 there, do without.
pub fn keep_tail(net: &mut NetBuilder, valid: Bit, eos: Bit, idle: Bit) -> Result<Tail, Memory>
    requires valid { IsBit net.old valid }
    requires eos { IsBit net.old eos }
    requires idle { IsBit net.old idle }
    ensures { IfOk result (AddsTail net.old net.new valid eos idle) }
{
    let with_end = both(net, eos, valid)?;
    let held = latch(net, with_end, eos)?;
    let resting = both(net, idle, held)?;
    let later = but_not(net, resting, eos)?;
    let tail = either(net, with_end, later)?;
    let made = Tail { held, tail };
    note_tail(net, made)?;
    Ok(made)
}

/// For each copy whether it takes the row: each open one a tuple without the end, and the one that ends what came with the end.
#[tactic(auto, using(gl_wire_registers::proofs::LineLemmas::bits_kept))]
pub fn take_rows(
    alloc: Global,
    net: &mut NetBuilder,
    comes: Arrival,
    mids: &Bits,
    ends: &Bits,
) -> Result<Bits, Memory>
    requires valid { IsBit net.old comes.valid }
    requires eos { IsBit net.old comes.eos }
    requires tail { IsBit net.old comes.tail }
    requires mids { AreBits net.old mids.now }
    requires ends { AreBits net.old ends.now }
    requires count { length ends.now ≡ length mids.now }
    ensures { IfOk result
        (TakesOf net.old net.new comes.valid comes.eos comes.tail mids.now ends.now) }
{
    let alone = but_not(net, comes.valid, comes.eos)?;
    let each = with_all(alloc, net, LineOp::Both, mids, alone)?;
    let last = with_all(alloc, net, LineOp::Both, ends, comes.tail)?;
    // Named, since a goal speaks of the value.
    let takes = pairwise(alloc, net, LineOp::Either, &each, &last)?;
    note_bits(net, b"takes", takes.as_slice())?;
    Ok(takes)
}
