//! The parts of a front of windows of each key, each with its registers.

ghost use Rattle.std.specs.Prelude.{◌≡◌, ◌≤◌, IfOk};
ghost use Rattle.gl_net.specs.Net.{IsBit};
ghost use Rattle.gl_partition.specs.Parts.{AddsFilled, AddsTurns};

use gl_bits::Memory;
use gl_net::{Bit, Bus, NetBuilder};
use gl_wire::{either, note_bit, note_bus};
use gl_wire_registers::{Counter, bits_to, count_down, when_equal};

/// The slot whose turn it is, counted from behind the last one.
#[derive(Clone, Copy, PartialEq, Eq, Debug)]
pub struct Turns {
    /// The turns of this slot behind the next one.
    pub within: Bus,
    /// The slots from the one whose turn is next on.
    pub rest: Bus,
}

/// When the oldest window of a slot ends, if it is open.
#[derive(Clone, Copy, PartialEq, Eq, Debug)]
pub struct Filled {
    /// The tuples before the one that completes the oldest window.
    pub left: Bus,
    /// 1 where it ends.
    pub trigger: Bit,
}

// Tells the slot whose turn it is.
fn note_turns(net: &mut NetBuilder, turns: Turns) -> Result<(), Memory>
    ensures { net.new ≡ net.old }
{
    note_bus(net, b"within", turns.within)?;
    note_bus(net, b"rest", turns.rest)
}

// Tells when the oldest window of a slot ends.
fn note_filled(net: &mut NetBuilder, filled: Filled) -> Result<(), Memory>
    ensures { net.new ≡ net.old }
{
    note_bus(net, b"left", filled.left)?;
    note_bit(net, b"trigger", filled.trigger)
}

/// Counts the turns after an end, slot by slot.
pub fn count_turns(
    net: &mut NetBuilder,
    eos: Bit,
    due: Bit,
    slots: u32,
    copies: u32,
) -> Result<Turns, Memory>
    requires eos { IsBit net.old eos }
    requires due { IsBit net.old due }
    requires slots { 1 ≤ slots }
    requires copies { 1 ≤ copies }
    ensures { IfOk result (AddsTurns net.old net.new eos due slots copies) }
{
    let all = u128::from(slots);
    let others = u128::from(copies - 1);
    let turns = Counter {
        width: bits_to(copies - 1),
        start: others,
        cleared: others,
        again: others,
    };
    let within = count_down(net, eos, due, turns)?;
    let last = when_equal(net, due, within, 0)?;
    let slots = Counter {
        width: bits_to(slots),
        start: all,
        cleared: all,
        again: 0,
    };
    let rest = count_down(net, eos, last, slots)?;
    let made = Turns { within, rest };
    note_turns(net, made)?;
    Ok(made)
}

/// Counts the tuples to the one that completes the oldest window.
pub fn count_filled(
    net: &mut NetBuilder,
    valid: Bit,
    eos: Bit,
    due: Bit,
    size: u32,
    advance: u32,
) -> Result<Filled, Memory>
    requires valid { IsBit net.old valid }
    requires eos { IsBit net.old eos }
    requires due { IsBit net.old due }
    requires size { 1 ≤ size }
    requires advance { 1 ≤ advance }
    ensures { IfOk result (AddsFilled net.old net.new valid eos due size advance) }
{
    let rows = u128::from(size - 1);
    let again = u128::from(advance - 1);
    let bits = bits_to(size.max(advance) - 1);
    let counter = Counter {
        width: bits,
        start: rows,
        cleared: rows,
        again,
    };
    let left = count_down(net, eos, valid, counter)?;
    let last = when_equal(net, valid, left, 0)?;
    let trigger = either(net, last, due)?;
    let made = Filled { left, trigger };
    note_filled(net, made)?;
    Ok(made)
}
