//! The windows of each slot: which copies take the row that came last, and which one ends.

ghost use Rattle.std.specs.Prelude.{◌≡◌, ◌++◌, ◌≤◌, IfOk, OnOk, length};
ghost use Rattle.gl_net.specs.Net.{IsBit};
ghost use Rattle.gl_wire_registers.specs.Lines.{AreBits};
ghost use Rattle.gl_partition.specs.Fronts.{AddsSlots};
ghost use Rattle.gl_partition.specs.Parts.{AddsSlot};

use crate::parts::count_filled;
use gl_bits::Memory;
use gl_net::{Bit, Bus, NetBuilder};
use gl_windows::parts::{count_openings, take_rows};
use gl_windows::turns::{Moves, rotate};
use gl_wire::{both, note_bit};
use gl_wire_registers::{Arrival, Bits, bits_to, pointer};
use std::alloc::Global;

/// The numbers of a slot's windows.
#[derive(Clone, Copy)]
pub struct Sizes {
    /// The rows of a window.
    pub size: u32,
    /// The rows of a key from the first one of a window to that of the next.
    pub advance: u32,
    /// The copies of the slot.
    pub copies: u32,
}

/// The windows of a slot.
#[derive(Drop)]
pub struct SlotWindows {
    /// The tuples before the next window opens.
    pub until: Bus,
    /// The tuples before the one that completes the oldest window.
    pub left: Bus,
    /// The copy that opens next.
    pub opened: Bus,
    /// The oldest copy.
    pub oldest: Bus,
    /// The copies that are open at the beginning of the cycle.
    pub flags: Bits,
    /// The copies that are open, with what this cycle opens.
    pub mids: Bits,
    /// For each copy whether it takes the row.
    pub takes: Bits,
    /// The copy that ends.
    pub ends: Bits,
}

/// Which copies of all slots take the row that came last, and which one ends, slot by slot.
#[derive(Drop)]
pub struct Chosen {
    /// For each copy whether it takes the row.
    pub takes: Bits,
    /// For each copy whether it ends.
    pub ends: Bits,
}

/// The windows of a slot, to which the row that came last belongs where `mine` is 1.
#[tactic(auto, using(gl_wire_registers::proofs::LineLemmas::bits_kept))]
pub fn put_slot(
    alloc: Global,
    net: &mut NetBuilder,
    comes: Arrival,
    mine: Bit,
    due: Bit,
    sizes: Sizes,
) -> Result<SlotWindows, Memory>
    requires valid { IsBit net.old comes.valid }
    requires eos { IsBit net.old comes.eos }
    requires tail { IsBit net.old comes.tail }
    requires mine { IsBit net.old mine }
    requires due { IsBit net.old due }
    requires size { 1 ≤ sizes.size }
    requires advance { 1 ≤ sizes.advance }
    requires copies { 1 ≤ sizes.copies }
    ensures { IfOk result (AddsSlot net.old net.new comes.valid comes.eos comes.tail mine due
        sizes.size sizes.advance sizes.copies) }
{
    let eos = comes.eos;
    let own = both(net, comes.valid, mine)?;
    let last = both(net, comes.tail, mine)?;
    let next = count_openings(net, own, eos, 0, sizes.advance)?;
    let filled = count_filled(net, own, eos, due, sizes.size, sizes.advance)?;
    let others = sizes.copies - 1;
    let opened = pointer(net, next.opens, bits_to(others), u128::from(others))?;
    let moves = Moves {
        opens: next.opens,
        opened,
        trigger: filled.trigger,
    };
    let open = rotate(alloc, net, moves, 0, 0, sizes.copies)?;
    let arrival = Arrival {
        valid: own,
        eos,
        tail: last,
    };
    let takes = take_rows(alloc, net, arrival, &open.mids, &open.ends)?;
    note_bit(net, b"own", own)?;
    note_bit(net, b"last", last)?;
    Ok(SlotWindows {
        until: next.until,
        left: filled.left,
        opened,
        oldest: open.oldest,
        flags: open.flags,
        mids: open.mids,
        takes,
        ends: open.ends,
    })
}

// Lines behind others.
fn append(to: &mut Bits, lines: &[Bit]) -> Result<(), Memory>
    ensures { OnOk result (to.new ≡ to.old ++ lines.now) }
{
    for line in lines {
        to.push(*line)?;
    }
    Ok(())
}

/// The windows of all slots.
pub fn put_windows(
    alloc: Global,
    net: &mut NetBuilder,
    comes: Arrival,
    matches: &[Bit],
    dues: &[Bit],
    sizes: Sizes,
) -> Result<Chosen, Memory>
    requires valid { IsBit net.old comes.valid }
    requires eos { IsBit net.old comes.eos }
    requires tail { IsBit net.old comes.tail }
    requires matches { AreBits net.old matches.now }
    requires dues { AreBits net.old dues.now }
    requires count { length dues.now ≡ length matches.now }
    requires size { 1 ≤ sizes.size }
    requires advance { 1 ≤ sizes.advance }
    requires copies { 1 ≤ sizes.copies }
    ensures { IfOk result (AddsSlots net.old net.new comes.valid comes.eos comes.tail
        matches.now dues.now sizes.size sizes.advance sizes.copies (length matches.now)) }
{
    let mut takes = Bits::new(alloc);
    let mut ends = Bits::new(alloc);
    for (i, line) in matches.iter().enumerate() {
        let slot = put_slot(alloc, net, comes, *line, dues[i], sizes)?;
        append(&mut takes, slot.takes.as_slice())?;
        append(&mut ends, slot.ends.as_slice())?;
    }
    Ok(Chosen { takes, ends })
}
