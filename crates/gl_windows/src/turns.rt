//! Copies that open one after another and end one after another.

ghost use Rattle.std.specs.Prelude.{◌≡◌, ◌∷◌, ◌++◌, ◌<◌, ◌≤◌, ◌^◌, [], IfOk, length, replicate};
ghost use Rattle.gl_net.specs.Net.{IsBit, IsBus};
ghost use Rattle.gl_wire_registers.specs.Lines.{AreBits};
ghost use Rattle.gl_windows.specs.Turns.{AddsRotation, Turns};

use crate::notes::note_open;
use gl_bits::{Memory, Word};
use gl_net::{Bit, Bus, NetBuilder};
use gl_wire_registers::{
    Bits, LineOp, any, buses_with, decode, drive_all, lines_of, next_pointer, open_all, pairwise,
    word,
};
use std::alloc::Global;

/// What opens a copy, and what ends one.
#[derive(Clone, Copy, PartialEq, Eq, Debug)]
pub struct Moves {
    /// 1 where a copy opens.
    pub opens: Bit,
    /// The copy that opens next.
    pub opened: Bus,
    /// 1 where the oldest copy ends, if it is open.
    pub trigger: Bit,
}

/// What follows from the flags of this cycle.
#[derive(Drop)]
pub struct Turn {
    /// The copies that are open, with what this cycle opens.
    pub mids: Bits,
    /// The copy that ends.
    pub ends: Bits,
    /// The copies that stay open.
    pub kept: Bits,
    /// The oldest copy of the next cycle.
    pub next: Bus,
}

/// Copies that open and end.
#[derive(Drop)]
pub struct OpenCopies {
    /// The copies that are open at the beginning of the cycle.
    pub flags: Bits,
    /// The oldest copy.
    pub oldest: Bus,
    /// The copies that are open, with what this cycle opens.
    pub mids: Bits,
    /// The copy that ends.
    pub ends: Bits,
}

/// Opens a copy and ends the oldest one, if it is open.
#[tactic(auto, using(gl_wire_registers::proofs::LineLemmas::bits_kept))]
pub fn take_turn(
    alloc: Global,
    net: &mut NetBuilder,
    moves: Moves,
    flags: &Bits,
    oldest: Bus,
    count: u32,
) -> Result<Turn, Memory>
    requires opens { IsBit net.old moves.opens }
    requires opened { IsBus net.old moves.opened }
    requires opened_fits { count ≤ 2 ^ moves.opened.width }
    requires trigger { IsBit net.old moves.trigger }
    requires flags { AreBits net.old flags.now }
    requires flags_count { length flags.now ≡ count }
    requires oldest { IsBus net.old oldest }
    requires oldest_fits { count ≤ 2 ^ oldest.width }
    requires some_copy { 1 ≤ count }
    ensures { IfOk result (Turns net.old net.new count
        moves.opens moves.opened moves.trigger flags.now oldest) }
{
    let news = decode(alloc, net, moves.opens, moves.opened, count)?;
    let mids = pairwise(alloc, net, LineOp::Either, flags, &news)?;
    let chosen = decode(alloc, net, moves.trigger, oldest, count)?;
    let ends = pairwise(alloc, net, LineOp::Both, &chosen, &mids)?;
    let closes = any(net, &ends)?;
    let kept = pairwise(alloc, net, LineOp::ButNot, &mids, &ends)?;
    let next = next_pointer(net, oldest, closes, u128::from(count - 1))?;
    Ok(Turn {
        mids,
        ends,
        kept,
        next,
    })
}

// Reset words: a bit for each copy, that of the last one apart, and the pointer.
fn resets(
    alloc: Global,
    zero: Word,
    last: Word,
    first: Word,
    others: usize,
) -> Result<Vec<Word>, Memory>
    ensures { IfOk result (λ v. v.items ≡ (replicate others zero ++ last ∷ []) ++ first ∷ []) }
{
    let Ok(mut all) = vec![in alloc; zero; others] else {
        return Err(Memory);
    };
    if all.push(last).is_err() {
        return Err(Memory);
    }
    match all.push(first) {
        Ok(()) => Ok(all),
        Err(_) => Err(Memory),
    }
}

/// The copies, in registers that reset clears, but for the flag of the last one and the pointer to the oldest one: those begin at `last` and
/// `first`. The pointer is as wide as the other one.
pub fn rotate(
    alloc: Global,
    net: &mut NetBuilder,
    moves: Moves,
    last: u32,
    first: u32,
    count: u32,
) -> Result<OpenCopies, Memory>
    requires opens { IsBit net.old moves.opens }
    requires opened { IsBus net.old moves.opened }
    requires opened_fits { count ≤ 2 ^ moves.opened.width }
    requires trigger { IsBit net.old moves.trigger }
    requires some_copy { 1 ≤ count }
    requires last { last ≤ 1 }
    requires first { first < count }
    ensures { IfOk result (AddsRotation net.old net.new count last first
        moves.opens moves.opened moves.trigger) }
{
    let copies = count as usize;
    let flag = word(u128::from(last), 1);
    let pointer = word(u128::from(first), moves.opened.width);
    let resets = resets(alloc, word(0, 1), flag, pointer, copies - 1)?;
    let registers = open_all(alloc, net, resets.as_slice())?;
    let (bits, pointers) = registers.as_slice().split_at(copies);
    let oldest = pointers[0];
    let flags = Bits::from_vec(lines_of(alloc, bits)?);
    let turn = take_turn(alloc, net, moves, &flags, oldest, count)?;
    let nexts = buses_with(alloc, turn.kept.as_slice(), turn.next)?;
    drive_all(net, registers.as_slice(), nexts.as_slice())?;
    let made = OpenCopies {
        flags,
        oldest,
        mids: turn.mids,
        ends: turn.ends,
    };
    note_open(net, moves.opened, &made)?;
    Ok(made)
}
