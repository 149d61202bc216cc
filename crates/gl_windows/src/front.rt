//! The front of windows: which copies take a tuple, and which takes an end.

ghost use Rattle.std.specs.Prelude.{◌≤◌, IfOk};
ghost use Rattle.gl_wire.specs.Wire.{IsWire};
ghost use Rattle.gl_windows.specs.Rotations.{AreFronts};

use crate::parts::{count_flush, count_left, count_openings, keep_tail, take_rows};
use crate::turns::{Moves, rotate};
use gl_bits::Memory;
use gl_net::NetBuilder;
use gl_wire::Wire;
use gl_wire_registers::{Arrival, Wires, bits_to, copy_wires, hold_all, pointer};
use std::alloc::Global;

/// The numbers of a front.
#[derive(Clone, Copy, PartialEq, Eq, Debug)]
pub struct Numbers {
    /// The rows of a window.
    pub size: u32,
    /// The rows from the first one of a window to that of the next.
    pub advance: u32,
    /// The copies.
    pub copies: u32,
    /// The cycles from one copy's turn to the next one's in a flush.
    pub stride: u32,
}

/// The wires of the copies.
#[tactic(auto, using(gl_wire_registers::proofs::LineLemmas::bits_kept, gl_wire::proofs::ColumnLemmas::buses_kept))]
pub fn put_front(
    alloc: Global,
    net: &mut NetBuilder,
    wire: &Wire,
    numbers: Numbers,
) -> Result<Wires, Memory>
    requires wire { IsWire net.old wire.now }
    requires size { 1 ≤ numbers.size }
    requires advance { 1 ≤ numbers.advance }
    requires copies { 1 ≤ numbers.copies }
    requires stride { 1 ≤ numbers.stride }
    ensures { IfOk result (AreFronts net.old net.new
        numbers.size numbers.advance numbers.copies numbers.stride wire.now) }
{
    let v = wire.valid;
    let e = wire.eos;
    let opening = count_openings(net, v, e, 0, numbers.advance)?;
    let flush = count_flush(net, v, e, numbers.stride)?;
    let trigger = count_left(net, v, e, flush.due, numbers.size, numbers.advance)?;
    let tail = keep_tail(net, v, e, flush.idle)?;
    let last = numbers.copies - 1;
    let bits = bits_to(last);
    let opened = pointer(net, opening.opens, bits, u128::from(last))?;
    let moves = Moves {
        opens: opening.opens,
        opened,
        trigger: trigger.trigger,
    };
    let open = rotate(alloc, net, moves, 0, 0, numbers.copies)?;
    let comes = Arrival {
        valid: v,
        eos: e,
        tail: tail.tail,
    };
    let takes = take_rows(alloc, net, comes, &open.mids, &open.ends)?;
    let row = hold_all(alloc, net, v, &wire.columns)?;
    // Named, since a goal speaks of the value.
    let wires = copy_wires(alloc, net, &takes, &open.ends, &row)?;
    Ok(wires)
}
