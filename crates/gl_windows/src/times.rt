//! Windows of time by rotation: the front before the copies of a body, with a line of ticks, and the back behind them.

ghost use Rattle.std.specs.Prelude.{◌≡◌, IfOk};
ghost use Rattle.gl_net.specs.Net.{IsBit};
ghost use Rattle.gl_wire.specs.Wire.{IsWire};
ghost use Rattle.gl_wire.specs.Rotates.{flush_of, turns_of};
ghost use Rattle.gl_windows.specs.TimeRotations.{AreTimeFronts, IsTimeRotation, copies_of, ticked_machine};

use crate::notes::note_ticks;
use crate::parts::{count_flush, count_left, count_openings, keep_tail, take_rows};
use crate::turns::{Moves, rotate};
use gl_algebra::Figures;
use gl_algebra::table::copies_of_time;
use gl_bits::Memory;
use gl_net::{Bit, Buses, NetBuilder};
use gl_wire::{Emitted, Wire, but_not, either};
use gl_wire_registers::{
    Arrival, Front, LineOp, OverCopies, Wires, bits_to, close_line, copy_wires, hold_all, join_all,
    pairwise, pointer, stride, timer,
};
use std::alloc::Global;

/// Windows of time of `size` ticks, one from each `advance`-th tick on, over copies of a body: as many as can be open at once.
#[derive(Clone, Copy)]
pub struct TimeRotation {
    /// The ticks of a window.
    pub size: u32,
    /// The ticks from the begin of a window to that of the next.
    pub advance: u32,
    /// The figures of the body, over the beats of a copy's own wire.
    pub body: Figures,
}

/// Windows of time beside the line of their ticks.
#[derive(Clone, Copy)]
pub struct Ticked {
    /// The windows.
    pub rotation: TimeRotation,
    /// 1 where a tick comes.
    pub tick: Bit,
}

// The wires of the copies. The first window is open from reset on, and that of a later stream from the cycle behind the last turn.
#[tactic(auto, using(gl_wire_registers::proofs::LineLemmas::bits_kept, gl_wire::proofs::ColumnLemmas::buses_kept))]
fn put_time_front(
    alloc: Global,
    net: &mut NetBuilder,
    r: &TimeRotation,
    wire: &Wire,
    tick: Bit,
) -> Result<Wires, Memory>
    requires rotation { IsTimeRotation r.now }
    requires wire { IsWire net.old wire.now }
    requires tick { IsBit net.old tick }
    ensures { IfOk result (AreTimeFronts net.old net.new r.now tick wire.now) }
{
    let v = wire.valid;
    let e = wire.eos;
    let count = r.copies();
    let reopens = timer(net, e, r.turns())?;
    let brings = either(net, tick, v)?;
    let busy = either(net, brings, reopens)?;
    let opening = count_openings(net, tick, e, r.advance - 1, r.advance)?;
    let opens = either(net, opening.opens, reopens)?;
    let flush = count_flush(net, busy, e, stride(&r.body))?;
    let trigger = count_left(net, tick, e, flush.due, r.size, r.advance)?;
    let kept = keep_tail(net, v, e, flush.idle)?;
    let tail = but_not(net, kept.tail, trigger.last)?;
    let first = count - 1;
    let opened = pointer(net, opens, bits_to(first), u128::from(first))?;
    let moves = Moves {
        opens,
        opened,
        trigger: trigger.trigger,
    };
    let open = rotate(alloc, net, moves, 1, first, count)?;
    let stay = pairwise(alloc, net, LineOp::ButNot, &open.mids, &open.ends)?;
    let comes = Arrival {
        valid: v,
        eos: e,
        tail,
    };
    let takes = take_rows(alloc, net, comes, &stay, &open.ends)?;
    let row = hold_all(alloc, net, v, &wire.columns)?;
    // Named, since a goal speaks of the value.
    let wires = copy_wires(alloc, net, &takes, &open.ends, &row)?;
    note_ticks(net, reopens, brings, busy, tail)?;
    Ok(wires)
}

impl TimeRotation {
    /// The copies.
    pub fn copies(&self) -> u32
        requires { IsTimeRotation self.now }
        ensures { result ≡ copies_of self.now }
    {
        copies_of_time(self.size, self.advance)
    }

    // The cycles of a flush.
    fn flush(&self) -> u32
        requires { IsTimeRotation self.now }
        ensures { result ≡ flush_of (copies_of self.now) self.now.body }
    {
        self.copies() * stride(&self.body)
    }

    // The cycles from the end to the last turn of a flush.
    fn turns(&self) -> u32
        requires { IsTimeRotation self.now }
        ensures { result ≡ turns_of (copies_of self.now) self.now.body }
    {
        self.flush() - stride(&self.body)
    }
}

impl OverCopies for Ticked {
    ghost can_be = { λ t. IsTimeRotation t.rotation };

    ghost machine = { ticked_machine };

    fn front(&self, alloc: Global, net: &mut NetBuilder, source: Emitted) -> Result<Front, Memory> {
        let rotation = self.rotation;
        let flush = rotation.flush();
        let wires = put_time_front(alloc, net, &rotation, &source.wire, self.tick)?;
        let close = close_line(net, source.wire.eos, flush, rotation.body.a)?;
        Ok(Front {
            source,
            wires,
            keys: Buses::new(alloc),
            further: None,
            close,
        })
    }

    fn back(
        &self,
        alloc: Global,
        net: &mut NetBuilder,
        front: &Front,
        copies: &[Emitted],
    ) -> Result<Emitted, Memory> {
        // Named, since a goal speaks of the value.
        let whole = join_all(alloc, net, front.source.faults, front.close, copies)?;
        Ok(whole)
    }
}
