//! A queue whose entries leave some cycles apart.

ghost use Rattle.std.specs.Prelude.{◌≡◌, ◌≤◌, ◌<◌, ◌^◌, IfOk};
ghost use Rattle.gl_net.specs.Net.{IsBit, IsBus};
ghost use Rattle.gl_wire.specs.Wire.{AreBuses};
ghost use Rattle.gl_queue.specs.SpacerLines.{IsCountdown, IsHold, IsPacedOf};

use crate::queue::{Queue, put_queue};
use crate::ring::word;
use gl_bits::Memory;
use gl_net::{BinaryOp, Bit, Bus, NetBuilder};
use gl_wire::{but_not, note_bit, note_bus};
use std::alloc::Global;

/// A line that is 1 where a timer is not 0.
pub fn put_hold(net: &mut NetBuilder, timer: Bus) -> Result<Bit, Memory>
    requires timer { IsBus net.old timer }
    requires width { timer.width ≡ 32 }
    ensures { IfOk result (IsHold net.old net.new timer) }
{
    let zero = net.constant(word(0, 32))?;
    let above = net.binary(BinaryOp::Lt, zero, timer)?;
    Ok(above.bit())
}

/// What a timer is next: a number less one where a line is 1, else what it was less one, and no less than 0.
pub fn put_countdown(
    net: &mut NetBuilder,
    timer: Bus,
    hold: Bit,
    start: Bit,
    number: u32,
) -> Result<Bus, Memory>
    requires timer { IsBus net.old timer }
    requires width { timer.width ≡ 32 }
    requires hold { IsBit net.old hold }
    requires start { IsBit net.old start }
    ensures { IfOk result (IsCountdown net.old net.new number timer hold start) }
{
    let zero = net.constant(word(0, 32))?;
    let one = net.constant(word(1, 32))?;
    let full = net.constant(word(number.saturating_sub(1) as u64, 32))?;
    let less = net.binary(BinaryOp::Sub, timer, one)?;
    let down = net.choose(hold, less, zero)?;
    // Named, since a goal speaks of the value.
    let next = net.choose(start, full, down)?;
    Ok(next)
}

/// What a queue shows, and the line of what leaves.
#[derive(Drop)]
pub struct Paced {
    /// What the queue shows.
    pub queue: Queue,
    /// 1 where the oldest entry leaves.
    pub pop: Bit,
}

// Tells the lines that keep entries apart.
fn note_pace(net: &mut NetBuilder, timer: Bus, hold: Bit, pop: Bit) -> Result<(), Memory>
    ensures { net.new ≡ net.old }
{
    note_bus(net, b"wait", timer)?;
    note_bit(net, b"hold", hold)?;
    note_bit(net, b"take", pop)
}

/// A queue of `depth` places, from which an entry leaves at least `gap` cycles after the last one.
pub fn put_paced(
    alloc: Global,
    net: &mut NetBuilder,
    depth: u64,
    gap: u32,
    push: Bit,
    columns: &[Bus],
) -> Result<Paced, Memory>
    requires some_places { 1 ≤ depth }
    requires most { depth ≤ 2 ^ 32 }
    requires push { IsBit net.old push }
    requires columns { AreBuses net.old columns.now }
    ensures { IfOk result (IsPacedOf net.old net.new depth gap push columns.now) }
{
    let timer = net.register(32, Some(word(0, 32)))?;
    let hold = put_hold(net, timer)?;
    let queue = put_queue(alloc, net, depth, push, hold, columns)?;
    let pop = but_not(net, queue.some, hold)?;
    let next = put_countdown(net, timer, hold, pop, gap)?;
    net.drive(timer, next)?;
    note_pace(net, timer, hold, pop)?;
    Ok(Paced { queue, pop })
}
