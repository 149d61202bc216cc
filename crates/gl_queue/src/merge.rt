//! Two wires merged through queues.

ghost use Rattle.std.specs.Prelude.{◌≡◌, ◌≤◌, ◌^◌, IfOk};
ghost use Rattle.gl_net.specs.Net.{IsBit};
ghost use Rattle.gl_wire.specs.Wire.{AreBuses, IsWire, widths};
ghost use Rattle.gl_queue.specs.MergeLines.{AreChosenOf, IsEndOf, IsMergedOf};
ghost use Rattle.gl_queue.specs.Queues.{IsQueueOf};

use crate::joiner::note_ends;
use crate::queue::{Queue, put_queue};
use crate::ring::word;
use gl_bits::Memory;
use gl_net::{Bit, Bus, Buses, NetBuilder};
use gl_wire::{Wire, both, but_not, either};
use std::alloc::Global;

/// The columns of one list where a line is 1, else those of another.
pub fn choose_all(
    alloc: Global,
    net: &mut NetBuilder,
    test: Bit,
    yes: &[Bus],
    no: &[Bus],
) -> Result<Buses, Memory>
    requires test { IsBit net.old test }
    requires yes { AreBuses net.old yes.now }
    requires no { AreBuses net.old no.now }
    requires widths { widths yes.now ≡ widths no.now }
    ensures { IfOk result (AreChosenOf net.old net.new test yes.now no.now) }
{
    let mut all = Buses::new(alloc);
    for i in 0..yes.len() {
        let bus = net.choose(test, yes[i], no[i])?;
        all.push(bus)?;
    }
    Ok(all)
}

/// The end of a union: in the first cycle after both ends in which neither queue has an entry.
pub fn put_end(
    net: &mut NetBuilder,
    left_end: Bit,
    right_end: Bit,
    left_some: Bit,
    right_some: Bit,
) -> Result<Bit, Memory>
    requires left_end { IsBit net.old left_end }
    requires right_end { IsBit net.old right_end }
    requires left_some { IsBit net.old left_some }
    requires right_some { IsBit net.old right_some }
    ensures { IfOk result (IsEndOf net.old net.new left_end right_end left_some right_some) }
{
    let left = net.register(1, Some(word(0, 1)))?;
    let right = net.register(1, Some(word(0, 1)))?;
    let left_waits = left.bit();
    let right_waits = right.bit();
    let ended = both(net, left_waits, right_waits)?;
    let left_empty = but_not(net, ended, left_some)?;
    let end = but_not(net, left_empty, right_some)?;
    let right_stays = but_not(net, right_waits, end)?;
    let right_next = either(net, right_end, right_stays)?;
    net.drive(right, right_next.bus())?;
    let left_stays = but_not(net, left_waits, end)?;
    let left_next = either(net, left_end, left_stays)?;
    net.drive(left, left_next.bus())?;
    note_ends(net, left_waits, right_waits, end)?;
    Ok(end)
}

// A queue of `depth` places for the rows of a wire.
fn put_rows(
    alloc: Global,
    net: &mut NetBuilder,
    wire: &Wire,
    depth: u64,
    hold: Bit,
) -> Result<Queue, Memory>
    requires wire { IsWire net.old wire.now }
    requires some_places { 1 ≤ depth }
    requires most { depth ≤ 2 ^ 32 }
    requires hold { IsBit net.old hold }
    ensures { IfOk result (IsQueueOf net.old net.new depth wire.now.valid hold wire.now.columns) }
{
    // Named, since a goal speaks of the value.
    let queue = put_queue(alloc, net, depth, wire.valid, hold, wire.columns.as_slice())?;
    Ok(queue)
}

/// A wire that carries the rows of both, and a line that is 1 where either queue is passed.
#[derive(Drop)]
pub struct Merged {
    /// The rows of both, and the end behind them.
    pub wire: Wire,
    /// 1 where either queue is passed.
    pub passed: Bit,
}

/// Two wires merged through queues of `left_depth` and `right_depth` places, the left one first.
pub fn put_merged(
    alloc: Global,
    net: &mut NetBuilder,
    left: &Wire,
    left_depth: u64,
    right: &Wire,
    right_depth: u64,
) -> Result<Merged, Memory>
    requires left { IsWire net.old left.now }
    requires right { IsWire net.old right.now }
    requires widths { widths left.now.columns ≡ widths right.now.columns }
    requires left_some { 1 ≤ left_depth }
    requires left_most { left_depth ≤ 2 ^ 32 }
    requires right_some { 1 ≤ right_depth }
    requires right_most { right_depth ≤ 2 ^ 32 }
    ensures { IfOk result (IsMergedOf net.old net.new left_depth right_depth left.now right.now) }
{
    let never = net.constant(word(0, 1))?;
    let hold = never.bit();
    let first = put_rows(alloc, net, left, left_depth, hold)?;
    let right_hold = first.some;
    let second = put_rows(alloc, net, right, right_depth, right_hold)?;
    let valid = either(net, first.some, second.some)?;
    let columns = choose_all(
        alloc,
        net,
        first.some,
        first.columns.as_slice(),
        second.columns.as_slice(),
    )?;
    let eos = put_end(net, left.eos, right.eos, first.some, second.some)?;
    let passed = either(net, first.passed, second.passed)?;
    let wire = Wire {
        valid,
        eos,
        columns,
    };
    Ok(Merged { wire, passed })
}
