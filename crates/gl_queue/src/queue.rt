//! A queue of rows.

ghost use Rattle.std.specs.Prelude.{◌≡◌, ◌≤◌, ◌^◌, IfOk};
ghost use Rattle.gl_net.specs.Net.{IsBit, IsAddressWidth};
ghost use Rattle.gl_wire.specs.Wire.{AreBuses};
ghost use Rattle.gl_queue.specs.Costs.{address_bits};
ghost use Rattle.gl_queue.specs.Queues.{IsQueueOf};

use crate::ring::{put_columns, put_passed, put_places};
use crate::short::put_single;
use gl_bits::Memory;
use gl_net::{Bit, Bus, Buses, NetBuilder};
use gl_wire::{least_exponent, note_bit, note_buses};
use std::alloc::Global;

/// What a queue shows: whether it has an entry, the oldest one's columns, and whether its places are passed.
#[derive(Drop)]
pub struct Queue {
    /// 1 where an entry is there.
    pub some: Bit,
    /// The columns of the oldest.
    pub columns: Buses,
    /// 1 where a push comes, all places are taken, and no entry leaves.
    pub passed: Bit,
}

/// The bits of an address in the memories of a queue with `depth` places.
pub fn address_bits(depth: u64) -> u8
    requires { depth ≤ 2 ^ 32 }
    ensures value { result ≡ address_bits depth }
    ensures bits { IsAddressWidth result }
    ensures enough { depth ≤ 2 ^ result }
{
    least_exponent(depth, 1, depth)
}

/// Tells what a queue shows.
pub(crate) fn note_queue(net: &mut NetBuilder, queue: &Queue) -> Result<(), Memory>
    ensures { net.new ≡ net.old }
{
    note_bit(net, b"some", queue.some)?;
    note_buses(net, b"entry", queue.columns.as_slice())?;
    note_bit(net, b"passed", queue.passed)
}

// A ring of `depth` places.
fn put_ring(
    alloc: Global,
    net: &mut NetBuilder,
    depth: u64,
    push: Bit,
    hold: Bit,
    columns: &[Bus],
) -> Result<Queue, Memory>
    requires more_than_one { 2 ≤ depth }
    requires most { depth ≤ 2 ^ 32 }
    requires push { IsBit net.old push }
    requires hold { IsBit net.old hold }
    requires columns { AreBuses net.old columns.now }
    ensures { IfOk result (IsQueueOf net.old net.new depth push hold columns.now) }
{
    let bits = address_bits(depth);
    let at = put_places(net, bits, push, hold)?;
    let passed = put_passed(net, bits, depth, push, at)?;
    let columns = put_columns(alloc, net, bits, push, at, columns)?;
    let queue = Queue {
        some: at.some,
        columns,
        passed,
    };
    note_queue(net, &queue)?;
    Ok(queue)
}

/// A queue of `depth` places, from which the oldest entry leaves wherever the line `hold` is 0. One place stands in registers, more are a ring.
pub fn put_queue(
    alloc: Global,
    net: &mut NetBuilder,
    depth: u64,
    push: Bit,
    hold: Bit,
    columns: &[Bus],
) -> Result<Queue, Memory>
    requires some_places { 1 ≤ depth }
    requires most { depth ≤ 2 ^ 32 }
    requires push { IsBit net.old push }
    requires hold { IsBit net.old hold }
    requires columns { AreBuses net.old columns.now }
    ensures { IfOk result (IsQueueOf net.old net.new depth push hold columns.now) }
{
    // Named, since goals speak of the values.
    if depth == 1 {
        let single = put_single(alloc, net, push, hold, columns)?;
        Ok(single)
    } else {
        let ring = put_ring(alloc, net, depth, push, hold, columns)?;
        Ok(ring)
    }
}
