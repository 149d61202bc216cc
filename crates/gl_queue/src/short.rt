//! A queue of one place, in registers.

ghost use Rattle.std.specs.Prelude.{IfOk};
ghost use Rattle.gl_net.specs.Net.{IsBit};
ghost use Rattle.gl_wire.specs.Wire.{AreBuses};
ghost use Rattle.gl_queue.specs.Queues.{IsQueueOf};

use crate::joiner::put_row;
use crate::queue::{Queue, note_queue};
use crate::ring::word;
use gl_bits::Memory;
use gl_net::{Bit, Bus, NetBuilder};
use gl_wire::{both, either};
use std::alloc::Global;

/// A queue of one place: a flag, and a register for each column, which takes what comes. Its entry leaves wherever the line `hold` is 0.
pub fn put_single(
    alloc: Global,
    net: &mut NetBuilder,
    push: Bit,
    hold: Bit,
    columns: &[Bus],
) -> Result<Queue, Memory>
    requires push { IsBit net.old push }
    requires hold { IsBit net.old hold }
    requires columns { AreBuses net.old columns.now }
    ensures { IfOk result (IsQueueOf net.old net.new 1 push hold columns.now) }
{
    let columns = put_row(alloc, net, push, columns)?;
    let flag = net.register(1, Some(word(0, 1)))?;
    let some = flag.bit();
    let stays = both(net, some, hold)?;
    let next = either(net, push, stays)?;
    let passed = both(net, push, stays)?;
    net.drive(flag, next.bus())?;
    let queue = Queue {
        some,
        columns,
        passed,
    };
    note_queue(net, &queue)?;
    Ok(queue)
}
