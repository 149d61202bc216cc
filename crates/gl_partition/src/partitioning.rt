//! Windows of each key in a netlist: the front before the copies of a body, and the back behind them.

ghost use Rattle.std.specs.Prelude.{◌≡◌};
ghost use Rattle.gl_partition.specs.Partitioned.{partitioning_machine};
ghost use Rattle.gl_partition.specs.Partitionings.{IsPartitioning, close_cycles};

use crate::front::{Numbers, put_front};
use crate::laws::partitionings_serve;
use crate::slot::Sizes;
use gl_algebra::Figures;
use gl_bits::Memory;
use gl_net::NetBuilder;
use gl_slots::homes::mark_bits;
use gl_slots::joins::join_all;
use gl_wire::Emitted;
use gl_wire_registers::{Front, OverCopies, close_line, stride};
use std::alloc::Global;

/// Windows of `size` rows of a key, one from each `advance`-th row of the key on, for the keys in one of a stream's columns, over copies
/// of a body for each key.
#[derive(Clone, Copy)]
pub struct Partitioning {
    /// The place of the key's column among the source's columns.
    pub key: usize,
    /// The keys that a stream can have.
    pub slots: u32,
    /// The rows of a window.
    pub size: u32,
    /// The rows of a key from the first one of a window to that of the next.
    pub advance: u32,
    /// The copies of each slot: as many as windows of a key can be open at once.
    pub copies: u32,
    /// The figures of the body, over the beats of a copy's own wire.
    pub body: Figures,
}

impl Partitioning {
    // The cycles that the timer of the line of ends runs.
    fn cycles(&self) -> u32
        requires { IsPartitioning self.now }
        ensures { result ≡ close_cycles self.now }
    {
        self.body.le + self.slots * self.copies * stride(&self.body) + 1
    }
}

impl OverCopies for Partitioning {
    ghost can_be = { IsPartitioning };

    ghost machine = { partitioning_machine };

    fn front(&self, alloc: Global, net: &mut NetBuilder, source: Emitted) -> Result<Front, Memory> {
        let cycles = self.cycles();
        let numbers = Numbers {
            key: self.key,
            slots: self.slots,
            sizes: Sizes {
                size: self.size,
                advance: self.advance,
                copies: self.copies,
            },
            stride: stride(&self.body),
            width: mark_bits(self.slots),
        };
        let front = put_front(alloc, net, &source.wire, numbers)?;
        let close = close_line(net, source.wire.eos, cycles, 0)?;
        Ok(Front {
            source,
            wires: front.wires,
            keys: front.keys,
            further: Some(front.further),
            close,
        })
    }

    fn back(
        &self,
        alloc: Global,
        net: &mut NetBuilder,
        front: &Front,
        copies: &[Emitted],
    ) -> Result<Emitted, Memory> {
        partitionings_serve();
        // Named, since a goal speaks of the value.
        let whole = join_all(alloc, net, front, copies)?;
        Ok(whole)
    }
}
