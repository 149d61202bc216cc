//! Groups in a netlist: the front before the copies of a body, and the back behind them.

ghost use Rattle.std.specs.Prelude.{◌≡◌};
ghost use Rattle.gl_groups.specs.Grouped.{grouping_machine};
ghost use Rattle.gl_groups.specs.Groupings.{IsGrouping, close_cycles};

use crate::laws::groupings_serve;
use gl_algebra::Figures;
use gl_bits::Memory;
use gl_net::NetBuilder;
use gl_slots::front::{Numbers, put_front};
use gl_slots::homes::mark_bits;
use gl_slots::joins::join_all;
use gl_wire::Emitted;
use gl_wire_registers::{Front, OverCopies, close_line, stride};
use std::alloc::Global;

/// Groups of a stream's rows by the key in one of its columns, over a copy of a body for each group.
#[derive(Clone, Copy)]
pub struct Grouping {
    /// The place of the key's column among the source's columns.
    pub key: usize,
    /// The groups that a stream can have.
    pub slots: u32,
    /// The figures of the body, over the beats of a copy's own wire.
    pub body: Figures,
}

impl Grouping {
    // The cycles that the timer of the line of ends runs.
    pub(crate) fn cycles(&self) -> u32
        requires { IsGrouping self.now }
        ensures { result ≡ close_cycles self.now }
    {
        self.body.le + (self.slots - 1) * stride(&self.body) + 1
    }
}

impl OverCopies for Grouping {
    ghost can_be = { IsGrouping };

    ghost machine = { grouping_machine };

    fn front(&self, alloc: Global, net: &mut NetBuilder, source: Emitted) -> Result<Front, Memory> {
        let cycles = self.cycles();
        let numbers = Numbers {
            key: self.key,
            slots: self.slots,
            stride: stride(&self.body),
            width: mark_bits(self.slots),
        };
        let front = put_front(alloc, net, &source.wire, numbers)?;
        let close = close_line(net, source.wire.eos, cycles, 0)?;
        Ok(Front {
            source,
            wires: front.wires,
            keys: front.keys,
            further: Some(front.further),
            close,
        })
    }

    fn back(
        &self,
        alloc: Global,
        net: &mut NetBuilder,
        front: &Front,
        copies: &[Emitted],
    ) -> Result<Emitted, Memory> {
        groupings_serve();
        // Named, since a goal speaks of the value.
        let whole = join_all(alloc, net, front, copies)?;
        Ok(whole)
    }
}
