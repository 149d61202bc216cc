//! The front and the back of windows of time, with what they owe over all beats and over one stream.

ghost use Rattle.gl_windows.specs.TimeRotations.{IsTimeRotation};
ghost use Rattle.gl_ticks.specs.Once.{root_machine};

use gl_bits::Memory;
use gl_net::NetBuilder;
use gl_windows::Ticked;
use gl_wire::Emitted;
use gl_wire_registers::{Front, OverCopies, join_all};
use std::alloc::Global;

/// Windows of time whose ticks may be farther apart than tuples, beside the line of their ticks.
#[derive(Clone, Copy)]
pub struct RootTicked {
    /// The windows and the line.
    pub ticked: Ticked,
}

impl OverCopies for RootTicked {
    ghost can_be = { λ t. IsTimeRotation t.ticked.rotation };

    ghost machine = { root_machine };

    fn front(&self, alloc: Global, net: &mut NetBuilder, source: Emitted) -> Result<Front, Memory> {
        let front = self.ticked.front(alloc, net, source)?;
        Ok(front)
    }

    fn back(
        &self,
        alloc: Global,
        net: &mut NetBuilder,
        front: &Front,
        copies: &[Emitted],
    ) -> Result<Emitted, Memory> {
        let whole = join_all(alloc, net, front.source.faults, front.close, copies)?;
        Ok(whole)
    }
}
