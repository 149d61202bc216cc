//! Windows with spare copies: the front with late ends before the copies of a body, and the back behind them.

ghost use Rattle.std.specs.Prelude.{◌≡◌};
ghost use Rattle.gl_wire.specs.Rotates.{flush_of};
ghost use Rattle.gl_spare.specs.Rotations.{IsRotation, spare_machine, turns_in};

use crate::late::late_wire;
use gl_algebra::Figures;
use gl_algebra::table::copies_of_window;
use gl_bits::Memory;
use gl_figures::Spare;
use gl_net::{Buses, NetBuilder};
use gl_windows::front::{Numbers, put_front};
use gl_wire::Emitted;
use gl_wire_registers::{Front, OverCopies, close_line, join_all, stride};
use std::alloc::Global;

/// Windows of `size` rows, one from each `advance`-th row on, over more copies of a body than can be open at once.
#[derive(Clone, Copy)]
pub struct SpareRotation {
    /// The rows of a window.
    pub size: u32,
    /// The rows from the first one of a window to that of the next.
    pub advance: u32,
    /// The figures of the body, over the beats of a copy's own wire.
    pub body: Figures,
    /// The copies, the gap of the beats, and how late ends come.
    pub spare: Spare,
}

impl SpareRotation {
    // The cycles of a flush.
    fn flush(&self) -> u32
        requires { IsRotation self.now }
        ensures { result ≡ flush_of (turns_in self.now) self.now.body }
    {
        copies_of_window(self.size, self.advance) * stride(&self.body)
    }
}

impl OverCopies for SpareRotation {
    ghost can_be = { IsRotation };

    ghost machine = { spare_machine };

    fn front(&self, alloc: Global, net: &mut NetBuilder, source: Emitted) -> Result<Front, Memory> {
        let numbers = Numbers {
            size: self.size,
            advance: self.advance,
            copies: self.spare.copies,
            stride: stride(&self.body),
        };
        let flush = self.flush();
        let late = late_wire(alloc, net, &source.wire, self.spare.shift)?;
        let wires = put_front(alloc, net, &late, numbers)?;
        let close = close_line(net, late.eos, flush, self.body.a)?;
        Ok(Front {
            source,
            wires,
            keys: Buses::new(alloc),
            further: None,
            close,
        })
    }

    fn back(
        &self,
        alloc: Global,
        net: &mut NetBuilder,
        front: &Front,
        copies: &[Emitted],
    ) -> Result<Emitted, Memory> {
        let whole = join_all(alloc, net, front.source.faults, front.close, copies)?;
        Ok(whole)
    }
}
