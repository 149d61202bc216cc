//! Windows by rotation: the front before the copies of a body, and the back behind them.

ghost use Rattle.std.specs.Prelude.{◌≡◌};
ghost use Rattle.gl_wire.specs.Rotates.{flush_of};
ghost use Rattle.gl_windows.specs.Rotations.{IsRotation, rotation_machine};

use crate::front::{Numbers, put_front};
use crate::laws::rotations_serve;
use gl_algebra::Figures;
use gl_bits::Memory;
use gl_net::{Buses, NetBuilder};
use gl_wire::Emitted;
use gl_wire_registers::{Front, OverCopies, close_line, join_all, stride};
use std::alloc::Global;

/// Windows of `size` rows, one from each `advance`-th row on, over copies of a body.
#[derive(Clone, Copy)]
pub struct Rotation {
    /// The rows of a window.
    pub size: u32,
    /// The rows from the first one of a window to that of the next.
    pub advance: u32,
    /// The copies: as many as windows can be open at once.
    pub copies: u32,
    /// The figures of the body, over the beats of a copy's own wire.
    pub body: Figures,
}

impl Rotation {
    // The cycles of a flush.
    fn flush(&self) -> u32
        requires { IsRotation self.now }
        ensures { result ≡ flush_of self.now.copies self.now.body }
    {
        self.copies * stride(&self.body)
    }
}

impl OverCopies for Rotation {
    ghost can_be = { IsRotation };

    ghost machine = { rotation_machine };

    fn front(&self, alloc: Global, net: &mut NetBuilder, source: Emitted) -> Result<Front, Memory> {
        let numbers = Numbers {
            size: self.size,
            advance: self.advance,
            copies: self.copies,
            stride: stride(&self.body),
        };
        let flush = self.flush();
        let wires = put_front(alloc, net, &source.wire, numbers)?;
        let close = close_line(net, source.wire.eos, flush, self.body.a)?;
        Ok(Front {
            source,
            wires,
            keys: Buses::new(alloc),
            further: None,
            close,
        })
    }

    fn back(
        &self,
        alloc: Global,
        net: &mut NetBuilder,
        front: &Front,
        copies: &[Emitted],
    ) -> Result<Emitted, Memory> {
        rotations_serve();
        // Named, since a goal speaks of the value.
        let whole = join_all(alloc, net, front.source.faults, front.close, copies)?;
        Ok(whole)
    }
}
