//! A front: what stands before the copies of a body.

ghost use Rattle.std.specs.Prelude.{◌≡◌};
ghost use Rattle.gl_algebra.specs.FigureTable.{IsSound, stride_of};

use crate::rows::Wires;
use gl_algebra::Figures;
use gl_net::{Bit, Buses};
use gl_wire::Emitted;

/// A front behind its source.
#[derive(Drop)]
pub struct Front {
    /// What stands before the front.
    pub source: Emitted,
    /// For each copy the wire of its input.
    pub wires: Wires,
    /// For each copy its key, where copies have keys, and else nothing.
    pub keys: Buses,
    /// 1 one cycle after a row of a further key, where copies have keys.
    pub further: Option<Bit>,
    /// The ends of the whole, one cycle before the back gives them.
    pub close: Bit,
}

/// What a front looks at in a cycle.
#[derive(Clone, Copy, PartialEq, Eq, Debug)]
pub struct Arrival {
    /// 1 with a tuple.
    pub valid: Bit,
    /// 1 with an end.
    pub eos: Bit,
    /// 1 where the copy that ends takes the row that came last.
    pub tail: Bit,
}

/// The cycles from one copy's turn to the next one's.
pub fn stride(body: &Figures) -> u32
    requires { IsSound body.now }
    ensures { result ≡ stride_of body.now }
{
    body.le - body.a + 1
}
