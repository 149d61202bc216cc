//! Machines over copies of a body: a front, a circuit of the body behind each of its wires, and a back.

ghost use Rattle.std.specs.Prelude.{◌≡◌, IfOk, length};
ghost use Rattle.gl_wire.specs.Faults.{AreLines, IsLine};
ghost use Rattle.gl_wire.specs.Wire.{IsWire, widths};
ghost use Rattle.gl_wire_registers.specs.Fronts.{Fronts, HasColumn, IsBacked, IsFronted, Machine};
ghost use Rattle.gl_wire_registers.specs.Joins.{AreCopies};

use crate::front::Front;
use gl_bits::Memory;
use gl_net::NetBuilder;
use gl_wire::Emitted;
use std::alloc::Global;

/// A machine over copies of a body. It tells each copy its rows and its ends, and joins what the copies give.
pub trait OverCopies {
    /// A circuit can have its numbers.
    ghost can_be: { Self → Type 0 };

    /// What its front and its back promise.
    ghost machine: { Self → Machine };

    /// The front behind a source: a wire for each copy, and the line of ends for the back.
    fn front(&self, alloc: Global, net: &mut NetBuilder, source: Emitted) -> Result<Front, Memory>
        requires numbers { can_be self.now }
        requires wire { IsWire net.old source.wire }
        requires lines { AreLines net.old source.faults }
        requires key { HasColumn (machine self.now).key (widths source.wire.columns) }
        requires tick { IsLine net.old (machine self.now).tick }
        ensures { IfOk result (IsFronted net.old net.new (machine self.now) source) };

    /// The back behind the copies: what they give on one wire, with all lines. Wherever each copy serves a body, the whole serves what
    /// the machine makes of it.
    fn back(
        &self,
        alloc: Global,
        net: &mut NetBuilder,
        front: &Front,
        copies: &[Emitted],
    ) -> Result<Emitted, Memory>
        requires numbers { can_be self.now }
        requires front { Fronts net.old (machine self.now) front.now }
        requires copies { AreCopies net.old copies.now }
        requires count { length copies.now ≡ (machine self.now).count }
        ensures { IfOk result (IsBacked net.old net.new (machine self.now) front.now copies.now) };
}
