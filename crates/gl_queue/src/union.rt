//! The union of two streams.

ghost use Rattle.std.specs.Prelude.{◌≡◌, IfOk};
ghost use Rattle.gl_algebra.specs.FigureTable.{AreSmall, IsSound, union_figures};
ghost use Rattle.gl_wire.specs.Faults.{AreLines};
ghost use Rattle.gl_wire.specs.Wire.{IsWire, widths};
ghost use Rattle.gl_queue.specs.Unions.{IsUnionOf};

use crate::laws::union_serves;
use crate::merge::put_merged;
use gl_algebra::{Figures, table};
use gl_bits::Memory;
use gl_net::NetBuilder;
use gl_wire::{Emitted, Faults, both_faults, either_line, pad};
use std::alloc::Global;

/// The rows of two streams in one: those of each in their order, a left one first where both wait, and one end behind all of them.
#[derive(Clone, Copy)]
pub struct UnionOf {
    /// The figures of the left side.
    pub left: Figures,
    /// The figures of the right side.
    pub right: Figures,
}

impl UnionOf {
    /// The figures of the rows of both.
    pub fn figures(&self) -> Figures
        requires { AreSmall (union_figures self.now.left self.now.right) }
        ensures value { result ≡ union_figures self.now.left self.now.right }
        ensures sound { IsSound self.now.left → IsSound self.now.right → IsSound result }
    {
        table::union_figures(&self.left, &self.right).unwrap()
    }

    /// Adds the union behind its sides, of which the faster one waits for the other, and gives what comes out.
    pub fn emit(
        &self,
        alloc: Global,
        net: &mut NetBuilder,
        left: Emitted,
        right: Emitted,
    ) -> Result<Emitted, Memory>
        requires sound_left { IsSound self.now.left }
        requires sound_right { IsSound self.now.right }
        requires left { IsWire net.old left.wire }
        requires right { IsWire net.old right.wire }
        requires left_lines { AreLines net.old left.faults }
        requires right_lines { AreLines net.old right.faults }
        requires widths { widths left.wire.columns ≡ widths right.wire.columns }
        ensures { IfOk result (IsUnionOf net.old net.new self.now.left self.now.right left right) }
    {
        union_serves();
        let wait = table::wait_of(&self.left, &self.right);
        let first = pad(alloc, net, &left.wire, wait)?;
        let wait = table::wait_of(&self.right, &self.left);
        let second = pad(alloc, net, &right.wire, wait)?;
        let merged = put_merged(
            alloc,
            net,
            &first,
            self.left.ne as u64,
            &second,
            self.right.ne as u64,
        )?;
        let sides = both_faults(net, left.faults, right.faults)?;
        let passed = either_line(net, sides.passed, Some(merged.passed))?;
        Ok(Emitted {
            wire: merged.wire,
            faults: Faults {
                passed,
                further: sides.further,
            },
        })
    }
}
