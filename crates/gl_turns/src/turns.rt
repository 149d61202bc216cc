//! The block of turns.

ghost use Rattle.std.specs.Prelude.{◌≡◌, IfOk};
ghost use Rattle.gl_algebra.specs.FigureTable.{AreSmall, IsSound};
ghost use Rattle.gl_wire.specs.Faults.{AreLines};
ghost use Rattle.gl_wire.specs.Wire.{IsWire, widths};
ghost use Rattle.gl_turns.specs.Blocks.{AreTurnsOf};
ghost use Rattle.gl_turns.specs.TurnFigures.{left_wait, right_wait, turn_figures};
ghost use Rattle.gl_turns.specs.TurnLines.{IsTurnOf};

use crate::laws::turns_serve;
use gl_algebra::Figures;
use gl_bits::Memory;
use gl_net::NetBuilder;
use gl_queue::merge::choose_all;
use gl_wire::{Emitted, Wire, both_faults, either, pad, stage};
use std::alloc::Global;

/// In each cycle the left row of the one before, else the right one, and the right side's end.
pub fn put_turn(
    alloc: Global,
    net: &mut NetBuilder,
    left: &Wire,
    right: &Wire,
) -> Result<Wire, Memory>
    requires left { IsWire net.old left.now }
    requires right { IsWire net.old right.now }
    requires widths { widths left.now.columns ≡ widths right.now.columns }
    ensures { IfOk result (IsTurnOf net.old net.new left.now right.now) }
{
    let valid = either(net, left.valid, right.valid)?;
    let columns = choose_all(
        alloc,
        net,
        left.valid,
        left.columns.as_slice(),
        right.columns.as_slice(),
    )?;
    // Named, since a goal speaks of the value.
    let wire = stage(alloc, net, valid, right.eos, columns.as_slice())?;
    Ok(wire)
}

/// The rows of two streams in the order of the beats that brought them, of one beat the left row first.
#[derive(Clone, Copy)]
pub struct Turns {
    /// The figures of the left side.
    pub left: Figures,
    /// The figures of the right side.
    pub right: Figures,
}

impl Turns {
    // The cycles by which the left side waits.
    fn left_wait(&self) -> u32
        ensures { result ≡ left_wait self.now.left self.now.right }
    {
        self.right.a.saturating_sub(self.left.le).saturating_sub(1)
    }

    // The cycles by which the right side waits.
    fn right_wait(&self) -> u32
        requires sound { IsSound self.now.right }
        requires small { AreSmall (turn_figures self.now.left self.now.right) }
        ensures { result ≡ right_wait self.now.left self.now.right }
    {
        (self.left.le + 1).saturating_sub(self.right.a)
    }

    /// The figures of the rows of both.
    pub fn figures(&self) -> Figures
        requires left { IsSound self.now.left }
        requires right { IsSound self.now.right }
        requires small { AreSmall (turn_figures self.now.left self.now.right) }
        ensures value { result ≡ turn_figures self.now.left self.now.right }
        ensures sound { IsSound result }
    {
        let wait = self.right_wait();
        let a = self.left.a + self.left_wait() + 1;
        let lt = self.right.lt + wait + 1;
        let le = self.right.le + wait + 1;
        Figures {
            a,
            lt,
            le,
            nt: self.left.nt + self.right.nt,
            ne: self.left.ne + self.right.ne,
            gt: self.left.gt.max(self.right.gt).max(lt - a + 1),
            ge: self.left.ge.max(self.right.ge).max(le - a + 1),
        }
    }

    /// Adds the block behind its sides, of which one waits until they take turns, and gives what comes out.
    pub fn emit(
        &self,
        alloc: Global,
        net: &mut NetBuilder,
        left: Emitted,
        right: Emitted,
    ) -> Result<Emitted, Memory>
        requires sound_left { IsSound self.now.left }
        requires sound_right { IsSound self.now.right }
        requires small { AreSmall (turn_figures self.now.left self.now.right) }
        requires left { IsWire net.old left.wire }
        requires right { IsWire net.old right.wire }
        requires left_lines { AreLines net.old left.faults }
        requires right_lines { AreLines net.old right.faults }
        requires widths { widths left.wire.columns ≡ widths right.wire.columns }
        ensures { IfOk result (AreTurnsOf net.old net.new self.now.left self.now.right left right) }
    {
        turns_serve();
        let before = self.left_wait();
        let first = pad(alloc, net, &left.wire, before)?;
        let behind = self.right_wait();
        let second = pad(alloc, net, &right.wire, behind)?;
        let wire = put_turn(alloc, net, &first, &second)?;
        let faults = both_faults(net, left.faults, right.faults)?;
        Ok(Emitted { wire, faults })
    }
}
