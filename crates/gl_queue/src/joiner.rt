//! The joiner of two streams.

ghost use Rattle.std.specs.Prelude.{◌≡◌, ◌++◌, ◌&&◌, IfOk};
ghost use Rattle.gl_algebra.specs.FigureTable.{AreSmall, IsSound, beside_figures, is_fixed};
ghost use Rattle.gl_net.specs.Net.{IsBit, IsBus};
ghost use Rattle.gl_wire.specs.Faults.{AreLines};
ghost use Rattle.gl_wire.specs.Wire.{AreBuses, IsWire, wire_of};
ghost use Rattle.gl_queue.specs.JoinLines.{AreKept, AreSides, AreWaitingOf, IsJoinedOf, IsKept};
ghost use Rattle.gl_queue.specs.Joiners.{IsJoinerOf};

use crate::laws::joiner_serves;
use crate::ring::word;
use gl_algebra::{Figures, table};
use gl_bits::Memory;
use gl_net::{Bit, Bus, Buses, NetBuilder};
use gl_wire::laws::followers_keep_pace;
use gl_wire::{
    Emitted, Wire, both, both_faults, but_not, either, note_bit, note_buses, pad, stage,
};
use std::alloc::Global;

// The columns of both.
fn all_columns(left: Buses, right: &[Bus]) -> Result<Buses, Memory>
    ensures { IfOk result (λ all. all ≡ left ++ right.now) }
{
    let mut columns = left.into_vec();
    match columns.extend_from_slice(right) {
        Ok(()) => Ok(Buses::from_vec(columns)),
        Err(_) => Err(Memory),
    }
}

// The columns of both under the lines of the left side.
fn beside(left: Wire, right: &[Bus]) -> Result<Wire, Memory>
    ensures { IfOk result (λ w. w ≡ wire_of left.valid left.eos (left.columns ++ right.now)) }
{
    let Wire {
        valid,
        eos,
        columns,
    } = left;
    let columns = all_columns(columns, right)?;
    Ok(Wire {
        valid,
        eos,
        columns,
    })
}

/// A register that takes a column where a line is 1, and else stays.
pub fn put_kept(net: &mut NetBuilder, valid: Bit, column: Bus) -> Result<Bus, Memory>
    requires valid { IsBit net.old valid }
    requires column { IsBus net.old column }
    ensures { IfOk result (IsKept net.old net.new valid column) }
{
    let register = net.register(column.width, None)?;
    let next = net.choose(valid, column, register)?;
    net.drive(register, next)?;
    Ok(register)
}

/// The same for each of some columns.
pub fn put_row(
    alloc: Global,
    net: &mut NetBuilder,
    valid: Bit,
    columns: &[Bus],
) -> Result<Buses, Memory>
    requires valid { IsBit net.old valid }
    requires columns { AreBuses net.old columns.now }
    ensures { IfOk result (AreKept net.old net.new valid columns.now) }
{
    let mut all = Buses::new(alloc);
    for bus in columns {
        let kept = put_kept(net, valid, *bus)?;
        all.push(kept)?;
    }
    note_buses(net, b"row", all.as_slice())?;
    Ok(all)
}

/// Tells which sides have ended, and that both have.
pub(crate) fn note_ends(net: &mut NetBuilder, left: Bit, right: Bit, end: Bit) -> Result<(), Memory>
    ensures { net.new ≡ net.old }
{
    note_bit(net, b"left", left)?;
    note_bit(net, b"right", right)?;
    note_bit(net, b"end", end)
}

/// A line that is 1 in the first cycle after both ends have come.
pub fn put_waiting(net: &mut NetBuilder, left_end: Bit, right_end: Bit) -> Result<Bit, Memory>
    requires left_end { IsBit net.old left_end }
    requires right_end { IsBit net.old right_end }
    ensures { IfOk result (AreWaitingOf net.old net.new left_end right_end) }
{
    let left = net.register(1, Some(word(0, 1)))?;
    let right = net.register(1, Some(word(0, 1)))?;
    let left_waits = left.bit();
    let right_waits = right.bit();
    let now = both(net, left_waits, right_waits)?;
    let right_stays = but_not(net, right_waits, now)?;
    let right_next = either(net, right_end, right_stays)?;
    net.drive(right, right_next.bus())?;
    let left_stays = but_not(net, left_waits, now)?;
    let left_next = either(net, left_end, left_stays)?;
    net.drive(left, left_next.bus())?;
    note_ends(net, left_waits, right_waits, now)?;
    Ok(now)
}

/// The rows of two sides that bring one with each end, side by side.
pub fn put_joined(
    alloc: Global,
    net: &mut NetBuilder,
    left: &Wire,
    right: &Wire,
) -> Result<Wire, Memory>
    requires left { IsWire net.old left.now }
    requires right { IsWire net.old right.now }
    ensures { IfOk result (IsJoinedOf net.old net.new left.now right.now) }
{
    let now = put_waiting(net, left.eos, right.eos)?;
    let first = put_row(alloc, net, left.valid, left.columns.as_slice())?;
    let second = put_row(alloc, net, right.valid, right.columns.as_slice())?;
    let columns = all_columns(first, second.as_slice())?;
    // Named, since a goal speaks of the value.
    let wire = stage(alloc, net, now, now, columns.as_slice())?;
    Ok(wire)
}

/// Two sides that begin together, side by side: in the same cycle where both come in step, else once both rows are there.
pub fn put_sides(
    alloc: Global,
    net: &mut NetBuilder,
    left: Wire,
    right: Wire,
    in_step: bool,
) -> Result<Wire, Memory>
    requires left { IsWire net.old left }
    requires right { IsWire net.old right }
    ensures { IfOk result (AreSides net.old net.new in_step left right) }
{
    if in_step {
        let side_by_side = beside(left, right.columns.as_slice())?;
        Ok(side_by_side)
    } else {
        let joined = put_joined(alloc, net, &left, &right)?;
        Ok(joined)
    }
}

// Whether tuples come a fixed time after their beats.
fn is_fixed(figures: &Figures) -> bool
    ensures { result ≡ is_fixed figures.now }
{
    figures.a == figures.lt && figures.lt == figures.le
}

// Whether tuples of both sides do.
fn both_fixed(left: &Figures, right: &Figures) -> bool
    ensures { result ≡ (is_fixed left.now && is_fixed right.now) }
{
    is_fixed(left) && is_fixed(right)
}

/// The rows of two streams side by side.
#[derive(Clone, Copy)]
pub struct Joiner {
    /// The figures of the left side.
    pub left: Figures,
    /// The figures of the right side.
    pub right: Figures,
}

impl Joiner {
    /// The figures of the rows side by side.
    pub fn figures(&self) -> Figures
        requires { AreSmall (beside_figures self.now.left self.now.right) }
        ensures value { result ≡ beside_figures self.now.left self.now.right }
        ensures sound { IsSound self.now.left → IsSound self.now.right → IsSound result }
    {
        table::beside_figures(&self.left, &self.right).unwrap()
    }

    /// Adds the joiner behind its sides, of which the faster one waits for the other, and gives what comes out.
    pub fn emit(
        &self,
        alloc: Global,
        net: &mut NetBuilder,
        left: Emitted,
        right: Emitted,
    ) -> Result<Emitted, Memory>
        requires sound_left { IsSound self.now.left }
        requires sound_right { IsSound self.now.right }
        requires left { IsWire net.old left.wire }
        requires right { IsWire net.old right.wire }
        requires left_lines { AreLines net.old left.faults }
        requires right_lines { AreLines net.old right.faults }
        ensures { IfOk result (IsJoinerOf net.old net.new self.now.left self.now.right left right) }
    {
        joiner_serves();
        followers_keep_pace();
        let wait = table::wait_of(&self.left, &self.right);
        let first = pad(alloc, net, &left.wire, wait)?;
        let wait = table::wait_of(&self.right, &self.left);
        let second = pad(alloc, net, &right.wire, wait)?;
        let in_step = both_fixed(&self.left, &self.right);
        let wire = put_sides(alloc, net, first, second, in_step)?;
        let faults = both_faults(net, left.faults, right.faults)?;
        Ok(Emitted { wire, faults })
    }
}
