//! Rows that wait two cycles for their slot, and whether a row has the key that stood one cycle
//! before it, or two.

ghost use Rattle.std.specs.Prelude.{◌≡◌, ◌<◌, IfOk, length};
ghost use Rattle.gl_net.specs.Net.{IsBit, IsBus};
ghost use Rattle.gl_wire.specs.Wire.{IsWire};
ghost use Rattle.gl_frames_map.specs.MapNets.{IsFarIn, IsNearIn, IsPassingIn, IsSameWithin};

use gl_bits::Memory;
use gl_net::{Bit, Bus, NetBuilder};
use gl_wire::{Wire, but_not, later, later_bit, later_wire, same};
use std::alloc::Global;

/// What asks for a slot: the row that came two cycles ago.
#[derive(Clone, Copy)]
pub struct Asked {
    /// 1 where there is such a row.
    pub valid: Bit,
    /// 1 where a stream ended with it.
    pub ends: Bit,
    /// The key of the row that comes now.
    pub here: Bus,
    /// The key of the row that asks.
    pub last: Bus,
    /// 1 where the same key stood one cycle before, and no stream ended since.
    pub near: Bit,
    /// 1 where it stood two cycles before, and no stream ended since.
    pub far: Bit,
}

/// Rows on their way to their slots.
#[derive(Drop)]
pub struct Passing {
    /// The source two cycles later.
    pub late: Wire,
    /// What asks for a slot.
    pub asked: Asked,
}

// A line that is 1 where two buses carry the same and no stream ends.
fn put_same(net: &mut NetBuilder, left: Bus, right: Bus, ends: Bit) -> Result<Bit, Memory>
    requires left { IsBus net.old left }
    requires right { IsBus net.old right }
    requires widths { left.width ≡ right.width }
    requires ends { IsBit net.old ends }
    ensures { IfOk result (IsSameWithin net.old net.new left right ends) }
{
    let equal = same(net, left, right)?;
    let within = but_not(net, equal, ends)?;
    Ok(within)
}

// Whether the next key is this one and no stream ends with this one, one cycle later.
fn put_near(net: &mut NetBuilder, next: Bus, last: Bus, ends: Bit) -> Result<Bit, Memory>
    requires next { IsBus net.old next }
    requires last { IsBus net.old last }
    requires widths { next.width ≡ last.width }
    requires ends { IsBit net.old ends }
    ensures { IfOk result (IsNearIn net.old net.new next last ends) }
{
    let within = put_same(net, next, last, ends)?;
    let near = later_bit(net, within)?;
    Ok(near)
}

// The same of the key before this one.
fn put_far(net: &mut NetBuilder, next: Bus, last: Bus, ends: Bit) -> Result<Bit, Memory>
    requires next { IsBus net.old next }
    requires last { IsBus net.old last }
    requires widths { next.width ≡ last.width }
    requires ends { IsBit net.old ends }
    ensures { IfOk result (IsFarIn net.old net.new next last ends) }
{
    let before = later(net, last)?;
    let ended = later_bit(net, ends)?;
    let within = put_same(net, next, before, ends)?;
    let again = but_not(net, within, ended)?;
    let far = later_bit(net, again)?;
    Ok(far)
}

/// The source two cycles later, and what asks for a slot then.
pub fn pass(
    alloc: Global,
    net: &mut NetBuilder,
    wire: &Wire,
    column: usize,
) -> Result<Passing, Memory>
    requires wire { IsWire net.old wire.now }
    requires column { column < length wire.now.columns }
    ensures { IfOk result (IsPassingIn net.old net.new wire.now column) }
{
    let here = wire.columns.as_slice()[column];
    let after = later_wire(alloc, net, wire)?;
    let next = after.columns.as_slice()[column];
    let late = later_wire(alloc, net, &after)?;
    let last = late.columns.as_slice()[column];
    let near = put_near(net, next, last, late.eos)?;
    let far = put_far(net, next, last, late.eos)?;
    let asked = Asked {
        valid: late.valid,
        ends: late.eos,
        here,
        last,
        near,
        far,
    };
    Ok(Passing { late, asked })
}
