//! The value so many rows before, of streams one after another.

ghost use Rattle.std.specs.Prelude.{◌≡◌, ◌+◌, IfOk};
ghost use Rattle.gl_net.specs.Net.{IsBit, IsBus};
ghost use Rattle.gl_frames_wire.specs.LagNets.{IsLagIn, IsManyIn, IsToldIn};
ghost use Rattle.gl_frames_wire.specs.Reaches.{IsReach};

use crate::count::put_count;
use crate::reach::{Reach, many_word, word};
use crate::ring::put_ring;
use gl_bits::Memory;
use gl_net::{BinaryOp, Bit, Bus, NetBuilder};
use gl_wire::note_bus;

// Whether a count is at least so many.
fn put_many(net: &mut NetBuilder, count: Bus, reach: Reach) -> Result<Bit, Memory>
    requires count { IsBus net.old count }
    requires reach { IsReach reach }
    requires width { count.width ≡ reach.bits + 1 }
    ensures { IfOk result (IsManyIn net.old net.new count reach) }
{
    let least = net.constant(many_word(reach))?;
    let there = net.binary(BinaryOp::Le, least, count)?;
    Ok(there.bit())
}

// What a ring gives, or 0 where the count is not so many.
fn put_told(
    net: &mut NetBuilder,
    valid: Bit,
    place: Bus,
    count: Bus,
    reach: Reach,
    value: Bus,
) -> Result<Bus, Memory>
    requires valid { IsBit net.old valid }
    requires place { IsBus net.old place }
    requires place_width { place.width ≡ reach.bits }
    requires count { IsBus net.old count }
    requires count_width { count.width ≡ reach.bits + 1 }
    requires reach { IsReach reach }
    requires value { IsBus net.old value }
    ensures { IfOk result (IsToldIn net.old net.new valid place count reach value) }
{
    let out = put_ring(net, valid, place, reach, value)?;
    let there = put_many(net, count, reach)?;
    let none = net.constant(word(0, value.width))?;
    let told = net.choose(there, out, none)?;
    Ok(told)
}

/// With each row the value so many rows before it in its stream, and 0 where there is none.
pub fn put_lag(
    net: &mut NetBuilder,
    valid: Bit,
    eos: Bit,
    reach: Reach,
    value: Bus,
) -> Result<Bus, Memory>
    requires valid { IsBit net.old valid }
    requires eos { IsBit net.old eos }
    requires reach { IsReach reach }
    requires value { IsBus net.old value }
    ensures { IfOk result (IsLagIn net.old net.new valid eos reach value) }
{
    let count = put_count(net, valid, eos, reach.bits)?;
    let place = net.cut(count, reach.bits - 1, 0)?;
    let lag = put_told(net, valid, place, count, reach, value)?;
    note_bus(net, b"lag", lag)?;
    Ok(lag)
}
