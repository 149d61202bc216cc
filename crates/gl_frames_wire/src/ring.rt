//! Rings of values in a memory: one for streams one after another, or one for each slot of a lane.

ghost use Rattle.std.specs.Prelude.{◌≡◌, ◌+◌, ◌≤◌, IfOk};
ghost use Rattle.gl_net.specs.Net.{IsBit, IsBus};
ghost use Rattle.gl_wire_lanes.specs.Shares.{slot_of};
ghost use Rattle.gl_frames_wire.specs.Reaches.{IsReach};
ghost use Rattle.gl_frames_wire.specs.RingNets.{IsBeforeIn, IsRingIn, memory_cost};

use crate::reach::{Reach, back_word};
use gl_bits::Memory;
use gl_net::{BinaryOp, Bit, Bus, NetBuilder};
use gl_wire_lanes::put_memory;

// The place so many before a place.
fn put_before(net: &mut NetBuilder, place: Bus, reach: Reach) -> Result<Bus, Memory>
    requires place { IsBus net.old place }
    requires reach { IsReach reach }
    requires width { place.width ≡ reach.bits }
    ensures { IfOk result (IsBeforeIn net.old net.new place reach) }
{
    let back = net.constant(back_word(reach))?;
    let before = net.binary(BinaryOp::Sub, place, back)?;
    Ok(before)
}

/// A ring: a value is written at a place where a line is 1, and what stands so many places before
/// is read in the same cycle.
pub fn put_ring(
    net: &mut NetBuilder,
    valid: Bit,
    place: Bus,
    reach: Reach,
    value: Bus,
) -> Result<Bus, Memory>
    requires valid { IsBit net.old valid }
    requires place { IsBus net.old place }
    requires reach { IsReach reach }
    requires width { place.width ≡ reach.bits }
    requires value { IsBus net.old value }
    ensures { IfOk result (IsRingIn net.old net.new (λ run c. 0)
        (memory_cost 4 reach.bits value.width) valid place reach value) }
{
    let before = put_before(net, place, reach)?;
    // Named, since a goal speaks of the value.
    let out = put_memory(net, reach.bits, valid, place, before, value)?;
    Ok(out)
}

/// A ring for each slot, in one memory whose addresses are a slot above a place.
pub fn put_slot_ring(
    net: &mut NetBuilder,
    valid: Bit,
    slot: Bus,
    place: Bus,
    reach: Reach,
    value: Bus,
) -> Result<Bus, Memory>
    requires valid { IsBit net.old valid }
    requires slot { IsBus net.old slot }
    requires place { IsBus net.old place }
    requires reach { IsReach reach }
    requires width { place.width ≡ reach.bits }
    requires bits { slot.width + place.width ≤ 32 }
    requires value { IsBus net.old value }
    ensures { IfOk result (IsRingIn net.old net.new (λ run. slot_of run slot)
        (memory_cost 6 (slot.width + place.width) value.width) valid place reach value) }
{
    let before = put_before(net, place, reach)?;
    let from = net.join(slot, before)?;
    let to = net.join(slot, place)?;
    let bits = slot.width + place.width;
    let out = put_memory(net, bits, valid, to, from, value)?;
    Ok(out)
}
