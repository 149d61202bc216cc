//! The lane of the first keys of a stream, by the circuit that fits its key.

ghost use Rattle.std.specs.Prelude.{◌≡◌, IfOk, Some, map};
ghost use Rattle.gl_algebra.specs.Fits.{KeyFits};
ghost use Rattle.gl_values.specs.Kinds.{width_of};
ghost use Rattle.gl_frames_parted.specs.Parted.{IsLookUpIn};
ghost use Rattle.gl_wire.specs.Wire.{IsWire, widths};

use crate::places::{has_map, has_tree, keys_by};
use gl_algebra::PlanKey;
use gl_bits::Memory;
use gl_frames_lanes::{KeyLane, put_key_lane};
use gl_frames_map::put_map_lane;
use gl_frames_tree::put_tree_lane;
use gl_net::NetBuilder;
use gl_values::Kind;
use gl_wire::Wire;
use std::alloc::Global;

/// The lane of the first keys of a stream: by a map where their keys are of few bits, by a tree
/// where they are many, and else by all slots at once.
pub fn put_look_up(
    alloc: Global,
    net: &mut NetBuilder,
    wire: &Wire,
    kinds: &[Kind],
    by: PlanKey,
) -> Result<KeyLane, Memory>
    requires wire { IsWire net.old wire.now }
    requires kinds { widths wire.now.columns ≡ map width_of kinds.now }
    requires key { KeyFits kinds.now (Some by) }
    ensures { IfOk result (IsLookUpIn net.old net.new kinds.now by wire.now) }
{
    let keys = keys_by(by);
    if has_map(kinds, by) {
        // Named, since a goal speaks of the value.
        let lane = put_map_lane(alloc, net, wire, keys)?;
        return Ok(lane);
    }
    if has_tree(kinds, by) {
        let lane = put_tree_lane(alloc, net, wire, keys)?;
        return Ok(lane);
    }
    let lane = put_key_lane(alloc, net, wire, keys)?;
    Ok(lane)
}
