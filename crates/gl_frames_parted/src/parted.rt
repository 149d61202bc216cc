//! Frames of each key over the columns that they ask for.

ghost use Rattle.std.specs.Prelude.{◌≡◌, All, IfOk, Some, map};
ghost use Rattle.gl_algebra.specs.Columns.{FrameFits};
ghost use Rattle.gl_algebra.specs.Fits.{KeyFits};
ghost use Rattle.gl_algebra.specs.Known.{FrameKnown};
ghost use Rattle.gl_values.specs.Kinds.{IsKind, width_of};
ghost use Rattle.gl_frames_asked.specs.Among.{renumber_key};
ghost use Rattle.gl_frames_parted.specs.Parted.{AreOverAllIn, ArePartedIn};
ghost use Rattle.gl_rows.specs.Made.{AreHeldBuses};
ghost use Rattle.gl_wire.specs.Wire.{IsWire, widths};

use crate::look_up::put_look_up;
use crate::picked::picked_wire;
use crate::places::partition_by;
use gl_algebra::{PlanFrame, PlanKey};
use gl_bits::Memory;
use gl_frames_asked::laws::{columns_are_asked, nodes_are_same, nodes_make_same};
use gl_frames_asked::{asked_columns, asked_items, asked_kinds, place_among};
use gl_frames_keys::laws::partitions_serve;
use gl_frames_slots::{KeyFrames, put_key_frames};
use gl_net::NetBuilder;
use gl_rows::Scope;
use gl_wire::Wire;
use std::alloc::Global;

// A key over the columns that are asked for alone.
fn renumber_key(asked: &[usize], by: PlanKey) -> PlanKey
    ensures { result ≡ renumber_key asked.now by }
{
    PlanKey {
        key: place_among(asked, u16::from(by.key)) as u8,
        groups: by.groups,
    }
}

// Frames of each key over all columns of a wire, in the cycles that the plan counts.
fn put_over_all(
    alloc: Global,
    net: &mut NetBuilder,
    wire: &Wire,
    scope: Scope,
    by: PlanKey,
    items: &[PlanFrame],
) -> Result<KeyFrames, Memory>
    requires wire { IsWire net.old wire.now }
    requires kinds { widths wire.now.columns ≡ map width_of scope.kinds.now }
    requires words { AreHeldBuses net.old scope.words.now }
    requires are_kinds { All IsKind scope.kinds.now }
    requires key { KeyFits scope.kinds.now (Some by) }
    requires fit { All (FrameFits scope.kinds.now) items.now }
    requires known { All (FrameKnown (widths scope.words.now)) items.now }
    ensures { IfOk result
        (AreOverAllIn net.old net.new scope.entry.kinds.now by items.now wire.now) }
{
    let partition = partition_by(scope.kinds, by, items);
    let lane = put_look_up(alloc, net, wire, scope.kinds, by)?;
    // Named, since a goal speaks of the value.
    let frames = put_key_frames(alloc, net, &lane, partition, scope, items)?;
    Ok(frames)
}

/// Behind each row of the first keys of its stream, what the items make of its key's rows up to it.
pub fn put_parted_frames(
    alloc: Global,
    net: &mut NetBuilder,
    wire: &Wire,
    scope: Scope,
    by: PlanKey,
    items: &[PlanFrame],
) -> Result<KeyFrames, Memory>
    requires wire { IsWire net.old wire.now }
    requires kinds { widths wire.now.columns ≡ map width_of scope.kinds.now }
    requires words { AreHeldBuses net.old scope.words.now }
    requires are_kinds { All IsKind scope.kinds.now }
    requires key { KeyFits scope.kinds.now (Some by) }
    requires fit { All (FrameFits scope.kinds.now) items.now }
    requires known { All (FrameKnown (widths scope.words.now)) items.now }
    ensures { IfOk result
        (ArePartedIn net.old net.new scope.entry.kinds.now by items.now wire.now) }
{
    partitions_serve();
    columns_are_asked();
    nodes_are_same();
    nodes_make_same();
    let asked = asked_columns(alloc, scope.kinds.len(), usize::from(by.key), items)?;
    let picked = picked_wire(alloc, &asked, wire)?;
    let kinds = asked_kinds(alloc, &asked, scope.kinds)?;
    let items = asked_items(alloc, &asked, items)?;
    let by = renumber_key(&asked, by);
    let scope = Scope {
        kinds: &kinds,
        words: scope.words,
    };
    // Named, since a goal speaks of the value.
    let frames = put_over_all(alloc, net, &picked, scope, by, &items)?;
    Ok(frames)
}
