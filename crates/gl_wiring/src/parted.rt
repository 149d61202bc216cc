//! The circuit of a node of frames, whose rows may be parted by a key.

ghost use Rattle.std.specs.Prelude.{◌≡◌, Some, slice_get, IfOk};
ghost use Rattle.gl_algebra.specs.declared.node.PlanNode.TheVariants.{Frames};
ghost use Rattle.gl_wiring.specs.Put.{IsPutBehind};
ghost use Rattle.gl_wiring.specs.Tables.{HasCircuit};
ghost use Rattle.gl_wiring.specs.Words.{HaveWords};

use crate::arms::frames_node;
use crate::below::laws_below;
use crate::site::Site;
use crate::tables::circuit_at;
use gl_algebra::{PlanFrames, PlanId, PlanKey};
use gl_bits::Memory;
use gl_frames_parted::put_parted_frames;
use gl_net::NetBuilder;
use gl_rows::Scope;
use gl_wire::{Emitted, Faults, either_line};

/// A node of frames: its number, that of its child, and the key by which rows are parted, if there is one.
#[derive(Clone, Copy)]
pub(crate) struct FramesOf {
    /// The node's own number.
    pub id: PlanId,
    /// The node whose rows it takes.
    pub child: PlanId,
    /// The key.
    pub by: Option<PlanKey>,
}

// Of each row of the first keys of the child what these items make of it and of the rows of its key before it, and a line that tells of
// further keys.
fn key_frames_node(
    net: &mut NetBuilder,
    site: Site<'_>,
    frames: FramesOf,
    by: PlanKey,
    items: &PlanFrames,
    table: &[Option<Emitted>],
) -> Result<Emitted, Memory>
    requires node { slice_get site.plan.now frames.id
        ≡ Some (Frames frames.child (Some by) items.now) }
    requires there { HasCircuit site.plan.now net.old site.tick site.leaves.now table.now
        frames.child }
    requires words { HaveWords site.plan.now net.old site.words.now }
    ensures { let s = site.entry in IfOk result (λ e.
        IsPutBehind s.plan.now frames.id net.old net.new s.tick s.leaves.now e) }
{
    laws_below();
    let below = circuit_at(site.alloc, table, frames.child)?;
    let scope = Scope {
        kinds: site.plan.kinds(frames.child),
        words: site.words,
    };
    let put = put_parted_frames(site.alloc, net, &below.wire, scope, by, items.as_slice())?;
    let further = either_line(net, below.faults.further, Some(put.further))?;
    Ok(Emitted {
        wire: put.wire,
        faults: Faults {
            passed: below.faults.passed,
            further,
        },
    })
}

/// Of each row of the child what these items make of it and of the rows before it, by the key if
/// there is one.
pub(crate) fn frames_by(
    net: &mut NetBuilder,
    site: Site<'_>,
    frames: FramesOf,
    items: &PlanFrames,
    table: &[Option<Emitted>],
) -> Result<Emitted, Memory>
    requires node { slice_get site.plan.now frames.id
        ≡ Some (Frames frames.child frames.by items.now) }
    requires there { HasCircuit site.plan.now net.old site.tick site.leaves.now table.now
        frames.child }
    requires words { HaveWords site.plan.now net.old site.words.now }
    ensures { let s = site.entry in IfOk result (λ e.
        IsPutBehind s.plan.now frames.id net.old net.new s.tick s.leaves.now e) }
{
    match frames.by {
        None => frames_node(net, site, frames.id, frames.child, items, table),
        Some(by) => key_frames_node(net, site, frames, by, items, table),
    }
}
