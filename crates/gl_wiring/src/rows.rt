//! The operators of rows of a direct body, once for all slots: on a lane, with the place of each row beside it.

ghost use Rattle.std.specs.Prelude.{◌≡◌, ◌<◌, ◌≤◌, ◌∷◌, [], Some, slice_get, IfOk, length};
ghost use Rattle.gl_algebra.specs.declared.node.PlanNode.TheVariants.{Compute, Select, Project};
ghost use Rattle.gl_algebra.specs.Shapes.{shape_of};
ghost use Rattle.gl_net.specs.Net.{Net, IsBit, IsBus};
ghost use Rattle.gl_wire.specs.declared.wire.Wire.{Wire as WireOf};
ghost use Rattle.gl_algebra.specs.Direct.{form_of, rowwise};
ghost use Rattle.gl_wiring.specs.Lanes.{AreRows, HasRows, IsPlaceLater};
ghost use Rattle.gl_wiring.specs.Leaves.{HaveLeaves};
ghost use Rattle.gl_wiring.specs.declared.rows.Place.{Place as PlaceOf};
ghost use Rattle.gl_wiring.specs.Words.{HaveWords};

use crate::arms::leaf_of;
use crate::below::laws_below;
use crate::notes::note_circuit;
use crate::site::Site;
use gl_algebra::{Operands, Ops, PlanId, PlanNode};
use gl_bits::Memory;
use gl_net::{Bit, Bus, NetBuilder, Note};
use gl_rows::{put_compute, put_project, put_select};
use gl_wire::{Emitted, Wire, later, later_bit, note_bit, note_bus};
use std::slice::from_ref;

/// Whose cycle it is on a lane, and whether its stream begins.
#[derive(Clone, Copy)]
pub struct Place {
    /// The number of the slot.
    pub slot: Bus,
    /// 1 where the stream of the slot begins.
    pub first: Bit,
}

/// Rows on a lane.
#[derive(Drop)]
pub struct LaneRows {
    /// The rows and the ends.
    pub rows: Emitted,
    /// The place of each.
    pub place: Place,
}

// Tells the place of each row.
fn note_place(net: &mut NetBuilder, place: Place) -> Result<(), Memory>
    ensures { net.new ≡ net.old }
{
    note_bus(net, b"slot", place.slot)?;
    note_bit(net, b"first", place.first)
}

// A place one cycle later.
fn later_place(net: &mut NetBuilder, place: Place) -> Result<Place, Memory>
    requires slot { IsBus net.old place.slot }
    requires first { IsBit net.old place.first }
    ensures { IfOk result (IsPlaceLater net.old net.new place) }
{
    let slot = later(net, place.slot)?;
    let first = later_bit(net, place.first)?;
    let later = Place { slot, first };
    note_place(net, later)?;
    Ok(later)
}

// The rows of the child with one more column for each operation.
fn compute_rows(
    net: &mut NetBuilder,
    site: Site<'_>,
    id: PlanId,
    child: PlanId,
    ops: &Ops,
    below: LaneRows,
) -> Result<LaneRows, Memory>
    requires node { slice_get site.plan.now id ≡ Some (Compute child ops.now) }
    requires below { HasRows site.plan.now child net.old below }
    requires words { HaveWords site.plan.now net.old site.words.now }
    ensures { let s = site.entry in (old : Net) (lane : WireOf) (place : PlaceOf)
        → AreRows s.plan.now child old net.old lane place below
        → IfOk result (AreRows s.plan.now id old net.new lane place) }
{
    laws_below();
    let place = later_place(net, below.place)?;
    let rows = put_compute(
        site.alloc,
        net,
        below.rows,
        site.plan.kinds(child),
        site.words,
        ops.as_slice(),
    )?;
    Ok(LaneRows { rows, place })
}

// The rows of the child whose column is 1.
fn select_rows(
    net: &mut NetBuilder,
    site: Site<'_>,
    id: PlanId,
    child: PlanId,
    column: u16,
    below: LaneRows,
) -> Result<LaneRows, Memory>
    requires node { slice_get site.plan.now id ≡ Some (Select child column) }
    requires below { HasRows site.plan.now child net.old below }
    ensures { let s = site.entry in (old : Net) (lane : WireOf) (place : PlaceOf)
        → AreRows s.plan.now child old net.old lane place below
        → IfOk result (AreRows s.plan.now id old net.new lane place) }
{
    laws_below();
    let place = later_place(net, below.place)?;
    let rows = put_select(site.alloc, net, below.rows, usize::from(column))?;
    Ok(LaneRows { rows, place })
}

// Of each row of the child these values.
fn project_rows(
    net: &mut NetBuilder,
    site: Site<'_>,
    id: PlanId,
    child: PlanId,
    items: &Operands,
    below: LaneRows,
) -> Result<LaneRows, Memory>
    requires node { slice_get site.plan.now id ≡ Some (Project child items.now) }
    requires below { HasRows site.plan.now child net.old below }
    requires words { HaveWords site.plan.now net.old site.words.now }
    ensures { let s = site.entry in (old : Net) (lane : WireOf) (place : PlaceOf)
        → AreRows s.plan.now child old net.old lane place below
        → IfOk result (AreRows s.plan.now id old net.new lane place) }
{
    laws_below();
    let rows = put_project(
        site.alloc,
        net,
        below.rows,
        site.plan.kinds(child),
        site.words,
        items.as_slice(),
    )?;
    Ok(LaneRows {
        rows,
        place: below.place,
    })
}

/// The operators of rows up to a node on a lane, which is the body's input, and the place of each row as many cycles later.
#[tactic(auto, using(crate::proofs::LaneRowLemmas::rows_there))]
pub(crate) fn put_rows(
    net: &mut NetBuilder,
    site: Site<'_>,
    id: PlanId,
    lane: &Wire,
    place: Place,
) -> Result<LaneRows, Memory>
    requires within { id < length site.plan.now }
    requires form { form_of site.plan.now id ≡ rowwise }
    requires leaves { HaveLeaves net.old (lane.now ∷ []) (shape_of site.plan.now id).leaves }
    requires slot { IsBus net.old place.slot }
    requires few { place.slot.width ≤ 8 }
    requires first { IsBit net.old place.first }
    requires words { HaveWords site.plan.now net.old site.words.now }
    ensures { let s = site.entry in
        IfOk result (AreRows s.plan.now id net.old net.new lane.now place) }
{
    laws_below();
    match site.plan.node(id) {
        PlanNode::Body(_) => {
            let rows = leaf_of(site.alloc, from_ref(lane), 0)?;
            Ok(LaneRows { rows, place })
        }
        PlanNode::Compute { child, ops } => {
            let below = put_rows(net, site, *child, lane, place)?;
            net.note(Note::Operator(id.number()))?;
            let rows = compute_rows(net, site, id, *child, ops, below)?;
            note_circuit(net, &rows.rows)?;
            Ok(rows)
        }
        PlanNode::Select { child, column } => {
            let below = put_rows(net, site, *child, lane, place)?;
            net.note(Note::Operator(id.number()))?;
            let rows = select_rows(net, site, id, *child, *column, below)?;
            note_circuit(net, &rows.rows)?;
            Ok(rows)
        }
        PlanNode::Project { child, items } => {
            let below = put_rows(net, site, *child, lane, place)?;
            net.note(Note::Operator(id.number()))?;
            let rows = project_rows(net, site, id, *child, items, below)?;
            note_circuit(net, &rows.rows)?;
            Ok(rows)
        }
        _ => unreachable!(),
    }
}
