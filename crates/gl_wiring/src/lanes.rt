//! Groups over direct bodies: one lane for all slots, the body once behind it, and the keys in front of its totals.

ghost use Rattle.std.specs.Prelude.{◌≡◌, ℕ, ◌-◌, ◌<◌, ◌≤◌, ◌∷◌, [], All, List, Option, IfOk, Some, length, map, slice_get, true};
ghost use Rattle.gl_algebra.specs.Columns.{AggFits};
ghost use Rattle.gl_algebra.specs.declared.node.PlanAgg.{PlanAgg as PlanAggOf};
ghost use Rattle.gl_algebra.specs.declared.node.PlanNode.TheVariants.{Aggregate};
ghost use Rattle.gl_algebra.specs.Direct.{form_of, is_direct};
ghost use Rattle.gl_algebra.specs.Shapes.{kinds_of, shape_of};
ghost use Rattle.gl_slots.specs.Picks.{bits_of_slots};
ghost use Rattle.gl_net.specs.declared.node.Bit.{Bit as BitOf};
ghost use Rattle.gl_net.specs.Net.{Net, IsBit, IsBus};
ghost use Rattle.gl_values.specs.Kinds.{IsKind, width_of};
ghost use Rattle.gl_totals.specs.Costs.{kept_of_agg};
ghost use Rattle.gl_totals.specs.Tables.{IsTable};
ghost use Rattle.gl_wire.specs.declared.wire.Wire.{Wire as WireOf};
ghost use Rattle.gl_wire.specs.Wire.{IsWire, widths};
ghost use Rattle.gl_algebra.specs.Known.{AggKnown};
ghost use Rattle.gl_rows.specs.Made.{AreHeldBuses};
ghost use Rattle.gl_wiring.specs.Groups.{IsGroupNode};
ghost use Rattle.gl_wiring.specs.LaneGroups.{HasLane, IsGroupLane};
ghost use Rattle.gl_wiring.specs.Lanes.{IsBodyTable, has_room, place_of};
ghost use Rattle.gl_wiring.specs.Leaves.{HaveLeaves};
ghost use Rattle.gl_wiring.specs.Put.{CanPut, IsPutBehind};
ghost use Rattle.gl_wiring.specs.Tables.{HasCircuit, HaveChildren};
ghost use Rattle.gl_wiring.specs.Words.{HaveWords};

use crate::apart::put_source;
use crate::below::laws_below;
use crate::groups::GroupOf;
use crate::notes::note_table;
use crate::rows::{Place, put_rows};
use crate::site::Site;
use gl_algebra::columns::kind_of_agg;
use gl_algebra::{PlanAgg, PlanId, PlanNode};
use gl_bits::Memory;
use gl_groups::Lane;
use gl_net::{NetBuilder, Note};
use gl_totals::table::Table;
use gl_values::Kind;
use gl_wire::{Emitted, Faults, Wire, both_faults};
use gl_wire_lanes::TableOut;
use std::alloc::Global;

/// A lane behind a group's source.
#[derive(Drop)]
pub struct Laned {
    /// What stands before the lane.
    pub source: Emitted,
    /// The lane.
    pub lane: Lane,
}

impl Laned {
    /// The place of each row on the lane.
    pub(crate) fn place(&self) -> Place
        ensures { result ≡ place_of self.now.lane }
    {
        Place {
            slot: self.lane.slot,
            first: self.lane.first,
        }
    }
}

// A table of totals, told as the operator with this number.
fn put_states(
    alloc: Global,
    net: &mut NetBuilder,
    body: PlanId,
    table: &Table<'_>,
    rows: &Wire,
    place: Place,
) -> Result<TableOut, Memory>
    requires wire { IsWire net.old rows.now }
    requires kinds { widths rows.now.columns ≡ map width_of table.now.kinds.now }
    requires are_kinds { All IsKind table.now.kinds.now }
    requires aggs { All (AggFits table.now.kinds.now) table.now.aggs.now }
    requires words { AreHeldBuses net.old table.now.words.now }
    requires known { All (AggKnown (widths table.now.words.now)) table.now.aggs.now }
    requires some { 1 ≤ length table.now.aggs.now }
    requires slot { IsBus net.old place.slot }
    requires bits { 1 ≤ place.slot.width }
    requires few { place.slot.width ≤ 8 }
    requires first { IsBit net.old place.first }
    ensures { IfOk result (IsTable net.old net.new table.now rows.now place.slot place.first) }
{
    net.note(Note::Operator(body.number()))?;
    let out = table.emit(alloc, net, rows, place.slot, place.first)?;
    note_table(net, &out)?;
    Ok(out)
}

/// The totals of a direct body behind a lane, which is its input.
#[tactic(auto, using(crate::proofs::LaneRowLemmas::rows_there))]
pub(crate) fn put_table(
    net: &mut NetBuilder,
    site: Site<'_>,
    body: PlanId,
    lane: &Wire,
    place: Place,
) -> Result<TableOut, Memory>
    requires within { body < length site.plan.now }
    requires direct { is_direct (form_of site.plan.now body) ≡ true }
    requires leaves { HaveLeaves net.old (lane.now ∷ []) (shape_of site.plan.now body).leaves }
    requires slot { IsBus net.old place.slot }
    requires bits { 1 ≤ place.slot.width }
    requires few { place.slot.width ≤ 8 }
    requires first { IsBit net.old place.first }
    requires words { HaveWords site.plan.now net.old site.words.now }
    ensures { let s = site.entry in
        IfOk result (IsBodyTable s.plan.now body net.old net.new lane.now place) }
{
    laws_below();
    match site.plan.node(body) {
        PlanNode::Aggregate { child, aggs } => {
            let below = put_rows(net, site, *child, lane, place)?;
            let table = Table {
                kinds: site.plan.kinds(*child),
                words: site.words,
                aggs: aggs.as_slice(),
            };
            let rows = &below.rows.wire;
            let out = put_states(site.alloc, net, body, &table, rows, below.place)?;
            Ok(out)
        }
        _ => unreachable!(),
    }
}

// What an aggregate leaves of the bits that a plan counts for its state.
fn spare_of(kinds: &[Kind], agg: &PlanAgg) -> u64
    ensures { result ≡ 128 - kept_of_agg kinds.now agg.now }
{
    let left = 128u64.saturating_sub(u64::from(kind_of_agg(kinds, agg).bits()));
    match agg {
        PlanAgg::Count | PlanAgg::Sum(_) => left,
        PlanAgg::Min(_) | PlanAgg::Max(_) => left.saturating_sub(1),
        PlanAgg::Avg(_) => left.saturating_sub(64),
        PlanAgg::Wsum(_, weights) => left.saturating_sub(weights.len() as u64),
    }
}

// Whether a key of `key` bits is within what these aggregates leave of the bits that a plan counts for each.
fn has_room(kinds: &[Kind], aggs: &[PlanAgg], key: u64) -> bool
    ensures { result ≡ has_room kinds.now aggs.now key }
{
    match aggs.split_first() {
        None => key == 0,
        Some((agg, rest)) => has_room(kinds, rest, key.saturating_sub(spare_of(kinds, agg))),
    }
}

impl GroupOf {
    // Whether a memory has room for keys of `key` bits.
    fn stores(&self, site: Site<'_>, key: u8) -> bool
        requires node { IsGroupNode site.plan.now self.now }
        ensures { let s = site.entry in (child : ℕ) (aggs : List PlanAggOf)
            → slice_get s.plan.now self.now.body ≡ Some (Aggregate child aggs)
            → result ≡ has_room (kinds_of s.plan.now child) aggs key }
    {
        laws_below();
        match site.plan.node(self.body) {
            PlanNode::Aggregate { child, aggs } => {
                has_room(site.plan.kinds(*child), aggs.as_slice(), u64::from(key))
            }
            _ => false,
        }
    }

    /// The source's rows far enough apart for the body, and the lane behind them.
    pub(crate) fn lane(
        &self,
        net: &mut NetBuilder,
        site: Site<'_>,
        table: &[Option<Emitted>],
    ) -> Result<Laned, Memory>
        requires node { IsGroupNode site.plan.now self.now }
        requires there { HasCircuit site.plan.now net.old site.tick site.leaves.now table.now
            self.now.source }
        ensures { let s = site.entry in IfOk result
            (IsGroupLane s.plan.now self.now net.old net.new s.tick s.leaves.now) }
    {
        laws_below();
        let grouping = self.grouping(site);
        let source = put_source(net, site, self.source, grouping.body.gt, table)?;
        let lane = grouping.lane(site.alloc, net, &source.wire)?;
        Ok(Laned { source, lane })
    }

    /// The keys in front of the totals of a direct body, the group's ends, and all lines.
    pub(crate) fn gather(
        &self,
        net: &mut NetBuilder,
        site: Site<'_>,
        laned: &Laned,
        out: &TableOut,
    ) -> Result<Emitted, Memory>
        requires node { IsGroupNode site.plan.now self.now }
        requires lane { HasLane net.old self.now.groups laned.now }
        requires wire { IsWire net.old out.now.wire }
        requires slot { IsBus net.old out.now.slot }
        requires slot_width { out.now.slot.width ≡ bits_of_slots self.now.groups }
        ensures { let s = site.entry in (old mid : Net) (tick : Option BitOf) (leaves : List WireOf)
            → IsGroupLane s.plan.now self.now old mid tick leaves laned.now
            → is_direct (form_of s.plan.now self.now.body) ≡ true
            → IsBodyTable s.plan.now self.now.body mid net.old
            laned.now.lane.wire (place_of laned.now.lane) out.now
            → IfOk result (λ e. IsPutBehind s.plan.now self.now.id old net.new tick leaves e) }
    {
        laws_below();
        let grouping = self.grouping(site);
        let stored = self.stores(site, laned.lane.here.width);
        let wire = grouping.gather(site.alloc, net, &laned.lane, out, stored)?;
        let own = Faults {
            passed: None,
            further: Some(laned.lane.further),
        };
        let faults = both_faults(net, laned.source.faults, own)?;
        Ok(Emitted { wire, faults })
    }
}

/// Adds the circuit of a group whose body is direct: one lane for all slots behind its source, the body once, and the keys in front of its
/// totals.
pub(crate) fn put_on_lane(
    net: &mut NetBuilder,
    site: Site<'_>,
    group: GroupOf,
    table: &[Option<Emitted>],
) -> Result<Emitted, Memory>
    requires node { IsGroupNode site.plan.now group }
    requires can { CanPut site.plan.now site.figures.now group.id net.old site.tick
        site.leaves.now }
    requires children { HaveChildren site.plan.now group.id net.old site.tick site.leaves.now
        table.now }
    requires direct { is_direct (form_of site.plan.now group.body) ≡ true }
    requires words { HaveWords site.plan.now net.old site.words.now }
    ensures { let s = site.entry in IfOk result (λ e.
        IsPutBehind s.plan.now group.id net.old net.new s.tick s.leaves.now e) }
{
    laws_below();
    let laned = group.lane(net, site, table)?;
    let place = laned.place();
    let out = put_table(net, site, group.body, &laned.lane.wire, place)?;
    group.gather(net, site, &laned, &out)
}
