//! The circuits of all nodes that are reached, each once, and of copies of bodies.

ghost use Rattle.std.specs.Prelude.{◌≡◌, ◌<◌, ◌≤◌, ◌∷◌, [], IfOk, Some, length, true};
ghost use Rattle.gl_figures.specs.Marks.{AreMarks};
ghost use Rattle.gl_wiring.specs.Put.{CanPut, IsPut, IsPutBehind};
ghost use Rattle.gl_wiring.specs.Roots.{GivesOnce};
ghost use Rattle.gl_wiring.specs.Tables.{ArePutTo, CanPutMarked, HaveChildren, IsSlot};
ghost use Rattle.gl_wiring.specs.Groups.{IsGroupNode};
ghost use Rattle.gl_wiring.specs.Partitions.{IsPartitionNode};
ghost use Rattle.gl_wiring.specs.TimeWindows.{IsTimeWindow};
ghost use Rattle.gl_wiring.specs.Windows.{IsWindow};
ghost use Rattle.gl_wire.specs.Faults.{AreLines, IsLine};
ghost use Rattle.gl_wire.specs.Wire.{IsWire, widths};
ghost use Rattle.gl_wire_registers.specs.Fronts.{HasColumn};
ghost use Rattle.gl_wiring.specs.Copies.{AreBodies, CanCopy, CanStandBehind, IsOverCopies, IsPutOver};
ghost use Rattle.gl_wiring.specs.Machines.{CanBe, machine_of};
ghost use Rattle.gl_wiring.specs.Words.{HaveWords};

use crate::apart::put_source;
use crate::behind::{is_over, put_behind};
use crate::below::laws_below;
use crate::direct::is_direct;
use crate::groups::GroupOf;
use crate::lanes::put_on_lane;
use crate::machines::CopyMachine;
use crate::notes::note_circuit;
use crate::partitions::PartitionOf;
use crate::site::Site;
use crate::tables::{Table, circuit_at, marks_from};
use crate::time_windows::TimeWindowOf;
use crate::windows::WindowOf;
use gl_algebra::{PlanId, PlanNode};
use gl_bits::{Listed, Memory};
use gl_net::{NetBuilder, Note};
use gl_ticks::RootTicked;
use gl_windows::Ticked;
use gl_wire::{Emitted, Wire};
use gl_wire_registers::OverCopies as _;
use std::slice::from_ref;

// What copies of a body give, and their lines.
type Copies = Listed<Emitted>;

// Adds the circuits of a node and of all below it, each once, and gives the node's wire and its lines. The marks are those of all that
// the node reaches.
#[cycle(put)]
#[tactic(auto)]
fn put_root_of(
    net: &mut NetBuilder,
    site: Site<'_>,
    id: PlanId,
    marks: &[bool],
) -> Result<Emitted, Memory>
    requires marks { AreMarks site.plan.now (id ∷ []) marks.now }
    requires can { CanPut site.plan.now site.figures.now id net.old site.tick site.leaves.now }
    requires words { HaveWords site.plan.now net.old site.words.now }
    ensures { let s = site.entry in
        IfOk result (λ e. IsPut s.plan.now id net.old net.new s.tick s.leaves.now e) }
{
    laws_below();
    let limit = id.number() + 1;
    let table = put_marked(net, site, marks, limit)?;
    let e = circuit_at(site.alloc, table.as_slice(), id)?;
    Ok(e)
}

/// Adds the circuits of all marked nodes below a limit, each once, in the order of their numbers, and gives them by their numbers.
#[cycle(put)]
#[tactic(auto)]
pub(crate) fn put_marked(
    net: &mut NetBuilder,
    site: Site<'_>,
    marks: &[bool],
    limit: usize,
) -> Result<Table, Memory>
    requires within { limit ≤ length site.plan.now }
    requires can { CanPutMarked site.plan.now site.figures.now marks.now net.old site.tick
        site.leaves.now }
    requires words { HaveWords site.plan.now net.old site.words.now }
    ensures { let s = site.entry in IfOk result (λ table.
        ArePutTo s.plan.now marks.now limit net.old net.new s.tick s.leaves.now table.items) }
{
    let mut table = Table::new(site.alloc);
    let mut number = 0;
    while number < limit {
        let slot = put_slot(net, site, number, marks[number], table.as_slice())?;
        table.push(slot)?;
        number += 1;
    }
    Ok(table)
}

// The entry of a node: its circuit, which is added, where the node is marked.
#[cycle(put)]
#[tactic(auto)]
fn put_slot(
    net: &mut NetBuilder,
    site: Site<'_>,
    number: usize,
    marked: bool,
    table: &[Option<Emitted>],
) -> Result<Option<Emitted>, Memory>
    requires within { number < length site.plan.now }
    requires can { marked ≡ true
        → CanPut site.plan.now site.figures.now number net.old site.tick site.leaves.now }
    requires children { marked ≡ true
        → HaveChildren site.plan.now number net.old site.tick site.leaves.now table.now }
    requires words { HaveWords site.plan.now net.old site.words.now }
    ensures { let s = site.entry in IfOk result (λ slot.
        IsSlot s.plan.now number net.old net.new s.tick s.leaves.now marked slot) }
{
    if !marked {
        return Ok(None);
    }
    let id = site.plan.id(number);
    net.note(Note::Operator(number))?;
    if is_over(site.plan.node(id)) {
        let e = put_over(net, site, id, table)?;
        note_circuit(net, &e)?;
        Ok(Some(e))
    } else {
        let e = put_behind(net, site, id, table)?;
        note_circuit(net, &e)?;
        Ok(Some(e))
    }
}

// Adds the circuit of a window, of a window of time, of a group, or of the windows of each group.
#[cycle(put)]
#[tactic(auto)]
fn put_over(
    net: &mut NetBuilder,
    site: Site<'_>,
    id: PlanId,
    table: &[Option<Emitted>],
) -> Result<Emitted, Memory>
    requires over { IsOverCopies site.plan.now id }
    requires can { CanPut site.plan.now site.figures.now id net.old site.tick site.leaves.now }
    requires children { HaveChildren site.plan.now id net.old site.tick site.leaves.now table.now }
    requires words { HaveWords site.plan.now net.old site.words.now }
    ensures put { let s = site.entry in
        IfOk result (λ e. IsPutBehind s.plan.now id net.old net.new s.tick s.leaves.now e) }
    ensures once { let s = site.entry in
        IfOk result (λ e. GivesOnce s.plan.now id net.new s.tick s.leaves.now e) }
{
    match site.plan.node(id) {
        PlanNode::Window { .. } => {
            let window = WindowOf::at(site.plan, id);
            put_window(net, site, window, table)
        }
        PlanNode::TimeWindow { .. } => {
            let window = TimeWindowOf::at(site.plan, id);
            put_time_window(net, site, window, table)
        }
        PlanNode::Group { .. } => {
            let group = GroupOf::at(site.plan, id);
            put_group(net, site, group, table)
        }
        PlanNode::Partition { .. } => {
            let partition = PartitionOf::at(site.plan, id);
            put_partition(net, site, partition, table)
        }
        _ => unreachable!(),
    }
}

// Adds the circuit of a window: its machine behind its source.
#[cycle(put)]
#[tactic(auto)]
fn put_window(
    net: &mut NetBuilder,
    site: Site<'_>,
    window: WindowOf,
    table: &[Option<Emitted>],
) -> Result<Emitted, Memory>
    requires node { IsWindow site.plan.now window }
    requires can { CanPut site.plan.now site.figures.now window.id net.old site.tick
        site.leaves.now }
    requires children { HaveChildren site.plan.now window.id net.old site.tick site.leaves.now
        table.now }
    requires words { HaveWords site.plan.now net.old site.words.now }
    ensures { let s = site.entry in IfOk result (λ e.
        IsPutBehind s.plan.now window.id net.old net.new s.tick s.leaves.now e) }
{
    laws_below();
    let rotation = window.rotation(site);
    let gap = rotation.body.gt.max(rotation.body.ge);
    let source = put_source(net, site, window.source, gap, table)?;
    let machine = CopyMachine::Windows(rotation);
    let e = put_over_copies(net, site, window.body, machine, source)?;
    Ok(e)
}

// Adds that of a window of time: its machine, with the line of ticks, behind its stream.
#[cycle(put)]
#[tactic(auto)]
fn put_time_window(
    net: &mut NetBuilder,
    site: Site<'_>,
    window: TimeWindowOf,
    table: &[Option<Emitted>],
) -> Result<Emitted, Memory>
    requires node { IsTimeWindow site.plan.now window }
    requires can { CanPut site.plan.now site.figures.now window.id net.old site.tick
        site.leaves.now }
    requires children { HaveChildren site.plan.now window.id net.old site.tick site.leaves.now
        table.now }
    requires words { HaveWords site.plan.now net.old site.words.now }
    ensures put { let s = site.entry in IfOk result (λ e.
        IsPutBehind s.plan.now window.id net.old net.new s.tick s.leaves.now e) }
    ensures once { let s = site.entry in IfOk result (λ e.
        GivesOnce s.plan.now window.id net.new s.tick s.leaves.now e) }
{
    laws_below();
    let Some(tick) = site.tick else {
        unreachable!()
    };
    let source = circuit_at(site.alloc, table, window.source)?;
    let rotation = window.rotation(site);
    let machine = CopyMachine::Times(RootTicked {
        ticked: Ticked { rotation, tick },
    });
    let e = put_over_copies(net, site, window.body, machine, source)?;
    Ok(e)
}

// Adds that of a group: its machine behind its source, or, where its body is direct, a lane.
#[cycle(put)]
#[tactic(auto)]
fn put_group(
    net: &mut NetBuilder,
    site: Site<'_>,
    group: GroupOf,
    table: &[Option<Emitted>],
) -> Result<Emitted, Memory>
    requires node { IsGroupNode site.plan.now group }
    requires can { CanPut site.plan.now site.figures.now group.id net.old site.tick
        site.leaves.now }
    requires children { HaveChildren site.plan.now group.id net.old site.tick site.leaves.now
        table.now }
    requires words { HaveWords site.plan.now net.old site.words.now }
    ensures { let s = site.entry in IfOk result (λ e.
        IsPutBehind s.plan.now group.id net.old net.new s.tick s.leaves.now e) }
{
    laws_below();
    if is_direct(site.plan, group.body) {
        return put_on_lane(net, site, group, table);
    }
    let grouping = group.grouping(site);
    let source = put_source(net, site, group.source, grouping.body.gt, table)?;
    let machine = CopyMachine::Groups(grouping);
    let e = put_over_copies(net, site, group.body, machine, source)?;
    Ok(e)
}

// Adds that of the windows of each group: their machine behind their source.
#[cycle(put)]
#[tactic(auto)]
fn put_partition(
    net: &mut NetBuilder,
    site: Site<'_>,
    partition: PartitionOf,
    table: &[Option<Emitted>],
) -> Result<Emitted, Memory>
    requires node { IsPartitionNode site.plan.now partition }
    requires can { CanPut site.plan.now site.figures.now partition.id net.old site.tick
        site.leaves.now }
    requires children { HaveChildren site.plan.now partition.id net.old site.tick site.leaves.now
        table.now }
    requires words { HaveWords site.plan.now net.old site.words.now }
    ensures { let s = site.entry in IfOk result (λ e.
        IsPutBehind s.plan.now partition.id net.old net.new s.tick s.leaves.now e) }
{
    laws_below();
    let partitioning = partition.partitioning(site);
    let gap = partitioning.body.gt.max(partitioning.body.ge);
    let source = put_source(net, site, partition.source, gap, table)?;
    let machine = CopyMachine::Partitions(partitioning);
    let e = put_over_copies(net, site, partition.body, machine, source)?;
    Ok(e)
}

/// Adds a machine over copies of a body behind its source: the front, the body behind each of the front's wires, and the back.
#[cycle(put)]
#[tactic(auto)]
pub(crate) fn put_over_copies(
    net: &mut NetBuilder,
    site: Site<'_>,
    body: PlanId,
    machine: CopyMachine,
    source: Emitted,
) -> Result<Emitted, Memory>
    requires numbers { CanBe machine }
    requires wire { IsWire net.old source.wire }
    requires lines { AreLines net.old source.faults }
    requires key { HasColumn (machine_of machine).key (widths source.wire.columns) }
    requires tick { IsLine net.old (machine_of machine).tick }
    requires stands { CanStandBehind site.plan.now site.figures.now body
        (widths source.wire.columns) }
    requires words { HaveWords site.plan.now net.old site.words.now }
    ensures { let s = site.entry in IfOk result
        (IsPutOver s.plan.now body (machine_of machine) source net.old net.new) }
{
    let front = machine.front(site.alloc, net, source)?;
    let copies = put_copies(net, site, body, front.wires.as_slice())?;
    let e = machine.back(site.alloc, net, &front, copies.as_slice())?;
    Ok(e)
}

// Adds a body's circuit behind each of these wires.
#[cycle(put)]
#[tactic(auto)]
fn put_copies(
    net: &mut NetBuilder,
    site: Site<'_>,
    body: PlanId,
    wires: &[Wire],
) -> Result<Copies, Memory>
    requires can { CanCopy site.plan.now site.figures.now body net.old wires.now }
    requires words { HaveWords site.plan.now net.old site.words.now }
    ensures { let s = site.entry in IfOk result (λ copies.
        AreBodies s.plan.now body net.old net.new wires.now (length wires.now) copies) }
{
    let marks = marks_from(site.alloc, site.plan, body)?;
    let mut copies = Copies::new(site.alloc);
    for wire in wires {
        let behind = Site {
            alloc: site.alloc,
            plan: site.plan,
            figures: site.figures,
            tick: None,
            leaves: from_ref(wire),
            words: site.words,
        };
        net.note(Note::Copy(copies.len()))?;
        let copy = put_root_of(net, behind, body, marks.as_slice())?;
        net.note(Note::Leave)?;
        copies.push(copy)?;
    }
    Ok(copies)
}
