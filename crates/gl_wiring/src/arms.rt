//! The circuit of a node of each kind behind those of its children.

ghost use Rattle.std.specs.Prelude.{◌≡◌, ◌<◌, None, Some, slice_get, IfOk, length};
ghost use Rattle.gl_algebra.specs.declared.node.PlanNode.TheVariants.{Compute, Select, Project, Frames, Aggregate, Union, Merge, Beside};
ghost use Rattle.gl_wire.specs.Faults.{no_faults};
ghost use Rattle.gl_wiring.specs.Put.{IsPutBehind};
ghost use Rattle.gl_wiring.specs.Roots.{GivesOnce};
ghost use Rattle.gl_wiring.specs.Tables.{HasCircuit};
ghost use Rattle.gl_wiring.specs.Words.{HaveWords};

use crate::below::laws_below;
use crate::site::Site;
use crate::tables::circuit_at;
use gl_algebra::{Operands, Ops, PlanAggs, PlanFrames, PlanId};
use gl_bits::Memory;
use gl_frames_stages::put_frames;
use gl_net::{Buses, NetBuilder};
use gl_queue::{Joiner, UnionOf};
use gl_rows::{put_compute, put_project, put_select};
use gl_totals::put_totals;
use gl_turns::Turns;
use gl_wire::{Emitted, Faults, Wire};
use std::alloc::Global;

/// The wire at a place, without lines.
pub(crate) fn leaf_of(alloc: Global, leaves: &[Wire], place: usize) -> Result<Emitted, Memory>
    requires { place < length leaves.now }
    ensures wire { IfOk result (λ e. slice_get leaves.now place ≡ Some e.wire) }
    ensures faults { IfOk result (λ e. e.faults ≡ no_faults) }
{
    let wire = &leaves[place];
    match Vec::from_slice(alloc, wire.columns.as_slice()) {
        Ok(columns) => Ok(Emitted {
            wire: Wire {
                valid: wire.valid,
                eos: wire.eos,
                columns: Buses::from_vec(columns),
            },
            faults: Faults {
                passed: None,
                further: None,
            },
        }),
        Err(_) => Err(Memory),
    }
}

/// The rows of the child with one more column for each operation.
pub(crate) fn compute_node(
    net: &mut NetBuilder,
    site: Site<'_>,
    id: PlanId,
    child: PlanId,
    ops: &Ops,
    table: &[Option<Emitted>],
) -> Result<Emitted, Memory>
    requires node { slice_get site.plan.now id ≡ Some (Compute child ops.now) }
    requires there { HasCircuit site.plan.now net.old site.tick site.leaves.now table.now child }
    requires words { HaveWords site.plan.now net.old site.words.now }
    ensures put { let s = site.entry in
        IfOk result (λ e. IsPutBehind s.plan.now id net.old net.new s.tick s.leaves.now e) }
    ensures once { let s = site.entry in
        IfOk result (λ e. GivesOnce s.plan.now id net.new s.tick s.leaves.now e) }
{
    laws_below();
    let below = circuit_at(site.alloc, table, child)?;
    let e = put_compute(
        site.alloc,
        net,
        below,
        site.plan.kinds(child),
        site.words,
        ops.as_slice(),
    )?;
    Ok(e)
}

/// The rows of the child whose column is 1.
pub(crate) fn select_node(
    net: &mut NetBuilder,
    site: Site<'_>,
    id: PlanId,
    child: PlanId,
    column: u16,
    table: &[Option<Emitted>],
) -> Result<Emitted, Memory>
    requires node { slice_get site.plan.now id ≡ Some (Select child column) }
    requires there { HasCircuit site.plan.now net.old site.tick site.leaves.now table.now child }
    ensures put { let s = site.entry in
        IfOk result (λ e. IsPutBehind s.plan.now id net.old net.new s.tick s.leaves.now e) }
    ensures once { let s = site.entry in
        IfOk result (λ e. GivesOnce s.plan.now id net.new s.tick s.leaves.now e) }
{
    laws_below();
    let below = circuit_at(site.alloc, table, child)?;
    let e = put_select(site.alloc, net, below, usize::from(column))?;
    Ok(e)
}

/// Of each row of the child these values.
pub(crate) fn project_node(
    net: &mut NetBuilder,
    site: Site<'_>,
    id: PlanId,
    child: PlanId,
    items: &Operands,
    table: &[Option<Emitted>],
) -> Result<Emitted, Memory>
    requires node { slice_get site.plan.now id ≡ Some (Project child items.now) }
    requires there { HasCircuit site.plan.now net.old site.tick site.leaves.now table.now child }
    requires words { HaveWords site.plan.now net.old site.words.now }
    ensures put { let s = site.entry in
        IfOk result (λ e. IsPutBehind s.plan.now id net.old net.new s.tick s.leaves.now e) }
    ensures once { let s = site.entry in
        IfOk result (λ e. GivesOnce s.plan.now id net.new s.tick s.leaves.now e) }
{
    laws_below();
    let below = circuit_at(site.alloc, table, child)?;
    let e = put_project(
        site.alloc,
        net,
        below,
        site.plan.kinds(child),
        site.words,
        items.as_slice(),
    )?;
    Ok(e)
}

/// Of each row of the child what these items make of it and of the rows before it.
pub(crate) fn frames_node(
    net: &mut NetBuilder,
    site: Site<'_>,
    id: PlanId,
    child: PlanId,
    items: &PlanFrames,
    table: &[Option<Emitted>],
) -> Result<Emitted, Memory>
    requires node { slice_get site.plan.now id ≡ Some (Frames child None items.now) }
    requires there { HasCircuit site.plan.now net.old site.tick site.leaves.now table.now child }
    requires words { HaveWords site.plan.now net.old site.words.now }
    ensures { let s = site.entry in
        IfOk result (λ e. IsPutBehind s.plan.now id net.old net.new s.tick s.leaves.now e) }
{
    laws_below();
    let below = circuit_at(site.alloc, table, child)?;
    let e = put_frames(
        site.alloc,
        net,
        below,
        site.plan.kinds(child),
        site.words,
        items.as_slice(),
    )?;
    Ok(e)
}

/// One row with each end: the aggregates over the rows of the child.
pub(crate) fn aggregate_node(
    net: &mut NetBuilder,
    site: Site<'_>,
    id: PlanId,
    child: PlanId,
    aggs: &PlanAggs,
    table: &[Option<Emitted>],
) -> Result<Emitted, Memory>
    requires node { slice_get site.plan.now id ≡ Some (Aggregate child aggs.now) }
    requires there { HasCircuit site.plan.now net.old site.tick site.leaves.now table.now child }
    requires words { HaveWords site.plan.now net.old site.words.now }
    ensures { let s = site.entry in
        IfOk result (λ e. IsPutBehind s.plan.now id net.old net.new s.tick s.leaves.now e) }
{
    laws_below();
    let below = circuit_at(site.alloc, table, child)?;
    let e = put_totals(
        site.alloc,
        net,
        below,
        site.plan.kinds(child),
        site.words,
        aggs.as_slice(),
    )?;
    Ok(e)
}

/// The rows of both children in one stream, a left row first where both wait.
pub(crate) fn union_node(
    net: &mut NetBuilder,
    site: Site<'_>,
    id: PlanId,
    left: PlanId,
    right: PlanId,
    table: &[Option<Emitted>],
) -> Result<Emitted, Memory>
    requires node { slice_get site.plan.now id ≡ Some (Union left right) }
    requires first { HasCircuit site.plan.now net.old site.tick site.leaves.now table.now left }
    requires second { HasCircuit site.plan.now net.old site.tick site.leaves.now table.now right }
    ensures { let s = site.entry in
        IfOk result (λ e. IsPutBehind s.plan.now id net.old net.new s.tick s.leaves.now e) }
{
    laws_below();
    let first = circuit_at(site.alloc, table, left)?;
    let second = circuit_at(site.alloc, table, right)?;
    let sides = UnionOf {
        left: site.figures_at(left),
        right: site.figures_at(right),
    };
    let e = sides.emit(site.alloc, net, first, second)?;
    Ok(e)
}

/// The rows of both children in the order in which they came, of one beat the left child's first.
pub(crate) fn merge_node(
    net: &mut NetBuilder,
    site: Site<'_>,
    id: PlanId,
    left: PlanId,
    right: PlanId,
    table: &[Option<Emitted>],
) -> Result<Emitted, Memory>
    requires node { slice_get site.plan.now id ≡ Some (Merge left right) }
    requires within { id < length site.plan.now }
    requires first { HasCircuit site.plan.now net.old site.tick site.leaves.now table.now left }
    requires second { HasCircuit site.plan.now net.old site.tick site.leaves.now table.now right }
    ensures { let s = site.entry in
        IfOk result (λ e. IsPutBehind s.plan.now id net.old net.new s.tick s.leaves.now e) }
{
    laws_below();
    // That they are figures shows that those of the turns are small.
    site.figures_at(id);
    let first = circuit_at(site.alloc, table, left)?;
    let second = circuit_at(site.alloc, table, right)?;
    let sides = Turns {
        left: site.figures_at(left),
        right: site.figures_at(right),
    };
    let e = sides.emit(site.alloc, net, first, second)?;
    Ok(e)
}

/// The rows of both children side by side.
pub(crate) fn beside_node(
    net: &mut NetBuilder,
    site: Site<'_>,
    id: PlanId,
    left: PlanId,
    right: PlanId,
    table: &[Option<Emitted>],
) -> Result<Emitted, Memory>
    requires node { slice_get site.plan.now id ≡ Some (Beside left right) }
    requires first { HasCircuit site.plan.now net.old site.tick site.leaves.now table.now left }
    requires second { HasCircuit site.plan.now net.old site.tick site.leaves.now table.now right }
    ensures { let s = site.entry in
        IfOk result (λ e. IsPutBehind s.plan.now id net.old net.new s.tick s.leaves.now e) }
{
    laws_below();
    let first = circuit_at(site.alloc, table, left)?;
    let second = circuit_at(site.alloc, table, right)?;
    let sides = Joiner {
        left: site.figures_at(left),
        right: site.figures_at(right),
    };
    let e = sides.emit(site.alloc, net, first, second)?;
    Ok(e)
}
