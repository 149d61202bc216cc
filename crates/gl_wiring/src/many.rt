//! The netlist of several results of one plan.

ghost use Rattle.std.specs.Prelude.{◌≡◌, ◌<◌, ◌∷◌, [], IfOk, OnOk, length};
ghost use Rattle.std.specs.List.{AllByRecursion};
ghost use Rattle.gl_wiring.specs.Emitted.{Extends};
ghost use Rattle.gl_wiring.specs.Many.{AreWired, CanWireAll, ids_of};
ghost use Rattle.gl_wiring.specs.ManyNet.{AreShownBy, CanShow, IsManyNet};
ghost use Rattle.gl_wiring.specs.PlanNet.{IsEmpty};
ghost use Rattle.gl_wiring.specs.declared.names.Face.TheVariants.{Among};

use crate::below::laws_below;
use crate::circuits::put_reached;
use crate::leaves::{put_last_inputs, put_leaves};
use crate::names::{Face, ResultNames};
use crate::output::put_result;
use crate::site::Site;
use crate::tables::circuit_at;
use gl_algebra::{Figures, Plan, PlanId};
use gl_bits::Memory;
use gl_net::{NetBuilder, Netlist};
use gl_schema::{NameText, Schema};
use gl_wire::Emitted;
use std::alloc::Global;

/// A node of a plan, and what its result is called.
#[derive(Drop, Debug)]
pub struct Root {
    /// The node.
    pub id: PlanId,
    /// The names of its result and of the result's columns.
    pub names: ResultNames,
}

// The nodes of roots.
fn ids_of(alloc: Global, roots: &[Root]) -> Result<Vec<PlanId>, Memory>
    ensures { IfOk result (λ ids. ids.items ≡ ids_of roots.now) }
{
    let mut ids = Vec::new(alloc);
    for root in roots {
        ids.push(root.id)?;
    }
    Ok(ids)
}

// The face of a result that stands beside others.
fn face_of(alloc: Global, names: &ResultNames) -> Result<Face, Memory>
    ensures { IfOk result (λ face. face ≡ Among names.now.into) }
{
    match Vec::from_slice(alloc, names.into.as_slice()) {
        Ok(into) => Ok(Face::Among(NameText::from_vec(into))),
        Err(_) => Err(Memory),
    }
}

// The output of a root, behind the root's circuit in the table.
fn put_root_result(
    net: &mut NetBuilder,
    site: Site<'_>,
    table: &[Option<Emitted>],
    root: &Root,
    place: usize,
) -> Result<(), Memory>
    requires within { root.now.id < length site.plan.now }
    requires can { CanShow site.plan.now net.old table.now root.now }
    ensures { let s = site.entry in
        OnOk result (AreShownBy s.plan.now table.now net.old net.new (root.now ∷ [])) }
{
    laws_below();
    let e = circuit_at(site.alloc, table, root.id)?;
    let face = face_of(site.alloc, &root.names)?;
    let names = root.names.columns.as_slice();
    put_result(site.alloc, net, place, &e, &face, names)?;
    Ok(())
}

// Those of all roots, one after the other, of which the first has this place.
fn put_results(
    net: &mut NetBuilder,
    site: Site<'_>,
    table: &[Option<Emitted>],
    roots: &[Root],
    place: usize,
) -> Result<(), Memory>
    requires within { AllByRecursion (λ r. r.id < length site.plan.now) roots.now }
    requires can { AllByRecursion (CanShow site.plan.now net.old table.now) roots.now }
    ensures { let s = site.entry in
        OnOk result (AreShownBy s.plan.now table.now net.old net.new roots.now) }
{
    let Some((root, others)) = roots.split_first() else {
        return Ok(());
    };
    put_root_result(net, site, table, root, place)?;
    put_results(net, site, table, others, place.saturating_add(1))?;
    Ok(())
}

// The nodes and ports of several results, in a builder that has none.
fn put_many(
    alloc: Global,
    net: &mut NetBuilder,
    schema: &Schema,
    plan: &Plan,
    figures: &[Figures],
    roots: &[Root],
) -> Result<(), Memory>
    requires can { CanWireAll schema.now plan.now figures.now roots.now }
    requires empty { IsEmpty net.old }
    ensures extends { OnOk result (Extends net.old net.new) }
    ensures plan { OnOk result (IsManyNet schema.now plan.now roots.now net.new) }
{
    laws_below();
    // That its nodes are a plan, which a site keeps.
    let _ = plan.len();
    let leaves = put_leaves(alloc, net, schema)?;
    let parameters = schema.parameters.as_slice();
    let last = put_last_inputs(alloc, net, plan.reads_time(), parameters)?;
    let words = last.words.as_slice();
    let ids = ids_of(alloc, roots)?;
    let site = Site {
        alloc,
        plan,
        figures,
        tick: last.tick,
        leaves: &leaves,
        words,
    };
    let table = put_reached(net, site, &ids)?;
    put_results(net, site, &table, roots, 0)?;
    Ok(())
}

/// The netlist of several results of one plan: the inputs of an emitted module for this schema, for each root in order the outputs of
/// its result under names with the result's own in them, and the circuits of all that the roots reach, each once, between them.
///
/// The figures are those of all nodes, as `gl_figures` answers them. Every run over beats that keep the greatest of the roots' gaps is
/// right for each of them within its own latency. No root has spare copies. Want of memory is the one other answer.
pub fn wire_roots(
    alloc: Global,
    schema: &Schema,
    plan: &Plan,
    figures: &[Figures],
    roots: &[Root],
) -> Result<Netlist, Memory>
    requires { CanWireAll schema.now plan.now figures.now roots.now }
    ensures { IfOk result (AreWired schema.now plan.now roots.now) }
{
    laws_below();
    let mut net = NetBuilder::new(alloc);
    net.module(b"q__many")?;
    put_many(alloc, &mut net, schema, plan, figures, roots)?;
    Ok(net.finish())
}
