//! The circuits of all that roots reach.

ghost use Rattle.std.specs.Prelude.{IfOk};
ghost use Rattle.gl_wiring.specs.Put.{CanPut, IsPut};
ghost use Rattle.gl_wiring.specs.Reached.{AreReached, CanPutAll};
ghost use Rattle.gl_wiring.specs.Roots.{GivesOnce};
ghost use Rattle.gl_wiring.specs.Words.{HaveWords};

use crate::below::laws_below;
use crate::put::put_marked;
use crate::site::Site;
use crate::tables::{Table, circuit_at};
use gl_algebra::PlanId;
use gl_bits::Memory;
use gl_figures::marks_of;
use gl_net::NetBuilder;
use gl_wire::Emitted;
use std::slice::from_ref;

/// Adds the circuits of all that some roots reach, each node once, and gives them by the numbers of their nodes.
///
/// Where a plan over streams reads the time, the site has a line of ticks. Want of memory is the one other answer; what the builder then
/// holds is not said.
pub fn put_reached(net: &mut NetBuilder, site: Site<'_>, roots: &[PlanId]) -> Result<Table, Memory>
    requires can { CanPutAll site.plan.now site.figures.now roots.now net.old site.tick
        site.leaves.now }
    requires words { HaveWords site.plan.now net.old site.words.now }
    ensures { let s = site.entry in IfOk result (λ table.
        AreReached s.plan.now roots.now net.old net.new s.tick s.leaves.now table.items) }
{
    laws_below();
    let limit = site.plan.len();
    let marks = marks_of(site.alloc, site.plan, roots)?;
    let table = put_marked(net, site, marks.as_slice(), limit)?;
    Ok(table)
}

/// The same for one root: adds the circuits of a node and of all below it, and gives the node's wire and its lines.
pub fn put_circuit(net: &mut NetBuilder, site: Site<'_>, id: PlanId) -> Result<Emitted, Memory>
    requires can { CanPut site.plan.now site.figures.now id net.old site.tick site.leaves.now }
    requires words { HaveWords site.plan.now net.old site.words.now }
    ensures put { let s = site.entry in
        IfOk result (λ e. IsPut s.plan.now id net.old net.new s.tick s.leaves.now e) }
    ensures once { let s = site.entry in
        IfOk result (λ e. GivesOnce s.plan.now id net.new s.tick s.leaves.now e) }
{
    laws_below();
    let table = put_reached(net, site, from_ref(&id))?;
    let e = circuit_at(site.alloc, table.as_slice(), id)?;
    Ok(e)
}
