//! The netlist of a plan.

ghost use Rattle.std.specs.Prelude.{IfOk, OnOk};
ghost use Rattle.gl_wiring.specs.Emitted.{Extends};
ghost use Rattle.gl_wiring.specs.PlanNet.{IsEmpty, IsPlanNet};
ghost use Rattle.gl_wiring.specs.Wired.{CanWire, IsWired};

use crate::below::laws_below;
use crate::leaves::{put_last_inputs, put_leaves};
use crate::many::Root;
use crate::names::{Face, module_name};
use crate::output::put_result;
use crate::roots::put_root;
use crate::site::Site;
use gl_algebra::{Figures, Plan, Spare};
use gl_bits::Memory;
use gl_net::{NetBuilder, Netlist};
use gl_schema::Schema;
use std::alloc::Global;

// The nodes and ports of a plan, in a builder that has none. The site has no leaves yet.
fn put_plan(
    net: &mut NetBuilder,
    bare: Site<'_>,
    schema: &Schema,
    root: &Root,
    spare: Option<Spare>,
) -> Result<(), Memory>
    requires can { CanWire schema.now bare.plan.now root.now.id bare.figures.now spare
        root.now.names }
    requires empty { IsEmpty net.old }
    ensures extends { OnOk result (Extends net.old net.new) }
    ensures plan { let s = bare.entry in OnOk result
        (IsPlanNet schema.now s.plan.now root.now.id root.now.names.columns net.new) }
{
    laws_below();
    let leaves = put_leaves(bare.alloc, net, schema)?;
    let parameters = schema.parameters.as_slice();
    let last = put_last_inputs(bare.alloc, net, bare.plan.reads_time(), parameters)?;
    let words = last.words.as_slice();
    let site = Site {
        alloc: bare.alloc,
        plan: bare.plan,
        figures: bare.figures,
        tick: last.tick,
        leaves: &leaves,
        words,
    };
    let e = put_root(net, site, root.id, spare)?;
    let names = root.names.columns.as_slice();
    put_result(site.alloc, net, 0, &e, &Face::Alone, names)?;
    Ok(())
}

/// The netlist of a plan: the ports of an emitted module for this schema and this result, and the circuit of the root between them.
///
/// The figures are those of all nodes, and the spare copies those of the root, as `gl_figures` answers them; the root has a name for each
/// of its columns. Every run over beats that keep the root's gap is right for the plan within its latency. Want of memory is the one
/// other answer.
pub fn wire_plan(
    alloc: Global,
    schema: &Schema,
    plan: &Plan,
    figures: &[Figures],
    root: &Root,
    spare: Option<Spare>,
) -> Result<Netlist, Memory>
    requires { CanWire schema.now plan.now root.now.id figures.now spare root.now.names }
    ensures { IfOk result (IsWired schema.now plan.now root.now.id root.now.names) }
{
    laws_below();
    // That its nodes are a plan, which a site keeps.
    let _ = plan.len();
    let mut net = NetBuilder::new(alloc);
    let name = module_name(alloc, root.names.into.as_slice())?;
    net.module(&name)?;
    let bare = Site {
        alloc,
        plan,
        figures,
        tick: None,
        leaves: &[],
        words: &[],
    };
    put_plan(&mut net, bare, schema, root, spare)?;
    Ok(net.finish())
}
