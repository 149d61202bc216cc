//! The circuit of a plan's root: windows with spare copies of their body where it has some, or the node's own.

ghost use Rattle.std.specs.Prelude.{◌≡◌, IfOk, None};
ghost use Rattle.gl_algebra.specs.Roots.{spare_at};
ghost use Rattle.gl_wire.specs.Faults.{AreLines, IsLine};
ghost use Rattle.gl_wire.specs.Wire.{IsWire, widths};
ghost use Rattle.gl_wire_registers.specs.Fronts.{HasColumn};
ghost use Rattle.gl_wiring.specs.Copies.{CanStandBehind, IsPutOver};
ghost use Rattle.gl_wiring.specs.Machines.{CanBe, machine_of};
ghost use Rattle.gl_wiring.specs.Put.{CanPut};
ghost use Rattle.gl_wiring.specs.Roots.{IsRootPut};
ghost use Rattle.gl_wiring.specs.SpareWindows.{IsSpareWindow};
ghost use Rattle.gl_wiring.specs.Words.{HaveWords};

use crate::below::laws_below;
use crate::circuits::put_circuit;
use crate::machines::CopyMachine;
use crate::notes::note_circuit;
use crate::put::put_over_copies;
use crate::site::Site;
use crate::spare_windows::SpareWindowOf;
use crate::windows::WindowOf;
use gl_algebra::{PlanId, PlanNode, Spare};
use gl_bits::Memory;
use gl_net::{NetBuilder, Note};
use gl_wire::Emitted;

/// Adds the circuit of a root behind the leaves, and gives its wire and its lines: what the root owes over one stream.
///
/// The spare copies are those of the root, as `gl_figures` answers them; the site has a line of ticks where the plan reads the time.
pub(crate) fn put_root(
    net: &mut NetBuilder,
    site: Site<'_>,
    root: PlanId,
    spare: Option<Spare>,
) -> Result<Emitted, Memory>
    requires can { CanPut site.plan.now site.figures.now root net.old site.tick site.leaves.now }
    requires spare { spare ≡ spare_at site.plan.now root }
    requires words { HaveWords site.plan.now net.old site.words.now }
    ensures { let s = site.entry in
        IfOk result (λ e. IsRootPut s.plan.now root net.old net.new s.tick s.leaves.now e) }
{
    laws_below();
    let Some(spare) = spare else {
        return put_unspared(net, site, root);
    };
    match site.plan.node(root) {
        PlanNode::Window { .. } => {
            let window = WindowOf::at(site.plan, root);
            put_spare(net, site, SpareWindowOf { window, spare })
        }
        _ => unreachable!(),
    }
}

// Adds the circuit of a root without spare copies: its node's own.
fn put_unspared(net: &mut NetBuilder, site: Site<'_>, root: PlanId) -> Result<Emitted, Memory>
    requires can { CanPut site.plan.now site.figures.now root net.old site.tick site.leaves.now }
    requires none { spare_at site.plan.now root ≡ None }
    requires words { HaveWords site.plan.now net.old site.words.now }
    ensures { let s = site.entry in
        IfOk result (λ e. IsRootPut s.plan.now root net.old net.new s.tick s.leaves.now e) }
{
    laws_below();
    let e = put_circuit(net, site, root)?;
    Ok(e)
}

// A machine over copies of a body, told as the operator with this number.
fn put_machine(
    net: &mut NetBuilder,
    site: Site<'_>,
    id: PlanId,
    body: PlanId,
    machine: CopyMachine,
    source: Emitted,
) -> Result<Emitted, Memory>
    requires numbers { CanBe machine }
    requires wire { IsWire net.old source.wire }
    requires lines { AreLines net.old source.faults }
    requires key { HasColumn (machine_of machine).key (widths source.wire.columns) }
    requires tick { IsLine net.old (machine_of machine).tick }
    requires stands { CanStandBehind site.plan.now site.figures.now body
        (widths source.wire.columns) }
    requires words { HaveWords site.plan.now net.old site.words.now }
    ensures { let s = site.entry in IfOk result
        (IsPutOver s.plan.now body (machine_of machine) source net.old net.new) }
{
    net.note(Note::Operator(id.number()))?;
    let e = put_over_copies(net, site, body, machine, source)?;
    note_circuit(net, &e)?;
    Ok(e)
}

// Adds the circuit of windows with spare copies: their machine behind the source's circuit.
#[tactic(auto, using(crate::proofs::CanLemmas::put_columns))]
fn put_spare(net: &mut NetBuilder, site: Site<'_>, w: SpareWindowOf) -> Result<Emitted, Memory>
    requires node { IsSpareWindow site.plan.now w }
    requires can { CanPut site.plan.now site.figures.now w.window.id net.old site.tick
        site.leaves.now }
    requires words { HaveWords site.plan.now net.old site.words.now }
    ensures { let s = site.entry in IfOk result (λ e.
        IsRootPut s.plan.now w.window.id net.old net.new s.tick s.leaves.now e) }
{
    laws_below();
    let window = w.window;
    let source = put_circuit(net, site, window.source)?;
    let rotation = w.rotation(site);
    let machine = CopyMachine::Spare(rotation);
    let e = put_machine(net, site, window.id, window.body, machine, source)?;
    Ok(e)
}
