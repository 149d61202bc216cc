//! The rows of a node's source, far enough apart for the copies of a body.

ghost use Rattle.std.specs.Prelude.{◌≡◌, ◌<◌, ◌≤◌, IfOk, length};
ghost use Rattle.gl_algebra.specs.FigureTable.{IsSound, needs_spacer};
ghost use Rattle.gl_wire.specs.Counted.{AreNarrow};
ghost use Rattle.gl_wire.specs.Faults.{AreLines};
ghost use Rattle.gl_wire.specs.Wire.{IsWire, widths};
ghost use Rattle.gl_wiring.specs.Copies.{IsSpacedFor, IsSpacedSource};
ghost use Rattle.gl_wiring.specs.Tables.{HasCircuit};

use crate::below::laws_below;
use crate::site::Site;
use crate::tables::circuit_at;
use gl_algebra::{Figures, PlanId};
use gl_bits::Memory;
use gl_net::NetBuilder;
use gl_queue::Spacer;
use gl_wire::Emitted;
use std::alloc::Global;

// Whether a spacer stands before copies of a body with this gap.
fn needs_spacer(gap: u32, source: &Figures) -> bool
    ensures { result ≡ needs_spacer gap source.now }
{
    1 < gap && source.a < source.le
}

/// The rows of a source, behind a spacer where they may come closer than the gap.
pub(crate) fn put_apart(
    alloc: Global,
    net: &mut NetBuilder,
    source: Figures,
    gap: u32,
    below: Emitted,
) -> Result<Emitted, Memory>
    requires sound { IsSound source }
    requires gap { 1 ≤ gap }
    requires wire { IsWire net.old below.wire }
    requires lines { AreLines net.old below.faults }
    requires narrow { AreNarrow (widths below.wire.columns) }
    ensures { IfOk result (IsSpacedFor net.old net.new gap source below) }
{
    laws_below();
    if needs_spacer(gap, &source) {
        let spacer = Spacer { source, gap };
        let e = spacer.emit(alloc, net, below)?;
        Ok(e)
    } else {
        Ok(below)
    }
}

/// The rows of a node's source, which is in the table, behind a spacer where they may come closer than the gap.
pub(crate) fn put_source(
    net: &mut NetBuilder,
    site: Site<'_>,
    source: PlanId,
    gap: u32,
    table: &[Option<Emitted>],
) -> Result<Emitted, Memory>
    requires within { source < length site.plan.now }
    requires gap { 1 ≤ gap }
    requires there { HasCircuit site.plan.now net.old site.tick site.leaves.now table.now source }
    ensures { let s = site.entry in IfOk result (IsSpacedSource s.plan.now source gap
        net.old net.new s.tick s.leaves.now) }
{
    laws_below();
    let below = circuit_at(site.alloc, table, source)?;
    let e = put_apart(site.alloc, net, site.figures_at(source), gap, below)?;
    Ok(e)
}
