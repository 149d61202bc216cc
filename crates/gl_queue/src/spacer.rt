//! The spacer.

ghost use Rattle.std.specs.Prelude.{◌≡◌, ◌≤◌, ◌∷◌, ◌^◌, drop, length, IfOk};
ghost use Rattle.gl_algebra.specs.FigureTable.{AreSmall, IsSound, spacer_figures};
ghost use Rattle.gl_wire.specs.Faults.{AreLines};
ghost use Rattle.gl_wire.specs.Wire.{IsWire};
ghost use Rattle.gl_queue.specs.SpacerLines.{IsSpacedOf, bus_of};
ghost use Rattle.gl_queue.specs.Spacers.{IsSpacerOf};

use crate::laws::{spacer_serves, spacer_spaces};
use crate::merge::Merged;
use crate::pacing::put_paced;
use gl_algebra::Figures;
use gl_bits::Memory;
use gl_net::{Bus, Buses, NetBuilder};
use gl_wire::{Emitted, Faults, Wire, both, either, either_line, note_stage};
use std::alloc::Global;

// The columns of a wire behind its lines.
fn with_lines(alloc: Global, wire: &Wire) -> Result<Buses, Memory>
    ensures { IfOk result (λ bs.
        bs ≡ bus_of wire.now.valid ∷ bus_of wire.now.eos ∷ wire.now.columns) }
{
    let mut all = Buses::new(alloc);
    all.push(wire.valid.bus())?;
    all.push(wire.eos.bus())?;
    let mut columns = all.into_vec();
    match columns.extend_from_slice(wire.columns.as_slice()) {
        Ok(()) => Ok(Buses::from_vec(columns)),
        Err(_) => Err(Memory),
    }
}

// The columns behind the first two.
fn without_lines(alloc: Global, columns: &[Bus]) -> Result<Buses, Memory>
    requires { 2 ≤ length columns.now }
    ensures { IfOk result (λ bs. bs ≡ drop 2 columns.now) }
{
    match Vec::from_slice(alloc, &columns[2..]) {
        Ok(rest) => Ok(Buses::from_vec(rest)),
        Err(_) => Err(Memory),
    }
}

/// A wire that carries what another does, at least `gap` cycles apart, and whether its queue is passed.
pub fn put_spaced(
    alloc: Global,
    net: &mut NetBuilder,
    wire: &Wire,
    depth: u64,
    gap: u32,
) -> Result<Merged, Memory>
    requires wire { IsWire net.old wire.now }
    requires some_places { 1 ≤ depth }
    requires most { depth ≤ 2 ^ 32 }
    ensures { IfOk result (IsSpacedOf net.old net.new depth gap wire.now) }
{
    let comes = either(net, wire.valid, wire.eos)?;
    let columns = with_lines(alloc, wire)?;
    let paced = put_paced(alloc, net, depth, gap, comes, columns.as_slice())?;
    let shown = paced.queue.columns.as_slice();
    let valid = both(net, paced.pop, shown[0].bit())?;
    let eos = both(net, paced.pop, shown[1].bit())?;
    let columns = without_lines(alloc, shown)?;
    let merged = Merged {
        wire: Wire {
            valid,
            eos,
            columns,
        },
        passed: paced.queue.passed,
    };
    note_stage(net, &merged.wire)?;
    Ok(merged)
}

/// The rows and ends of a stream, at least `gap` cycles apart. It stands where it is needed alone.
#[derive(Clone, Copy)]
pub struct Spacer {
    /// The figures of what comes in.
    pub source: Figures,
    /// How far apart at least.
    pub gap: u32,
}

impl Spacer {
    /// The figures of what leaves.
    pub fn figures(&self) -> Figures
        requires { AreSmall (spacer_figures self.now.gap self.now.source) }
        ensures value { result ≡ spacer_figures self.now.gap self.now.source }
        ensures sound { 1 ≤ self.now.gap → IsSound self.now.source → IsSound result }
    {
        let source = &self.source;
        let a = source.a + 1;
        let lt = if source.nt == 0 {
            a
        } else {
            source.lt + 1 + (source.nt - 1) * self.gap
        };
        let le = source.le + 1 + source.ne * self.gap;
        Figures {
            a,
            lt,
            le,
            nt: source.nt,
            ne: source.ne,
            gt: source.gt.max(lt.saturating_sub(a) + self.gap),
            ge: source.ge.max(le.saturating_sub(a) + self.gap),
        }
    }

    /// Adds the spacer behind its input, and gives what comes out.
    pub fn emit(
        &self,
        alloc: Global,
        net: &mut NetBuilder,
        below: Emitted,
    ) -> Result<Emitted, Memory>
        requires sound { IsSound self.now.source }
        requires gap { 1 ≤ self.now.gap }
        requires wire { IsWire net.old below.wire }
        requires lines { AreLines net.old below.faults }
        ensures { IfOk result (IsSpacerOf net.old net.new self.now.gap self.now.source below) }
    {
        spacer_serves();
        spacer_spaces();
        let spaced = put_spaced(alloc, net, &below.wire, self.source.ne as u64 + 1, self.gap)?;
        let passed = either_line(net, below.faults.passed, Some(spaced.passed))?;
        Ok(Emitted {
            wire: spaced.wire,
            faults: Faults {
                passed,
                further: below.faults.further,
            },
        })
    }
}
