//! Tracing a module that is handed in: the lines of its run, with all values in decimal.

ghost use Rattle.std.specs.Prelude.{◌≡◌, ◌^◌, ◌≤◌, Ok, IfOk};
ghost use Rattle.gl_schema.specs.Beats.{AreBeats};
ghost use Rattle.gl_schema.specs.Schemas.{IsSchema};
ghost use Rattle.gl_tuples.specs.Gaps.{plain_beats};
ghost use Rattle.gl_verilog.specs.Valid.{IsValid};
ghost use Rattle.gl_verilog.specs.View.{module_of};
ghost use Rattle.gl_verilog_ports.specs.Fit.{fit_of};
ghost use Rattle.gl_verilog_ports.specs.Profile.{HasInputPorts};
ghost use Rattle.gl_runner.specs.Prints.{HasRunOver};
ghost use Rattle.gl_runner.specs.Traces.{OfRunsOf, Traced, decimal_kinds};

use crate::driving::Task;
use crate::following::follow_module;
use gl_bits::Memory;
use gl_outside::Sink;
use gl_testbench::laws::has_runs_over;
use gl_testbench::shows_at;
use gl_values::Kind;
use gl_verilog::Module;
use gl_verilog_ports::{Ports, ports_of, shows_column};
use std::alloc::Global;

/// How a trace ended.
#[derive(Clone, Copy, PartialEq, Eq, Debug)]
pub enum Ending {
    /// At the end of the result.
    Done,
    /// The end came in none of the cycles that were waited for, of which this was the last.
    NoEnd { cycle: u64 },
    /// The sink failed.
    WriteFault,
    /// Want of memory; nothing was written.
    Memory,
}

// The kinds by which the columns of a module are printed: numbers of their ports' bits.
fn decimal_kinds(alloc: Global, design: &Module) -> Result<Vec<Kind>, Memory>
    ensures { IfOk result (λ v. v.items ≡ decimal_kinds (module_of design.now)) }
{
    let mut kinds = Vec::new(alloc);
    for port in ports_of(design) {
        if shows_column(port) {
            kinds.push(Kind::Unsigned(port.width))?;
        }
    }
    Ok(kinds)
}

/// Runs a module that is handed in over beats, and writes the lines of its run, all values in
/// decimal.
///
/// It ends in the first cycle from the last beat's on in which `out__eos` is 1, or, if that comes
/// in none of the extra cycles of the task behind the last beat's, in the last of these. The lines stand as
/// `execute` writes them. All memory is taken before the first line.
pub fn trace<K: Sink>(
    alloc: Global,
    design: Module,
    ports: &Ports,
    task: Task<'_>,
    out: &mut K,
) -> Ending
    requires valid { IsValid (module_of design) }
    requires inputs { HasInputPorts (module_of design) }
    requires fits { fit_of (module_of design) task.schema.now ≡ Ok ports.now }
    requires schema { IsSchema task.schema.now }
    requires beats { AreBeats task.schema.now (plain_beats task.beats.now) }
    requires short { task.extra ≤ 2 ^ 32 }
    ensures run { let t = task.entry in
        HasRunOver (module_of design) t.schema.now (plain_beats t.beats.now) t.start }
    ensures lines { let t = task.entry in let beats = plain_beats t.beats.now in
        Traced (OfRunsOf (module_of design) t.schema.now beats t.start)
        (decimal_kinds (module_of design)) beats t.extra (K.state out.old) (K.state out.new) result }
{
    has_runs_over();
    let Ok(kinds) = decimal_kinds(alloc, &design) else {
        return Ending::Memory;
    };
    let Ok(shows) = shows_at(alloc, &design, ports) else {
        return Ending::Memory;
    };
    follow_module(alloc, design, shows, &kinds, task, out)
}
