//! What a simulator shows in a cycle.

ghost use Rattle.std.specs.Prelude.{◌≡◌, ◌<◌, ◌^◌, length, map, slice_index, IfSome};
ghost use Rattle.std.specs.List.{AllByRecursion, AllZip};
ghost use Rattle.gl_bits.specs.Words.{widths_of, bits_of};
ghost use Rattle.gl_verilog.specs.View.{module_of};
ghost use Rattle.gl_runner.specs.Probes.{AreInside, IsSampled, is_one};

use gl_bits::Row;
use gl_sim::Sim;
use gl_testbench::Shows;
use gl_tuples::{Sample, set_value};

/// Whether a port is there and shows 1.
pub(crate) fn is_high(sim: &Sim, port: Option<usize>) -> bool
    requires { IfSome port (λ p. p < length (module_of sim.now.design).declarations) }
    ensures { result ≡ is_one sim.now.shown port }
{
    match port {
        Some(port) => sim.output(port) == 1,
        None => false,
    }
}

/// What the lines of a result show.
pub(crate) fn sample_of(sim: &Sim, shows: &Shows) -> Sample
    requires { AreInside (module_of sim.now.design) shows.now }
    ensures { IsSampled sim.now.shown shows.now result }
{
    Sample {
        group: is_high(sim, shows.group),
        valid: is_high(sim, shows.valid),
        end: is_high(sim, shows.end),
    }
}

/// Puts what the columns show into a row.
pub(crate) fn set_row(sim: &Sim, columns: &[usize], row: &mut Row)
    requires inside { AllByRecursion (λ n. n < length (module_of sim.now.design).declarations)
        columns.now }
    requires lengths { length columns.now ≡ length row.old }
    ensures widths { widths_of row.new ≡ widths_of row.old }
    ensures bits { AllZip (λ n width. slice_index sim.now.shown n < 2 ^ width) columns.now
        (widths_of row.old) → bits_of row.new ≡ map (slice_index sim.now.shown) columns.now }
{
    for (place, port) in columns.iter().enumerate() {
        set_value(row, place, sim.output(*port));
    }
}
