//! The fault of a text whose module has other ports than a schema and a result ask for, at its place.

ghost use Rattle.std.specs.Prelude.{◌≡◌};
ghost use Rattle.gl_top_inputs.specs.Places as places;

use gl_schema::Schema;
use gl_verilog_ports::{Misfit, Ports, find_ports};
use gl_verilog_reader::Source;
use gl_verilog_tokens::VerilogFault;

// The place of what shows a misfit.
fn place_of(source: &Source, misfit: Misfit) -> u64
    ensures { result ≡ places.misfit_place source.now misfit }
{
    match misfit {
        Misfit::Port(number) => match source.ports_at.as_slice().get(number) {
            Some(at) => *at,
            None => source.name_at,
        },
        Misfit::Lacks => source.name_at,
    }
}

/// The ports of a module that was read, where they are those of a schema and of a result; else the fault, at the place of the first
/// port that no module may have, or, where none is so and one is lacking, of the module's name. Takes no memory.
pub fn fit(source: &Source, schema: &Schema) -> Result<Ports, VerilogFault>
    ensures { result ≡ places.fit_at source.now schema.now }
{
    match find_ports(&source.design, schema) {
        Ok(ports) => Ok(ports),
        Err(misfit) => Err(VerilogFault::BadPort {
            at: place_of(source, misfit),
        }),
    }
}
