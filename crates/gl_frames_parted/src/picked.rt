//! A wire over the columns of another that are asked for.

ghost use Rattle.std.specs.Prelude.{◌<◌, All, IfOk, length};
ghost use Rattle.gl_frames_parted.specs.Picked.{HasColumns};

use gl_bits::Memory;
use gl_net::Buses;
use gl_wire::Wire;
use std::alloc::Global;

/// A wire with the lines of another, and of its columns those that are asked for.
pub fn picked_wire(alloc: Global, asked: &[usize], wire: &Wire) -> Result<Wire, Memory>
    requires { All (λ column. column < length wire.now.columns) asked.now }
    ensures { IfOk result (HasColumns asked.now wire.now) }
{
    let mut columns = Buses::new(alloc);
    for column in asked {
        columns.push(wire.columns.as_slice()[*column])?;
    }
    Ok(Wire {
        valid: wire.valid,
        eos: wire.eos,
        columns,
    })
}
