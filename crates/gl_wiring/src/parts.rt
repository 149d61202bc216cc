//! Parts of an emitted netlist: its ports, and what stands right behind them.

ghost use Rattle.std.specs.Prelude.{◌≡◌, ◌<◌, ◌∷◌, [], OnOk, IfOk};
ghost use Rattle.std.specs.List.{AllByRecursion};
ghost use Rattle.gl_bits.specs.Words.{IsWidth};
ghost use Rattle.gl_schema.specs.Schemas.{IsColumn, IsStream};
ghost use Rattle.gl_schema.specs.Ports.{in_valid};
ghost use Rattle.gl_net.specs.Builds.{PutsPort};
ghost use Rattle.gl_net.specs.Net.{IsBus, IsPort};
ghost use Rattle.gl_net.specs.declared.node.Direction.TheVariants.{In, Out};
ghost use Rattle.gl_wiring.specs.EmittedPorts.{input, output, column_widths, stream_columns, stream_inputs};
ghost use Rattle.gl_wiring.specs.Emitted.{bus_widths, Puts, Extends, CostsNothing, HasInputs};

use crate::names::{in_column_name, in_valid_name};
use gl_bits::Memory;
use gl_net::{Bus, Buses, NetBuilder};
use gl_schema::Stream;
use std::alloc::Global;

/// The input ports of a stream.
#[derive(Drop, Debug)]
pub struct Source {
    /// That of the valid line.
    pub valid: Bus,
    /// Those of the columns.
    pub columns: Buses,
}

/// An input port.
pub(crate) fn put_input(net: &mut NetBuilder, name: &[u8], width: u8) -> Result<Bus, Memory>
    requires { IsWidth width }
    ensures extends { OnOk result (Extends net.old net.new) }
    ensures ports { OnOk result (Puts net.old net.new (input name.now width ∷ [])) }
    ensures cost { OnOk result (CostsNothing net.old net.new) }
    ensures port { IfOk result (λ b. IsPort net.new In name.now b.node) }
    ensures last { IfOk result (λ b. PutsPort net.old net.new In name.now b.node) }
    ensures bus { IfOk result (λ b. IsBus net.new b) }
    ensures width { IfOk result (λ b. b.width ≡ width) }
{
    let bus = net.input(name, width)?;
    Ok(bus)
}

/// An output port that shows a bus.
pub(crate) fn put_output(net: &mut NetBuilder, name: &[u8], value: Bus) -> Result<(), Memory>
    requires { IsBus net.old value }
    ensures extends { OnOk result (Extends net.old net.new) }
    ensures ports { OnOk result (Puts net.old net.new (output name.now value.width ∷ [])) }
    ensures cost { OnOk result (CostsNothing net.old net.new) }
    ensures port { OnOk result (IsPort net.new Out name.now value.node) }
{
    net.output(name, value)?;
    Ok(())
}

/// The input ports of the columns of a stream.
fn put_columns(alloc: Global, net: &mut NetBuilder, stream: &Stream) -> Result<Buses, Memory>
    requires { AllByRecursion IsColumn stream.now.columns }
    ensures extends { OnOk result (Extends net.old net.new) }
    ensures ports { OnOk result (Puts net.old net.new (stream_columns stream.now)) }
    ensures cost { OnOk result (CostsNothing net.old net.new) }
    ensures inputs { IfOk result (HasInputs net.new stream.now) }
    ensures widths { IfOk result (λ bs. bus_widths bs ≡ column_widths stream.now.columns) }
{
    let mut buses = Buses::new(alloc);
    for column in stream.columns.as_slice() {
        let name = in_column_name(alloc, stream.name.as_slice(), column.name.as_slice())?;
        let bus = put_input(net, &name, column.kind.width())?;
        buses.push(bus)?;
    }
    Ok(buses)
}

/// The input ports of a stream.
pub(crate) fn put_stream(
    alloc: Global,
    net: &mut NetBuilder,
    stream: &Stream,
) -> Result<Source, Memory>
    requires { IsStream stream.now }
    ensures extends { OnOk result (Extends net.old net.new) }
    ensures ports { OnOk result (Puts net.old net.new (stream_inputs stream.now)) }
    ensures cost { OnOk result (CostsNothing net.old net.new) }
    ensures port { IfOk result (λ s. IsPort net.new In (in_valid stream.now.name) s.valid.node) }
    ensures bus { IfOk result (λ s. IsBus net.new s.valid) }
    ensures bit { IfOk result (λ s. s.valid.width ≡ 1) }
    ensures inputs { IfOk result (λ s. HasInputs net.new stream.now s.columns) }
    ensures widths { IfOk result (λ s. bus_widths s.columns ≡ column_widths stream.now.columns) }
{
    let name = in_valid_name(alloc, stream.name.as_slice())?;
    let valid = put_input(net, &name, 1)?;
    let columns = put_columns(alloc, net, stream)?;
    Ok(Source { valid, columns })
}
