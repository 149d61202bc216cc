//! The input ports of a schema, and the wires of its streams.

ghost use Rattle.std.specs.Prelude.{◌≡◌, [], IfOk, OnOk, map};
ghost use Rattle.std.specs.List.{AllByRecursion};
ghost use Rattle.gl_net.specs.Finished.{HasReset};
ghost use Rattle.gl_net.specs.Net.{held_ports};
ghost use Rattle.gl_rows.specs.Made.{AreHeldBuses};
ghost use Rattle.gl_schema.specs.Schemas.{IsColumn, IsSchema, IsStream};
ghost use Rattle.gl_wiring.specs.Emitted.{AreSources, CostsNothing, Extends, Puts, bus_widths};
ghost use Rattle.gl_wiring.specs.EmittedPorts.{column_widths, parameter_inputs, streams_inputs};
ghost use Rattle.gl_wiring.specs.Output.{early_inputs, late_inputs, tick_input};
ghost use Rattle.gl_wiring.specs.StreamWires.{AreStreamWires, IsTickLine, wire_at, wire_from};

use crate::names::in_parameter_name;
use crate::parts::{Source, put_input, put_stream};
use gl_bits::Memory;
use gl_net::{Bit, Bus, Buses, NetBuilder};
use gl_schema::{Column, Schema, Stream};
use gl_wire::Wire;
use std::alloc::Global;

// The input ports of streams, one after the other.
fn put_sources(
    alloc: Global,
    net: &mut NetBuilder,
    streams: &[Stream],
) -> Result<Vec<Source>, Memory>
    requires { AllByRecursion IsStream streams.now }
    ensures extends { OnOk result (Extends net.old net.new) }
    ensures ports { OnOk result (Puts net.old net.new (streams_inputs streams.now)) }
    ensures cost { OnOk result (CostsNothing net.old net.new) }
    ensures sources { IfOk result (λ all. AreSources net.new streams.now all.items) }
{
    let mut sources = Vec::new(alloc);
    for stream in streams {
        let source = put_stream(alloc, net, stream)?;
        sources.push(source)?;
    }
    Ok(sources)
}

// The wire of these ports.
fn wire_of(alloc: Global, valid: Bus, columns: &[Bus], end: Bit) -> Result<Wire, Memory>
    ensures { IfOk result (λ w. w ≡ wire_at valid columns.now end) }
{
    match Vec::from_slice(alloc, columns) {
        Ok(columns) => Ok(Wire {
            valid: Bit { node: valid.node },
            eos: end,
            columns: Buses::from_vec(columns),
        }),
        Err(_) => Err(Memory),
    }
}

// The wires of the ports of streams.
fn wires_of(alloc: Global, sources: &[Source], end: Bit) -> Result<Vec<Wire>, Memory>
    ensures { IfOk result (λ all. all.items ≡ map (wire_from end) sources.now) }
{
    let mut wires = Vec::new(alloc);
    for source in sources {
        let wire = wire_of(alloc, source.valid, source.columns.as_slice(), end)?;
        wires.push(wire)?;
    }
    Ok(wires)
}

/// The input ports of a schema from `rst` to `eos`, and the wire of each stream.
pub(crate) fn put_leaves(
    alloc: Global,
    net: &mut NetBuilder,
    schema: &Schema,
) -> Result<Vec<Wire>, Memory>
    requires { IsSchema schema.now }
    ensures extends { OnOk result (Extends net.old net.new) }
    ensures ports { OnOk result (Puts net.old net.new (early_inputs schema.now)) }
    ensures cost { OnOk result (CostsNothing net.old net.new) }
    ensures reset { OnOk result (HasReset net.new) }
    ensures wires { IfOk result (λ all. AreStreamWires net.new schema.now.streams all.items) }
{
    put_input(net, b"rst", 1)?;
    let streams = schema.streams.as_slice();
    let sources = put_sources(alloc, net, streams)?;
    let end = put_input(net, b"eos", 1)?;
    let wires = wires_of(alloc, &sources, end.bit())?;
    Ok(wires)
}

// The input port of the tick, where it is asked for.
fn put_tick(net: &mut NetBuilder, ticks: bool) -> Result<Option<Bit>, Memory>
    ensures extends { OnOk result (Extends net.old net.new) }
    ensures ports { OnOk result (Puts net.old net.new (tick_input ticks)) }
    ensures cost { OnOk result (CostsNothing net.old net.new) }
    ensures line { IfOk result (λ line. IsTickLine net.new ticks line) }
    ensures none { held_ports net.old.ports ≡ [] → OnOk result (held_ports net.new.ports ≡ []) }
{
    if !ticks {
        return Ok(None);
    }
    let tick = put_input(net, b"tick", 1)?;
    Ok(Some(tick.bit()))
}

// The input ports of parameters, and the bus of each: no port before them is held.
fn put_parameters(
    alloc: Global,
    net: &mut NetBuilder,
    parameters: &[Column],
) -> Result<Buses, Memory>
    requires columns { AllByRecursion IsColumn parameters.now }
    requires none { held_ports net.old.ports ≡ [] }
    ensures extends { OnOk result (Extends net.old net.new) }
    ensures ports { OnOk result (Puts net.old net.new (parameter_inputs parameters.now)) }
    ensures cost { OnOk result (CostsNothing net.old net.new) }
    ensures held { IfOk result (λ words. AreHeldBuses net.new words) }
    ensures widths { IfOk result (λ words. bus_widths words ≡ column_widths parameters.now) }
{
    let mut words = Buses::new(alloc);
    for parameter in parameters {
        let name = in_parameter_name(alloc, parameter.name.as_slice())?;
        let bus = put_input(net, &name, parameter.kind.width())?;
        words.push(bus)?;
    }
    Ok(words)
}

/// The inputs behind `eos`.
#[derive(Drop)]
pub struct LastInputs {
    /// The line of ticks, where it is asked for.
    pub tick: Option<Bit>,
    /// The buses of the parameters, in the order of their numbers.
    pub words: Buses,
}

/// The input ports behind `eos`: that of the tick, where it is asked for, and those of parameters.
pub(crate) fn put_last_inputs(
    alloc: Global,
    net: &mut NetBuilder,
    ticks: bool,
    parameters: &[Column],
) -> Result<LastInputs, Memory>
    requires columns { AllByRecursion IsColumn parameters.now }
    requires none { held_ports net.old.ports ≡ [] }
    ensures extends { OnOk result (Extends net.old net.new) }
    ensures ports { OnOk result (Puts net.old net.new (late_inputs ticks parameters.now)) }
    ensures cost { OnOk result (CostsNothing net.old net.new) }
    ensures line { IfOk result (λ last. IsTickLine net.new ticks last.tick) }
    ensures held { IfOk result (λ last. AreHeldBuses net.new last.words) }
    ensures widths { IfOk result (λ last. bus_widths last.words ≡ column_widths parameters.now) }
{
    let tick = put_tick(net, ticks)?;
    let words = put_parameters(alloc, net, parameters)?;
    Ok(LastInputs { tick, words })
}
