//! Which port of a module is what: the inputs of the streams, and what shows the result.

ghost use Rattle.std.specs.Prelude.{◌≡◌, ◌∷◌, [], ◌<◌, None, Some, map, option_map, IfOk, slice_index};
ghost use Rattle.gl_schema.specs.Ports.{out_valid, out_eos, fault_group};
ghost use Rattle.gl_tuples.specs.Gaps.{plain_beat};
ghost use Rattle.gl_verilog.specs.View.{declaration_of, module_of};
ghost use Rattle.gl_verilog.specs.Module as spec;
ghost use Rattle.gl_testbench.specs.Carried.{at_reset, column_pin, parameter_pin, pin_named, stream_pin, with_beat};
ghost use Rattle.gl_verilog_ports.specs.Profile as profile;
ghost use Rattle.gl_testbench.specs.Benches.{columns_from, AreShows};

use gl_bits::Memory;
use gl_schema::{Column, Schema, Stream};
use gl_tuples::BeatView;
use gl_verilog::{Declaration, Module};
use gl_verilog_ports::{Ports, is_in_column, is_in_parameter, is_in_valid, ports_of, shows_column};
use std::alloc::Global;

/// What an input port carries.
#[derive(Clone, Copy, PartialEq, Eq, Debug)]
pub enum Pin {
    /// The reset line.
    Reset,
    /// Whether a tuple of this stream comes.
    Valid(usize),
    /// A column of a stream: the stream's number and the column's place.
    Column(usize, usize),
    /// The end of the input.
    End,
    /// Whether a tick comes.
    Tick,
    /// The word of the parameter of this number.
    Parameter(usize),
    /// Nothing that the beats tell of.
    Unknown,
}

/// The numbers of the ports that show a result.
#[derive(Drop, Debug)]
pub struct Shows {
    /// The port that is 1 in cycles with a row, if the module has it.
    pub valid: Option<usize>,
    /// The port that is 1 in the cycle of the end, if the module has it.
    pub end: Option<usize>,
    /// The port that is 1 where a further group came, if the module has it.
    pub group: Option<usize>,
    /// The ports of the result's columns, in order.
    pub columns: Vec<usize>,
}

// The column of stream `at` that the port of this name carries, if it is one.
fn column_pin_of(stream: &Stream, at: usize, name: &[u8]) -> Pin
    ensures { result ≡ column_pin name.now stream.now.name at 0 stream.now.columns }
{
    for (place, column) in stream.columns.as_slice().iter().enumerate() {
        if is_in_column(stream.name.as_slice(), column.name.as_slice(), name) {
            return Pin::Column(at, place);
        }
    }
    Pin::Unknown
}

// What the port of this name carries of stream `at`.
fn pin_in(stream: &Stream, at: usize, name: &[u8]) -> Pin
    ensures { result ≡ stream_pin name.now at (stream.now ∷ []) }
{
    if is_in_valid(stream.name.as_slice(), name) {
        return Pin::Valid(at);
    }
    column_pin_of(stream, at, name)
}

// What the port of this name carries of the streams.
fn stream_pin_of(streams: &[Stream], name: &[u8]) -> Pin
    ensures { result ≡ stream_pin name.now 0 streams.now }
{
    for (at, stream) in streams.iter().enumerate() {
        let pin = pin_in(stream, at, name);
        if pin != Pin::Unknown {
            return pin;
        }
    }
    Pin::Unknown
}

// The parameter that the port of this name carries, if it is one.
fn parameter_pin_of(parameters: &[Column], name: &[u8]) -> Pin
    ensures { result ≡ parameter_pin name.now 0 parameters.now }
{
    for (number, parameter) in parameters.iter().enumerate() {
        if is_in_parameter(parameter.name.as_slice(), name) {
            return Pin::Parameter(number);
        }
    }
    Pin::Unknown
}

/// What an input port carries, by its name.
#[tactic(auto, unfolding(gl_schema::specs::Ports::rst, gl_schema::specs::Ports::eos, gl_schema::specs::Ports::tick))]
pub fn pin_of(schema: &Schema, name: &[u8]) -> Pin
    ensures { result ≡ pin_named schema.now name.now }
{
    if b"rst".as_slice() == name {
        return Pin::Reset;
    }
    match stream_pin_of(schema.streams.as_slice(), name) {
        Pin::Unknown if b"eos".as_slice() == name => Pin::End,
        Pin::Unknown if b"tick".as_slice() == name => Pin::Tick,
        Pin::Unknown => parameter_pin_of(schema.parameters.as_slice(), name),
        pin => pin,
    }
}

// The number at a place of a row, or of the parameters.
#[tactic(auto, using(crate::proofs::Words::number_steps))]
fn number_at(row: &[u64], place: usize) -> u128
    ensures { result ≡ slice_index row.now place }
{
    match row.get(place).copied() {
        Some(number) => u128::from(number),
        None => 0,
    }
}

/// What a pin carries in the cycle of the reset, with these words of the parameters.
pub fn value_at_reset(pin: Pin, sets: &[u64]) -> u128
    ensures { result ≡ at_reset sets.now pin }
{
    match pin {
        Pin::Reset => 1,
        Pin::Parameter(parameter) => number_at(sets, parameter),
        Pin::Valid(_) | Pin::Column(_, _) | Pin::End | Pin::Tick | Pin::Unknown => 0,
    }
}

// What a pin carries in a file cycle without a beat.
fn value_between(pin: Pin, sets: &[u64]) -> u128
    ensures { result ≡ with_beat sets.now None pin }
{
    match pin {
        Pin::Parameter(parameter) => number_at(sets, parameter),
        Pin::Reset | Pin::Valid(_) | Pin::Column(_, _) | Pin::End | Pin::Tick | Pin::Unknown => 0,
    }
}

/// What a pin carries in a file cycle with this beat, or with none, and these words of the
/// parameters.
pub fn value_of(pin: Pin, sets: &[u64], beat: Option<&BeatView<'_>>) -> u128
    ensures { result ≡ with_beat sets.now (option_map (λ b. plain_beat b.now) beat.entry) pin }
{
    let Some(beat) = beat else {
        return value_between(pin, sets);
    };
    match pin {
        Pin::Valid(stream) => u128::from(beat.row(stream).is_some()),
        Pin::Column(stream, column) => match beat.row(stream) {
            Some(row) => number_at(row, column),
            None => 0,
        },
        Pin::End => u128::from(beat.ends()),
        Pin::Tick => u128::from(beat.ticks()),
        Pin::Parameter(parameter) => number_at(sets, parameter),
        Pin::Reset | Pin::Unknown => 0,
    }
}

/// The number of the port of a name.
pub fn number_of(ports: &[Declaration], name: &[u8]) -> Option<usize>
    ensures { result ≡ spec.number_of (map declaration_of ports.now) name.now }
{
    for (number, port) in ports.iter().enumerate() {
        if port.name.as_slice() == name {
            return Some(number);
        }
    }
    None
}

// The numbers of the ports that show the columns of the result.
fn columns_of(alloc: Global, ports: &[Declaration]) -> Result<Vec<usize>, Memory>
    ensures { IfOk result (λ v. v.items ≡ columns_from 0 (map declaration_of ports.now)) }
{
    let mut columns = Vec::new(alloc);
    for (number, port) in ports.iter().enumerate() {
        if shows_column(port) {
            columns.push(number)?;
        }
    }
    Ok(columns)
}

/// The ports of a module that show a result, by their names.
#[tactic(auto, unfolding(gl_schema::specs::Ports::out_valid, gl_schema::specs::Ports::out_eos, gl_schema::specs::Ports::fault_group))]
pub fn shows_of(alloc: Global, design: &Module) -> Result<Shows, Memory>
    ensures { IfOk result (AreShows (module_of design.now)) }
{
    let ports = ports_of(design);
    Ok(Shows {
        valid: number_of(ports, b"out__valid"),
        end: number_of(ports, b"out__eos"),
        group: number_of(ports, b"fault__group"),
        columns: columns_of(alloc, ports)?,
    })
}

/// The ports of a module that show a result, where the numbers of its lines are known.
pub fn shows_at(alloc: Global, design: &Module, lines: &Ports) -> Result<Shows, Memory>
    requires valid { spec.number_of (profile.ports_of (module_of design.now)) out_valid
        ≡ Some lines.now.valid }
    requires end { spec.number_of (profile.ports_of (module_of design.now)) out_eos
        ≡ Some lines.now.end }
    requires group { spec.number_of (profile.ports_of (module_of design.now)) fault_group
        ≡ lines.now.group }
    ensures { IfOk result (AreShows (module_of design.now)) }
{
    Ok(Shows {
        valid: Some(lines.valid),
        end: Some(lines.end),
        group: lines.group,
        columns: columns_of(alloc, ports_of(design))?,
    })
}
