//! The inputs of a schema, by their names; no name is made.

ghost use Rattle.std.specs.Prelude.{◌≡◌, bytes_eq, nat_eq, option_map};
ghost use Rattle.gl_values.specs.Kinds as kinds;
ghost use Rattle.gl_schema.specs.Ports.{in_valid, in_column, in_parameter};
ghost use Rattle.gl_verilog_ports.specs.Steps as steps;
ghost use Rattle.gl_verilog_ports.specs.Fit.{inputs, is_among};

use gl_schema::{Column, Schema, Stream};
use gl_values::Kind;

// What stands in a name behind this front.
fn behind<'a>(front: &[u8], name: &'a [u8]) -> Option<&'a [u8]>
    ensures { option_map (λ r. r.now) result ≡ steps.behind front.now name.now }
{
    let Some((first, others)) = front.split_first() else {
        return Some(name);
    };
    match name.split_first() {
        Some((same, rest)) if *first == *same => behind(others, rest),
        _ => None,
    }
}

// Whether it is the name of a stream's valid line.
fn is_valid_name(stream: &[u8], name: &[u8]) -> bool
    ensures { result ≡ steps.is_valid_name stream.now name.now }
{
    let Some(rest) = behind(b"in__", name) else {
        return false;
    };
    match behind(stream, rest) {
        Some(last) => b"__valid".as_slice() == last,
        None => false,
    }
}

// Whether it is the name of a column of a stream.
fn is_column_name(stream: &[u8], column: &[u8], name: &[u8]) -> bool
    ensures { result ≡ steps.is_column_name stream.now column.now name.now }
{
    let Some(rest) = behind(b"in__", name) else {
        return false;
    };
    let Some(more) = behind(stream, rest) else {
        return false;
    };
    match behind(b"__", more) {
        Some(last) => column == last,
        None => false,
    }
}

// Whether it is the name of a parameter's port.
fn is_parameter_name(parameter: &[u8], name: &[u8]) -> bool
    ensures { result ≡ steps.is_parameter_name parameter.now name.now }
{
    match behind(b"set__", name) {
        Some(last) => parameter == last,
        None => false,
    }
}

/// Whether a port of this name is a stream's valid line.
#[tactic(auto, using(crate::proofs::Asked::valid_is))]
pub fn is_in_valid(stream: &[u8], name: &[u8]) -> bool
    ensures { result ≡ bytes_eq (in_valid stream.now) name.now }
{
    is_valid_name(stream, name)
}

/// Whether a port of this name is a column of a stream.
#[tactic(auto, using(crate::proofs::Asked::column_is))]
pub fn is_in_column(stream: &[u8], column: &[u8], name: &[u8]) -> bool
    ensures { result ≡ bytes_eq (in_column stream.now column.now) name.now }
{
    is_column_name(stream, column, name)
}

/// Whether a port of this name is that of a parameter.
#[tactic(auto, using(crate::proofs::Asked::parameter_is))]
pub fn is_in_parameter(parameter: &[u8], name: &[u8]) -> bool
    ensures { result ≡ bytes_eq (in_parameter parameter.now) name.now }
{
    is_parameter_name(parameter, name)
}

// Whether a kind has `width` bits.
fn has_width(kind: Kind, width: u8) -> bool
    ensures { result ≡ nat_eq (kinds.width_of kind) width }
{
    kind.bits() == u16::from(width)
}

// Of the column of this name, whether it has `width` bits.
fn among_columns(stream: &[u8], columns: &[Column], name: &[u8], width: u8) -> Option<bool>
    ensures { result ≡ steps.among_columns stream.now columns.now name.now width }
{
    let (first, rest) = columns.split_first()?;
    if is_column_name(stream, first.name.as_slice(), name) {
        return Some(has_width(first.kind, width));
    }
    among_columns(stream, rest, name, width)
}

// Of the port of this name of a stream.
fn among_stream(stream: &Stream, name: &[u8], width: u8) -> Option<bool>
    ensures { result ≡ steps.among_stream stream.now name.now width }
{
    if is_valid_name(stream.name.as_slice(), name) {
        return Some(1 == width);
    }
    among_columns(
        stream.name.as_slice(),
        stream.columns.as_slice(),
        name,
        width,
    )
}

// Of the port of this name of all streams.
fn among_streams(streams: &[Stream], name: &[u8], width: u8) -> Option<bool>
    ensures { result ≡ steps.among_streams streams.now name.now width }
{
    let (first, rest) = streams.split_first()?;
    match among_stream(first, name, width) {
        Some(fits) => Some(fits),
        None => among_streams(rest, name, width),
    }
}

// Of the parameter of this name, whether it has `width` bits.
fn among_parameters(parameters: &[Column], name: &[u8], width: u8) -> Option<bool>
    ensures { result ≡ steps.among_parameters parameters.now name.now width }
{
    let (first, rest) = parameters.split_first()?;
    if is_parameter_name(first.name.as_slice(), name) {
        return Some(has_width(first.kind, width));
    }
    among_parameters(rest, name, width)
}

// Whether it is the end of the input, the tick, or a parameter.
#[tactic(auto, unfolding(gl_schema::specs::Ports::eos, gl_schema::specs::Ports::tick))]
fn is_last_input(parameters: &[Column], name: &[u8], width: u8) -> bool
    ensures { result ≡ steps.is_last_input parameters.now name.now width }
{
    if b"eos".as_slice() == name {
        return 1 == width;
    }
    if b"tick".as_slice() == name {
        return 1 == width;
    }
    match among_parameters(parameters, name, width) {
        Some(fits) => fits,
        None => false,
    }
}

// The same, as it is looked for.
#[tactic(auto, unfolding(gl_schema::specs::Ports::rst, gl_schema::specs::Profile::clk))]
fn is_wanted(schema: &Schema, name: &[u8], width: u8) -> bool
    ensures { result ≡ steps.is_asked schema.now name.now width }
{
    if b"clk".as_slice() == name {
        return 1 == width;
    }
    if b"rst".as_slice() == name {
        return 1 == width;
    }
    match among_streams(schema.streams.as_slice(), name, width) {
        Some(fits) => fits,
        None => is_last_input(schema.parameters.as_slice(), name, width),
    }
}

/// Whether the clock or an input of the schema has this name and `width` bits.
#[tactic(auto, using(crate::proofs::Asked::asked))]
pub(crate) fn is_asked(schema: &Schema, name: &[u8], width: u8) -> bool
    ensures { result ≡ is_among (inputs schema.now) name.now width }
{
    is_wanted(schema, name, width)
}
