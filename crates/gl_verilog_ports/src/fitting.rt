//! The ports of a module, judged in their order.

ghost use Rattle.std.specs.Prelude.{◌≡◌, ◌+◌, ◌<◌, ◌^◌, map};
ghost use Rattle.gl_verilog.specs.Run as run;
ghost use Rattle.gl_verilog.specs.View.{declaration_of, kind_of, module_of};
ghost use Rattle.gl_verilog_ports.specs.Fit as spec;
ghost use Rattle.gl_verilog_ports.specs.Profile as profile;

use crate::names::is_asked;
use gl_schema::Schema;
use gl_verilog::{Declaration, Kind, Module};

/// Where the ports of the profile stand that do not belong to a stream or a column: their numbers.
#[derive(Clone, Copy, PartialEq, Eq, Debug)]
pub struct Ports {
    /// The clock.
    pub clock: usize,
    /// The reset, where there is such an input.
    pub reset: Option<usize>,
    /// The end of the input, where there is such an input.
    pub input_end: Option<usize>,
    /// The tick, where there is such an input.
    pub tick: Option<usize>,
    /// Whether a row leaves.
    pub valid: usize,
    /// The end of the result.
    pub end: usize,
    /// That a further group came, where there is such a line.
    pub group: Option<usize>,
    /// That a queue overflowed, where there is such a line.
    pub queue: Option<usize>,
}

/// Why the ports of a module are not those of a schema and of a result.
#[derive(Clone, Copy, PartialEq, Eq, Debug)]
pub enum Misfit {
    /// The port of this number is the first that no module may have.
    Port(usize),
    /// The clock, the result's valid line or its end is lacking: the module's name shows it.
    Lacks,
}

fn is_input(kind: Kind) -> bool
    ensures { result ≡ run.is_input (kind_of kind) }
{
    matches!(kind, Kind::Input)
}

fn is_output(kind: Kind) -> bool
    ensures { result ≡ profile.is_output (kind_of kind) }
{
    matches!(kind, Kind::OutputWire | Kind::OutputRegister)
}

// Whether it is the name of a line.
#[tactic(auto, unfolding(gl_schema::specs::Ports::out_valid, gl_schema::specs::Ports::out_eos, gl_schema::specs::Ports::fault_group, gl_schema::specs::Ports::fault_queue))]
fn is_line_name(name: &[u8]) -> bool
    ensures { result ≡ spec.is_line_name name.now }
{
    name == b"out__valid".as_slice()
        || name == b"out__eos".as_slice()
        || name == b"fault__group".as_slice()
        || name == b"fault__queue".as_slice()
}

fn is_line(port: &Declaration) -> bool
    ensures { result ≡ spec.is_line (declaration_of port.now) }
{
    is_output(port.kind) && port.width == 1
}

/// Whether a port shows a column of the result.
#[tactic(auto, unfolding(gl_schema::specs::Ports::out_valid, gl_schema::specs::Ports::out_eos))]
pub fn shows_column(port: &Declaration) -> bool
    ensures { result ≡ profile.shows_column (declaration_of port.now) }
{
    is_output(port.kind)
        && port.name.as_slice().starts_with(b"out__".as_slice())
        && port.name.as_slice() != b"out__valid".as_slice()
        && port.name.as_slice() != b"out__eos".as_slice()
}

// Whether no module may have this port behind `columns` columns.
fn is_bad(schema: &Schema, columns: usize, port: &Declaration) -> bool
    ensures { result ≡ spec.is_bad schema.now columns (declaration_of port.now) }
{
    let strange = is_input(port.kind) && !is_asked(schema, port.name.as_slice(), port.width);
    let crooked = is_line_name(port.name.as_slice()) && !is_line(port);
    let wide = shows_column(port) && (32 <= columns || 64 < port.width);
    strange || crooked || wide
}

// The columns up to a port, it included.
fn with_port(columns: usize, port: &Declaration) -> usize
    requires { columns + 1 < 2 ^ 64 }
    ensures { result ≡ spec.with_port columns (declaration_of port.now) }
{
    if shows_column(port) {
        columns + 1
    } else {
        columns
    }
}

// The first port that no module may have.
fn first_bad(schema: &Schema, ports: &[Declaration]) -> Option<usize>
    ensures { result ≡ spec.first_bad schema.now 0 0 (map declaration_of ports.now) }
{
    let mut columns = 0;
    for (number, port) in ports.iter().enumerate() {
        if is_bad(schema, columns, port) {
            return Some(number);
        }
        columns = with_port(columns, port);
    }
    None
}

// The number of the input of a name.
fn input_at(ports: &[Declaration], name: &[u8]) -> Option<usize>
    ensures { result ≡ spec.input_at (map declaration_of ports.now) name.now }
{
    for (number, port) in ports.iter().enumerate() {
        if is_input(port.kind) && port.name.as_slice() == name {
            return Some(number);
        }
    }
    None
}

// The number of the output of a name.
fn output_at(ports: &[Declaration], name: &[u8]) -> Option<usize>
    ensures { result ≡ spec.output_at (map declaration_of ports.now) name.now }
{
    for (number, port) in ports.iter().enumerate() {
        if is_output(port.kind) && port.name.as_slice() == name {
            return Some(number);
        }
    }
    None
}

/// The ports of a module.
pub fn ports_of(design: &Module) -> &[Declaration]
    ensures { map declaration_of result.now ≡ profile.ports_of (module_of design.now) }
{
    let declarations = design.declarations.as_slice();
    declarations
        .split_at(design.ports.min(declarations.len()))
        .0
}

// The ports, where none is bad and none is lacking.
#[tactic(auto, unfolding(gl_schema::specs::Profile::clk, gl_schema::specs::Ports::rst, gl_schema::specs::Ports::eos, gl_schema::specs::Ports::tick, gl_schema::specs::Ports::out_valid, gl_schema::specs::Ports::out_eos, gl_schema::specs::Ports::fault_group, gl_schema::specs::Ports::fault_queue))]
fn found_in(ports: &[Declaration]) -> Result<Ports, Misfit>
    ensures { result ≡ spec.found_in (map declaration_of ports.now) }
{
    let Some(clock) = input_at(ports, b"clk") else {
        return Err(Misfit::Lacks);
    };
    let Some(valid) = output_at(ports, b"out__valid") else {
        return Err(Misfit::Lacks);
    };
    let Some(end) = output_at(ports, b"out__eos") else {
        return Err(Misfit::Lacks);
    };
    Ok(Ports {
        clock,
        reset: input_at(ports, b"rst"),
        input_end: input_at(ports, b"eos"),
        tick: input_at(ports, b"tick"),
        valid,
        end,
        group: output_at(ports, b"fault__group"),
        queue: output_at(ports, b"fault__queue"),
    })
}

/// The ports of a module, where they are those of a schema and of a result; else the first that no module may have, in their order, or,
/// where none is so, that one is lacking. Takes no memory.
pub fn find_ports(design: &Module, schema: &Schema) -> Result<Ports, Misfit>
    ensures { result ≡ spec.fit_of (module_of design.now) schema.now }
{
    let ports = ports_of(design);
    match first_bad(schema, ports) {
        Some(number) => Err(Misfit::Port(number)),
        None => found_in(ports),
    }
}
