//! Where a result is shown that stands beside others in a module: its ports, by their names.

ghost use Rattle.std.specs.Prelude.{◌≡◌, ◌++◌, codes, map, IfOk};
ghost use Rattle.gl_schema.specs.Schemas.{kinds_of};
ghost use Rattle.gl_verilog.specs.Module as spec;
ghost use Rattle.gl_verilog.specs.View.{module_of};
ghost use Rattle.gl_verilog_ports.specs.Profile as profile;
ghost use Rattle.gl_runner.specs.Naming.{AreShownBy, column_at};

use gl_bits::Memory;
use gl_schema::{Column, Columns, NameText};
use gl_testbench::{Shows, number_of};
use gl_values::Kind;
use gl_verilog::Module;
use gl_verilog_ports::ports_of;
use std::alloc::Global;

/// One of the results that a module shows.
#[derive(Drop, Debug)]
pub struct Face {
    /// Its name, which stands in the names of its ports and in its lines.
    pub name: NameText,
    /// Its columns, in order, with their names and their kinds.
    pub columns: Columns,
}

// The name of a port that has a result's name in it.
fn name_within(alloc: Global, front: &[u8], whose: &[u8], back: &[u8]) -> Result<Vec<u8>, Memory>
    ensures { IfOk result (λ v. v.items ≡ front.now ++ whose.now ++ codes "__" ++ back.now) }
{
    let mut name = Vec::from_slice(alloc, front)?;
    name.extend_from_slice(whose)?;
    name.extend_from_slice(b"__")?;
    name.extend_from_slice(back)?;
    Ok(name)
}

// The number of the port of such a name.
fn port_within(
    alloc: Global,
    design: &Module,
    front: &[u8],
    whose: &[u8],
    back: &[u8],
) -> Result<Option<usize>, Memory>
    ensures { let name = front.now ++ whose.now ++ codes "__" ++ back.now in
        IfOk result (λ o. o ≡ spec.number_of (profile.ports_of (module_of design.now)) name) }
{
    let name = name_within(alloc, front, whose, back)?;
    Ok(number_of(ports_of(design), &name))
}

// The numbers of the ports that show the columns of a result.
#[tactic(auto, unfolding(gl_schema::specs::Ports::out_column))]
fn columns_within(
    alloc: Global,
    design: &Module,
    whose: &[u8],
    columns: &[Column],
) -> Result<Vec<usize>, Memory>
    ensures { let m = module_of design.now in
        IfOk result (λ v. v.items ≡ map (column_at m whose.now) columns.now) }
{
    let mut numbers = Vec::new(alloc);
    for column in columns {
        let port = port_within(alloc, design, b"out__", whose, column.name.as_slice())?;
        numbers.push(port.unwrap_or(0))?;
    }
    Ok(numbers)
}

/// The ports of a module that show a result.
#[tactic(auto, unfolding(gl_schema::specs::Ports::out_valid, gl_schema::specs::Ports::out_eos, gl_schema::specs::Ports::fault_group))]
pub(crate) fn shows_within(alloc: Global, design: &Module, face: &Face) -> Result<Shows, Memory>
    ensures { IfOk result (AreShownBy (module_of design.now) face.now) }
{
    let name = face.name.as_slice();
    Ok(Shows {
        valid: port_within(alloc, design, b"out__", name, b"valid")?,
        end: port_within(alloc, design, b"out__", name, b"eos")?,
        group: port_within(alloc, design, b"fault__", name, b"group")?,
        columns: columns_within(alloc, design, name, face.columns.as_slice())?,
    })
}

/// The kinds of columns, in order.
pub(crate) fn kinds_in(alloc: Global, columns: &[Column]) -> Result<Vec<Kind>, Memory>
    ensures { IfOk result (λ v. v.items ≡ kinds_of columns.now) }
{
    let mut kinds = Vec::new(alloc);
    for column in columns {
        kinds.push(column.kind)?;
    }
    Ok(kinds)
}
