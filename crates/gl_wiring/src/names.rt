//! The names of an emitted module's ports.

ghost use Rattle.std.specs.Prelude.{◌≡◌, ◌++◌, IfOk, OnOk, codes};
ghost use Rattle.gl_schema.specs.Ports.{in_valid, in_column, in_parameter};
ghost use Rattle.gl_wiring.specs.Naming.{WorkedNames, naming_of, with_shown};

use gl_bits::{Listed, Memory};
use gl_schema::NameText;
use std::alloc::Global;

/// The names of a result: that behind INTO, and those of its columns in order.
#[derive(Drop, Debug)]
pub struct ResultNames {
    /// The name behind INTO.
    pub into: NameText,
    /// Those of the columns.
    pub columns: Listed<NameText>,
}

/// Where a result stands, which its ports are called by.
#[derive(Drop, Debug)]
pub enum Face {
    /// It is the one result of its module.
    Alone,
    /// It stands beside others, under the name behind INTO.
    Among(NameText),
}

fn add(name: &mut Vec<u8>, piece: &[u8]) -> Result<(), Memory>
    ensures { OnOk result (name.new.items ≡ name.old.items ++ piece.now) }
{
    match name.extend_from_slice(piece) {
        Ok(()) => Ok(()),
        Err(_) => Err(Memory),
    }
}

/// `q__INTO`, the name of the module.
pub(crate) fn module_name(alloc: Global, into: &[u8]) -> Result<Vec<u8>, Memory>
    ensures { IfOk result (λ v. v.items ≡ codes "q__" ++ into.now) }
{
    let mut name = Vec::new(alloc);
    add(&mut name, b"q__")?;
    add(&mut name, into)?;
    Ok(name)
}

/// `in__STREAM__valid`.
#[tactic(auto, unfolding(gl_schema::specs::Ports::in_valid))]
pub fn in_valid_name(alloc: Global, stream: &[u8]) -> Result<Vec<u8>, Memory>
    ensures { IfOk result (λ v. v.items ≡ in_valid stream.now) }
{
    let mut name = Vec::new(alloc);
    add(&mut name, b"in__")?;
    add(&mut name, stream)?;
    add(&mut name, b"__valid")?;
    Ok(name)
}

/// `in__STREAM__COLUMN`.
#[tactic(auto, unfolding(gl_schema::specs::Ports::in_column))]
pub fn in_column_name(alloc: Global, stream: &[u8], column: &[u8]) -> Result<Vec<u8>, Memory>
    ensures { IfOk result (λ v. v.items ≡ in_column stream.now column.now) }
{
    let mut name = Vec::new(alloc);
    add(&mut name, b"in__")?;
    add(&mut name, stream)?;
    add(&mut name, b"__")?;
    add(&mut name, column)?;
    Ok(name)
}

/// `set__NAME`.
#[tactic(auto, unfolding(gl_schema::specs::Ports::in_parameter))]
pub(crate) fn in_parameter_name(alloc: Global, parameter: &[u8]) -> Result<Vec<u8>, Memory>
    ensures { IfOk result (λ v. v.items ≡ in_parameter parameter.now) }
{
    let mut name = Vec::new(alloc);
    add(&mut name, b"set__")?;
    add(&mut name, parameter)?;
    Ok(name)
}

// What a port shows, behind `out__` or `fault__`: `WHAT`, or `INTO__WHAT`.
fn add_shown(name: &mut Vec<u8>, face: &Face, what: &[u8]) -> Result<(), Memory>
    ensures { OnOk result (name.new.items ≡ with_shown face.now name.old.items what.now) }
{
    match face {
        Face::Alone => add(name, what),
        Face::Among(result) => {
            add(name, result.as_slice())?;
            add(name, b"__")?;
            add(name, what)
        }
    }
}

/// `out__WHAT`, as the face calls it.
pub(crate) fn out_name(alloc: Global, face: &Face, what: &[u8]) -> Result<Vec<u8>, Memory>
    ensures { IfOk result (λ v. v.items ≡ naming_of face.now (codes "out__" ++ what.now)) }
{
    let mut name = Vec::new(alloc);
    add(&mut name, b"out__")?;
    add_shown(&mut name, face, what)?;
    Ok(name)
}

/// `fault__WHAT`, as the face calls it.
pub(crate) fn fault_name(alloc: Global, face: &Face, what: &[u8]) -> Result<Vec<u8>, Memory>
    ensures { IfOk result (λ v. v.items ≡ naming_of face.now (codes "fault__" ++ what.now)) }
{
    let mut name = Vec::new(alloc);
    add(&mut name, b"fault__")?;
    add_shown(&mut name, face, what)?;
    Ok(name)
}

/// Worked names of ports: of each the definition says what was worked out by hand.
pub fn worked_names()
    ensures { WorkedNames }
{}
