//! Where the results of statements are shown: the name of each, and its columns.

ghost use Rattle.std.specs.Prelude.{◌≡◌, IfOk};
ghost use Rattle.gl_plan.specs.Together.{statements_of};
ghost use Rattle.gl_many.specs.Runs.{face_of, faces_of};

use gl_bits::Memory;
use gl_query::Statement;
use gl_query::columns::{Sources, columns_of, copy_of_name};
use gl_query_check::Checked;
use gl_runner::Face;
use gl_schema::Schema;
use std::alloc::Global;

// Where the result of a statement is shown.
fn face_of(alloc: Global, schema: &Schema, statement: &Statement) -> Result<Face, Memory>
    ensures { IfOk result (λ v. v ≡ face_of schema.now statement.now) }
{
    let sources = Sources::Schema(schema.streams.as_slice(), schema.parameters.as_slice());
    Ok(Face {
        name: copy_of_name(alloc, statement.name.text.as_slice())?,
        columns: columns_of(alloc, sources, &statement.query)?,
    })
}

/// Where the result of each statement is shown, in their order.
pub(crate) fn faces_of(
    alloc: Global,
    schema: &Schema,
    statements: &[Checked],
) -> Result<Vec<Face>, Memory>
    ensures { IfOk result (λ v. v.items ≡ faces_of schema.now (statements_of statements.now)) }
{
    let mut faces = Vec::new(alloc);
    for checked in statements {
        let face = face_of(alloc, schema, &checked.statement)?;
        faces.push(face)?;
    }
    Ok(faces)
}
