//! The columns of a result, and the names under which they stand on a module.

ghost use Rattle.std.specs.Prelude.{◌≡◌, IfOk};
ghost use Rattle.gl_schema.specs.Schemas.{column_names};
ghost use Rattle.gl_compiler.specs.Meets.{result_columns};

use gl_bits::Memory;
use gl_query::Statement;
use gl_query::columns::{Sources, columns_of, copy_of_name, names_of};
use gl_schema::{Column, Columns, Schema};
use gl_wiring::ResultNames;
use std::alloc::Global;

/// The columns of a statement's result.
pub fn result_columns(
    alloc: Global,
    schema: &Schema,
    statement: &Statement,
) -> Result<Columns, Memory>
    ensures { IfOk result (λ v. v ≡ result_columns schema.now statement.now) }
{
    let sources = Sources::Schema(schema.streams.as_slice(), schema.parameters.as_slice());
    columns_of(alloc, sources, &statement.query)
}

/// The names of a statement's result, whose columns these are.
pub fn result_names(
    alloc: Global,
    statement: &Statement,
    columns: &[Column],
) -> Result<ResultNames, Memory>
    ensures into { IfOk result (λ names. names.into ≡ statement.now.name.text) }
    ensures columns { IfOk result (λ names. names.columns ≡ column_names columns.now) }
{
    Ok(ResultNames {
        into: copy_of_name(alloc, statement.name.text.as_slice())?,
        columns: names_of(alloc, columns)?,
    })
}
