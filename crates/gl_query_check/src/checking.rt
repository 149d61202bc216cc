//! A statement over a schema: accepted, or its first fault.

ghost use Rattle.std.specs.Prelude.{◌≡◌, IfErr, IfOk};
ghost use Rattle.gl_schema.specs.Schemas.{IsSchema};
ghost use Rattle.gl_query.specs.Accepted.{IsAccepted};
ghost use Rattle.gl_query.specs.Checked.{IsChecked};
ghost use Rattle.gl_query.specs.Faults.{first_fault};
ghost use Rattle.gl_query.specs.declared.fault.QueryFault.TheVariants as fault;
ghost use Rattle.gl_query.specs.Shapes.{query_shape};
ghost use Rattle.gl_query.specs.Sizes.{QueryIsSmall};
ghost use Rattle.gl_query.specs.Trees.{statement_tree};
ghost use Rattle.gl_query_check.specs.Answers.{IsOr};

use crate::queries::columns_checked;
use gl_bits::{Listed, Memory};
use gl_query::columns::{copy_of_columns, copy_of_name};
use gl_query::laws::first_faults_are_exact;
use gl_query::{QueryFault, Sources, Statement};
use gl_schema::{Schema, Stream, Streams};
use std::alloc::Global;

/// A statement that is accepted over a schema, and the schema.
#[derive(Drop, Debug)]
pub struct Checked {
    /// The schema.
    pub schema: Schema,
    /// A statement that is accepted over the schema.
    pub statement: Statement,
}

// Streams like others.
fn copy_of_streams(alloc: Global, streams: &[Stream]) -> Result<Streams, Memory>
    ensures { IfOk result (λ v. v ≡ streams.now) }
{
    let mut out = Listed::new(alloc);
    for stream in streams {
        let name = copy_of_name(alloc, stream.name.as_slice())?;
        let columns = copy_of_columns(alloc, stream.columns.as_slice())?;
        out.push(Stream { name, columns })?;
    }
    Ok(out)
}

// A schema like another.
fn copy_of_schema(alloc: Global, schema: &Schema) -> Result<Schema, Memory>
    ensures { IfOk result (λ s. s ≡ schema.now) }
{
    let streams = copy_of_streams(alloc, schema.streams.as_slice())?;
    let parameters = copy_of_columns(alloc, schema.parameters.as_slice())?;
    Ok(Schema {
        streams,
        parameters,
    })
}

/// The statement and the schema as they are given, exactly where the statement is accepted over the
/// schema; and else the first rule that it breaks. Only want of memory may come in place of either.
pub fn check(alloc: Global, schema: &Schema, statement: Statement) -> Result<Checked, QueryFault>
    requires of_schema { IsSchema schema.now }
    requires small { QueryIsSmall (query_shape statement.query) }
    ensures schema { IfOk result (λ c. c.schema ≡ schema.now) }
    ensures statement { IfOk result (λ c. c.statement ≡ statement) }
    ensures checked { IfOk result (λ c. IsChecked c.schema c.statement) }
    ensures fault { IfErr result (λ e. IsOr (first_fault schema.now (statement_tree statement)) e) }
    ensures only { IsAccepted schema.now statement → IfErr result (λ e. e ≡ fault.Memory) }
{
    first_faults_are_exact();
    let sources = Sources::Schema(schema.streams.as_slice(), schema.parameters.as_slice());
    match columns_checked(alloc, sources, &statement.query) {
        Ok(columns) => {
            drop(columns);
            match copy_of_schema(alloc, schema) {
                Ok(schema) => Ok(Checked { schema, statement }),
                Err(_) => {
                    drop(statement);
                    Err(QueryFault::Memory)
                }
            }
        }
        Err(fault) => {
            drop(statement);
            Err(fault)
        }
    }
}
