//! What is wrong with a record that sets a parameter, or lacks, in a sentence.

use crate::fields::{field, field_begins};
use crate::lines::put_bytes;
use gl_schema::{Column, Schema};
use gl_tuples::TupleFault;
use std::alloc::AllocError;

/// What a record that sets a parameter has.
pub(crate) const SHAPE: &str =
    "A record that sets a parameter has three fields: set, its name and its value.";

/// Where such a record has to stand.
pub(crate) const FRONT: &str =
    "Parameters are set in front of the first record with a cycle, each once: set,NAME,VALUE.";

/// Whether a record sets a parameter.
pub(crate) fn says_set(record: &[u8]) -> bool {
    field(record, 0).unwrap_or(b"") == b"set".as_slice()
}

/// The parameter that a record names.
pub(crate) fn parameter_of<'a>(record: &[u8], schema: &'a Schema) -> Option<&'a Column> {
    let name = field(record, 1).unwrap_or(b"");
    schema
        .parameters
        .as_slice()
        .iter()
        .find(|parameter| parameter.name.as_slice() == name)
}

/// Appends the names of a schema's parameters.
pub(crate) fn put_parameters(out: &mut String, schema: &Schema) -> Result<(), AllocError> {
    let mut front = "";
    for parameter in schema.parameters.as_slice() {
        out.push_str(front)?;
        put_bytes(out, parameter.name.as_slice())?;
        front = ", ";
    }
    Ok(())
}

/// A parameter that the schema has not.
pub(crate) fn put_unknown_parameter(
    out: &mut String,
    record: &[u8],
    schema: &Schema,
) -> Result<(), AllocError> {
    out.push_str("There is no parameter ")?;
    put_bytes(out, field(record, 1).unwrap_or(b""))?;
    if schema.parameters.as_slice().is_empty() {
        return out.push_str("; the schema has none.");
    }
    out.push_str("; the schema has ")?;
    put_parameters(out, schema)?;
    out.push('.')
}

/// A parameter without a value.
pub(crate) fn put_unset(out: &mut String, schema: &Schema) -> Result<(), AllocError> {
    out.push_str("A parameter has no value. ")?;
    out.push_str(FRONT)?;
    out.push_str(" The schema has ")?;
    put_parameters(out, schema)?;
    out.push('.')
}

/// Where the fault of such a record stands in it.
pub(crate) fn setting_begins(fault: &TupleFault, record: &[u8]) -> usize {
    match fault {
        TupleFault::UnknownParameter { .. } | TupleFault::SetTwice { .. } => {
            field_begins(record, 1)
        }
        TupleFault::BadValue { .. } => field_begins(record, 2),
        TupleFault::FieldCount { .. } => field_begins(record, 3),
        _ => 0,
    }
}
