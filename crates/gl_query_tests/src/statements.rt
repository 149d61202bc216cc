//! What texts come to as statements.

ghost use Rattle.gl_schema.specs.Schemas.{IsSchema};

use gl_query::{Query, QueryFault, Statement};
use gl_query_check::check;
use gl_query_printer::print_statement;
use gl_query_reader::read_query;
use gl_schema::{Schema, read_schema};
use std::alloc::{AllocError, Global};

// A fault, with its place.
fn fault_told(alloc: Global, fault: &QueryFault) -> Result<String, AllocError> {
    format!(in alloc; "{fault:?}")
}

/// The fault of a text, or that it is read.
pub(crate) fn read(alloc: Global, text: &[u8]) -> Result<String, AllocError> {
    match read_query(alloc, text) {
        Ok(_) => String::from_str(alloc, "read"),
        Err(fault) => fault_told(alloc, &fault),
    }
}

// The answer to a front, whose end is told in words.
fn front_told(alloc: Global, front: &[u8]) -> Result<String, AllocError> {
    match read_query(alloc, front) {
        Err(QueryFault::Syntax { at }) if at == front.len() as u64 => {
            String::from_str(alloc, "Syntax at its end")
        }
        Ok(_) => String::from_str(alloc, "read"),
        Err(fault) => fault_told(alloc, &fault),
    }
}

/// The answers to the fronts that end before a space, those of one answer together.
pub(crate) fn fronts(alloc: Global, text: &[u8]) -> Result<String, AllocError> {
    let mut out = String::new(alloc);
    let mut last = String::new(alloc);
    for size in 0..text.len() {
        if text[size] == b' ' {
            let now = front_told(alloc, &text[..size])?;
            if now != last {
                out.push_str(format!(in alloc; "from {size}: {now}")?.as_str())?;
            }
            last = now;
        }
    }
    Ok(out)
}

// The word of a query.
fn word_of(query: &Query) -> &'static str {
    match query {
        Query::Read(_) => "stream",
        Query::Rows { .. } | Query::Total { .. } | Query::Frames { .. } => "SELECT",
        Query::Each { .. }
        | Query::EachTime { .. }
        | Query::PerGroup { .. }
        | Query::Partition { .. } => "EACH",
        Query::Union { .. } => "UNION",
        Query::ByArrival { .. } => "UNION BY ARRIVAL",
        Query::AsOf { .. } => "ASOF",
        Query::Concat { .. } => "CONCAT",
    }
}

// The words of a statement's query and of what it joins.
fn join_told(alloc: Global, statement: &Statement) -> Result<String, AllocError> {
    let word = word_of(&statement.query);
    match &statement.query {
        Query::Union { left, right, .. }
        | Query::ByArrival { left, right, .. }
        | Query::AsOf { left, right, .. }
        | Query::Concat { left, right, .. } => {
            let (left, right) = (word_of(left), word_of(right));
            format!(in alloc; "{word} of {left} and {right}")
        }
        _ => String::from_str(alloc, word),
    }
}

/// Which join a text is, and of what.
pub(crate) fn joined(alloc: Global, text: &[u8]) -> Result<String, AllocError> {
    match read_query(alloc, text) {
        Ok(statement) => join_told(alloc, &statement),
        Err(fault) => fault_told(alloc, &fault),
    }
}

// The fault of a statement over a schema, or that it is accepted.
fn judged(alloc: Global, schema: &Schema, text: &[u8]) -> Result<String, AllocError>
    requires { IsSchema schema.now }
{
    let fault = match read_query(alloc, text) {
        Ok(statement) => match check(alloc, schema, statement) {
            Ok(_) => return String::from_str(alloc, "accepted"),
            Err(fault) => fault,
        },
        Err(fault) => fault,
    };
    fault_told(alloc, &fault)
}

/// The fault of a text's statement over a schema, or that it is accepted.
pub(crate) fn checked(alloc: Global, schema: &[u8], text: &[u8]) -> Result<String, AllocError> {
    match read_schema(alloc, schema) {
        Ok(schema) => judged(alloc, &schema, text),
        Err(_) => String::from_str(alloc, "no schema"),
    }
}

// The canonical text of a statement.
fn canonical(alloc: Global, statement: &Statement) -> Result<String, AllocError> {
    let mut bytes = Vec::new(alloc);
    match print_statement(alloc, statement, &mut bytes) {
        Ok(()) => String::from_str(alloc, str::from_utf8(&bytes).unwrap_or("?")),
        Err(_) => String::from_str(alloc, "out of memory"),
    }
}

/// The canonical text of a text's statement.
pub(crate) fn printed(alloc: Global, text: &[u8]) -> Result<String, AllocError> {
    match read_query(alloc, text) {
        Ok(statement) => canonical(alloc, &statement),
        Err(fault) => fault_told(alloc, &fault),
    }
}

/// The canonical text of a select with a condition.
pub(crate) fn printed_with(alloc: Global, condition: &[u8]) -> Result<String, AllocError> {
    let condition = str::from_utf8(condition).unwrap_or("?");
    let text = format!(in alloc; "SELECT * FROM s WHERE {condition} INTO r")?;
    printed(alloc, text.as_bytes())
}
