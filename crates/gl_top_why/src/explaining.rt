//! What is told of a refusal behind its line.

use crate::fields::record_of;
use crate::lines::{put_place, shown_place};
use crate::pieces::pieces_of;
use crate::querying::put_query;
use crate::records::{fault_begins, put_record};
use crate::schemas::put_schema;
use crate::texts::{Sort, put_other};
use gl_bits::Memory;
use gl_figures::Limit;
use gl_gaps::Gaps;
use gl_query::QueryFault;
use gl_schema::{Schema, SchemaFault, read_schema};
use gl_top_forms::{Part, Taken};
use gl_top_status::{Refusal, query_place, schema_place, tuples_record};
use gl_tuples::TupleFault;
use std::alloc::{AllocError, Global};

/// A refusal, and the texts that were read before it.
#[derive(Drop)]
pub struct Refused<'a> {
    /// The words, which name the texts.
    pub words: &'a Taken<'a>,
    /// The refusal.
    pub refusal: &'a Refusal,
    /// The text of the schema.
    pub schema: &'a [u8],
    /// The text of the query.
    pub query: &'a [u8],
    /// The tuple file.
    pub tuples: &'a [u8],
    /// The gaps of the query.
    pub gaps: Gaps,
}

// Of a schema.
fn put_schema_fault(
    alloc: Global,
    out: &mut String,
    refused: &Refused<'_>,
    fault: &SchemaFault,
) -> Result<(), AllocError> {
    let at = schema_place(fault);
    put_place(
        out,
        refused.words.name(Part::Schema),
        refused.schema,
        shown_place(refused.schema, at),
    )?;
    let pieces = pieces_of(alloc, refused.schema)?;
    if put_other(out, &pieces, Sort::Schema)? {
        return Ok(());
    }
    put_schema(out, fault, &pieces, pieces.find(at))
}

// Of a query over a schema.
fn put_query_fault(
    alloc: Global,
    out: &mut String,
    refused: &Refused<'_>,
    schema: &Schema,
    fault: &QueryFault,
) -> Result<(), AllocError> {
    let at = query_place(fault);
    put_place(
        out,
        refused.words.name(Part::Query),
        refused.query,
        shown_place(refused.query, at),
    )?;
    let pieces = pieces_of(alloc, refused.query)?;
    if put_other(out, &pieces, Sort::Query)? {
        return Ok(());
    }
    put_query(out, fault, &pieces, at, schema)
}

// The bytes of a tuple file that tell whether it is one.
const FRONT: usize = 4096;

// Of a record of the tuple file.
fn put_tuples_fault(
    alloc: Global,
    out: &mut String,
    refused: &Refused<'_>,
    schema: &Schema,
    fault: &TupleFault,
) -> Result<(), AllocError> {
    let text = refused.tuples;
    let record = record_of(text, tuples_record(fault));
    let at = record
        .begins
        .saturating_add(fault_begins(fault, record.bytes, schema));
    put_place(out, refused.words.name(Part::Tuples), text, at as u64)?;
    if matches!(fault, TupleFault::BadCycle { .. }) {
        let pieces = pieces_of(alloc, text.get(..FRONT).unwrap_or(text))?;
        if put_other(out, &pieces, Sort::Tuples)? {
            return Ok(());
        }
    }
    put_record(out, fault, record, schema, refused.gaps)
}

// Of a limit.
fn put_limit(out: &mut String, limit: Limit) -> Result<(), AllocError> {
    match limit {
        Limit::Latency { .. } => out.push_str(
            "A latency or a gap reaches 2^32 cycles: put fewer windows and groups in each other.",
        ),
        Limit::Nodes { weight } => write!(
            out,
            "The plan has the weight {weight}, and at most 262,144 are compiled. Take fewer copies (SIZE by ADVANCE, GROUPS), fewer columns in their body, or sum and count in place of avg."
        ),
    }
}

// Of a text that was not read.
fn put_unread(
    out: &mut String,
    words: &Taken<'_>,
    part: Part,
    sentence: &str,
) -> Result<(), AllocError> {
    let what = match part {
        Part::Schema => "the schema",
        Part::Query => "the query",
        Part::Tuples => "the tuple file",
        _ => "the text",
    };
    let name = words.name(part);
    write!(out, "{sentence} {name}, which is to be {what}.")
}

// What is told of a refusal.
fn put_refusal(alloc: Global, out: &mut String, refused: &Refused<'_>) -> Result<(), AllocError> {
    let words = refused.words;
    match refused.refusal {
        Refusal::Schema(fault) => put_schema_fault(alloc, out, refused, fault),
        Refusal::Limit(limit) => put_limit(out, *limit),
        Refusal::Missing(part) => put_unread(out, words, *part, "No file has the name"),
        Refusal::ReadFault(part) => put_unread(out, words, *part, "The system could not read"),
        Refusal::TooLong(part) => put_unread(
            out,
            words,
            *part,
            "A text has at most 64 MiB, and more has",
        ),
        Refusal::Query(_) | Refusal::Tuples(_) => match read_schema(alloc, refused.schema) {
            Ok(schema) => put_behind_schema(alloc, out, refused, &schema),
            Err(_) => Ok(()),
        },
        _ => Ok(()),
    }
}

// What is told of a refusal behind a schema that was read.
fn put_behind_schema(
    alloc: Global,
    out: &mut String,
    refused: &Refused<'_>,
    schema: &Schema,
) -> Result<(), AllocError> {
    match refused.refusal {
        Refusal::Query(fault) => put_query_fault(alloc, out, refused, schema, fault),
        Refusal::Tuples(fault) => put_tuples_fault(alloc, out, refused, schema, fault),
        _ => Ok(()),
    }
}

/// What is told of a refusal behind its line: the place, the line of the text with a mark, what is wrong,
/// and what to write.
pub fn explanation(alloc: Global, refused: &Refused<'_>) -> Result<String, Memory> {
    let mut out = String::new(alloc);
    match put_refusal(alloc, &mut out, refused) {
        Ok(()) => {}
        Err(_) => return Err(Memory),
    }
    match out.push('\n') {
        Ok(()) => Ok(out),
        Err(_) => Err(Memory),
    }
}
