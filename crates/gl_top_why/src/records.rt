//! What is wrong with a tuple file, in a sentence: the record, the field, its column, its kind and its value.

use crate::fields::{Record, field, field_begins};
use crate::lines::put_bytes;
use crate::names::{put_columns, put_kind, put_streams, stream_named};
use crate::settings::{
    FRONT, SHAPE, parameter_of, put_unknown_parameter, put_unset, says_set, setting_begins,
};
use crate::words::{is_number, number_of};
use gl_gaps::Gaps;
use gl_schema::{Column, Schema, Stream, kind_size};
use gl_tuples::TupleFault;
use gl_values::Kind;
use std::alloc::AllocError;
use std::fmt::Write;

// The greatest number of so many bits.
fn greatest(bits: u32) -> u64 {
    let cut = 64u32.saturating_sub(bits);
    if cut >= 64 { 0 } else { u64::MAX >> cut }
}

// The greatest number of a kind, and how far its least one is below 0.
fn bounds(kind: Kind) -> (u64, u64) {
    let bits = u32::from(kind_size(kind));
    match kind {
        Kind::Signed(_) => {
            let most = greatest(bits.saturating_sub(1));
            (most, most.saturating_add(1))
        }
        _ => (greatest(bits), 0),
    }
}

// Whether a value fits its kind. A quote inside is passed over, since it may stand for another.
fn fits(kind: Kind, value: &[u8]) -> bool {
    let (most, below) = bounds(kind);
    match (kind, value) {
        (Kind::Text(_), _) if value.contains(&b'"') => true,
        (Kind::Text(bytes), _) => {
            value.len() <= usize::from(bytes)
                && value.iter().all(|byte| matches!(*byte, b' '..=b'~'))
        }
        (Kind::Signed(_), [b'-', digits @ ..]) => is_at_most(digits, below),
        (_, digits) => is_at_most(digits, most),
    }
}

// Whether digits spell a number up to this one.
fn is_at_most(digits: &[u8], most: u64) -> bool {
    match number_of(digits) {
        Some(number) => number <= most,
        None => false,
    }
}

// A number past the bounds of its kind.
fn put_bound(out: &mut String, kind: Kind, is_below: bool) -> Result<(), AllocError> {
    let (most, below) = bounds(kind);
    if is_below {
        write!(out, "The number is below the least of its kind, -{below}")?;
    } else {
        write!(out, "The number is above the greatest of its kind, {most}")?;
    }
    out.push_str(if kind_size(kind) >= 64 {
        ", and no kind is wider: count in a greater unit."
    } else {
        ": write a wider kind in the schema."
    })
}

// Why a value does not fit its kind.
fn put_value_cure(out: &mut String, kind: Kind, value: &[u8]) -> Result<(), AllocError> {
    let is_below = value.starts_with(b"-");
    match kind {
        Kind::Text(_) => out.push_str(
            "The kind says how many bytes a text has at most, and each prints. Write a shorter one, or a wider kind in the schema.",
        ),
        _ if value.is_empty() => out.push_str(
            "There is no NULL: write 0, or give the feed a column of kind u1 that tells.",
        ),
        _ if value.contains(&b'.') => out.push_str(
            "There are no fractions: write the number in its smallest unit, 11247 for 112.47.",
        ),
        Kind::Unsigned(_) if is_below => out.push_str(
            "The kind has no sign: write one of s2 to s64 in the schema.",
        ),
        _ if is_number(value) => put_bound(out, kind, false),
        _ if is_below && is_number(value.get(1..).unwrap_or(b"")) => put_bound(out, kind, true),
        _ => out.push_str(
            "A number has digits alone, behind a - where it is below 0: no other sign, no space and no unit.",
        ),
    }
}

// The first field that does not fit its column, counted from 0, and that column.
fn bad_field<'a>(record: &[u8], stream: &'a Stream) -> Option<(usize, &'a Column)> {
    let mut at = 2usize;
    for column in stream.columns.as_slice() {
        if !fits(column.kind, field(record, at).unwrap_or(b"")) {
            return Some((at, column));
        }
        at = at.saturating_add(1);
    }
    None
}

// The stream that a record names.
fn stream_of<'a>(record: &[u8], schema: &'a Schema) -> Option<&'a Stream> {
    stream_named(schema, field(record, 1).unwrap_or(b""))
}

// A value that its column has no room for.
fn put_bad_value(out: &mut String, record: &[u8], schema: &Schema) -> Result<(), AllocError> {
    if says_set(record) {
        return put_bad_setting(out, record, schema);
    }
    let bad = match stream_of(record, schema) {
        Some(stream) => bad_field(record, stream),
        None => None,
    };
    let Some((at, column)) = bad else {
        return out.push_str("A value does not fit the kind of its column.");
    };
    let number = at.saturating_add(1);
    write!(out, "Field {number}, column ")?;
    put_misfit(out, column, field(record, at).unwrap_or(b""))
}

// A value that its parameter has no room for.
fn put_bad_setting(out: &mut String, record: &[u8], schema: &Schema) -> Result<(), AllocError> {
    let Some(parameter) = parameter_of(record, schema) else {
        return out.push_str("A value does not fit the kind of its parameter.");
    };
    out.push_str("Field 3, parameter ")?;
    put_misfit(out, parameter, field(record, 2).unwrap_or(b""))
}

// That a value does not fit its column or its parameter, and why.
fn put_misfit(out: &mut String, column: &Column, value: &[u8]) -> Result<(), AllocError> {
    put_bytes(out, column.name.as_slice())?;
    out.push_str(" of kind ")?;
    put_kind(out, column.kind)?;
    if value.is_empty() {
        out.push_str(", is empty. ")?;
    } else {
        out.push_str(", has no value ")?;
        put_bytes(out, value)?;
        out.push_str(". ")?;
    }
    put_value_cure(out, column.kind, value)
}

// What a record of the stream that this one names has.
fn put_shape(out: &mut String, record: &[u8], schema: &Schema) -> Result<(), AllocError> {
    if says_set(record) {
        return out.push_str(SHAPE);
    }
    let Some(stream) = stream_of(record, schema) else {
        return out.push_str(
            "A record is a cycle, a stream and a value for each column, or a cycle and tick, or a cycle and end.",
        );
    };
    out.push_str("A record of ")?;
    put_bytes(out, stream.name.as_slice())?;
    put_columns(
        out,
        " is a cycle, the stream, and a value for each of ",
        stream,
    )?;
    out.push('.')
}

// A stream that the schema has not.
fn put_unknown(out: &mut String, record: &[u8], schema: &Schema) -> Result<(), AllocError> {
    out.push_str("There is no stream ")?;
    put_bytes(out, field(record, 1).unwrap_or(b""))?;
    out.push_str("; the schema has ")?;
    put_streams(out, schema)?;
    out.push_str(", and tick and end are records too.")
}

// A beat that comes too soon behind the one before, or with a tick or the end behind the tick before.
fn put_close(out: &mut String, record: Record<'_>, gaps: Gaps) -> Result<(), AllocError> {
    let own = number_of(field(record.bytes, 0).unwrap_or(b"")).unwrap_or(0);
    let first = number_of(field(record.before, 0).unwrap_or(b"")).unwrap_or(0);
    let gap = gaps.of_beats;
    let ticks = gaps.of_ticks;
    let next = first.saturating_add(u64::from(gap));
    if next <= own {
        write!(
            out,
            "The query asks for {ticks} cycles from a tick to the next one, and to the end. Without an end record the end stands at the last record."
        )
    } else {
        write!(
            out,
            "The query has the gap {gap}, and the beat before is in cycle {first}, so the next may come in cycle {next}. Ticks and the end are beats too. tools/beats keeps the gap, or take a query with a smaller one."
        )
    }
}

// What the first field may not be.
fn put_cycle(out: &mut String, record: &[u8]) -> Result<(), AllocError> {
    if says_set(record) {
        return out.push_str(FRONT);
    }
    put_bytes(out, field(record, 0).unwrap_or(b""))?;
    out.push_str(
        " is no cycle: the first field has decimal digits alone. A file has no header; tools/beats makes cycles of time stamps.",
    )
}

// Where a record has too few fields or too many: at the first that is too much, or at its end.
fn count_begins(record: &[u8], schema: &Schema) -> usize {
    match field(record, 1).unwrap_or(b"") {
        b"end" | b"tick" => field_begins(record, 2),
        _ => match stream_of(record, schema) {
            Some(stream) => {
                field_begins(record, stream.columns.as_slice().len().saturating_add(2))
            }
            None => record.len(),
        },
    }
}

/// Where the fault of a record stands in it: where its field begins, if that is known.
pub(crate) fn fault_begins(fault: &TupleFault, record: &[u8], schema: &Schema) -> usize {
    if says_set(record) {
        return setting_begins(fault, record);
    }
    match fault {
        TupleFault::UnknownStream { .. }
        | TupleFault::StreamTwice { .. }
        | TupleFault::TickTwice { .. } => field_begins(record, 1),
        TupleFault::FieldCount { .. } => count_begins(record, schema),
        TupleFault::BadValue { .. } => match stream_of(record, schema) {
            Some(stream) => match bad_field(record, stream) {
                Some((at, _)) => field_begins(record, at),
                None => 0,
            },
            None => 0,
        },
        _ => 0,
    }
}

/// Appends what is wrong with a record of a tuple file, and what to write.
pub(crate) fn put_record(
    out: &mut String,
    fault: &TupleFault,
    record: Record<'_>,
    schema: &Schema,
    gaps: Gaps,
) -> Result<(), AllocError> {
    match fault {
        TupleFault::BadCycle { .. } => put_cycle(out, record.bytes),
        TupleFault::UnknownStream { .. } => put_unknown(out, record.bytes, schema),
        TupleFault::FieldCount { .. } => put_shape(out, record.bytes, schema),
        TupleFault::BadValue { .. } => put_bad_value(out, record.bytes, schema),
        TupleFault::TooClose { .. } => put_close(out, record, gaps),
        TupleFault::UnknownParameter { .. } => put_unknown_parameter(out, record.bytes, schema),
        TupleFault::NotSet { .. } => put_unset(out, schema),
        _ => out.push_str(sentence_of(fault)),
    }
}

// The sentence of each other kind of fault.
fn sentence_of(fault: &TupleFault) -> &'static str {
    match fault {
        TupleFault::NotUtf8 { .. } =>
            "A field is no UTF-8. The value of a text has bytes that print alone.",
        TupleFault::CycleFalls { .. } =>
            "The cycle is below that of the record before: write the records in order.",
        TupleFault::CycleTooLarge { .. } =>
            "The last cycle of a file is 10,000,000: tools/beats --idle shortens pauses.",
        TupleFault::StreamTwice { .. } =>
            "The stream has a tuple in this cycle already: one cycle has one of each stream, and tools/beats moves the second on.",
        TupleFault::TickTwice { .. } => "The cycle has a tick already: one cycle has one.",
        TupleFault::SetTwice { .. } => "The parameter has a value already: each is set once.",
        TupleFault::AfterEnd { .. } => "The end stands in front: write its record last.",
        _ => "",
    }
}
