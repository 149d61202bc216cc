//! The records of a tuple file, one at a time.

ghost use Rattle.std.specs.Prelude.{◌≡◌, ◌+◌, ◌<◌, [], length, slice_get, slice_index_or, option_map, IfOk, IfSome};
ghost use Rattle.std.specs.List.{AllByRecursion};
ghost use Rattle.gl_schema.specs.Schemas.{IsSchema, IsColumn};
ghost use Rattle.gl_tuple_reader.specs.Entries.{Gives};
ghost use Rattle.gl_tuple_reader.specs.Entries as spec;
ghost use Rattle.gl_tuples.specs.Values as values;
ghost use Rattle.gl_tuple_reader.specs.Filing.{IsEntry};
ghost use Rattle.csv.specs.Records.{fields_of};

use crate::entry::Entry;
use csv::ByteRecord;
use gl_bits::limits::LATEST_CYCLE;
use gl_bits::{Row, Word};
use gl_schema::{Column, Schema};
use gl_tuples::TupleFault;
use gl_tuples::value::{is_utf8, number_of, word_of};
use std::alloc::Global;

/// The field at a place.
#[tactic(auto, using(crate::proofs::Fields::field_at_is))]
pub fn field(fields: &ByteRecord, at: usize) -> Option<&[u8]>
    ensures { option_map (λ f. f.now) result ≡ slice_get (fields_of fields.now) at }
{
    fields.get(at)
}

/// Each field is UTF-8.
#[tactic(auto, unfolding(crate::specs::Entries::text_checked))]
pub fn check_text(fields: &ByteRecord, number: u64) -> Result<(), TupleFault>
    ensures { result ≡ spec.text_checked number (fields_of fields.now) }
{
    if is_text(fields) {
        Ok(())
    } else {
        Err(TupleFault::NotUtf8 { number })
    }
}

#[tactic(auto, using(crate::proofs::Fields::text_steps))]
fn is_text(fields: &ByteRecord) -> bool
    ensures { result ≡ spec.are_utf8 (fields_of fields.now) }
{
    for at in 0..fields.len() {
        if !field_is_text(fields, at) {
            return false;
        }
    }
    true
}

#[tactic(auto, using(crate::proofs::Fields::field_is))]
fn field_is_text(fields: &ByteRecord, at: usize) -> bool
    requires { at < length (fields_of fields.now) }
    ensures { result ≡ values.is_utf8 (slice_index_or (fields_of fields.now) at []) }
{
    match field(fields, at) {
        Some(field) => is_utf8(field),
        None => false,
    }
}

/// The cycle of a record, which its first field spells.
#[tactic(auto, using(crate::proofs::Fields::cycle_steps), unfolding(crate::specs::Entries::cycle_of))]
pub fn cycle_of(fields: &ByteRecord, number: u64) -> Result<u32, TupleFault>
    ensures { result ≡ spec.cycle_of number (fields_of fields.now) }
{
    let Some(first) = field(fields, 0) else {
        return Err(TupleFault::BadCycle { number });
    };
    let Some(cycle) = number_of(first) else {
        return Err(TupleFault::BadCycle { number });
    };
    if cycle > LATEST_CYCLE {
        return Err(TupleFault::CycleTooLarge { number });
    }
    Ok(cycle as u32)
}

/// What a record brings behind its cycle.
#[tactic(auto, unfolding(crate::specs::Entries::entry_of))]
pub fn entry_of(
    alloc: Global,
    schema: &Schema,
    fields: &ByteRecord,
    number: u64,
) -> Result<Entry, TupleFault>
    requires { IsSchema schema.now }
    ensures entry { Gives result (spec.entry_of number schema.now (fields_of fields.now)) }
    ensures stream { IfOk result (IsEntry (length schema.now.streams)) }
{
    let Some(name) = field(fields, 1) else {
        return Err(TupleFault::FieldCount { number });
    };
    if name == b"end".as_slice() {
        return alone(fields, Entry::End, number);
    }
    if name == b"tick".as_slice() {
        return alone(fields, Entry::Tick, number);
    }
    tuple_of(alloc, schema, fields, name, number)
}

/// An entry behind which nothing may stand.
fn alone(fields: &ByteRecord, entry: Entry, number: u64) -> Result<Entry, TupleFault>
    ensures entry { result ≡ spec.alone number (fields_of fields.now) entry }
    ensures same { IfOk result (λ e. e ≡ entry) }
{
    if fields.len() == 2 {
        Ok(entry)
    } else {
        Err(TupleFault::FieldCount { number })
    }
}

/// The row of the stream of this name.
fn tuple_of(
    alloc: Global,
    schema: &Schema,
    fields: &ByteRecord,
    name: &[u8],
    number: u64,
) -> Result<Entry, TupleFault>
    requires { IsSchema schema.now }
    ensures entry { Gives result (spec.tuple_of number schema.now (fields_of fields.now)
        (spec.stream_named schema.now name.now)) }
    ensures stream { IfOk result (IsEntry (length schema.now.streams)) }
{
    let Some(at) = stream_named(schema, name) else {
        return Err(TupleFault::UnknownStream { number });
    };
    let row = row_of(alloc, columns_at(schema, at), fields, number)?;
    Ok(Entry::Tuple(at, row))
}

#[tactic(auto, unfolding(crate::specs::Entries::stream_named))]
fn stream_named(schema: &Schema, name: &[u8]) -> Option<usize>
    ensures place { result ≡ spec.stream_named schema.now name.now }
    ensures below { IfSome result (λ k. k < length schema.now.streams) }
{
    schema
        .streams
        .as_slice()
        .iter()
        .position(|stream| stream.name.as_slice() == name)
}

/// The columns of a stream.
#[tactic(auto, using(crate::proofs::Fields::columns_are))]
fn columns_at(schema: &Schema, at: usize) -> &[Column]
    requires is { IsSchema schema.now }
    requires place { at < length schema.now.streams }
    ensures value { result.now ≡ spec.columns_at schema.now.streams at }
    ensures columns { AllByRecursion IsColumn result.now }
{
    schema.streams.as_slice()[at].columns.as_slice()
}

/// The row of the fields behind the stream's name.
#[tactic(auto, unfolding(crate::specs::Entries::row_of))]
fn row_of(
    alloc: Global,
    columns: &[Column],
    fields: &ByteRecord,
    number: u64,
) -> Result<Row, TupleFault>
    requires { AllByRecursion IsColumn columns.now }
    ensures { Gives result (spec.row_of number columns.now (fields_of fields.now)) }
{
    if fields.len() < 2 || fields.len() - 2 != columns.len() {
        return Err(TupleFault::FieldCount { number });
    }
    let mut row = Row::new(alloc);
    for (at, column) in columns.iter().enumerate() {
        let Some(word) = word_at(fields, 2 + at, column) else {
            return Err(TupleFault::BadValue { number });
        };
        row.push(word)?;
    }
    Ok(row)
}

/// The word of a field in a column, or in a parameter.
pub fn word_at(fields: &ByteRecord, at: usize, column: &Column) -> Option<Word>
    requires { IsColumn column.now }
    ensures { result ≡ spec.option_bind (slice_get (fields_of fields.now) at)
        (values.word_of column.now.kind) }
{
    let field = field(fields, at)?;
    word_of(column.kind, field)
}
