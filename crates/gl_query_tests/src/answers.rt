//! What statements answer over rows.

use gl_bits::{Listed, Memory};
use gl_query::columns::columns_of;
use gl_query::{Sources, Statement};
use gl_query_reader::read_query;
use gl_reference::{Answer, Brought, Times, evaluate};
use gl_schema::value::text_number;
use gl_schema::{Column, Schema, read_schema};
use gl_values::{Kind, Table};
use std::alloc::{AllocError, Global};

/// The text of the schema, the values of its parameters, the rows that come in on two streams, their
/// places, the times of the first one's, and how many ticks come in all.
#[derive(Drop)]
pub struct Given {
    /// The text of the schema.
    pub schema: String,
    /// The values of the parameters, in their order.
    pub sets: String,
    /// The rows of the first stream.
    pub trades: String,
    /// The rows of the second stream.
    pub other: String,
    /// The places of the first stream's rows and, behind a stroke, of the second one's: their positions where
    /// none stand there.
    pub places: String,
    /// The times of the first stream's rows, in ticks.
    pub times: String,
    /// How many ticks come in all, in decimal.
    pub ticks: String,
}

// The letters of a field as a number, if they are at most `bytes`; 0 otherwise.
fn letters_of(field: &[u8], bytes: u8) -> u128 {
    let bytes = bytes as usize;
    if bytes <= 8 && field.len() <= bytes {
        text_number(field, bytes) as u128
    } else {
        0
    }
}

// A number behind a minus sign as a word of a kind; 0 where there is no such kind.
#[tactic(auto, using(gl_values::proofs::KindLemmas::tested_kind))]
fn negative_of(kind: Kind, digits: &str) -> u128 {
    if !kind.is_kind() {
        return 0;
    }
    kind.negative_word(digits.parse::<u128>().unwrap_or(0))
}

// The word of a number.
fn number_of(kind: Kind, field: &str) -> u128 {
    match field.strip_prefix("-") {
        Some(digits) => negative_of(kind, digits),
        None => field.parse::<u128>().unwrap_or(0),
    }
}

// The value of a field.
fn value_of(kind: Kind, field: &str) -> u128 {
    match kind {
        Kind::Text(bytes) => letters_of(field.as_bytes(), bytes),
        Kind::Unsigned(_) | Kind::Signed(_) => number_of(kind, field),
    }
}

// A row, whose fields are parted by commas.
fn row_of(alloc: Global, columns: &[Column], text: &str) -> Result<Listed<u128>, Memory> {
    let mut row = Listed::new(alloc);
    for (column, field) in columns.iter().zip(text.split(',')) {
        row.push(value_of(column.kind, field))?;
    }
    Ok(row)
}

// Rows, parted by spaces.
fn table_of(alloc: Global, columns: &[Column], text: &str) -> Result<Table, Memory> {
    let mut table = Listed::new(alloc);
    for row in text.split_whitespace() {
        let row = row_of(alloc, columns, row)?;
        table.push(row)?;
    }
    Ok(table)
}

// What comes in on the stream of a name.
fn rows_on<'a>(given: &'a Given, name: &[u8]) -> &'a str {
    match name {
        b"trades" => given.trades.as_str(),
        b"other" => given.other.as_str(),
        _ => "",
    }
}

// Times, parted by spaces.
fn times_of(alloc: Global, text: &str) -> Result<Times, Memory> {
    let mut times = Listed::new(alloc);
    for time in text.split_whitespace() {
        times.push(time.parse::<u64>().unwrap_or(0))?;
    }
    Ok(times)
}

// The times of what comes in on the stream of a name.
fn times_on<'a>(given: &'a Given, name: &[u8]) -> &'a str {
    match name {
        b"trades" => given.times.as_str(),
        _ => "",
    }
}

// The places of what comes in on the stream of a name.
fn places_on<'a>(given: &'a Given, name: &[u8]) -> &'a str {
    let text = given.places.as_str();
    let (trades, other) = text.split_once('|').unwrap_or((text, ""));
    match name {
        b"trades" => trades,
        b"other" => other,
        _ => "",
    }
}

// So many places: those of a text, if there are as many.
fn places_of(alloc: Global, text: &str, count: usize) -> Result<Times, Memory> {
    let places = times_of(alloc, text)?;
    if places.len() == count {
        Ok(places)
    } else {
        positions(alloc, count)
    }
}

// What comes in on all streams.
#[derive(Drop)]
struct Inputs {
    tables: Listed<Table>,
    places: Listed<Times>,
    times: Listed<Times>,
    ticks: u64,
    words: Listed<u128>,
}

// So many places from 0 on: the n-th rows of all streams come in one cycle.
fn positions(alloc: Global, count: usize) -> Result<Times, Memory> {
    let mut places = Listed::new(alloc);
    for place in 0..count {
        places.push(place as u64)?;
    }
    Ok(places)
}

// What comes in on each stream.
fn inputs_of(alloc: Global, schema: &Schema, given: &Given) -> Result<Inputs, Memory> {
    let mut tables = Listed::new(alloc);
    let mut places = Listed::new(alloc);
    let mut times = Listed::new(alloc);
    for stream in schema.streams.as_slice() {
        let rows = rows_on(given, stream.name.as_slice());
        let table = table_of(alloc, stream.columns.as_slice(), rows)?;
        let text = places_on(given, stream.name.as_slice());
        places.push(places_of(alloc, text, table.len())?)?;
        tables.push(table)?;
        times.push(times_of(alloc, times_on(given, stream.name.as_slice()))?)?;
    }
    let ticks = given.ticks.as_str().parse::<u64>().unwrap_or(0);
    let words = row_of(alloc, schema.parameters.as_slice(), given.sets.as_str())?;
    Ok(Inputs {
        tables,
        places,
        times,
        ticks,
        words,
    })
}

// Adds a number, which may be below 0.
#[tactic(auto, using(gl_values::proofs::KindLemmas::tested_kind))]
fn push_number(out: &mut String, kind: Kind, value: u128) -> Result<(), AllocError> {
    if kind.is_kind() && kind.is_below(value, 0) {
        write!(out, "-{}", (1u128 << kind.width()).saturating_sub(value))
    } else {
        write!(out, "{value}")
    }
}

// Adds a value: of a text its letters.
fn push_value(out: &mut String, kind: Kind, value: u128) -> Result<(), AllocError> {
    match kind {
        Kind::Unsigned(_) | Kind::Signed(_) => push_number(out, kind, value),
        Kind::Text(_) => {
            for byte in value.to_be_bytes() {
                if byte != 0 {
                    out.push(char::from(byte))?;
                }
            }
            Ok(())
        }
    }
}

// The kind of the column at a place; that of numbers where there is none.
fn kind_at(columns: &[Column], place: usize) -> Kind {
    match columns.get(place) {
        Some(column) => column.kind,
        None => Kind::Unsigned(64),
    }
}

// Adds a row.
fn push_row(out: &mut String, columns: &[Column], row: &[u128]) -> Result<(), AllocError> {
    for (place, value) in row.iter().enumerate() {
        if place > 0 {
            out.push_str(",")?;
        }
        push_value(out, kind_at(columns, place), *value)?;
    }
    Ok(())
}

// The rows of an answer, and whether groups are left out.
fn answer_told(alloc: Global, columns: &[Column], answer: &Answer) -> Result<String, AllocError> {
    let mut out = String::new(alloc);
    out.push_str(">")?;
    for row in answer.rows.as_slice() {
        out.push_str(" ")?;
        push_row(&mut out, columns, row.as_slice())?;
    }
    if answer.spill {
        out.push_str(" spill")?;
    }
    Ok(out)
}

// What a statement answers over these inputs.
fn evaluated(
    alloc: Global,
    schema: &Schema,
    statement: &Statement,
    columns: &[Column],
    inputs: &Inputs,
) -> Result<String, AllocError> {
    let brought = Brought {
        rows: inputs.tables.as_slice(),
        places: inputs.places.as_slice(),
        times: inputs.times.as_slice(),
        ticks: inputs.ticks,
        words: inputs.words.as_slice(),
    };
    let count = schema.streams.len();
    if brought.rows.len() != count
        || brought.places.len() != count
        || brought.times.len() != count
    {
        return String::from_str(alloc, "no inputs");
    }
    match evaluate(alloc, schema, statement, brought) {
        Ok(answer) => answer_told(alloc, columns, &answer),
        Err(_) => String::from_str(alloc, "no answer"),
    }
}

// What a statement with these columns answers over what comes in.
fn answered_with(
    alloc: Global,
    schema: &Schema,
    statement: &Statement,
    columns: &[Column],
    given: &Given,
) -> Result<String, AllocError> {
    match inputs_of(alloc, schema, given) {
        Ok(inputs) => evaluated(alloc, schema, statement, columns, &inputs),
        Err(_) => String::from_str(alloc, "out of memory"),
    }
}

// What a statement answers over what comes in.
fn statement_answered(
    alloc: Global,
    schema: &Schema,
    statement: &Statement,
    given: &Given,
) -> Result<String, AllocError> {
    let sources = Sources::Schema(schema.streams.as_slice(), schema.parameters.as_slice());
    match columns_of(alloc, sources, &statement.query) {
        Ok(columns) => answered_with(alloc, schema, statement, columns.as_slice(), given),
        Err(_) => String::from_str(alloc, "out of memory"),
    }
}

// What a text's statement answers over a schema.
fn text_answered(
    alloc: Global,
    schema: &Schema,
    given: &Given,
    text: &[u8],
) -> Result<String, AllocError> {
    match read_query(alloc, text) {
        Ok(statement) => statement_answered(alloc, schema, &statement, given),
        Err(_) => String::from_str(alloc, "not read"),
    }
}

/// What a text's statement answers over what comes in.
pub(crate) fn answered(alloc: Global, given: &Given, text: &[u8]) -> Result<String, AllocError> {
    match read_schema(alloc, given.schema.as_bytes()) {
        Ok(schema) => text_answered(alloc, &schema, given, text),
        Err(_) => String::from_str(alloc, "no schema"),
    }
}
