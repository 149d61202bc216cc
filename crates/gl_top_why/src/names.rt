//! The columns that the source of a select has, by the schema and by the selects of a query.
//!
//! The query is one that the reader takes, so that its pieces are where the grammar has them.

use crate::joins::{is_join_key, is_left_side};
use crate::lines::put_bytes;
use crate::pieces::{Pieces, is_sign, is_spelled};
use crate::words::{is_name, is_number};
use gl_schema::{Schema, Stream, kind_front, kind_size};
use gl_values::Kind;
use std::alloc::AllocError;

/// Appends a kind as it is written.
pub(crate) fn put_kind(out: &mut String, kind: Kind) -> Result<(), AllocError> {
    put_bytes(out, kind_front(kind))?;
    let size = kind_size(kind);
    write!(out, "{size}")
}

/// Appends the names of a schema's streams.
pub(crate) fn put_streams(out: &mut String, schema: &Schema) -> Result<(), AllocError> {
    let mut front = "";
    for stream in schema.streams.as_slice() {
        out.push_str(front)?;
        put_bytes(out, stream.name.as_slice())?;
        front = ", ";
    }
    Ok(())
}

/// Appends the names of a stream's columns behind these words.
pub(crate) fn put_columns(
    out: &mut String,
    words: &str,
    stream: &Stream,
) -> Result<(), AllocError> {
    let mut front = words;
    for column in stream.columns.as_slice() {
        out.push_str(front)?;
        put_bytes(out, column.name.as_slice())?;
        front = ", ";
    }
    Ok(())
}

/// The stream of a name.
pub(crate) fn stream_named<'a>(schema: &'a Schema, name: &[u8]) -> Option<&'a Stream> {
    schema
        .streams
        .as_slice()
        .iter()
        .find(|stream| stream.name.as_slice() == name)
}

// The next place of a word from a piece on, outside of the brackets that are opened there.
fn next_from(pieces: &Pieces<'_>, at: usize, wanted: &[u8]) -> Option<usize> {
    let mut open = 0u64;
    for place in at..pieces.len() {
        let word = pieces.get(place);
        match word {
            b"(" | b"[" => open = open.saturating_add(1),
            b")" | b"]" => open = open.saturating_sub(1),
            _ if open == 0 && is_spelled(word, wanted) => return Some(place),
            _ => {}
        }
    }
    None
}

// The last place of a word in front of a piece, outside of the brackets that are closed there.
fn last_before(pieces: &Pieces<'_>, at: usize, wanted: &[u8]) -> Option<usize> {
    let mut closed = 0u64;
    for place in (0..at).rev() {
        let word = pieces.get(place);
        match word {
            b")" | b"]" => closed = closed.saturating_add(1),
            b"(" | b"[" => closed = closed.saturating_sub(1),
            _ if closed == 0 && is_spelled(word, wanted) => return Some(place),
            _ => {}
        }
    }
    None
}

/// The place of FROM that belongs to the select around a piece: behind an item, in front of all else.
pub(crate) fn from_around(pieces: &Pieces<'_>, at: usize) -> Option<usize> {
    if is_spelled(pieces.clause(at), b"select") {
        next_from(pieces, at, b"from")
    } else {
        last_before(pieces, at, b"from")
    }
}

/// The place of the first item of the select around an item.
pub(crate) fn first_item(pieces: &Pieces<'_>, at: usize) -> usize {
    match last_before(pieces, at, b"select") {
        Some(select) => select.saturating_add(1),
        None => at,
    }
}

/// Whether the item that begins at a piece is a function with OVER.
pub(crate) fn has_over(pieces: &Pieces<'_>, at: usize) -> bool {
    let Some(over) = next_from(pieces, at, b"over") else {
        return false;
    };
    let is_call = is_sign(pieces.get(at.saturating_add(1)), b'(')
        && is_sign(pieces.before(over, 1), b')');
    match next_from(pieces, at, b"as") {
        Some(name) => is_call && over < name,
        None => is_call,
    }
}

/// Where the source begins that has the columns of a piece: behind FROM, or behind IN for the key of an EACH. The
/// key of an ASOF has two.
pub(crate) fn source_around(pieces: &Pieces<'_>, at: usize) -> Option<usize> {
    if is_join_key(pieces, at) {
        return None;
    }
    let is_key = is_spelled(pieces.before(at, 1), b"by")
        && !is_spelled(pieces.before(at, 2), b"group");
    let front = if is_key {
        last_before(pieces, at, b"in")?
    } else {
        from_around(pieces, at)?
    };
    Some(front.saturating_add(1))
}

/// The EACH in whose body a piece stands, the innermost one.
pub(crate) fn each_around(pieces: &Pieces<'_>, at: usize) -> Option<usize> {
    let mut place = at;
    for _ in 0..at {
        let open = pieces.open_before(place)?;
        let front = pieces.before(open, 1);
        if is_sign(front, b']') || is_number(front) {
            return last_before(pieces, open, b"each");
        }
        place = open;
    }
    None
}

// What a query's columns are, by its first piece.
#[derive(Clone, Copy)]
enum Shape<'a> {
    // The column at a place, and those of the query at another one.
    Key(usize, usize),
    // Those of the query at this place.
    Same(usize),
    // The items from this place on.
    Items(usize),
    // Those of a stream.
    Whole(&'a Stream),
    // It is not told.
    Unknown,
}

// The columns of a name that stands as a source.
fn name_shape<'a>(pieces: &Pieces<'_>, place: usize, schema: &'a Schema) -> Shape<'a> {
    let name = pieces.get(place);
    match each_around(pieces, place) {
        Some(each) if pieces.get(each.saturating_add(1)) == name => {
            Shape::Same(each.saturating_add(3))
        }
        Some(_) => Shape::Unknown,
        None => match stream_named(schema, name) {
            Some(stream) => Shape::Whole(stream),
            None => Shape::Unknown,
        },
    }
}

// The columns of an EACH: its key and those of its body, or those of its body.
fn each_shape<'a>(pieces: &Pieces<'_>, each: usize) -> Shape<'a> {
    let source = each.saturating_add(3);
    if is_left_side(pieces, source) {
        return Shape::Unknown;
    }
    let mut open = 0u64;
    let mut key = None;
    for place in source..pieces.len() {
        match pieces.get(place) {
            b"(" if open == 0 && place != source => {
                return match key {
                    Some(key) => Shape::Key(key, place),
                    None => Shape::Same(place),
                };
            }
            b"(" => open = open.saturating_add(1),
            b")" => open = open.saturating_sub(1),
            word if open == 0 && is_spelled(word, b"by") => key = Some(place.saturating_add(1)),
            _ => {}
        }
    }
    Shape::Unknown
}

// Whether CONCAT joins the columns of a query in brackets, whose first piece this is.
fn is_joined(pieces: &Pieces<'_>, first: usize) -> bool {
    let mut open = 0u64;
    for place in first..pieces.len() {
        match pieces.get(place) {
            b"(" => open = open.saturating_add(1),
            b")" if open == 0 => return false,
            b")" => open = open.saturating_sub(1),
            word if open == 0 && is_spelled(word, b"concat") => return true,
            _ => {}
        }
    }
    false
}

// The columns of the query whose first piece this is.
fn shape_of<'a>(pieces: &Pieces<'_>, place: usize, schema: &'a Schema) -> Shape<'a> {
    let (word, next) = (pieces.get(place), place.saturating_add(1));
    if is_left_side(pieces, place) {
        return Shape::Unknown;
    }
    if is_sign(word, b'(') {
        return if is_joined(pieces, next) {
            Shape::Unknown
        } else {
            Shape::Same(next)
        };
    }
    if is_spelled(word, b"each") {
        return each_shape(pieces, place);
    }
    if !is_spelled(word, b"select") {
        return name_shape(pieces, place, schema);
    }
    if is_sign(pieces.get(next), b'*') {
        Shape::Same(place.saturating_add(3))
    } else {
        Shape::Items(next)
    }
}

/// The stream whose columns the select around a piece has, if they are those of one.
pub(crate) fn stream_around<'a>(
    pieces: &Pieces<'_>,
    at: usize,
    schema: &'a Schema,
) -> Option<&'a Stream> {
    let mut place = source_around(pieces, at)?;
    for _ in 0..pieces.len() {
        match shape_of(pieces, place, schema) {
            Shape::Same(next) => place = next,
            Shape::Whole(stream) => return Some(stream),
            _ => return None,
        }
    }
    None
}

// Whether the columns of the query at a place are told.
fn is_told(pieces: &Pieces<'_>, first: usize, schema: &Schema) -> bool {
    let mut place = first;
    for _ in 0..pieces.len() {
        match shape_of(pieces, place, schema) {
            Shape::Same(next) | Shape::Key(_, next) => place = next,
            Shape::Items(_) | Shape::Whole(_) => return true,
            Shape::Unknown => return false,
        }
    }
    false
}

// Appends the names of items from a place on, behind these words.
fn put_items(
    out: &mut String,
    words: &str,
    pieces: &Pieces<'_>,
    first: usize,
) -> Result<(), AllocError> {
    let mut open = 0u64;
    let mut is_first = true;
    for place in first..pieces.len() {
        let word = pieces.get(place);
        let behind = pieces.get(place.saturating_add(1));
        match word {
            b"(" | b"[" => open = open.saturating_add(1),
            b")" | b"]" => open = open.saturating_sub(1),
            _ if open == 0 && is_spelled(word, b"from") => return Ok(()),
            _
                if open == 0
                    && is_name(word)
                    && (is_sign(behind, b',') || is_spelled(behind, b"from")) => {
                out.push_str(if is_first { words } else { ", " })?;
                put_bytes(out, word)?;
                is_first = false;
            }
            _ => {}
        }
    }
    Ok(())
}

/// Appends the names of the columns that the select around a piece has, where they are told.
pub(crate) fn put_columns_around(
    out: &mut String,
    pieces: &Pieces<'_>,
    at: usize,
    schema: &Schema,
) -> Result<(), AllocError> {
    let Some(first) = source_around(pieces, at) else {
        return Ok(());
    };
    if !is_told(pieces, first, schema) {
        return Ok(());
    }
    let mut place = first;
    let mut front = "; there are ";
    for _ in 0..pieces.len() {
        match shape_of(pieces, place, schema) {
            Shape::Key(key, next) => {
                out.push_str(front)?;
                put_bytes(out, pieces.get(key))?;
                front = ", ";
                place = next;
            }
            Shape::Same(next) => place = next,
            Shape::Items(items) => return put_items(out, front, pieces, items),
            Shape::Whole(stream) => return put_columns(out, front, stream),
            Shape::Unknown => return Ok(()),
        }
    }
    Ok(())
}
