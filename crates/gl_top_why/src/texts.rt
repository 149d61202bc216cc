//! Which sort of text a text looks like: files are easily given in another order.

use crate::pieces::{Pieces, is_one_of, is_sign, is_spelled};
use std::alloc::AllocError;

/// A sort of text.
#[derive(Clone, Copy, PartialEq, Eq)]
pub(crate) enum Sort {
    /// A schema.
    Schema,
    /// A query.
    Query,
    /// A tuple file.
    Tuples,
    /// A Verilog text.
    Verilog,
}

// Whether a text begins as Verilog does, or as the text that the program itself writes.
fn is_verilog(pieces: &Pieces<'_>) -> bool {
    is_spelled(pieces.get(0), b"module")
        || pieces.get(0) == b"//".as_slice() && is_sign(pieces.get(1), b'|')
}

// What a text looks like, by its first words.
fn sort_of(pieces: &Pieces<'_>) -> Option<Sort> {
    let first = pieces.get(0);
    let begun = if is_sign(first, b'(') {
        pieces.get(1)
    } else {
        first
    };
    if is_verilog(pieces) {
        return Some(Sort::Verilog);
    }
    if is_one_of(begun, &[b"select", b"each"]) {
        return Some(Sort::Query);
    }
    if is_one_of(first, &[b"stream", b"parameter"]) {
        return Some(Sort::Schema);
    }
    let is_setting = is_spelled(first, b"set") && is_sign(pieces.get(1), b',');
    if is_setting || matches!(first, [b'0'..=b'9', ..]) {
        return Some(Sort::Tuples);
    }
    None
}

// A sort, in words.
fn words_of(sort: Sort) -> &'static str {
    match sort {
        Sort::Schema => "a schema",
        Sort::Query => "a query",
        Sort::Tuples => "a tuple file",
        Sort::Verilog => "Verilog",
    }
}

/// Appends what a text looks like where another sort is wanted, and whether that is so.
pub(crate) fn put_other(
    out: &mut String,
    pieces: &Pieces<'_>,
    wanted: Sort,
) -> Result<bool, AllocError> {
    let Some(sort) = sort_of(pieces) else {
        return Ok(false);
    };
    if sort == wanted {
        return Ok(false);
    }
    out.push_str("This text looks like ")?;
    out.push_str(words_of(sort))?;
    out.push_str(", and ")?;
    out.push_str(words_of(wanted))?;
    out.push_str(if sort == Sort::Verilog {
        " is wanted here. Verilog stands in sim S V T, behind the schema."
    } else {
        " is wanted here. The order is why S Q T: the schema, the query, the tuple file."
    })?;
    Ok(true)
}
