//! The line of a place, with a mark under it.

use std::alloc::AllocError;

/// Appends bytes, with a question mark for each that does not print.
pub(crate) fn put_bytes(out: &mut String, bytes: &[u8]) -> Result<(), AllocError> {
    for byte in bytes {
        let shown = match *byte {
            b'\t' => ' ',
            b' '..=b'~' => char::from(*byte),
            _ => '?',
        };
        out.push(shown)?;
    }
    Ok(())
}

/// Where a place stands: its line and its column, counted from 1, and where its line begins.
#[derive(Clone, Copy)]
struct Place {
    line: u64,
    column: u64,
    begins: usize,
}

// Where the byte at a place stands.
fn place_of(text: &[u8], at: u64) -> Place {
    let mut found = Place {
        line: 1,
        column: 1,
        begins: 0,
    };
    let mut place = 0usize;
    for byte in text {
        if place as u64 >= at {
            break;
        }
        place = place.saturating_add(1);
        if *byte == b'\n' {
            found = Place {
                line: found.line.saturating_add(1),
                column: 1,
                begins: place,
            };
        } else {
            found.column = found.column.saturating_add(1);
        }
    }
    found
}

// The bytes up to the first line feed, without a carriage return in front of it.
fn line_of(text: &[u8]) -> &[u8] {
    match text.iter().position(|byte| *byte == b'\n') {
        Some(end) => {
            let line = text.get(..end).unwrap_or(text);
            line.strip_suffix(b"\r").unwrap_or(line)
        }
        None => text,
    }
}

/// A place in a text; in place of the text's end that behind its last byte that is no white space.
pub(crate) fn shown_place(text: &[u8], at: u64) -> u64 {
    if at < text.len() as u64 {
        return at;
    }
    let mut ends = 0usize;
    for (place, byte) in text.iter().enumerate() {
        if !matches!(*byte, b' ' | b'\t' | b'\r' | b'\n') {
            ends = place.saturating_add(1);
        }
    }
    ends as u64
}

/// Appends the name of a text, the line and the column of a place, that line, and a mark under the place.
pub(crate) fn put_place(
    out: &mut String,
    name: &str,
    text: &[u8],
    at: u64,
) -> Result<(), AllocError> {
    let place = place_of(text, at);
    let Place { line, column, .. } = place;
    write!(out, "{name}:{line}:{column}\n    ")?;
    put_bytes(out, line_of(text.get(place.begins..).unwrap_or(b"")))?;
    out.push_str("\n    ")?;
    for _ in 1..column {
        out.push(' ')?;
    }
    out.push_str("^\n")
}
