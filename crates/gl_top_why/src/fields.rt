//! The records of a tuple file and their fields, as the crate csv reads them.

/// A record of a tuple file: where it begins, its bytes, and those of the record before.
#[derive(Clone, Copy)]
pub(crate) struct Record<'a> {
    pub(crate) begins: usize,
    pub(crate) bytes: &'a [u8],
    pub(crate) before: &'a [u8],
}

// What is open in front of a byte.
#[derive(Clone, Copy, PartialEq, Eq)]
enum Standing {
    // A field begins.
    Fresh,
    // A field without quotes.
    Plain,
    // A field in quotes.
    Quoted,
    // The quote that may end such a field.
    Closed,
}

// What is open behind a byte.
fn step(standing: Standing, byte: u8) -> Standing {
    match standing {
        Standing::Quoted if byte == b'"' => Standing::Closed,
        Standing::Quoted => Standing::Quoted,
        Standing::Closed | Standing::Fresh if byte == b'"' => Standing::Quoted,
        _ if matches!(byte, b',' | b'\n' | b'\r') => Standing::Fresh,
        _ => Standing::Plain,
    }
}

// Where the first record may begin: behind a byte order mark.
fn first_of(text: &[u8]) -> usize {
    match text {
        [0xEF, 0xBB, 0xBF, ..] => 3,
        _ => 0,
    }
}

// The record between two places, behind the last one.
fn record_behind<'a>(last: Record<'a>, text: &'a [u8], begins: usize, ends: usize) -> Record<'a> {
    Record {
        begins,
        bytes: text.get(begins..ends).unwrap_or(b""),
        before: last.bytes,
    }
}

/// The record of a number, counted from 1. Empty lines are none.
pub(crate) fn record_of(text: &[u8], number: u64) -> Record<'_> {
    let mut found = Record {
        begins: 0,
        bytes: b"",
        before: b"",
    };
    let mut begins = first_of(text);
    let mut standing = Standing::Fresh;
    let mut count = 0u64;
    for (at, byte) in text.iter().enumerate() {
        if at < begins {
            continue;
        }
        if standing != Standing::Quoted && matches!(*byte, b'\n' | b'\r') {
            if at > begins {
                found = record_behind(found, text, begins, at);
                count = count.saturating_add(1);
            }
            if count >= number {
                return found;
            }
            begins = at.saturating_add(1);
        }
        standing = step(standing, *byte);
    }
    if begins < text.len() {
        record_behind(found, text, begins, text.len())
    } else {
        found
    }
}

// Where a field begins and ends in a record; fields are counted from 0.
fn range_of(record: &[u8], number: usize) -> Option<(usize, usize)> {
    let mut standing = Standing::Fresh;
    let (mut begins, mut count) = (0usize, 0usize);
    for (at, byte) in record.iter().enumerate() {
        if standing != Standing::Quoted && *byte == b',' {
            if count == number {
                return Some((begins, at));
            }
            count = count.saturating_add(1);
            begins = at.saturating_add(1);
        }
        standing = step(standing, *byte);
    }
    if count == number {
        Some((begins, record.len()))
    } else {
        None
    }
}

// Bytes without quotes around them.
fn unquoted(bytes: &[u8]) -> &[u8] {
    match bytes {
        [b'"', inner @ .., b'"'] => inner,
        _ => bytes,
    }
}

/// A field of a record, without quotes around it; fields are counted from 0.
pub(crate) fn field(record: &[u8], number: usize) -> Option<&[u8]> {
    match range_of(record, number) {
        Some((begins, ends)) => Some(unquoted(record.get(begins..ends).unwrap_or(b""))),
        None => None,
    }
}

/// Where a field begins in a record, or the record's end where there is none.
pub(crate) fn field_begins(record: &[u8], number: usize) -> usize {
    match range_of(record, number) {
        Some((begins, _)) => begins,
        None => record.len(),
    }
}
