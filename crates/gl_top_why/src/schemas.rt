//! What is wrong with a schema, in a sentence.

use crate::kinds::kind_cure;
use crate::lines::put_bytes;
use crate::pieces::{Pieces, is_one_of, is_sign, is_spelled};
use crate::words::{is_taken, name_cure};
use gl_schema::SchemaFault;
use std::alloc::AllocError;

const FORM: &str =
    "A schema is stream NAME (NAME KIND, ..); once or more, as stream trades (symbol text4, price u32); and parameter NAME KIND; for each value that a user sets.";

// What a schema waits for.
#[derive(Clone, Copy, PartialEq, Eq)]
enum Wanted {
    Stream,
    Name,
    Open,
    Column,
    Kind,
    Behind,
    End,
    Parameter,
    ParameterKind,
}

// What it waits for behind a piece.
fn behind(wanted: Wanted, piece: &[u8]) -> Wanted {
    match wanted {
        Wanted::Stream if piece == b"parameter".as_slice() => Wanted::Parameter,
        Wanted::Stream => Wanted::Name,
        Wanted::Name => Wanted::Open,
        Wanted::Open => Wanted::Column,
        Wanted::Column => Wanted::Kind,
        Wanted::Kind => Wanted::Behind,
        Wanted::Behind if is_sign(piece, b',') => Wanted::Column,
        Wanted::Behind => Wanted::End,
        Wanted::End => Wanted::Stream,
        Wanted::Parameter => Wanted::ParameterKind,
        Wanted::ParameterKind => Wanted::End,
    }
}

// What can stand at a piece, where the pieces in front begin a schema.
fn wanted_at(pieces: &Pieces<'_>, at: usize) -> &'static str {
    let mut wanted = Wanted::Stream;
    for place in 0..at {
        wanted = behind(wanted, pieces.get(place));
    }
    match wanted {
        Wanted::Stream => "stream or parameter",
        Wanted::Name | Wanted::Column | Wanted::Parameter => "a name",
        Wanted::Open => "(",
        Wanted::Kind | Wanted::ParameterKind => "a kind",
        Wanted::Behind => "a comma or )",
        Wanted::End => ";",
    }
}

// What cannot stand there.
fn syntax_cure(pieces: &Pieces<'_>, at: usize) -> &'static str {
    let (word, before) = (pieces.get(at), pieces.before(at, 1));
    if is_spelled(word, b"stream") && at == 0 {
        return "The word stream is in small letters.";
    }
    if is_spelled(word, b"parameter") && (at == 0 || is_sign(before, b';')) {
        return "The word parameter is in small letters.";
    }
    if at >= pieces.len() && is_sign(before, b';') {
        return "A schema has a stream: stream trades (symbol text4, price u32);";
    }
    if is_one_of(word, &[b"create", b"table"]) {
        return "Leave CREATE and TABLE out: stream trades (symbol text4, price u32);";
    }
    if is_sign(word, b',') && is_sign(before, b',')
        || is_sign(word, b')') && is_sign(before, b',')
    {
        return "A column is lacking behind the comma.";
    }
    if at >= pieces.len() && is_sign(before, b')') {
        return "A ; is lacking at the end.";
    }
    if is_sign(before, b')') {
        return "Behind the columns of a stream stands ; and nothing else.";
    }
    if is_sign(word, b')') || is_sign(word, b',') {
        return "A column has a name and a kind: price u32.";
    }
    FORM
}

// Why a word is no name.
fn put_name(out: &mut String, word: &[u8]) -> Result<(), AllocError> {
    put_bytes(out, word)?;
    if is_taken(word) {
        return out.push_str(
            " is a word of the language, and so no name: write another, as lot or at.",
        );
    }
    out.push_str(" is no name. ")?;
    out.push_str(name_cure(word).unwrap_or(
        "A name has small letters, digits and single _, at most 32, a letter first.",
    ))
}

/// Appends what is wrong with a schema at a piece, and what to write.
pub(crate) fn put_schema(
    out: &mut String,
    fault: &SchemaFault,
    pieces: &Pieces<'_>,
    at: usize,
) -> Result<(), AllocError> {
    let word = pieces.get(at);
    match fault {
        SchemaFault::BadName { .. } => put_name(out, word),
        SchemaFault::BadKind { .. } => {
            put_bytes(out, word)?;
            out.push_str(" is no kind. ")?;
            out.push_str(kind_cure(word).unwrap_or(
                "Kinds are u1 to u64 and s2 to s64 of so many bits, and text1 to text8 of so many bytes.",
            ))
        }
        SchemaFault::Twice { .. } => {
            out.push_str(
                "Another stream, another column of this one, or another parameter, has the name ",
            )?;
            put_bytes(out, word)?;
            out.push_str(": write another.")
        }
        SchemaFault::TooMany { .. } => out.push_str(
            "A schema has at most 8 streams and 32 parameters, and a stream at most 32 columns: write two schemas, or one column of two.",
        ),
        SchemaFault::Syntax { .. } | SchemaFault::Memory => {
            if word.is_empty() {
                out.push_str("The text ends here. ")?;
            } else {
                put_bytes(out, word)?;
                out.push_str(" cannot stand here. ")?;
            }
            out.push_str(syntax_cure(pieces, at))?;
            out.push_str("\nHere ")?;
            out.push_str(wanted_at(pieces, at))?;
            out.push_str(" can stand.")
        }
    }
}
