//! The tokens of a schema's text, one byte after another.

ghost use Rattle.std.specs.Prelude.{◌≡◌, ◌+◌, ◌<◌, ◌≤◌, length, slice_index, slice_range};
ghost use Rattle.gl_schema.specs.SchemaText as spec;
ghost use Rattle.gl_schema.specs.SchemaFaults.{Gives};
ghost use Rattle.gl_schema.specs.Lexing.{Takes, IsInside, open_at, reading_after};

use crate::fault::SchemaFault;
use crate::reading::Reading;
use std::alloc::Global;

/// What a byte is: part of a word, white space, a dash, of which two begin a comment, or another
/// sign.
#[derive(Clone, Copy, PartialEq, Eq, Debug)]
pub enum Class {
    /// A byte of a word.
    Letter,
    /// White space.
    Blank,
    /// A dash, of which two begin a comment.
    Dash,
    /// A sign of its own.
    Other,
}

/// What the bytes so far leave open: nothing, a word or one dash by where it begins, or a comment.
#[derive(Clone, Copy, PartialEq, Eq, Debug)]
pub enum Standing {
    /// Nothing.
    Between,
    /// A word that begins at this place.
    InWord(usize),
    /// One dash at this place.
    AfterDash(usize),
    /// A comment, up to the end of its line.
    InComment,
}

#[tactic(auto, unfolding(crate::specs::SchemaText::class_of))]
fn class_of(byte: u8) -> Class
    ensures { result ≡ spec.class_of byte }
{
    match byte {
        b'a'..=b'z' | b'0'..=b'9' | b'_' | b'A'..=b'Z' => Class::Letter,
        b' ' | b'\t' | b'\r' | b'\n' => Class::Blank,
        b'-' => Class::Dash,
        _ => Class::Other,
    }
}

/// A byte behind which nothing else is open.
#[tactic(auto, using(crate::proofs::Words::lex_steps))]
fn begin(
    alloc: Global,
    text: &[u8],
    at: usize,
    byte: u8,
    reading: Reading,
) -> Result<(Standing, Reading), SchemaFault>
    requires here { at < length text.now }
    requires byte { byte ≡ slice_index text.now at }
    ensures { Takes text.now (at + 1) (spec.begin (spec.class_of byte) at byte) reading result }
{
    match class_of(byte) {
        Class::Letter => Ok((Standing::InWord(at), reading)),
        Class::Blank => Ok((Standing::Between, reading)),
        Class::Dash => Ok((Standing::AfterDash(at), reading)),
        Class::Other => Ok((Standing::Between, reading.sign(alloc, at as u64, byte)?)),
    }
}

/// One byte.
pub fn take(
    alloc: Global,
    text: &[u8],
    at: usize,
    byte: u8,
    standing: Standing,
    reading: Reading,
) -> Result<(Standing, Reading), SchemaFault>
    requires here { at < length text.now }
    requires byte { byte ≡ slice_index text.now at }
    requires inside { IsInside at standing }
    ensures { Takes text.now (at + 1) (spec.move (open_at text.now at standing) (spec.class_of byte)
        at byte) reading result }
{
    match standing {
        Standing::Between => begin(alloc, text, at, byte, reading),
        Standing::InWord(from) => take_in_word(alloc, text, at, byte, from, reading),
        Standing::AfterDash(from) => take_after_dash(alloc, text, at, byte, from, reading),
        Standing::InComment => {
            let next = if byte == b'\n' {
                Standing::Between
            } else {
                Standing::InComment
            };
            Ok((next, reading))
        }
    }
}

#[tactic(auto, using(crate::proofs::Words::lex_steps))]
fn take_in_word(
    alloc: Global,
    text: &[u8],
    at: usize,
    byte: u8,
    from: usize,
    reading: Reading,
) -> Result<(Standing, Reading), SchemaFault>
    requires here { at < length text.now }
    requires byte { byte ≡ slice_index text.now at }
    requires inside { from ≤ at }
    ensures { Takes text.now (at + 1) (spec.move (spec.InWord from (slice_range text.now from at))
        (spec.class_of byte) at byte) reading result }
{
    if class_of(byte) == Class::Letter {
        return Ok((Standing::InWord(from), reading));
    }
    let reading = reading.word(alloc, from as u64, &text[from..at])?;
    begin(alloc, text, at, byte, reading)
}

#[tactic(auto, using(crate::proofs::Words::lex_steps))]
fn take_after_dash(
    alloc: Global,
    text: &[u8],
    at: usize,
    byte: u8,
    from: usize,
    reading: Reading,
) -> Result<(Standing, Reading), SchemaFault>
    requires here { at < length text.now }
    requires byte { byte ≡ slice_index text.now at }
    requires inside { from ≤ at }
    ensures { Takes text.now (at + 1) (spec.move (spec.AfterDash from) (spec.class_of byte) at byte)
        reading result }
{
    if class_of(byte) == Class::Dash {
        return Ok((Standing::InComment, reading));
    }
    let reading = reading.sign(alloc, from as u64, b'-')?;
    begin(alloc, text, at, byte, reading)
}

/// The token that the end of the text completes.
pub fn finish(
    alloc: Global,
    text: &[u8],
    standing: Standing,
    reading: Reading,
) -> Result<Reading, SchemaFault>
    requires { IsInside (length text.now) standing }
    ensures { Gives result (reading_after
        (spec.last_tokens (open_at text.now (length text.now) standing)) reading) }
{
    match standing {
        Standing::Between | Standing::InComment => Ok(reading),
        Standing::InWord(from) => reading.word(alloc, from as u64, &text[from..]),
        Standing::AfterDash(from) => reading.sign(alloc, from as u64, b'-'),
    }
}
