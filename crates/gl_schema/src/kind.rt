//! Kinds as they are written.

ghost use Rattle.std.specs.Prelude.{◌≡◌};
ghost use Rattle.gl_schema.specs.SchemaText.{row_of, size_in};
ghost use Rattle.gl_schema.specs.SchemaFaults as spec;
ghost use Rattle.gl_schema.specs.KindReading as read;

use gl_values::Kind;

/// The kind that a word is the text of: `u1` to `u64`, `s2` to `s64`, `text1` to `text8`.
pub fn kind_named(word: &[u8]) -> Option<Kind>
    ensures { result ≡ spec.kind_named word.now }
{
    kind_read(word)
}

/// The front of a kind as it is written.
#[tactic(auto, using(crate::proofs::KindTable::rows))]
pub fn kind_front(kind: Kind) -> &'static [u8]
    ensures { result.now ≡ (row_of kind).front }
{
    match kind {
        Kind::Unsigned(_) => b"u",
        Kind::Signed(_) => b"s",
        Kind::Text(_) => b"text",
    }
}

/// The size that stands behind it.
#[tactic(auto, using(crate::proofs::KindTable::sizes))]
pub fn kind_size(kind: Kind) -> u8
    ensures { result ≡ size_in (row_of kind) kind }
{
    match kind {
        Kind::Unsigned(width) | Kind::Signed(width) => width,
        Kind::Text(bytes) => bytes,
    }
}

fn kind_read(word: &[u8]) -> Option<Kind>
    ensures { result ≡ read.kind_read word.now }
{
    match word {
        [b'u', digits @ ..] => match small_number(digits) {
            width @ 1..=64 => Some(Kind::Unsigned(width)),
            _ => None,
        },
        [b's', digits @ ..] => match small_number(digits) {
            width @ 2..=64 => Some(Kind::Signed(width)),
            _ => None,
        },
        [b't', b'e', b'x', b't', digits @ ..] => match small_number(digits) {
            bytes @ 1..=8 => Some(Kind::Text(bytes)),
            _ => None,
        },
        _ => None,
    }
}

/// The number that one or two digits spell, the first not 0; 0 for anything else.
fn small_number(digits: &[u8]) -> u8
    ensures { result ≡ read.small_number digits.now }
{
    match digits {
        [ones @ b'1'..=b'9'] => *ones - b'0',
        [tens @ b'1'..=b'9', ones @ b'0'..=b'9'] => 10 * (*tens - b'0') + (*ones - b'0'),
        _ => 0,
    }
}
