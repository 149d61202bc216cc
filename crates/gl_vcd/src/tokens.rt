//! The tokens of a dump, one behind the other.

ghost use Rattle.std.specs.Prelude.{◌≡◌, ◌≤◌, ◌^◌, None, Some, length, min, not, if◌then◌else◌};
ghost use Rattle.std.specs.List.{position_or_len};
ghost use Rattle.gl_schema.specs.SchemaText as blanks;
ghost use Rattle.gl_tuples.specs.Values as values;
ghost use Rattle.gl_vcd.specs.Lexing.{IsFirstFrom};

use gl_tuples::value::number_of;

/// Bytes without white space, and the byte where they begin.
#[derive(Clone, Copy, Debug)]
pub struct Token<'a> {
    /// Where they begin.
    pub at: usize,
    /// The bytes.
    pub bytes: &'a [u8],
}

fn is_blank(byte: u8) -> bool
    ensures { result ≡ blanks.is_blank byte }
{
    matches!(byte, b' ' | b'\t' | b'\r' | b'\n')
}

// How many bytes of white space stand in front.
fn blank_len(bytes: &[u8]) -> usize
    ensures place { result ≡ position_or_len (λ b. not (blanks.is_blank b)) bytes.now }
    ensures short { result ≤ length bytes.now }
{
    bytes
        .iter()
        .position(|byte| !is_blank(*byte))
        .unwrap_or(bytes.len())
}

// How many bytes stand in front of the first white space.
fn word_len(bytes: &[u8]) -> usize
    ensures place { result ≡ position_or_len blanks.is_blank bytes.now }
    ensures short { result ≤ length bytes.now }
{
    bytes
        .iter()
        .position(|byte| is_blank(*byte))
        .unwrap_or(bytes.len())
}

/// The first token from a place on, and the place behind it.
pub fn token_from(text: &[u8], from: usize) -> Option<(Token<'_>, usize)>
    requires { from ≤ length text.now }
    ensures { IsFirstFrom text.now from result }
{
    let at = from + blank_len(text.split_at(from).1);
    let rest = text.split_at(at).1;
    if rest.is_empty() {
        return None;
    }
    let len = word_len(rest);
    let bytes = rest.split_at(len).0;
    Some((Token { at, bytes }, at + len))
}

/// The number that one or more decimal digits spell, or 2^64 where it is more; None for any other
/// bytes.
#[tactic(auto, unfolding(gl_tuples::specs::Values::number_of))]
pub fn number_in(digits: &[u8]) -> Option<u128>
    ensures { result ≡ (if values.is_number digits.now then
        Some (min (values.number_in digits.now) (2 ^ 64)) else None) }
{
    number_of(digits)
}
