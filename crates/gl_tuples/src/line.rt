//! Result lines.

ghost use Rattle.std.specs.Prelude.{◌≡◌, ◌≤◌, ◌<◌, ◌+◌, ◌-◌, ◌*◌, ◌^◌, ◌++◌, ◌∷◌, [], length, take, map, decimal, IsTrue};
ghost use Rattle.std.specs.Fmt.{signed_decimal};
ghost use Rattle.std.specs.List.{AllByRecursion};
ghost use Rattle.std.specs.Int.{bytes_high_first};
ghost use Rattle.gl_values.specs.Kinds.{IsKind, is_below, number_of, width_of};
ghost use Rattle.gl_bits.specs.Words.{bits_of, widths_of};
ghost use Rattle.gl_schema.specs.Seen.{line_of, printed, quoted, doubled, values_text};
ghost use Rattle.gl_schema.specs.Seen as seen;

use gl_bits::{Row, Word};
use gl_values::{Family, Kind};
use itoa::Buffer;

/// Writes the line of a result into a buffer and answers its length, at most 700: the cycle, each
/// value behind a comma, and a line feed. A number stands in decimal, behind a minus sign where it
/// is below 0. A text stands without its padding, and in double quotes where it has a comma or a
/// double quote. Takes no memory.
#[tactic(auto, unfolding(gl_schema::specs::Seen::line_of))]
pub fn line_into(cycle: u64, row: &Row, kinds: &[Kind], into: &mut [u8; 1024]) -> usize
    requires many { length kinds.now ≤ 32 }
    requires kinds { AllByRecursion IsKind kinds.now }
    requires widths { widths_of row.now ≡ map width_of kinds.now }
    ensures short { result ≤ 700 }
    ensures written { take result into.new ≡ line_of cycle kinds.now (bits_of row.now) }
{
    let end = put_number(into, 0, cycle);
    values_into(row, kinds, into, end)
}

/// Writes the values of a row at a place of a buffer, each behind a comma, and a line feed, as
/// `line_into` does, and answers the place behind them, at most 680 further on.
#[tactic(auto, using(crate::proofs::LineLemmas::line_steps))]
pub fn values_into(row: &Row, kinds: &[Kind], into: &mut [u8; 1024], at: usize) -> usize
    requires room { at ≤ 200 }
    requires many { length kinds.now ≤ 32 }
    requires kinds { AllByRecursion IsKind kinds.now }
    requires widths { widths_of row.now ≡ map width_of kinds.now }
    ensures short { result ≤ at + 680 }
    ensures written { take result into.new
        ≡ take at into.old ++ values_text kinds.now (bits_of row.now) ++ 10 ∷ [] }
{
    let mut end = at;
    for (column, kind) in kinds.iter().enumerate() {
        if let Some(word) = row.get(column) {
            end = put_column(into, end, *kind, word);
        }
    }
    put(into, end, b"\n")
}

/// Writes a value behind a comma.
fn put_column(into: &mut [u8; 1024], at: usize, kind: Kind, word: Word) -> usize
    requires room { at ≤ 900 }
    requires kind { IsKind kind }
    requires width { word.width ≡ width_of kind }
    ensures end { result ≤ at + 21 }
    ensures written { take result into.new ≡ (take at into.old ++ 44
        ∷ []) ++ printed kind word.bits }
{
    let end = put(into, at, b",");
    put_value(into, end, kind, word)
}

/// Writes bytes at a place of a line, and answers the place behind them.
pub fn put(into: &mut [u8; 1024], at: usize, bytes: &[u8]) -> usize
    requires { at + length bytes.now ≤ 1024 }
    ensures end { result ≡ at + length bytes.now }
    ensures written { take result into.new ≡ take at into.old ++ bytes.now }
{
    let end = at + bytes.len();
    into[at..end].copy_from_slice(bytes);
    end
}

fn put_number(into: &mut [u8; 1024], at: usize, number: u64) -> usize
    requires { at ≤ 1000 }
    ensures end { result ≤ at + 20 }
    ensures written { take result into.new ≡ take at into.old ++ decimal number }
{
    let mut buffer = Buffer::new();
    put(into, at, buffer.format(number).as_bytes())
}

/// Writes a number of at most 19 digits behind a minus sign.
#[tactic(auto, using(crate::proofs::Printing::few_digits))]
fn put_negative(into: &mut [u8; 1024], at: usize, number: u64) -> usize
    requires room { at ≤ 1000 }
    requires few { number ≤ 2 ^ 63 }
    ensures end { result ≤ at + 20 }
    ensures written { take result into.new ≡ take at into.old ++ 45 ∷ decimal number }
{
    let end = put(into, at, b"-");
    let mut buffer = Buffer::new();
    put(into, end, buffer.format(number).as_bytes())
}

/// The number without its sign that a word of a kind stands for, where it is below 0.
#[tactic(auto, using(crate::proofs::Printing::sizes))]
fn size_below(kind: Kind, word: u128) -> u64
    requires kind { IsKind kind }
    requires fits { word < 2 ^ width_of kind }
    requires below { IsTrue (is_below kind word 0) }
    ensures few { result ≤ 2 ^ 63 }
    ensures value { result ≡ 2 ^ width_of kind - word }
{
    ((1u128 << kind.width()) - word) as u64
}

/// Writes the number that a word of a kind stands for.
#[tactic(auto, using(crate::proofs::Printing::integers))]
fn put_integer(into: &mut [u8; 1024], at: usize, kind: Kind, bits: u64) -> usize
    requires room { at ≤ 1000 }
    requires kind { IsKind kind }
    requires fits { bits < 2 ^ width_of kind }
    ensures end { result ≤ at + 20 }
    ensures written { take result into.new
        ≡ take at into.old ++ signed_decimal (number_of kind bits) }
{
    let word = u128::from(bits);
    if kind.is_below(word, 0) {
        put_negative(into, at, size_below(kind, word))
    } else {
        put_number(into, at, bits)
    }
}

#[tactic(auto, using(crate::proofs::Printing::number_printed, crate::proofs::Printing::text_printed))]
fn put_value(into: &mut [u8; 1024], at: usize, kind: Kind, word: Word) -> usize
    requires room { at ≤ 1000 }
    requires kind { IsKind kind }
    requires width { word.width ≡ width_of kind }
    ensures end { result ≤ at + 20 }
    ensures written { take result into.new ≡ take at into.old ++ printed kind word.bits }
{
    let bits = small(word);
    match kind.family() {
        Family::Numbers => put_integer(into, at, kind, bits),
        Family::Texts => put_text(into, at, bits, usize::from(kind.bytes())),
    }
}

/// The number of a word of at most 64 bits.
pub fn small(word: Word) -> u64
    requires { word.width ≤ 64 }
    ensures value { result ≡ word.bits }
    ensures fits { result < 2 ^ word.width }
{
    word.bits() as u64
}

/// Writes a text of at most this many bytes without its padding.
#[tactic(auto, using(crate::proofs::LineLemmas::line_steps))]
fn put_text(into: &mut [u8; 1024], at: usize, bits: u64, bytes: usize) -> usize
    requires room { at ≤ 1000 }
    requires short { bytes ≤ 8 }
    ensures end { result ≤ at + 20 }
    ensures written { take result into.new
        ≡ take at into.old ++ quoted (seen.unpadded (bytes_high_first bytes bits)) }
{
    let all = bits.to_be_bytes();
    put_quoted(into, at, unpadded(&all[8 - bytes..]))
}

/// Writes a text, in double quotes where it has a comma or a double quote.
#[tactic(auto, using(crate::proofs::LineLemmas::line_steps))]
fn put_quoted(into: &mut [u8; 1024], at: usize, text: &[u8]) -> usize
    requires room { at ≤ 1000 }
    requires short { length text.now ≤ 8 }
    ensures end { result ≤ at + 20 }
    ensures written { take result into.new ≡ take at into.old ++ quoted text.now }
{
    if needs_quotes(text) {
        let end = put(into, at, b"\"");
        let end = put_doubled(into, end, text);
        put(into, end, b"\"")
    } else {
        put(into, at, text)
    }
}

/// Whether a text has a comma or a double quote.
#[tactic(auto, unfolding(gl_schema::specs::Seen::needs_quotes))]
fn needs_quotes(text: &[u8]) -> bool
    ensures { result ≡ seen.needs_quotes text.now }
{
    text.iter().any(|byte| *byte == b',' || *byte == b'"')
}

/// The bytes without the zero bytes at their end.
#[tactic(auto, using(crate::proofs::LineLemmas::line_steps))]
fn unpadded(bytes: &[u8]) -> &[u8]
    ensures short { length result.now ≤ length bytes.now }
    ensures text { result.now ≡ seen.unpadded bytes.now }
{
    let mut len = bytes.len();
    while len > 0 && bytes[len - 1] == 0 {
        len -= 1;
    }
    &bytes[..len]
}

/// Writes bytes with each double quote twice.
#[tactic(auto, using(crate::proofs::LineLemmas::line_steps))]
fn put_doubled(into: &mut [u8; 1024], at: usize, bytes: &[u8]) -> usize
    requires { at + 2 * length bytes.now ≤ 1024 }
    ensures end { result ≤ at + 2 * length bytes.now }
    ensures written { take result into.new ≡ take at into.old ++ doubled bytes.now }
{
    let mut end = at;
    for byte in bytes {
        end = put_double(into, end, *byte);
    }
    end
}

/// Writes a byte, and a double quote twice.
fn put_double(into: &mut [u8; 1024], at: usize, byte: u8) -> usize
    requires { at + 2 ≤ 1024 }
    ensures end { result ≤ at + 2 }
    ensures written { take result into.new ≡ take at into.old ++ seen.doubled_byte byte }
{
    if byte == b'"' {
        put(into, at, b"\"\"")
    } else {
        put(into, at, &[byte])
    }
}
