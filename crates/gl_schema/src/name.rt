//! Names of streams, columns and results.

ghost use Rattle.std.specs.Prelude.{◌≡◌, bytes_eq};
ghost use Rattle.std.specs.List.{list_any};
ghost use Rattle.gl_schema.specs.Names as spec;

use gl_bits::limits::MOST_BYTES;

/// The keywords of the query language in lower case.
const KEYWORDS: [&[u8]; 26] = [
    b"select", b"from", b"where", b"group", b"by", b"groups", b"each", b"in", b"size", b"advance",
    b"tuples", b"time", b"union", b"concat", b"into", b"as", b"and", b"or", b"not", b"cast",
    b"count", b"sum", b"min", b"max", b"avg", b"wsum",
];

/// Words with a meaning of their own in a tuple file or on a module's ports.
const RESERVED: [&[u8]; 4] = [b"end", b"tick", b"valid", b"eos"];

/// Whether a word is a name: a small letter, then small letters, digits and single underscores,
/// none last, at most 32 bytes, and no word with another meaning.
#[tactic(auto, unfolding(crate::specs::Names::is_name))]
pub fn is_name(word: &[u8]) -> bool
    ensures { result ≡ spec.is_name word.now }
{
    word.len() <= MOST_BYTES
        && begins_with_letter(word)
        && has_name_bytes(word)
        && !has_loose_underscore(word)
        && !is_taken(word)
}

#[tactic(auto, unfolding(crate::specs::Names::has_name_bytes))]
fn has_name_bytes(word: &[u8]) -> bool
    ensures { result ≡ spec.has_name_bytes word.now }
{
    word.iter().all(|byte| is_name_byte(*byte))
}

fn is_name_byte(byte: u8) -> bool
    ensures { result ≡ spec.is_name_byte byte }
{
    matches!(byte, b'a'..=b'z' | b'0'..=b'9' | b'_')
}

#[tactic(auto, unfolding(crate::specs::Names::begins_with_letter))]
fn begins_with_letter(word: &[u8]) -> bool
    ensures { result ≡ spec.begins_with_letter word.now }
{
    match word {
        [] => false,
        [first, ..] => matches!(*first, b'a'..=b'z'),
    }
}

/// Whether an underscore stands last, or before another one.
#[tactic(auto, unfolding(crate::specs::Names::has_loose_underscore))]
fn has_loose_underscore(word: &[u8]) -> bool
    ensures { result ≡ spec.has_loose_underscore word.now }
{
    let mut rest = word;
    while let [first, second, ..] = rest {
        if *first == b'_' && *second == b'_' {
            return true;
        }
        rest = &rest[1..];
    }
    matches!(rest, [b'_'])
}

/// Whether a word has another meaning.
#[tactic(auto, unfolding(crate::specs::Names::is_taken, crate::specs::Names::keywords, crate::specs::Names::reserved))]
fn is_taken(word: &[u8]) -> bool
    ensures { result ≡ spec.is_taken word.now }
{
    is_one_of(&KEYWORDS, word) || is_one_of(&RESERVED, word)
}

fn is_one_of(words: &[&[u8]], word: &[u8]) -> bool
    ensures { result ≡ list_any (λ w. bytes_eq word.now w.now) words.now }
{
    words.iter().any(|other| word == *other)
}
