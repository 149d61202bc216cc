//! Texts as numbers.

ghost use Rattle.std.specs.Prelude.{◌≡◌, ◌<◌, ◌≤◌, ◌^◌, ◌*◌, length, slice_index};
ghost use Rattle.gl_schema.specs.Schemas as spec;

/// The number of the word that a text has in a column of this many bytes: its bytes, the first one
/// highest, and zero bytes behind them.
#[tactic(auto, unfolding(crate::specs::Schemas::text_word))]
pub fn text_number(text: &[u8], bytes: usize) -> u64
    requires most { bytes ≤ 8 }
    requires short { length text.now ≤ bytes }
    ensures value { result ≡ spec.text_word bytes text.now }
    ensures small { result < 2 ^ (8 * bytes) }
{
    let mut bits: u64 = 0;
    for at in 0..bytes {
        bits = 256 * bits + u64::from(byte_at(text, at));
    }
    bits
}

/// The byte at a place, 0 behind the end.
fn byte_at(text: &[u8], at: usize) -> u8
    ensures { result ≡ slice_index text.now at }
{
    if at < text.len() { text[at] } else { 0 }
}
