//! Rows of the columns of a result.

ghost use Rattle.std.specs.Prelude.{◌≡◌, ◌<◌, ◌^◌, length, map, replicate, slice_index, slice_set, IfOk};
ghost use Rattle.std.specs.List.{AllByRecursion};
ghost use Rattle.gl_values.specs.Kinds.{IsKind, width_of};
ghost use Rattle.gl_bits.specs.Words.{widths_of, bits_of};

use gl_bits::{Memory, Row, Word};
use gl_values::Kind;
use std::alloc::Global;

// The word of a kind that is 0.
fn zero_of(kind: Kind) -> Word
    requires { IsKind kind }
    ensures width { result.width ≡ width_of kind }
    ensures bits { result.bits ≡ 0 }
{
    match Word::new(0, kind.width()) {
        Some(word) => word,
        // A kind has 1 to 64 bits.
        None => unreachable!(),
    }
}

/// A row of zeros of these kinds.
pub fn zero_row(alloc: Global, kinds: &[Kind]) -> Result<Row, Memory>
    requires { AllByRecursion IsKind kinds.now }
    ensures widths { IfOk result (λ r. widths_of r ≡ map width_of kinds.now) }
    ensures zeros { IfOk result (λ r. bits_of r ≡ replicate (length kinds.now) 0) }
{
    let mut row = Row::new(alloc);
    for kind in kinds {
        row.push(zero_of(*kind))?;
    }
    Ok(row)
}

/// Puts a value at a place of a row, if the word there can hold it.
#[tactic(auto, using(crate::proofs::Rows::row_steps))]
pub fn set_value(row: &mut Row, place: usize, value: u128)
    ensures widths { widths_of row.new ≡ widths_of row.old }
    ensures bits { value < 2 ^ slice_index (widths_of row.old) place
        → bits_of row.new ≡ slice_set (bits_of row.old) place value }
{
    let Some(old) = row.get(place) else {
        return;
    };
    if let Some(word) = Word::new(value, old.width()) {
        row.set(place, word);
    }
}
