//! The rows of beats as numbers in one list: how they are added, and read again.

ghost use Rattle.std.specs.Prelude.{◌≡◌, ◌≤◌, ◌<◌, ◌^◌, ◌++◌, ℕ, List, length, Some, slice_get, unwrap_or, option_map, IfOk, IfSome, OnOk};
ghost use Rattle.std.specs.List.{AllByRecursion};
ghost use Rattle.gl_bits.specs.Words.{bits_of, widths_of};
ghost use Rattle.gl_tuples.specs.Flat.{RowAdded, RowsAdded, is_odd, row_size, rows_in, rows_size};
ghost use Rattle.gl_tuples.specs.Growing.{AreNarrow, Fit, IsNarrow};

use crate::line::small;
use gl_bits::{Listed, Memory, Row};

/// The bits of the columns of a stream.
pub(crate) type Columns = Listed<u16>;

// The number at a place of a row whose words have at most 64 bits.
#[tactic(auto, using(crate::proofs::Narrow::place_steps))]
fn number_at(row: &Row, at: usize) -> u64
    requires place { at < length row.now }
    requires narrow { AllByRecursion IsNarrow (widths_of row.now) }
    ensures { slice_get (bits_of row.now) at ≡ Some result }
{
    match row.get(at) {
        Some(word) => small(word),
        None => unreachable!(),
    }
}

// Adds the numbers of a row.
#[tactic(auto, using(crate::proofs::Narrow::bits_whole))]
fn push_words(row: &Row, numbers: &mut Vec<u64>) -> Result<(), Memory>
    requires { AllByRecursion IsNarrow (widths_of row.now) }
    ensures added { OnOk result (numbers.new.items ≡ numbers.old.items ++ bits_of row.now) }
    ensures kept { (more : List ℕ) × (numbers.new.items ≡ numbers.old.items ++ more) }
{
    for at in 0..row.len() {
        numbers.push(number_at(row, at))?;
    }
    Ok(())
}

// Adds the numbers of the row of a stream, where it has one, and answers whether it has.
#[tactic(auto, using(crate::proofs::Flats::row_added, crate::proofs::Flats::none_added, crate::proofs::Narrow::narrow_row))]
fn push_row(columns: &[u16], row: &Option<Row>, numbers: &mut Vec<u64>) -> Result<bool, Memory>
    requires narrow { AllByRecursion IsNarrow columns.now }
    requires fits { IfSome row.now (λ words. widths_of words ≡ columns.now) }
    ensures added { IfOk result
        (RowAdded columns.now row.now numbers.old.items numbers.new.items) }
    ensures kept { (more : List ℕ) × (numbers.new.items ≡ numbers.old.items ++ more) }
{
    match row {
        Some(row) => {
            push_words(row, numbers)?;
            Ok(true)
        }
        None => Ok(false),
    }
}

/// Adds the numbers of the rows of a beat, and answers the number whose bits say which streams have
/// one.
pub(crate) fn push_rows(
    shape: &[Columns],
    rows: &[Option<Row>],
    numbers: &mut Vec<u64>,
) -> Result<u8, Memory>
    requires few { length shape.now ≤ 8 }
    requires narrow { AreNarrow shape.now }
    requires fit { Fit shape.now rows.now }
    ensures added { IfOk result
        (RowsAdded shape.now rows.now numbers.old.items numbers.new.items) }
    ensures small { IfOk result (λ present. present < 2 ^ length shape.now) }
    ensures kept { (more : List ℕ) × (numbers.new.items ≡ numbers.old.items ++ more) }
{
    match (shape.split_first(), rows.split_first()) {
        (None, None) => Ok(0),
        (Some((columns, others)), Some((row, rest))) => {
            let comes = push_row(columns.as_slice(), row, numbers)?;
            let later = push_rows(others, rest, numbers)?;
            Ok(u8::from(comes) + 2 * later)
        }
        _ => unreachable!(),
    }
}

// Whether the first stream has a row.
fn comes_first(present: u8) -> bool
    ensures { result ≡ is_odd present }
{
    present % 2 == 1
}

// How many numbers the row of a stream takes.
fn size_of(columns: &[u16], comes: bool) -> usize
    ensures { result ≡ row_size comes columns.now }
{
    if comes { columns.len() } else { 0 }
}

/// The numbers of the row of a stream, where it has one, among those of a beat.
pub(crate) fn row_of<'a>(
    shape: &[Columns],
    present: u8,
    numbers: &'a [u64],
    stream: usize,
) -> Option<&'a [u64]>
    requires { rows_size shape.now present ≤ length numbers.now }
    ensures { option_map (λ r. r.now) result ≡ option_map bits_of
        (unwrap_or (slice_get (rows_in shape.now present numbers.now) stream) None) }
{
    let (columns, others) = shape.split_first()?;
    let comes = comes_first(present);
    let (row, rest) = numbers.split_at(size_of(columns.as_slice(), comes));
    if stream > 0 {
        return row_of(others, present / 2, rest, stream - 1);
    }
    if comes { Some(row) } else { None }
}
