//! The tuples of the load.

ghost use Rattle.std.specs.Prelude.{◌≡◌, ◌<◌, ◌≤◌, ◌^◌, ◌∷◌, [], length, IfOk};
ghost use Rattle.gl_bits.specs.Words.{bits_of, widths_of};
ghost use Rattle.gl_tuples.specs.Gaps.{plain_beat, plain_beats};
ghost use Rattle.gl_tuples.specs.Growing.{Fit, shape_of};
ghost use Rattle.gl_load.specs.Query.{load_schema};
ghost use Rattle.gl_load.specs.Tuples as spec;

use gl_bits::{Listed, Memory, Row, Word};
use gl_schema::{Schema, text_number};
use gl_tuples::{Beat, Beats, GrowingBeats};
use std::alloc::Global;

// One of the four symbols.
fn symbol_at(place: u32) -> &'static [u8]
    ensures value { result.now ≡ spec.symbol_at place }
    ensures short { length result.now ≤ 4 }
{
    match place {
        0 => b"UBSN",
        1 => b"NESN",
        2 => b"ROG",
        _ => b"ABB",
    }
}

// A number as a word of 32 bits.
fn word_of(number: u64) -> Word
    requires { number < 2 ^ 32 }
    ensures number { result.bits ≡ number }
    ensures width { result.width ≡ 32 }
{
    match Word::new(u128::from(number), 32) {
        Some(word) => word,
        None => unreachable!(),
    }
}

// The row of a tuple.
fn load_row(alloc: Global, index: u32) -> Result<Row, Memory>
    ensures numbers { IfOk result (λ row. bits_of row ≡ spec.load_row index) }
    ensures widths { IfOk result (λ row. widths_of row ≡ 32 ∷ 32 ∷ 32 ∷ []) }
{
    let number = u64::from(index);
    let mut row = Row::new(alloc);
    row.push(word_of(text_number(symbol_at(index % 4), 4)))?;
    row.push(word_of(100 + 7 * number % 1000))?;
    row.push(word_of(1 + number % 100))?;
    Ok(row)
}

// The beat of the tuple `index`, of `count`.
fn load_beat(alloc: Global, count: u32, index: u32) -> Result<Beat, Memory>
    requires { index < count }
    ensures plain { IfOk result (λ beat. plain_beat beat ≡ spec.load_beat count index) }
    ensures fits { IfOk result (λ beat. Fit (shape_of load_schema) beat.rows) }
{
    let mut rows = Listed::new(alloc);
    rows.push(Some(load_row(alloc, index)?))?;
    Ok(Beat {
        cycle: index,
        number: u64::from(index) + 1,
        rows,
        tick: false,
        end: index + 1 == count,
    })
}

/// The beats of `count` tuples.
pub(crate) fn load_beats(alloc: Global, schema: &Schema, count: u32) -> Result<Beats, Memory>
    requires { schema.now ≡ load_schema }
    ensures { IfOk result (λ beats. plain_beats beats ≡ spec.load_beats count) }
{
    let mut beats = GrowingBeats::new(alloc, schema)?;
    for index in 0..count {
        beats.push(&load_beat(alloc, count, index)?)?;
    }
    Ok(beats.done(Vec::new(alloc)))
}
