//! The lines of one cycle.

ghost use Rattle.std.specs.Prelude.{◌≡◌, ◌+◌, ◌≤◌, ◌++◌, ◌∷◌, length, map, option_map, take, decimal, not, ◌&&◌};
ghost use Rattle.std.specs.List.{AllByRecursion};
ghost use Rattle.gl_values.specs.Kinds.{IsKind, width_of};
ghost use Rattle.gl_bits.specs.Words.{widths_of, bits_of};
ghost use Rattle.gl_outside.specs.States.{Wrote};
ghost use Rattle.gl_schema.specs.Seen.{cycle_lines};
ghost use Rattle.gl_tuples.specs.Pieces.{line_if, line_with, lines_with, name_in, sampled, told_of};

use crate::line::{put, values_into};
use gl_bits::Row;
use gl_outside::{Sink, WriteFault, write_all_of};
use gl_values::Kind;
use itoa::Buffer;

/// What a cycle shows, beside the columns.
#[derive(Clone, Copy, PartialEq, Eq, Debug)]
pub struct Sample {
    /// A further group came.
    pub group: bool,
    /// A row leaves.
    pub valid: bool,
    /// The end is there.
    pub end: bool,
}

/// How the lines of a result are printed.
#[derive(Clone, Copy, Debug)]
pub struct Format<'a> {
    /// The name behind each cycle's number, of a result that stands beside others.
    pub name: Option<&'a [u8]>,
    /// The kinds of its columns.
    pub kinds: &'a [Kind],
}

// The most bytes of a name whose lines are each written in one piece.
const MOST_NAME: usize = 128;

// Writes a cycle and three texts into a line, and answers the place behind them.
fn line_into(cycle: u64, comma: &[u8], name: &[u8], told: &[u8], into: &mut [u8; 1024]) -> usize
    requires { length comma.now + length name.now + length told.now ≤ 1000 }
    ensures short { result ≤ 1024 }
    ensures written { take result into.new
        ≡ decimal cycle ++ comma.now ++ name.now ++ told.now }
{
    let mut buffer = Buffer::new();
    let end = put(into, 0, buffer.format(cycle).as_bytes());
    let end = put(into, end, comma);
    let end = put(into, end, name);
    put(into, end, told)
}

// Writes a line of a cycle and three texts in one piece.
fn put_short<K: Sink>(
    out: &mut K,
    cycle: u64,
    comma: &[u8],
    name: &[u8],
    told: &[u8],
) -> Result<(), WriteFault>
    requires { length comma.now + length name.now + length told.now ≤ 1000 }
    ensures { let bytes = decimal cycle ++ (comma.now ++ (name.now ++ told.now)) in
        Wrote (K.state out.old) (K.state out.new) bytes result }
{
    let mut line = [0u8; 1024];
    let end = line_into(cycle, comma, name, told, &mut line);
    write_all_of(out, &line[..end])
}

// Writes a line with a name of any length, piece by piece.
fn put_long<K: Sink>(out: &mut K, digits: &[u8], name: &[u8], told: &[u8]) -> Result<(), WriteFault>
    ensures { Wrote (K.state out.old) (K.state out.new)
        (digits.now ++ 44 ∷ (name.now ++ told.now)) result }
{
    write_all_of(out, digits)?;
    write_all_of(out, b",")?;
    write_all_of(out, name)?;
    write_all_of(out, told)
}

// Writes a line with a name.
fn put_named<K: Sink>(out: &mut K, name: &[u8], cycle: u64, told: &[u8]) -> Result<(), WriteFault>
    requires { length told.now ≤ 800 }
    ensures { let bytes = decimal cycle ++ 44 ∷ (name.now ++ told.now) in
        Wrote (K.state out.old) (K.state out.new) bytes result }
{
    if name.len() <= MOST_NAME {
        return put_short(out, cycle, b",", name, told);
    }
    let mut buffer = Buffer::new();
    put_long(out, buffer.format(cycle).as_bytes(), name, told)
}

// Writes a line: the cycle, the name where there is one, and what is told.
fn put_line<K: Sink>(
    out: &mut K,
    name: Option<&[u8]>,
    cycle: u64,
    told: &[u8],
) -> Result<(), WriteFault>
    requires { length told.now ≤ 800 }
    ensures { let named = option_map (λ n. n.now) name.entry in
        Wrote (K.state out.old) (K.state out.new) (line_with named cycle told.now) result }
{
    match name {
        Some(name) => put_named(out, name, cycle, told),
        None => put_short(out, cycle, b"", b"", told),
    }
}

// Writes a line of a cycle and a word, if it is due.
#[tactic(auto, using(gl_outside::proofs::Takes::took_none))]
fn put_word<K: Sink>(
    out: &mut K,
    name: Option<&[u8]>,
    cycle: u64,
    word: &[u8],
    due: bool,
) -> Result<(), WriteFault>
    requires { length word.now ≤ 800 }
    ensures { let named = option_map (λ n. n.now) name.entry in
        Wrote (K.state out.old) (K.state out.new) (line_if due named cycle word.now) result }
{
    if !due {
        return Ok(());
    }
    put_line(out, name, cycle, word)
}

// Writes the line of a row, if one is due.
#[tactic(auto, using(gl_outside::proofs::Takes::took_none))]
fn put_row<K: Sink>(
    out: &mut K,
    format: Format<'_>,
    cycle: u64,
    row: &Row,
    due: bool,
) -> Result<(), WriteFault>
    requires many { length format.kinds.now ≤ 32 }
    requires kinds { AllByRecursion IsKind format.kinds.now }
    requires widths { widths_of row.now ≡ map width_of format.kinds.now }
    ensures { let told = told_of format.entry.kinds.now (bits_of row.now) in
        Wrote (K.state out.old) (K.state out.new)
        (line_if due (name_in format.entry) cycle told) result }
{
    if !due {
        return Ok(());
    }
    let mut told = [0u8; 1024];
    let end = values_into(row, format.kinds, &mut told, 0);
    put_line(out, format.name, cycle, &told[..end])
}

// Whether a further group is to be told.
fn is_news(group: bool, overflowed: bool) -> bool
    ensures { result ≡ (group && not overflowed) }
{
    group && !overflowed
}

/// Writes the lines of a cycle: that a further group came, where none came before, the row, and the
/// end. A line is one piece, where the name has at most 128 bytes.
pub fn put_lines<K: Sink>(
    out: &mut K,
    format: Format<'_>,
    cycle: u64,
    row: &Row,
    overflowed: bool,
    sample: Sample,
) -> Result<(), WriteFault>
    requires many { length format.kinds.now ≤ 32 }
    requires kinds { AllByRecursion IsKind format.kinds.now }
    requires widths { widths_of row.now ≡ map width_of format.kinds.now }
    ensures { let shown = sampled sample cycle (bits_of row.now) in
        let bytes = lines_with (name_in format.entry) format.entry.kinds.now overflowed shown in
        Wrote (K.state out.old) (K.state out.new) bytes result }
{
    let news = is_news(sample.group, overflowed);
    put_word(out, format.name, cycle, b",overflow\n", news)?;
    put_row(out, format, cycle, row, sample.valid)?;
    put_word(out, format.name, cycle, b",end\n", sample.end)
}

/// Writes the lines of a cycle of a result that stands alone: that a further group came, where none
/// came before, the row, and the end.
pub fn put_cycle<K: Sink>(
    out: &mut K,
    cycle: u64,
    kinds: &[Kind],
    row: &Row,
    overflowed: bool,
    sample: Sample,
) -> Result<(), WriteFault>
    requires many { length kinds.now ≤ 32 }
    requires kinds { AllByRecursion IsKind kinds.now }
    requires widths { widths_of row.now ≡ map width_of kinds.now }
    ensures { let shown = sampled sample cycle (bits_of row.now) in
        Wrote (K.state out.old) (K.state out.new) (cycle_lines kinds.now overflowed shown) result }
{
    let format = Format { name: None, kinds };
    put_lines(out, format, cycle, row, overflowed, sample)
}
