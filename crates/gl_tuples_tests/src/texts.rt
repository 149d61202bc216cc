//! Rows of texts.
//!
//! A row `schema TEXT` prints the streams and parameters of a schema or its fault, a row `tuples
//! TEXT` the beats of a tuple file or its fault, a row `gap NUMBER NUMBER TEXT` whether its beats keep
//! a gap, and ticks another one, and a row `line NUMBER NUMBER` the line of a result. A row `behind
//! NUMBER TEXT` has so many records with a tick in front of the text, one in each cycle, and prints
//! how many beats the file has, or its fault.

ghost use Rattle.std.specs.Prelude.{◌≡◌, [], ◌∷◌, IfOk, IfSome};
ghost use Rattle.gl_bits.specs.Words.{widths_of};

use crate::pieces::{bytes_of, number_before};
use gl_bits::{Memory, Row, Word};
use gl_gaps::Gaps;
use gl_schema::{Schema, read_schema};
use gl_tuple_reader::read_tuples;
use gl_tuples::{BeatView, Beats, TupleFault, line_into};
use gl_values::Kind;
use std::alloc::{AllocError, Global};
use std::io;

// The schema of the tuple files.
const SCHEMA: &[u8] = b"stream trades (symbol text4, price u32, volume u32); stream other (v u64);";

/// Its streams.
const STREAMS: usize = 2;

// Prints the streams and parameters of a schema's text, or its fault.
fn print_schema(rt: &HostRuntime, text: &[u8]) -> io::Result<()> {
    match read_schema(rt.alloc(), text) {
        Ok(schema) => print_streams(rt, &schema),
        Err(fault) => println!(rt; "{fault}"),
    }
}

fn print_streams(rt: &HostRuntime, schema: &Schema) -> io::Result<()> {
    print!(rt; "read")?;
    for stream in schema.streams.as_slice() {
        let name = str::from_utf8(stream.name.as_slice()).unwrap_or("?");
        print!(rt; "|{name}")?;
        for column in stream.columns.as_slice() {
            let name = str::from_utf8(column.name.as_slice()).unwrap_or("?");
            let kind = column.kind;
            print!(rt; " {name} {kind:?}")?;
        }
    }
    for parameter in schema.parameters.as_slice() {
        let name = str::from_utf8(parameter.name.as_slice()).unwrap_or("?");
        let kind = parameter.kind;
        print!(rt; "|parameter {name} {kind:?}")?;
    }
    println!(rt)
}

// The beats of a tuple file, or its fault; nothing where memory is short.
fn beats_of(alloc: Global, text: &[u8]) -> Result<Beats, TupleFault> {
    match read_schema(alloc, SCHEMA) {
        Ok(schema) => read_tuples(alloc, &schema, text),
        Err(_) => Err(TupleFault::Memory),
    }
}

// Prints each beat of a tuple file, or its fault: the cycle, `#` and its record, for each stream
// `-` or the numbers of its row, and whether a tick and the end come.
fn print_tuples(rt: &HostRuntime, text: &[u8]) -> io::Result<()> {
    match beats_of(rt.alloc(), text) {
        Ok(beats) => {
            for at in 0..beats.len() {
                if let Some(beat) = beats.get(at) {
                    print_beat(rt, &beat)?;
                }
            }
            println!(rt)
        }
        Err(fault) => println!(rt; "{fault}"),
    }
}

fn print_beat(rt: &HostRuntime, beat: &BeatView<'_>) -> io::Result<()> {
    let cycle = beat.cycle();
    let number = beat.number();
    print!(rt; "{cycle}#{number}")?;
    for stream in 0..STREAMS {
        match beat.row(stream) {
            Some(row) => print_row(rt, row)?,
            None => print!(rt; "-")?,
        }
    }
    print!(rt; "{}", if beat.ticks() { " tick" } else { "" })?;
    print!(rt; "{}", if beat.ends() { " end" } else { " " })
}

fn print_row(rt: &HostRuntime, row: &[u64]) -> io::Result<()> {
    for number in row {
        print!(rt; ":{number}")?;
    }
    Ok(())
}

// A number as a gap.
fn short(number: u64) -> u32 {
    u32::try_from(number).unwrap_or(u32::MAX)
}

// Prints whether a tuple file keeps a gap, and the one of ticks that stands in front of it.
fn print_gap(rt: &HostRuntime, of_beats: u64, text: &str) -> io::Result<()> {
    let (of_ticks, rest) = number_before(text);
    let gaps = Gaps {
        of_beats: short(of_beats),
        of_ticks: short(of_ticks),
    };
    let Ok(bytes) = bytes_of(rt.alloc(), rest) else {
        return println!(rt; "out of memory");
    };
    let kept = match beats_of(rt.alloc(), bytes.as_slice()) {
        Ok(beats) => beats.keep(gaps),
        Err(fault) => Err(fault),
    };
    match kept {
        Ok(()) => println!(rt; "kept"),
        Err(fault) => println!(rt; "{fault}"),
    }
}

// A row of a text of four bytes and a number of 32 bits; none where one does not fit.
fn two_words(alloc: Global, text: u128, number: u128) -> Result<Option<Row>, Memory>
    ensures { IfOk result (λ row. IfSome row (λ row. widths_of row ≡ 32 ∷ 32 ∷ [])) }
{
    let (Some(text), Some(number)) = (Word::new(text, 32), Word::new(number, 32)) else {
        return Ok(None);
    };
    let mut row = Row::new(alloc);
    row.push(text)?;
    row.push(number)?;
    Ok(Some(row))
}

// Prints the line of a result in cycle 12, of a text of four bytes and a number of 32 bits.
fn print_line(rt: &HostRuntime, text: u128, number: u128) -> io::Result<()> {
    let Ok(Some(row)) = two_words(rt.alloc(), text, number) else {
        return println!(rt; "no row");
    };
    let mut line = [0u8; 1024];
    let len = line_into(12, &row, &[Kind::Text(4), Kind::Unsigned(32)], &mut line);
    print!(rt; "{}", str::from_utf8(&line[..len]).unwrap_or("?"))
}

// A tuple file of `ticks` ticks, one in each cycle, with this text behind them.
fn behind_ticks(alloc: Global, ticks: u64, text: &[u8]) -> Result<Vec<u8>, AllocError> {
    let mut file = Vec::new(alloc);
    for cycle in 0..ticks {
        let tick = format!(in alloc; "{cycle},tick\n")?;
        file.extend_from_slice(tick.as_bytes())?;
    }
    file.extend_from_slice(text)?;
    Ok(file)
}

// Prints how many beats such a file has, or its fault.
fn print_behind(rt: &HostRuntime, ticks: u64, text: &[u8]) -> io::Result<()> {
    let Ok(file) = behind_ticks(rt.alloc(), ticks, text) else {
        return println!(rt; "out of memory");
    };
    match beats_of(rt.alloc(), file.as_slice()) {
        Ok(beats) => println!(rt; "{} beats", beats.len()),
        Err(fault) => println!(rt; "{fault}"),
    }
}

/// Prints what such a row comes to.
pub(crate) fn print_text(rt: &HostRuntime, kind: &str, text: &str) -> io::Result<()> {
    let (number, rest) = number_before(text);
    if kind == "line" {
        return print_line(rt, number.into(), number_before(rest).0.into());
    }
    if kind == "gap" {
        return print_gap(rt, number, rest);
    }
    let Ok(bytes) = bytes_of(rt.alloc(), if kind == "behind" { rest } else { text }) else {
        return println!(rt; "out of memory");
    };
    match kind {
        "schema" => print_schema(rt, bytes.as_slice()),
        "tuples" => print_tuples(rt, bytes.as_slice()),
        _ => print_behind(rt, number, bytes.as_slice()),
    }
}
