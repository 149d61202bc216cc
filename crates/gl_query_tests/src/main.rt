//! The query side, from texts to faults, to canonical texts and to rows: `stdin` has its rows, `stdout` what
//! each comes to.
//!
//! A line `read T` reads the text T, and `fronts T` each front of T that ends before a space, those with one
//! answer together; both print a fault and its place, or `read`. `joins T` prints which join a statement is,
//! and of what. A line `schema T` sets the schema, and `check T` checks a statement over it: a fault and its
//! place, or `accepted`. `print T` prints the canonical text of a statement, and `where C` that of a select
//! with the condition C. A line `sets VALUES` sets the values of the schema's parameters, `trades ROWS` or
//! `other ROWS` the rows that come in on the stream of this name, `places P | P` in which cycles both streams'
//! rows come, `times T` the times of those on trades, and `ticks N` how many ticks come in all. `answer T` prints
//! the rows of a statement over them, with `spill` where groups are left out. In a text `\009` is the byte 9, and
//! `` `9*T` `` stands for nine times T. Every other line is a remark.
#![tactic(auto)]

mod answers;
mod statements;
mod texts;

use crate::answers::{Given, answered};
use crate::statements::{checked, fronts, joined, printed, printed_with, read};
use crate::texts::bytes_of;
use std::alloc::{AllocError, Global};
use std::io;

// What a line that asks comes to; nothing for a remark.
fn answer_of(
    alloc: Global,
    given: &Given,
    command: &str,
    text: &[u8],
) -> Result<String, AllocError> {
    match command {
        "read" => read(alloc, text),
        "fronts" => fronts(alloc, text),
        "joins" => joined(alloc, text),
        "check" => checked(alloc, given.schema.as_bytes(), text),
        "print" => printed(alloc, text),
        "where" => printed_with(alloc, text),
        "answer" => answered(alloc, given, text),
        _ => Ok(String::new(alloc)),
    }
}

// What a line comes to, whose text has bytes that are told by their numbers.
fn told_of(alloc: Global, given: &Given, command: &str, text: &str) -> Result<String, AllocError> {
    let bytes = bytes_of(alloc, text)?;
    answer_of(alloc, given, command, &bytes)
}

// Prints a line and what it comes to, if it is no remark.
fn print_told(
    rt: &HostRuntime,
    given: &Given,
    line: &str,
    command: &str,
    text: &str,
) -> io::Result<()> {
    match told_of(rt.alloc(), given, command, text) {
        Ok(told) if told.is_empty() => Ok(()),
        Ok(told) => println!(rt; "{line}\n{told}"),
        Err(_) => println!(rt; "out of memory"),
    }
}

fn main(rt: HostRuntime) -> io::Result<()> {
    let mut given = Given {
        schema: String::new(rt.alloc()),
        sets: String::new(rt.alloc()),
        trades: String::new(rt.alloc()),
        other: String::new(rt.alloc()),
        places: String::new(rt.alloc()),
        times: String::new(rt.alloc()),
        ticks: String::new(rt.alloc()),
    };
    for line in rt.lines(rt.alloc()) {
        let line = line?;
        let (command, text) = line.split_once(' ').unwrap_or((line.as_str(), ""));
        match command {
            "schema" => given.schema = text.to_string(rt.alloc())?,
            "sets" => given.sets = text.to_string(rt.alloc())?,
            "trades" => given.trades = text.to_string(rt.alloc())?,
            "other" => given.other = text.to_string(rt.alloc())?,
            "places" => given.places = text.to_string(rt.alloc())?,
            "times" => given.times = text.to_string(rt.alloc())?,
            "ticks" => given.ticks = text.to_string(rt.alloc())?,
            _ => print_told(&rt, &given, &line, command, text)?,
        }
    }
    Ok(())
}
