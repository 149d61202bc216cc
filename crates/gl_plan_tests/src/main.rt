//! Plans, their figures and netlists: `stdin` has rows, `stdout` what each comes to.
//!
//! A line `schema T` sets the schema. A line `plan T` prints the plan of a statement over it, a line for each
//! node: its number, its words, and behind `:` its figures a, lt, le, nt, ne, gt and ge. A line `printed T`
//! prints what is printed of a statement, or the limit that it passes, and `weight T` the weight of its plan's
//! root, alone and with its output's part. A line `made NAME` prints what comes of
//! a plan or a netlist that is made here by hand, call by call: `twice`, `every`, `delay` or `mixed`. Every
//! other line is a remark.
#![tactic(auto)]

mod netlists;
mod plans;
mod shown;
mod statements;

use crate::netlists::{delayed, mixed};
use crate::plans::{every, twice};
use crate::statements::{planned, printed, weight_told};
use gl_bits::Memory;
use std::alloc::Global;
use std::io;

// What is made by hand under a name.
fn made(alloc: Global, name: &str) -> Result<String, Memory> {
    match name {
        "twice" => twice(alloc),
        "every" => every(alloc),
        "delay" => delayed(alloc),
        "mixed" => mixed(alloc),
        _ => Ok(String::from_str(alloc, "nothing")?),
    }
}

// What a line comes to; nothing for a remark.
fn told_of(alloc: Global, schema: &str, command: &str, text: &str) -> Result<String, Memory> {
    match command {
        "plan" => planned(alloc, schema, text),
        "printed" => printed(alloc, schema, text),
        "weight" => weight_told(alloc, schema, text),
        "made" => made(alloc, text),
        _ => Ok(String::new(alloc)),
    }
}

// Prints a line and what it comes to, if it is no remark.
fn print_told(
    rt: &HostRuntime,
    schema: &str,
    line: &str,
    command: &str,
    text: &str,
) -> io::Result<()> {
    match told_of(rt.alloc(), schema, command, text) {
        Ok(told) if told.is_empty() => Ok(()),
        Ok(told) => println!(rt; "{line}\n{told}"),
        Err(_) => println!(rt; "out of memory"),
    }
}

fn main(rt: HostRuntime) -> io::Result<()> {
    let mut schema = String::new(rt.alloc());
    for line in rt.lines(rt.alloc()) {
        let line = line?;
        let (command, text) = line.split_once(' ').unwrap_or((line.as_str(), ""));
        if command == "schema" {
            schema = text.to_string(rt.alloc())?;
        } else {
            print_told(&rt, &schema, &line, command, text)?;
        }
    }
    Ok(())
}
