//! Modules, from bytes to a module or a fault, and from a module to what it shows: `stdin` has rows, `stdout`
//! what each comes to.
//!
//! A line `text T` reads the text T; `behind T` reads T behind a header whose output is `o`; both print
//! the line, and then the fault and its place, or `read`. `fronts T` does so for each proper front of T,
//! those with one answer together. `value H T` reads a module that assigns T to an output of the bits
//! from H to 0, and prints what T means; `blocks T` prints what the blocks of a module mean; `design T`
//! prints all of a module; `source T` prints where its name and the names of its ports stand.
//!
//! A line `module T` sets a module. `run zero ROWS` runs it from zeros, and `run 1 ROWS` from what is drawn
//! from the seed 1: a row has what the inputs but the clock carry in one cycle, in their order and parted by
//! commas. What its last output shows in each cycle is printed, in hexadecimal digits. `falling N ROWS` runs
//! N wires, each assigned what the one before it has, the last first, and `unassigned 1 ROWS` a register that
//! no block assigns; a row of no inputs is `-`.
//!
//! In a text `\065` is the byte 65, and `` `9*T` `` stands for nine times T. Every other line is a remark.
#![tactic(auto)]

mod modules;
mod reading;
mod simulating;
mod texts;

use crate::reading::{
    print_answer, print_blocks, print_design, print_fronts, print_source, print_value,
};
use crate::simulating::ran;
use std::io;

// Prints what a line that reads a text comes to; nothing for any other.
fn print_read(rt: &HostRuntime, line: &str, command: &str, text: &str) -> io::Result<()> {
    match command {
        "text" => print_answer(rt, line, text),
        "behind" => {
            let whole = format!(in rt.alloc(); "module t(input wire clk, output wire o); {text}")?;
            print_answer(rt, line, &whole)
        }
        "fronts" => print_fronts(rt, line, text),
        "value" => print_value(rt, line, text),
        "blocks" => print_blocks(rt, line, text),
        "design" => print_design(rt, line, text),
        "source" => print_source(rt, line, text),
        _ => Ok(()),
    }
}

// Prints what a line that runs a module comes to.
fn print_run(
    rt: &HostRuntime,
    module: &str,
    line: &str,
    command: &str,
    text: &str,
) -> io::Result<()> {
    match ran(rt.alloc(), module, command, text) {
        Ok(told) => println!(rt; "{line}\n{told}"),
        Err(_) => println!(rt; "out of memory"),
    }
}

fn main(rt: HostRuntime) -> io::Result<()> {
    let mut module = String::new(rt.alloc());
    for line in rt.lines(rt.alloc()) {
        let line = line?;
        let (command, text) = line.split_once(' ').unwrap_or((line.as_str(), ""));
        match command {
            "module" => module = line.to_string(rt.alloc())?,
            "run" | "falling" | "unassigned" => print_run(&rt, &module, &line, command, text)?,
            _ => print_read(&rt, &line, command, text)?,
        }
    }
    Ok(())
}
