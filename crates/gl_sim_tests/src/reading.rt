//! Texts and what they come to as modules.

use crate::texts::bytes_of;
use gl_verilog::Module;
use gl_verilog_reader::{read_module, read_source};
use std::alloc::{AllocError, Global};
use std::io;

// What a text comes to: its fault, or that it is read.
fn answer(alloc: Global, text: &[u8]) -> Result<String, AllocError> {
    match read_module(alloc, text) {
        Ok(_) => String::from_str(alloc, "read"),
        Err(fault) => format!(in alloc; "{fault:?}"),
    }
}

/// Prints what a text comes to.
pub fn print_answer(rt: &HostRuntime, line: &str, text: &str) -> io::Result<()> {
    println!(rt; "{line}")?;
    let bytes = bytes_of(rt.alloc(), text)?;
    let answer = answer(rt.alloc(), &bytes)?;
    println!(rt; "{answer}")
}

/// Prints the answers of the proper fronts, those of one answer together.
pub fn print_fronts(rt: &HostRuntime, line: &str, text: &str) -> io::Result<()> {
    println!(rt; "{line}")?;
    let bytes = bytes_of(rt.alloc(), text)?;
    let mut last = String::new(rt.alloc());
    for size in 0..bytes.len() {
        let now = answer(rt.alloc(), &bytes[..size])?;
        let at_end = format!(in rt.alloc(); "Syntax {{ at: {size} }}")?;
        let now = if now == at_end {
            String::from_str(rt.alloc(), "Syntax at its end")?
        } else {
            now
        };
        if now != last {
            println!(rt; "from {size}: {now}")?;
        }
        last = now;
    }
    Ok(())
}

/// The module of a text, if it has one.
pub fn design_of(alloc: Global, text: &str) -> Option<Module> {
    let bytes = bytes_of(alloc, text).ok()?;
    read_module(alloc, &bytes).ok()
}

/// Prints what the value of an assignment means.
pub fn print_value(rt: &HostRuntime, line: &str, text: &str) -> io::Result<()> {
    println!(rt; "{line}")?;
    let (high, value) = text.split_once(' ').unwrap_or(("0", text));
    let whole = format!(in rt.alloc();
        "module t(input wire c, input wire [3:0] a, input wire [3:0] b, input wire [3:0] d, output wire [{high}:0] o); assign o = {value}; endmodule"
    )?;
    match design_of(rt.alloc(), &whole) {
        Some(design) => match design.assignments.as_slice() {
            [assignment] => println!(rt; "{:?}", assignment.value),
            _ => println!(rt; "not one assignment"),
        },
        None => println!(rt; "no module"),
    }
}

/// Prints what the blocks of a module mean.
pub fn print_blocks(rt: &HostRuntime, line: &str, text: &str) -> io::Result<()> {
    println!(rt; "{line}")?;
    let whole = format!(in rt.alloc();
        "module t(input wire clk, input wire c, input wire d, input wire [3:0] x, input wire [3:0] y, output reg [3:0] r, output reg [3:0] s); {text} endmodule"
    )?;
    match design_of(rt.alloc(), &whole) {
        Some(design) => println!(rt; "{:?}", design.blocks.as_slice()),
        None => println!(rt; "no module"),
    }
}

// A name; its bytes are letters, digits and `_`.
fn name_of(alloc: Global, bytes: &[u8]) -> Result<String, AllocError> {
    let mut out = String::new(alloc);
    for byte in bytes {
        out.push(char::from(*byte))?;
    }
    Ok(out)
}

/// Prints all of a module.
pub fn print_design(rt: &HostRuntime, line: &str, text: &str) -> io::Result<()> {
    println!(rt; "{line}")?;
    let Some(design) = design_of(rt.alloc(), text) else {
        return println!(rt; "no module");
    };
    let name = name_of(rt.alloc(), design.name.as_slice())?;
    let ports = design.ports;
    println!(rt; "{name} {ports}")?;
    for declaration in design.declarations.as_slice() {
        let name = name_of(rt.alloc(), declaration.name.as_slice())?;
        let width = declaration.width;
        let is_vector = declaration.is_vector;
        let kind = declaration.kind;
        println!(rt; "{name} {width} {is_vector} {kind:?}")?;
    }
    println!(rt; "{:?}", design.assignments.as_slice())?;
    println!(rt; "{:?}", design.blocks.as_slice())
}

/// Prints where the name of a module and the names of its ports stand.
pub fn print_source(rt: &HostRuntime, line: &str, text: &str) -> io::Result<()> {
    println!(rt; "{line}")?;
    let bytes = bytes_of(rt.alloc(), text)?;
    match read_source(rt.alloc(), &bytes) {
        Ok(source) => {
            let name_at = source.name_at;
            println!(rt; "{name_at} {:?}", source.ports_at.as_slice())
        }
        Err(fault) => println!(rt; "{fault:?}"),
    }
}
