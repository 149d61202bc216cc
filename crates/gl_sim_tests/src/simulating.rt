//! Small modules, cycle by cycle. What each shows is worked out by hand from the meaning of
//! IEEE 1364-2005.

ghost use Rattle.std.specs.Prelude.{◌≡◌, ◌<◌, ◌^◌, length, map, true, IfOk, IfSome};
ghost use Rattle.std.specs.List.{AllZip};
ghost use Rattle.gl_verilog.specs.View.{declaration_of, module_of};
ghost use Rattle.gl_verilog.specs.Widths.{width_at};
ghost use Rattle.gl_verilog.specs.Runnable.{IsRunnable, inputs_of};

use crate::modules::{falling, runnable, unassigned};
use crate::reading::design_of;
use gl_bits::{Memory, Word};
use gl_sim::Sim;
use gl_sim::laws::a_run_is_there;
use gl_sim::room::ports_of;
use gl_verilog::{Declaration, Kind, Module, Start};
use std::alloc::{AllocError, Global};

// The bits of the declaration of a number.
#[tactic(auto, using(gl_sim::proofs::Fitting::width_is))]
fn width_of(declarations: &[Declaration], number: usize) -> u8
    ensures { result ≡ width_at (map declaration_of declarations.now) number }
{
    match declarations.get(number) {
        Some(declaration) => declaration.width,
        None => 0,
    }
}

// The bits of the declarations of these numbers.
fn widths_at(
    alloc: Global,
    declarations: &[Declaration],
    numbers: &[usize],
) -> Result<Vec<u8>, Memory>
    ensures { IfOk result (λ v. v.items
        ≡ map (width_at (map declaration_of declarations.now)) numbers.now) }
{
    let mut widths = Vec::new(alloc);
    for number in numbers {
        widths.push(width_of(declarations, *number))?;
    }
    Ok(widths)
}

// Whether each value fits the width at its place.
fn fits(widths: &[u8], values: &[u128]) -> bool
    ensures { result ≡ true → AllZip (λ width value. value < 2 ^ width) widths.now values.now }
{
    match (widths.split_first(), values.split_first()) {
        (None, None) => true,
        (Some((width, widths)), Some((value, values))) => {
            if Word::new(*value, *width).is_none() {
                return false;
            }
            fits(widths, values)
        }
        _ => false,
    }
}

// What a port shows in a cycle with these inputs; None where they do not fit.
fn cycle(sim: &mut Sim, count: usize, widths: &[u8], inputs: &[u128], port: usize) -> Option<u128>
    requires count { count ≡ length (module_of sim.old.design).declarations }
    requires widths { widths.now
        ≡ map (width_at (module_of sim.old.design).declarations)
        (inputs_of (module_of sim.old.design)) }
    ensures { sim.new.design ≡ sim.old.design }
{
    if port >= count {
        return None;
    }
    if !fits(widths, inputs) {
        return None;
    }
    sim.step(inputs);
    Some(sim.output(port))
}

// Adds what a port shows in a cycle.
fn push_value(out: &mut String, value: Option<u128>) -> Result<(), AllocError> {
    match u64::try_from(value.unwrap_or(u128::MAX)) {
        Ok(value) => write!(out, " {value:x}"),
        Err(_) => out.push_str(" ?"),
    }
}

// What a port shows in each cycle, with these inputs.
fn shown(
    alloc: Global,
    design: Module,
    start: Start,
    rows: &[Vec<u128>],
    port: usize,
) -> Result<String, Memory>
    requires { IsRunnable (module_of design) }
{
    let count = design.declarations.len();
    let ports = ports_of(alloc, design.declarations.as_slice())?;
    let widths = widths_at(alloc, design.declarations.as_slice(), &ports)?;
    let mut out = String::from_str(alloc, ">")?;
    let mut sim = Sim::new(alloc, design, start)?;
    for inputs in rows {
        let value = cycle(&mut sim, count, &widths, inputs, port);
        push_value(&mut out, value)?;
    }
    Ok(out)
}

// The inputs of a row, parted by commas; none for `-`.
fn row_of(alloc: Global, text: &str) -> Result<Vec<u128>, AllocError> {
    let mut row = Vec::new(alloc);
    for field in text.split(',') {
        if let Ok(value) = field.parse::<u128>() {
            row.push(value)?;
        }
    }
    Ok(row)
}

// The inputs of each cycle, parted by spaces.
fn rows_of(alloc: Global, text: &str) -> Result<Vec<Vec<u128>>, AllocError> {
    let mut rows = Vec::new(alloc);
    for row in text.split_whitespace() {
        let row = row_of(alloc, row)?;
        rows.push(row)?;
    }
    Ok(rows)
}

// The number of the last output; 0 where there is none.
fn last_output(declarations: &[Declaration]) -> usize {
    let mut last = 0;
    for (number, declaration) in declarations.iter().enumerate() {
        if let Kind::OutputWire | Kind::OutputRegister = declaration.kind {
            last = number;
        }
    }
    last
}

// What the last output of a module shows.
fn last_shown(
    alloc: Global,
    design: Option<Module>,
    start: Start,
    rows: &str,
) -> Result<String, Memory>
    requires { IfSome design (λ m. IsRunnable (module_of m)) }
{
    let Some(design) = design else {
        return Ok(String::from_str(alloc, "no module that runs")?);
    };
    let port = last_output(design.declarations.as_slice());
    let rows = rows_of(alloc, rows)?;
    shown(alloc, design, start, &rows, port)
}

// So many wires of which the last one is looked at.
fn falling_shown(alloc: Global, count: usize, rows: &str) -> Result<String, Memory> {
    if count >= 1_000_000 {
        return Ok(String::from_str(alloc, "too many")?);
    }
    let Some(design) = falling(alloc, count)? else {
        return Ok(String::from_str(alloc, "no module that runs")?);
    };
    let rows = rows_of(alloc, rows)?;
    shown(alloc, design, Start::Zero, &rows, count)
}

// The module of a text, if it has one that runs.
fn module_of_text(alloc: Global, text: &str) -> Result<Option<Module>, Memory>
    ensures { IfOk result (λ o. IfSome o (λ m. IsRunnable (module_of m))) }
{
    match design_of(alloc, text) {
        Some(design) => runnable(alloc, design),
        None => Ok(None),
    }
}

// The start that a word names: zeros, or a seed.
fn start_of(word: &str) -> Start {
    match word.parse::<u64>() {
        Ok(seed) => Start::Drawn(seed),
        Err(_) => Start::Zero,
    }
}

/// What a line shows: one that runs a text's module, wires in falling order or a register that nothing assigns.
pub fn ran(alloc: Global, module: &str, command: &str, line: &str) -> Result<String, Memory> {
    let (word, rows) = line.split_once(' ').unwrap_or((line, ""));
    match command {
        "falling" => falling_shown(alloc, word.parse::<usize>().unwrap_or(0), rows),
        "unassigned" => {
            a_run_is_there();
            last_shown(alloc, unassigned(alloc)?, start_of(word), rows)
        }
        _ => last_shown(alloc, module_of_text(alloc, module)?, start_of(word), rows),
    }
}
