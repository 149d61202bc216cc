//! Rows of totals, windows and groups.
//!
//! A row `total NAME WIDTH NUMBER ..` prints a total of the numbers, of unsigned columns of this
//! width, and a row `weigh WIDTH WEIGHT,.. NUMBER ..` their sum by the weights. A row `windows SIZE
//! ADVANCE NUMBER ..` prints the sum of each window, and whether there is a window more. A row
//! `groups MOST KEY:NUMBER ..` prints for each group its key and how many rows it has, and whether
//! some row has a further key.

use crate::pieces::{number_before, numbers_of, word_before};
use gl_bits::Memory;
use gl_bits::listed::Listed;
use gl_values::kind::Kind;
use gl_values::lists::{Table, copy_of_row, groups_of, slice_of, slices_of, some_further};
use gl_values::totals::{average, count, greatest, least, sum, weigh};
use std::alloc::Global;
use std::io;

// The total of this name; none for another name and for a width that no column has.
fn total_of(name: &str, width: u8, values: &[u128]) -> Option<u128> {
    if !(1..=64).contains(&width) {
        return None;
    }
    match name {
        "sum" => Some(sum(width, values)),
        "average" => Some(average(Kind::Unsigned(width), values)),
        "count" => Some(count(values)),
        "least" => Some(least(Kind::Unsigned(width), values)),
        "greatest" => Some(greatest(Kind::Unsigned(width), values)),
        _ => None,
    }
}

// The sum by the weights; none for a width that no column has.
fn weighed(
    alloc: Global,
    width: u8,
    weights: &str,
    values: &[u128],
) -> Result<Option<u128>, Memory> {
    if !(1..=64).contains(&width) {
        return Ok(None);
    }
    let weights = numbers_of(alloc, weights, ',')?;
    Ok(Some(weigh(width, weights.as_slice(), values)))
}

// The total of a row.
fn number_of(alloc: Global, kind: &str, text: &str) -> Result<Option<u128>, Memory> {
    let (name, rest) = word_before(text);
    if kind == "weigh" {
        let (weights, rest) = word_before(rest);
        let values = numbers_of(alloc, rest, ' ')?;
        return weighed(
            alloc,
            name.parse::<u8>().unwrap_or(0),
            weights,
            values.as_slice(),
        );
    }
    let (width, rest) = word_before(rest);
    let values = numbers_of(alloc, rest, ' ')?;
    Ok(total_of(name, width.parse::<u8>().unwrap_or(0), values.as_slice()))
}

fn print_number(rt: &HostRuntime, kind: &str, text: &str) -> io::Result<()> {
    match number_of(rt.alloc(), kind, text) {
        Ok(Some(number)) => println!(rt; "{number}"),
        Ok(None) => println!(rt; "no total"),
        Err(_) => println!(rt; "out of memory"),
    }
}

fn print_slices(rt: &HostRuntime, size: usize, advance: usize, values: &[u128]) -> io::Result<()> {
    if advance == 0 {
        return println!(rt; "no windows");
    }
    let Ok(slices) = slices_of(rt.alloc(), size, advance, values) else {
        return println!(rt; "out of memory");
    };
    for slice in slices.as_slice() {
        print!(rt; "{} ", sum(32, slice))?;
    }
    match slice_of(size, advance, values, slices.len()) {
        Some(_) => println!(rt; "and more"),
        None => println!(rt; "and none"),
    }
}

fn print_windows(rt: &HostRuntime, text: &str) -> io::Result<()> {
    let (size, rest) = number_before(text);
    let (advance, rest) = number_before(rest);
    match numbers_of(rt.alloc(), rest, ' ') {
        Ok(values) => print_slices(rt, size as usize, advance as usize, values.as_slice()),
        Err(_) => println!(rt; "out of memory"),
    }
}

// Adds the row of a key and a number.
fn push_pair(alloc: Global, table: &mut Table, pair: &str) -> Result<(), Memory> {
    let numbers = numbers_of(alloc, pair, ':')?;
    table.push(copy_of_row(alloc, numbers.as_slice())?)
}

// The rows of keys and numbers.
fn table_of(alloc: Global, text: &str) -> Result<Table, Memory> {
    let mut table = Listed::new(alloc);
    for pair in text.split(' ') {
        push_pair(alloc, &mut table, pair)?;
    }
    Ok(table)
}

fn print_grouped(rt: &HostRuntime, most: usize, table: &Table) -> io::Result<()> {
    let rows = table.as_slice();
    let (Ok(groups), Ok(further)) = (
        groups_of(rt.alloc(), most, 0, rows),
        some_further(rt.alloc(), most, 0, rows),
    ) else {
        return println!(rt; "out of memory");
    };
    for group in groups.as_slice() {
        print!(rt; "{}#{} ", group.key, group.rows.len())?;
    }
    println!(rt; "{}", if further { "and more" } else { "and none" })
}

fn print_groups(rt: &HostRuntime, text: &str) -> io::Result<()> {
    let (most, rest) = number_before(text);
    match table_of(rt.alloc(), rest) {
        Ok(table) => print_grouped(rt, most as usize, &table),
        Err(_) => println!(rt; "out of memory"),
    }
}

/// Prints what such a row comes to.
pub fn print_listed(rt: &HostRuntime, kind: &str, text: &str) -> io::Result<()> {
    match kind {
        "windows" => print_windows(rt, text),
        "groups" => print_groups(rt, text),
        _ => print_number(rt, kind, text),
    }
}
