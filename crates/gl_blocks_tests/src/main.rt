//! Blocks of rows, totals and queues and the divider at work: `stdin` has a row for each, `stdout` what its wire carries.
//!
//! A line `KINDS | BLOCK | BEATS` puts a block behind two columns of these kinds, and gives it a beat in each cycle from 1 on. It is
//! printed, and then what the block's wire carries: `CYCLE:ROW` and `CYCLE:end`. `parse` says what stands in the three parts. A line
//! `BLOCK | LETTERS | LETTERS` puts a block on queues behind two ports, and gives each a letter in each cycle; it is printed, and then a
//! letter for each cycle of what the block shows. `queues` says what stands in the first part, and `bench` what a letter is; a joiner has
//! letters for each side, parted by `/`. `queues` also says which lines ask for figures alone; `bits of a union MOST` tells
//! what a union of two columns of 16 bits holds. Every other line is a remark.
#![tactic(auto)]

mod beats;
mod bench;
mod circuit;
mod costs;
mod fits;
mod kinds;
mod parse;
mod queues;
mod trace;

use crate::beats::shown;
use crate::costs::bits_of;
use crate::parse::{beats_of, block_of, kinds_behind, kinds_of};
use crate::queues::{letters_of, still_told};
use gl_bits::Memory;
use std::alloc::Global;
use std::io;

// What a block behind columns of these kinds carries; None where it is none of those.
fn rows_told(
    alloc: Global,
    kinds: &str,
    block: &str,
    beats: &str,
) -> Result<Option<String>, Memory> {
    let kinds = kinds_of(kinds);
    let Some(circuit) = block_of(alloc, kinds, block)? else {
        return Ok(None);
    };
    let behind = kinds_behind(alloc, kinds, block)?;
    let beats = beats_of(alloc, kinds, beats)?;
    let text = shown(alloc, &circuit, &behind, &beats)?;
    Ok(Some(text))
}

// What a block on queues shows; None where it is none of those.
fn letters_told(
    alloc: Global,
    block: &str,
    left: &str,
    right: &str,
) -> Result<Option<String>, Memory> {
    let Some(letters) = letters_of(alloc, block, left.trim(), right.trim())? else {
        return Ok(None);
    };
    let text = str::from_utf8(&letters).unwrap_or("?");
    Ok(Some(format!(in alloc; "> {text}")?))
}

// What the row of a line comes to; None where it is a remark.
fn told_of(alloc: Global, line: &str) -> Result<Option<String>, Memory> {
    if let Some(most) = line.strip_prefix("bits of a union ") {
        let told = bits_of(alloc, most.parse::<u16>().unwrap_or(0))?;
        return Ok(Some(told));
    }
    let Some((front, rest)) = line.split_once('|') else {
        return still_told(alloc, line);
    };
    let Some((middle, back)) = rest.split_once('|') else {
        return Ok(None);
    };
    match letters_told(alloc, front, middle, back)? {
        Some(text) => Ok(Some(text)),
        None => rows_told(alloc, front, middle, back),
    }
}

fn main(rt: HostRuntime) -> io::Result<()> {
    for line in rt.lines(rt.alloc()) {
        let line = line?;
        match told_of(rt.alloc(), line.as_str()) {
            Ok(Some(text)) => println!(rt; "{line}\n{text}")?,
            Ok(None) => (),
            Err(_) => println!(rt; "out of memory")?,
        }
    }
    Ok(())
}
