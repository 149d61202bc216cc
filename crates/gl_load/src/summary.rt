//! The five lines that tell of a run.

ghost use Rattle.std.specs.Prelude.{◌≡◌, ◌++◌, decimal, IfOk, OnOk};
ghost use Rattle.gl_load.specs.Tallies as tallies;
ghost use Rattle.gl_load.specs.Told as spec;

use crate::tally::tally_of;
use gl_bits::Memory;
use itoa::Buffer;
use std::alloc::Global;

// Appends a line of a head and what it tells.
fn put_line(text: &mut Vec<u8>, head: &[u8], rest: &[u8]) -> Result<(), Memory>
    ensures { OnOk result (text.new.items ≡ text.old.items ++ spec.line head.now rest.now) }
{
    text.extend_from_slice(head)?;
    text.extend_from_slice(rest)?;
    text.extend_from_slice(b"\n")?;
    Ok(())
}

// Appends a line of a head and a number.
fn put_number(text: &mut Vec<u8>, head: &[u8], number: u128) -> Result<(), Memory>
    ensures { OnOk result (text.new.items
        ≡ text.old.items ++ spec.line head.now (decimal number)) }
{
    let mut buffer = Buffer::new();
    put_line(text, head, buffer.format(number).as_bytes())
}

/// What is told of a run of `count` tuples that has these lines.
#[tactic(auto, unfolding(crate::specs::Tallies::summary_of, crate::specs::Told::five_lines))]
pub(crate) fn summary_of(alloc: Global, count: u32, lines: &[u8]) -> Result<Vec<u8>, Memory>
    ensures { IfOk result (λ text. text.items ≡ tallies.summary_of count lines.now) }
{
    let tally = tally_of(lines);
    let mut text = Vec::new(alloc);
    put_number(&mut text, b"tuples ", u128::from(count))?;
    put_number(&mut text, b"results ", u128::from(tally.results))?;
    put_number(&mut text, b"counted ", tally.counted)?;
    put_line(&mut text, b"last ", tally.last)?;
    put_line(&mut text, b"end ", tally.end)?;
    Ok(text)
}
