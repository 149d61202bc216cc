//! Blocks on queues: what stands in a row, and what they show.
//!
//! A block is `queue DEPTH`, `union SIDE SIDE PAIRS`, `spacer SIDE GAP PAIRS` or `joiner SIDE SIDE PAIRS`, with so many pairs of columns a
//! side; a side is `FIRST,MORE,MOST`, the figures of a stream. `figures` of a union, a joiner and a spacer tell a, lt, le, nt, ne, gt and
//! ge, and `address bits DEPTH` the bits of an address.

use crate::bench::{Bench, Shown, Side, begin, figures, finished, put_source};
use gl_algebra::Figures;
use gl_bits::Memory;
use gl_net::Netlist;
use gl_queue::{Joiner, Spacer, UnionOf, address_bits, put_queue};
use gl_wire::Wire;
use std::alloc::{AllocError, Global};

// A tuple with the end at once; one that comes up to three cycles late; and two in two cycles.
const AT_ONCE: Side = Side {
    first: 0,
    more: 0,
    most: 1,
};

const UP_TO_3_LATE: Side = Side {
    first: 0,
    more: 3,
    most: 1,
};

const PAIRS: Side = Side {
    first: 0,
    more: 1,
    most: 2,
};

// What a queue of `depth` places shows, for what comes, and where a letter holds it.
fn queue_shows(alloc: Global, depth: u16, push: &str, hold: &str) -> Result<Vec<u8>, Memory> {
    let Bench {
        mut net,
        left,
        right,
    } = begin(alloc)?;
    let source = put_source(alloc, &mut net, left, 1)?;
    let held = put_source(alloc, &mut net, right, 1)?;
    let queue = put_queue(
        alloc,
        &mut net,
        (depth as u64).max(1),
        source.wire.valid,
        held.wire.valid,
        source.wire.columns.as_slice(),
    )?;
    let netlist = finished(net)?;
    let shown = Shown {
        valid: queue.some,
        eos: source.wire.eos,
        columns: queue.columns.as_slice(),
        passed: Some(queue.passed),
    };
    shown.letters(alloc, &netlist, push.as_bytes(), hold.as_bytes())
}

// What a union of two streams with these figures and `pairs` pairs of columns shows.
fn union_shows(
    alloc: Global,
    sides: (Side, Side),
    pairs: usize,
    left: &str,
    right: &str,
) -> Result<Vec<u8>, Memory> {
    let Bench {
        mut net,
        left: first,
        right: second,
    } = begin(alloc)?;
    let one = put_source(alloc, &mut net, first, pairs)?;
    let other = put_source(alloc, &mut net, second, pairs)?;
    let (p, q) = sides;
    let union = UnionOf {
        left: figures(p),
        right: figures(q),
    };
    let out = union.emit(alloc, &mut net, one, other)?;
    let netlist = finished(net)?;
    let shown = Shown {
        valid: out.wire.valid,
        eos: out.wire.eos,
        columns: out.wire.columns.as_slice(),
        passed: out.faults.passed,
    };
    shown.letters(alloc, &netlist, left.as_bytes(), right.as_bytes())
}

// What a spacer of this gap shows behind a stream with these figures.
fn spacer_shows(
    alloc: Global,
    stream: Side,
    gap: u16,
    pairs: usize,
    letters: &str,
) -> Result<Vec<u8>, Memory> {
    let Bench {
        mut net,
        left,
        right: _,
    } = begin(alloc)?;
    let source = put_source(alloc, &mut net, left, pairs)?;
    let spacer = Spacer {
        source: figures(stream),
        gap: (gap as u32).max(1),
    };
    let out = spacer.emit(alloc, &mut net, source)?;
    let netlist = finished(net)?;
    let shown = Shown {
        valid: out.wire.valid,
        eos: out.wire.eos,
        columns: out.wire.columns.as_slice(),
        passed: out.faults.passed,
    };
    shown.letters(alloc, &netlist, letters.as_bytes(), b"")
}

// What is shown on the first half of a wire's columns, a '/', and what on the second.
fn halves_show(
    alloc: Global,
    netlist: &Netlist,
    wire: &Wire,
    left: &str,
    right: &str,
) -> Result<Vec<u8>, Memory> {
    let (low, high) = wire.columns.as_slice().split_at(wire.columns.len() / 2);
    let mut shown = Shown {
        valid: wire.valid,
        eos: wire.eos,
        columns: low,
        passed: None,
    };
    let mut letters = shown.letters(alloc, netlist, left.as_bytes(), right.as_bytes())?;
    shown.columns = high;
    let others = shown.letters(alloc, netlist, left.as_bytes(), right.as_bytes())?;
    if letters.push(b'/').is_err() || letters.extend_from_slice(&others).is_err() {
        return Err(Memory);
    }
    Ok(letters)
}

// What a joiner of two streams with these figures shows on the columns of each side.
fn joiner_shows(
    alloc: Global,
    sides: (Side, Side),
    pairs: usize,
    left: &str,
    right: &str,
) -> Result<Vec<u8>, Memory> {
    let Bench {
        mut net,
        left: first,
        right: second,
    } = begin(alloc)?;
    let one = put_source(alloc, &mut net, first, pairs)?;
    let other = put_source(alloc, &mut net, second, pairs)?;
    let (p, q) = sides;
    let joiner = Joiner {
        left: figures(p),
        right: figures(q),
    };
    let out = joiner.emit(alloc, &mut net, one, other)?;
    let netlist = finished(net)?;
    halves_show(alloc, &netlist, &out.wire, left, right)
}

// The word in the place of a text; an empty one where there is none.
fn word_at(text: &str, place: usize) -> &str {
    text.split_whitespace().nth(place).unwrap_or("")
}

// A number of at most 16 bits; 0 where there is none.
fn number_of(text: &str) -> u16 {
    text.parse::<u16>().unwrap_or(0)
}

// The side in the place of a text.
fn side_at(text: &str, place: usize) -> Side {
    let (first, others) = word_at(text, place).split_once(',').unwrap_or(("", ""));
    let (more, most) = others.split_once(',').unwrap_or(("", ""));
    Side {
        first: number_of(first),
        more: number_of(more),
        most: number_of(most),
    }
}

/// The letters that a block shows for those of both ports; None where it is none of these blocks.
pub fn letters_of(
    alloc: Global,
    block: &str,
    left: &str,
    right: &str,
) -> Result<Option<Vec<u8>>, Memory> {
    let sides = (side_at(block, 1), side_at(block, 2));
    let (second, third) = (number_of(word_at(block, 2)), number_of(word_at(block, 3)));
    let pairs = usize::from(third);
    let letters = match word_at(block, 0) {
        "queue" => queue_shows(alloc, number_of(word_at(block, 1)), left, right)?,
        "union" => union_shows(alloc, sides, pairs, left, right)?,
        "spacer" => spacer_shows(alloc, sides.0, second, pairs, left)?,
        "joiner" => joiner_shows(alloc, sides, pairs, left, right)?,
        _ => return Ok(None),
    };
    Ok(Some(letters))
}

// The figures of a union or a joiner of two such streams, and of a spacer with a gap of 3.
fn union_figures() -> Figures {
    UnionOf {
        left: figures(AT_ONCE),
        right: figures(AT_ONCE),
    }
    .figures()
}

fn joiner_figures() -> Figures {
    Joiner {
        left: figures(UP_TO_3_LATE),
        right: figures(UP_TO_3_LATE),
    }
    .figures()
}

fn spacer_figures() -> Figures {
    Spacer {
        source: figures(PAIRS),
        gap: 3,
    }
    .figures()
}

// The figures a, lt, le, nt, ne, gt and ge.
fn figures_told(alloc: Global, f: Figures) -> Result<String, AllocError> {
    format!(in alloc;
        "> {} {} {} {} {} {} {}",
        f.a, f.lt, f.le, f.nt, f.ne, f.gt, f.ge
    )
}

// The bits of an address in a queue of `depth` places, at most 2^32.
fn bits_told(alloc: Global, depth: u64) -> Result<String, AllocError> {
    if depth <= 4_294_967_296 {
        format!(in alloc; "> {}", address_bits(depth))
    } else {
        String::from_str(alloc, "no address")
    }
}

/// What is told of a block that is not run; None where a line asks for none.
pub fn still_told(alloc: Global, line: &str) -> Result<Option<String>, Memory> {
    let told = match line {
        "figures union 0,0,1 0,0,1" => figures_told(alloc, union_figures())?,
        "figures joiner 0,3,1 0,3,1" => figures_told(alloc, joiner_figures())?,
        "figures spacer 0,1,2 3" => figures_told(alloc, spacer_figures())?,
        _ => match line.strip_prefix("address bits ") {
            Some(depth) => bits_told(alloc, depth.parse::<u64>().unwrap_or(0))?,
            None => return Ok(None),
        },
    };
    Ok(Some(told))
}
