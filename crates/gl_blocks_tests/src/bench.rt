//! Blocks on queues between ports, and what they show, with a letter for each cycle: '.' is nothing, a small letter a tuple, a capital a tuple with the
//! end, '-' an end alone, and '!' a queue that is passed. The tuple of a letter has columns of 1 and of 64 bits in turn.

ghost use Rattle.std.specs.Prelude.{◌≡◌, ◌+◌, max, IfOk};
ghost use Rattle.gl_algebra.specs.FigureTable.{IsSound};
ghost use Rattle.gl_net.specs.Net.{IsBus};
ghost use Rattle.gl_blocks_tests.specs.Benches.{IsBench, IsReady, IsSourceOf};

use crate::trace::Trace;
use gl_algebra::Figures;
use gl_bits::Memory;
use gl_net::{Bit, Bus, Buses, NetBuilder, Netlist};
use gl_wire::{Emitted, Faults, Wire};
use std::alloc::Global;

/// A netlist that is being made, and the ports of two streams.
#[derive(Drop)]
pub struct Bench {
    /// The netlist.
    pub net: NetBuilder,
    /// The port of the first stream, of 67 bits.
    pub left: Bus,
    /// The port of the second stream, of 67 bits.
    pub right: Bus,
}

/// A reset, and a port for each of two streams.
pub fn begin(alloc: Global) -> Result<Bench, Memory>
    ensures { IfOk result (λ b. IsBench b.net b.left b.right) }
{
    let mut net = NetBuilder::new(alloc);
    let _reset = net.input(b"rst", 1)?;
    let left = net.input(b"left", 67)?;
    let right = net.input(b"right", 67)?;
    Ok(Bench { net, left, right })
}

/// The stream of a port, with `pairs` pairs of columns, all of which carry the same tuple.
pub fn put_source(
    alloc: Global,
    net: &mut NetBuilder,
    port: Bus,
    pairs: usize,
) -> Result<Emitted, Memory>
    requires port { IsBus net.old port }
    requires width { port.width ≡ 67 }
    ensures { IfOk result (IsSourceOf net.old net.new pairs) }
{
    let valid = net.cut(port, 0, 0)?;
    let eos = net.cut(port, 1, 1)?;
    let flag = net.cut(port, 2, 2)?;
    let word = net.cut(port, 66, 3)?;
    let mut columns = Buses::new(alloc);
    for _pair in 0..pairs {
        columns.push(flag)?;
        columns.push(word)?;
    }
    Ok(Emitted {
        wire: Wire {
            valid: valid.bit(),
            eos: eos.bit(),
            columns,
        },
        faults: Faults {
            passed: None,
            further: None,
        },
    })
}

/// The netlist, finished.
pub fn finished(net: NetBuilder) -> Result<Netlist, Memory>
    requires { IsReady net }
{
    let mut net = net;
    net.module(b"bench")?;
    Ok(net.finish())
}

/// When the tuples of a stream come behind their beats, and how many come with the end at most.
#[derive(Clone, Copy)]
pub struct Side {
    /// How many cycles after its beat the first tuple may come.
    pub first: u16,
    /// How many cycles later the last tuple may come.
    pub more: u16,
    /// How many tuples come with the end at most.
    pub most: u16,
}

/// The figures of such a stream.
pub fn figures(side: Side) -> Figures
    ensures value { result ≡ record {
      a = side.first;
      lt = side.first + side.more;
      le = side.first + side.more;
      nt = 1;
      ne = max side.most 1;
      gt = side.more + 1;
      ge = side.more + 1;
    } }
    ensures sound { IsSound result }
{
    let a = side.first as u32;
    let more = side.more as u32;
    Figures {
        a,
        lt: a + more,
        le: a + more,
        nt: 1,
        ne: (side.most as u32).max(1),
        gt: more + 1,
        ge: more + 1,
    }
}

// The columns of a letter's tuple: the lowest bit of its number, then a word of 64 bits with the number at both ends.
fn row_of(number: u128) -> (u128, u128) {
    let number = number & 31;
    (number & 1, number << 59 | number)
}

// What a port carries for a tuple.
fn tuple_of(letter: u8) -> u128 {
    let (flag, word) = row_of(letter as u128);
    1 | flag << 2 | word << 3
}

// What a port carries for a letter, whose number are its five lowest bits.
fn input_of(letter: u8) -> u128 {
    match letter {
        b'a'..=b'z' => tuple_of(letter),
        b'A'..=b'Z' => tuple_of(letter) | 2,
        b'-' => 2,
        _ => 0,
    }
}

// The number of the letter whose tuple is on these columns; 0 where none is.
fn number_on(trace: &Trace, columns: &[Bus]) -> u8 {
    let Some(word) = columns.get(1) else {
        return 0;
    };
    let (flag, word) = row_of(trace.value(word.node));
    for at in 0..columns.len() {
        let want = if at % 2 == 0 { flag } else { word };
        if trace.value(columns[at].node) != want {
            return 0;
        }
    }
    (word & 31) as u8
}

// The letter of a cycle on these lines and columns; '@' or '`' where the columns are not those of a letter.
fn letter_on(trace: &Trace, valid: Bit, eos: Bit, columns: &[Bus]) -> u8 {
    match (trace.value(valid.node) == 1, trace.value(eos.node) == 1) {
        (false, false) => b'.',
        (false, true) => b'-',
        (true, false) => 0x60 | number_on(trace, columns),
        (true, true) => 0x40 | number_on(trace, columns),
    }
}

/// What a block shows: its lines and columns, and the line that tells of a queue that is passed.
#[derive(Clone, Copy)]
pub struct Shown<'a> {
    /// The line that is 1 where a tuple comes.
    pub valid: Bit,
    /// The line that is 1 where the end comes.
    pub eos: Bit,
    /// The columns of a tuple.
    pub columns: &'a [Bus],
    /// The line that is 1 where a queue was passed, if there is one.
    pub passed: Option<Bit>,
}

impl Shown<'_> {
    // The letter of a cycle.
    fn letter(&self, trace: &Trace) -> u8 {
        match self.passed {
            Some(passed) if trace.value(passed.node) == 1 => b'!',
            _ => letter_on(trace, self.valid, self.eos, self.columns),
        }
    }

    /// The letters of the cycles behind the reset, for those of both ports.
    pub fn letters(
        &self,
        alloc: Global,
        netlist: &Netlist,
        left: &[u8],
        right: &[u8],
    ) -> Result<Vec<u8>, Memory> {
        let nodes = netlist.nodes();
        let mut trace = Trace::new(alloc);
        trace.step(alloc, nodes, &[1, 0, 0], false)?;
        let mut letters = Vec::new(alloc);
        for at in 0..left.len() {
            let other = right.get(at).copied().unwrap_or(b'.');
            trace.step(
                alloc,
                nodes,
                &[0, input_of(left[at]), input_of(other)],
                at == 0,
            )?;
            if letters.push(self.letter(&trace)).is_err() {
                return Err(Memory);
            }
        }
        Ok(letters)
    }
}
