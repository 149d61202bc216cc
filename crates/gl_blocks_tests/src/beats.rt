//! What a circuit's wire carries for beats of two columns.

use crate::circuit::Circuit;
use crate::kinds::push_value;
use crate::trace::Trace;
use gl_bits::Memory;
use gl_values::Kind;
use gl_wire::Wire;
use std::alloc::{AllocError, Global};

/// What comes in one cycle: a row or not, its two columns, and the end or not.
#[derive(Clone, Copy)]
pub struct Beat {
    /// Whether a row comes.
    pub valid: bool,
    /// Whether the end comes.
    pub end: bool,
    /// The two columns of the row.
    pub row: [u128; 2],
}

// The cycles that are shown behind the last beat: more than any block takes.
const MORE: usize = 140;

// Nothing; what the columns carry is no row.
const IDLE: Beat = Beat {
    valid: false,
    end: false,
    row: [1, 1],
};

// Adds the row on a wire's columns, which are of these kinds.
fn push_row(
    out: &mut String,
    trace: &Trace,
    wire: &Wire,
    kinds: &[Kind],
) -> Result<(), AllocError> {
    for (place, bus) in wire.columns.as_slice().iter().enumerate() {
        out.push_str(if place == 0 { ":" } else { "," })?;
        push_value(out, kinds.get(place).copied(), trace.value(bus.node))?;
    }
    Ok(())
}

// Adds what a wire carries in a cycle, as `CYCLE:ROW` and `CYCLE:end`.
fn push_cycle(
    out: &mut String,
    trace: &Trace,
    wire: &Wire,
    kinds: &[Kind],
    cycle: usize,
) -> Result<(), AllocError> {
    if trace.value(wire.valid.node) == 1 {
        write!(out, " {cycle}")?;
        push_row(out, trace, wire, kinds)?;
    }
    if trace.value(wire.eos.node) == 1 {
        write!(out, " {cycle}:end")?;
    }
    Ok(())
}

// What the ports carry for the beat of a cycle.
fn inputs_of(beats: &[Beat], cycle: usize) -> [u128; 5] {
    let beat = beats.get(cycle).copied().unwrap_or(IDLE);
    let [a, b] = beat.row;
    [0, beat.valid as u128, beat.end as u128, a, b]
}

/// What a circuit's wire carries, from cycle 1 on, for these beats and idle cycles behind them. In the reset cycle the ports carry a row and an
/// end, which do not count.
pub fn shown(
    alloc: Global,
    circuit: &Circuit,
    kinds: &[Kind],
    beats: &[Beat],
) -> Result<String, Memory> {
    let nodes = circuit.netlist.nodes();
    let mut text = String::from_str(alloc, ">")?;
    let mut trace = Trace::new(alloc);
    trace.step(alloc, nodes, &[1, 1, 1, 1, 1], false)?;
    for cycle in 0..beats.len().saturating_add(MORE) {
        trace.step(alloc, nodes, &inputs_of(beats, cycle), cycle == 0)?;
        push_cycle(
            &mut text,
            &trace,
            &circuit.wire,
            kinds,
            cycle.saturating_add(1),
        )?;
    }
    Ok(text)
}
