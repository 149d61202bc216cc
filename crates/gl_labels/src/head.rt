//! The lines in front of a module.

use crate::labels::MOST_NAMED;
use crate::subject::{Figured, Subject};
use gl_algebra::Spare;
use gl_bits::Memory;
use gl_explain::lines::{put, put_line, put_number, put_root, put_spare, put_words};
use gl_net::{Netlist, cost_of};
use gl_query_check::Checked;
use gl_query_printer::print_statement;
use gl_schema::{Column, Stream, kind_front, kind_size};
use std::alloc::Global;

/// The version of Glacier.
pub const VERSION: &[u8] = b"0.2";

// The bytes at which a line is cut.
const LONG: usize = 4096;

// So many nodes of a plan are told.
const MOST_NODES: usize = 512;

// What stands where something was cut.
const CUT: &[u8] = b" .. (cut)";

// How names are read.
const NAMES: &[u8] =
    b"A net pN_NAME_nK is column or line NAME of plan node pN; pN_NAME_KIND_nK is on the way to it; \
pNcI_pM is node pM in copy I of the body of pN; pN_pM is node pM on the lane of group pN; K is its number.";

// What is told in their place where there are too many.
const NUMBERS: &[u8] = b"Names of nets are numbers alone, since there are more than 65536.";

// Adds a line, which is cut where it is long.
fn push_line(head: &mut Vec<Vec<u8>>, mut line: Vec<u8>) -> Result<(), Memory> {
    if line.len() > LONG {
        line.truncate(LONG);
        put(&mut line, CUT)?;
    }
    head.push(line)?;
    Ok(())
}

// A line that begins so.
fn line_of(alloc: Global, front: &[u8]) -> Result<Vec<u8>, Memory> {
    Ok(Vec::from_slice(alloc, front)?)
}

// Adds who wrote the text.
fn push_writer(alloc: Global, head: &mut Vec<Vec<u8>>) -> Result<(), Memory> {
    let mut line = line_of(alloc, b"Written by Glacier ")?;
    put(&mut line, VERSION)?;
    put(&mut line, b".")?;
    push_line(head, line)
}

// Adds the canonical text of each statement.
fn push_queries(
    alloc: Global,
    head: &mut Vec<Vec<u8>>,
    statements: &[Checked],
) -> Result<(), Memory> {
    for checked in statements {
        let mut line = line_of(alloc, b"query   ")?;
        print_statement(alloc, &checked.statement, &mut line)?;
        push_line(head, line)?;
    }
    Ok(())
}

// Appends columns as a schema has them.
fn put_columns(line: &mut Vec<u8>, columns: &[Column]) -> Result<(), Memory> {
    for (place, column) in columns.iter().enumerate() {
        if place > 0 {
            put(line, b", ")?;
        }
        put(line, column.name.as_slice())?;
        put(line, b" ")?;
        put_number(
            line,
            kind_front(column.kind),
            u128::from(kind_size(column.kind)),
        )?;
    }
    Ok(())
}

// Adds each stream.
fn push_streams(alloc: Global, head: &mut Vec<Vec<u8>>, streams: &[Stream]) -> Result<(), Memory> {
    for stream in streams {
        let mut line = line_of(alloc, b"stream  ")?;
        put(&mut line, stream.name.as_slice())?;
        put(&mut line, b" (")?;
        put_columns(&mut line, stream.columns.as_slice())?;
        put(&mut line, b")")?;
        push_line(head, line)?;
    }
    Ok(())
}

// Appends the latency of each result.
fn put_latencies(
    line: &mut Vec<u8>,
    statements: &[Checked],
    latencies: &[u64],
) -> Result<(), Memory> {
    let mut front: &[u8] = b"; latency of ";
    for (checked, latency) in statements.iter().zip(latencies) {
        put(line, front)?;
        put(line, checked.statement.name.text.as_slice())?;
        put_number(line, b" ", u128::from(*latency))?;
        front = b", ";
    }
    Ok(())
}

// Appends how far apart beats are, and ticks where they are farther apart.
fn put_gaps(line: &mut Vec<u8>, front: &[u8], gap: u32, ticks: Option<u32>) -> Result<(), Memory> {
    put_number(line, front, u128::from(gap))?;
    match ticks {
        Some(ticks) => put_number(line, b", ticks ", u128::from(ticks)),
        None => Ok(()),
    }
}

// Adds the figures of the whole, and its bits.
fn push_figures(
    alloc: Global,
    head: &mut Vec<Vec<u8>>,
    net: &Netlist,
    subject: Subject<'_>,
) -> Result<(), Memory> {
    let mut line = line_of(alloc, b"figures ")?;
    match subject.figured {
        Figured::Alone(_, printed, _) => {
            put_number(&mut line, b"latency ", u128::from(printed.latency))?;
            put_gaps(&mut line, b", gap ", printed.gap, printed.ticks)?;
            put_number(&mut line, b", copies ", u128::from(printed.copies))?;
        }
        Figured::Together(latencies, gap, ticks) => {
            put_gaps(&mut line, b"gap ", gap, ticks)?;
            put_latencies(&mut line, subject.statements, latencies)?;
        }
    }
    let cost = cost_of(net);
    put_number(&mut line, b"; register bits ", cost.registers)?;
    put_number(&mut line, b", memory bits ", cost.memories)?;
    push_line(head, line)
}

// Appends what is told of the node of a number, its figures too where it has some of its own.
fn put_node(line: &mut Vec<u8>, subject: Subject<'_>, number: usize) -> Result<(), Memory> {
    if number >= subject.plan.len() {
        return Ok(());
    }
    let node = subject.plan.node(subject.plan.id(number));
    if let Figured::Alone(own, _, _) = subject.figured {
        if let Some(figures) = own.get(number) {
            put_line(line, subject.schema, number, node, figures)?;
            let _ = line.pop();
            return Ok(());
        }
    }
    put_number(line, b"p", number as u128)?;
    put(line, b" ")?;
    put_words(line, subject.schema, node)
}

// What the first line of a plan begins with, and each other one.
fn plan_front(number: usize) -> &'static [u8] {
    if number == 0 {
        b"plan    "
    } else {
        b"        "
    }
}

// Adds the nodes of the plan.
fn push_nodes(alloc: Global, head: &mut Vec<Vec<u8>>, subject: Subject<'_>) -> Result<(), Memory> {
    for number in 0..subject.plan.len().min(MOST_NODES) {
        let mut line = line_of(alloc, plan_front(number))?;
        put_node(&mut line, subject, number)?;
        push_line(head, line)?;
    }
    if subject.plan.len() > MOST_NODES {
        push_line(head, line_of(alloc, b"        .. (cut)")?)?;
    }
    Ok(())
}

// Adds the line of spare copies, where there are some.
fn push_spare(alloc: Global, head: &mut Vec<Vec<u8>>, spare: Option<Spare>) -> Result<(), Memory> {
    if spare.is_none() {
        return Ok(());
    }
    let mut line = line_of(alloc, b"        ")?;
    put_spare(&mut line, spare)?;
    let _ = line.pop();
    push_line(head, line)
}

// Adds the roots: of one query that and its spare copies, of several the node of each name.
fn push_roots(alloc: Global, head: &mut Vec<Vec<u8>>, subject: Subject<'_>) -> Result<(), Memory> {
    for (checked, root) in subject.statements.iter().zip(subject.roots) {
        let mut line = line_of(alloc, b"        ")?;
        put_root(&mut line, *root)?;
        let _ = line.pop();
        if let Figured::Together(_, _, _) = subject.figured {
            put(&mut line, b" ")?;
            put(&mut line, checked.statement.name.text.as_slice())?;
        }
        push_line(head, line)?;
    }
    match subject.figured {
        Figured::Alone(_, _, spare) => push_spare(alloc, head, spare),
        Figured::Together(_, _, _) => Ok(()),
    }
}

/// The lines in front of a module: who wrote it, its queries, streams, figures and plan, and how names are read.
pub(crate) fn head_of(
    alloc: Global,
    net: &Netlist,
    subject: Subject<'_>,
) -> Result<Vec<Vec<u8>>, Memory> {
    let mut head = Vec::new(alloc);
    push_writer(alloc, &mut head)?;
    push_queries(alloc, &mut head, subject.statements)?;
    push_streams(alloc, &mut head, subject.schema.streams.as_slice())?;
    push_figures(alloc, &mut head, net, subject)?;
    push_nodes(alloc, &mut head, subject)?;
    push_roots(alloc, &mut head, subject)?;
    let names = if net.nodes().len() > MOST_NAMED {
        NUMBERS
    } else {
        NAMES
    };
    push_line(&mut head, line_of(alloc, names)?)?;
    Ok(head)
}
