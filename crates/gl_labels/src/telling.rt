//! What notes tell of nodes.

use crate::naming::{Naming, is_body, path_of, put_column, words_of};
use crate::owners::is_named;
use crate::scopes::{PORTS, Scopes, Sort};
use gl_bits::Memory;
use gl_explain::lines::{put, put_number};
use gl_net::{Note, Noted};
use gl_verilog_writer::Label;
use std::alloc::Global;

/// A line of a wire.
#[derive(Clone, Copy, PartialEq, Eq, Debug)]
enum Line {
    // Whether there is a row.
    Valid,
    // That the stream ends.
    Eos,
    // The column at this place.
    Column(usize),
}

/// Calls a node so.
pub(crate) fn set_name(labels: &mut [Label], node: usize, name: Vec<u8>) {
    if let Some(label) = labels.get_mut(node) {
        label.name = name;
    }
}

// Begins a scope.
fn enter(alloc: Global, naming: Naming<'_>, scopes: &mut Scopes, sort: Sort) -> Result<(), Memory> {
    let path = path_of(alloc, naming, scopes, sort)?;
    let words = words_of(alloc, naming, scopes, sort)?;
    scopes.enter(sort, path, words)
}

// Appends what a line is called, of a wire of what the sort tells.
fn put_line(text: &mut Vec<u8>, naming: Naming<'_>, sort: Sort, line: Line) -> Result<(), Memory> {
    match line {
        Line::Valid => put(text, b"_valid"),
        Line::Eos => put(text, b"_eos"),
        Line::Column(column) => {
            put(text, b"_")?;
            put_column(text, naming, sort, column)
        }
    }
}

// The name of a line of the section in which nodes are made.
fn line_name(
    alloc: Global,
    naming: Naming<'_>,
    scopes: &Scopes,
    line: Line,
) -> Result<Vec<u8>, Memory> {
    let section = scopes.section(scopes.current());
    let mut name = Vec::from_slice(alloc, scopes.path(section))?;
    put_line(&mut name, naming, scopes.sort(section), line)?;
    Ok(name)
}

// The name of a line that a copy of a body is given, in the operator around the copies.
fn row_name(
    alloc: Global,
    naming: Naming<'_>,
    scopes: &Scopes,
    copy: usize,
    line: Line,
) -> Result<Vec<u8>, Memory> {
    let owner = scopes.section(scopes.around(copy));
    let mut name = Vec::from_slice(alloc, scopes.path(owner))?;
    match scopes.sort(copy) {
        Sort::Copy(number) if !matches!(line, Line::Column(_)) => {
            put_number(&mut name, b"_c", number as u128)?;
        }
        _ => put(&mut name, b"_row")?,
    }
    let section = scopes.section(scopes.current());
    put_line(&mut name, naming, scopes.sort(section), line)?;
    Ok(name)
}

// Whether a node stands in the operator around copies, in one of which the body's rows are told.
fn is_given(naming: Naming<'_>, scopes: &Scopes, node: usize) -> bool {
    let section = scopes.section(scopes.current());
    let copy = scopes.around(section);
    let owner = scopes.section(scopes.around(copy));
    is_body(naming.subject, scopes.sort(section))
        && matches!(scopes.sort(copy), Sort::Copy(_))
        && scopes.section(scopes.of_node(node)) == owner
}

// Tells that a node is a line of a wire. In its own section, or among the ports, that says more than its task. Where a copy
// is given it, only a column does. Elsewhere the line passes through, and has its name.
fn tell_line(
    alloc: Global,
    naming: Naming<'_>,
    scopes: &mut Scopes,
    labels: &mut [Label],
    node: usize,
    line: Line,
) -> Result<(), Memory> {
    if scopes.is_line(node) {
        return Ok(());
    }
    let section = scopes.section(scopes.current());
    let own = scopes.section(scopes.of_node(node));
    if own == section || own == PORTS {
        scopes.place(node, section);
        scopes.set_line(node);
        set_name(labels, node, line_name(alloc, naming, scopes, line)?);
    } else if is_given(naming, scopes, node)
        && (matches!(line, Line::Column(_)) || !is_named(labels, node))
    {
        let copy = scopes.around(section);
        scopes.set_line(node);
        set_name(labels, node, row_name(alloc, naming, scopes, copy, line)?);
    }
    Ok(())
}

// Tells the task of a node, and its place where several have this task.
fn tell_role(
    alloc: Global,
    scopes: &Scopes,
    labels: &mut [Label],
    node: usize,
    word: &[u8],
    place: Option<usize>,
) -> Result<(), Memory> {
    if is_named(labels, node) {
        return Ok(());
    }
    let mut name = Vec::from_slice(alloc, scopes.path(scopes.of_node(node)))?;
    put(&mut name, b"_")?;
    put(&mut name, word)?;
    if let Some(place) = place {
        put_number(&mut name, b"_", place as u128)?;
    }
    set_name(labels, node, name);
    Ok(())
}

// The place that is said of a node's task: none where it is the first one and the next note has no second one.
fn told_place(word: &[u8], place: usize, next: Option<&Noted>) -> Option<usize> {
    if place > 0 {
        return Some(place);
    }
    match next?.note {
        Note::Role(other, 1, _) if other == word => Some(0),
        _ => None,
    }
}

/// Takes a note, behind which stands the next one.
pub(crate) fn take_note(
    alloc: Global,
    naming: Naming<'_>,
    scopes: &mut Scopes,
    labels: &mut [Label],
    note: Note,
    next: Option<&Noted>,
) -> Result<(), Memory> {
    match note {
        Note::Operator(number) => enter(alloc, naming, scopes, Sort::Operator(number)),
        Note::Copy(number) => enter(alloc, naming, scopes, Sort::Copy(number)),
        Note::Output(place) => enter(alloc, naming, scopes, Sort::Output(place)),
        Note::Part(place) => enter(alloc, naming, scopes, Sort::Part(place)),
        Note::Leave => {
            scopes.leave();
            Ok(())
        }
        Note::Valid(bit) => tell_line(alloc, naming, scopes, labels, bit.node, Line::Valid),
        Note::Eos(bit) => tell_line(alloc, naming, scopes, labels, bit.node, Line::Eos),
        Note::Column(place, bus) => {
            tell_line(alloc, naming, scopes, labels, bus.node, Line::Column(place))
        }
        Note::Role(word, place, bus) => {
            let told = told_place(word, place, next);
            tell_role(alloc, scopes, labels, bus.node, word, told)
        }
    }
}
