//! The words of scopes and of columns.

use crate::columns::ColumnNames;
use crate::scopes::{Scopes, Sort};
use crate::subject::Subject;
use gl_algebra::PlanNode;
use gl_bits::Memory;
use gl_explain::lines::{put, put_number, put_words};
use std::alloc::Global;

/// What words are taken from.
#[derive(Clone, Copy)]
pub(crate) struct Naming<'a> {
    /// What the module was made of.
    pub(crate) subject: Subject<'a>,
    /// The names of its columns.
    pub(crate) columns: &'a ColumnNames,
}

// The bytes at which what stands around is cut: what is printed of names and headings is short.
const MOST_AROUND: usize = 64;

// The first bytes of others.
fn front_of(alloc: Global, bytes: &[u8]) -> Result<Vec<u8>, Memory> {
    let most = bytes.len().min(MOST_AROUND);
    Ok(Vec::from_slice(alloc, &bytes[..most])?)
}

/// Appends the name of a column of what a section is of; `c` and its number where nothing names it.
pub(crate) fn put_column(
    text: &mut Vec<u8>,
    naming: Naming<'_>,
    sort: Sort,
    column: usize,
) -> Result<(), Memory> {
    let found = match sort {
        Sort::Operator(node) => naming.columns.of_node(naming.subject.schema, node, column),
        Sort::Output(place) => naming.columns.of_result(place, column),
        _ => None,
    };
    match found {
        Some(name) => put(text, name),
        None => put_number(text, b"c", column as u128),
    }
}

// The number of a result's node, and 0 where there is no such result.
fn root_number(subject: Subject<'_>, place: usize) -> usize {
    match subject.roots.get(place) {
        Some(root) => root.number(),
        None => 0,
    }
}

// Appends the name of a result.
fn put_result(text: &mut Vec<u8>, subject: Subject<'_>, place: usize) -> Result<(), Memory> {
    match subject.statements.get(place) {
        Some(checked) => put(text, checked.statement.name.text.as_slice()),
        None => Ok(()),
    }
}

// Appends what the names of an output begin with.
fn put_output(text: &mut Vec<u8>, subject: Subject<'_>, place: usize) -> Result<(), Memory> {
    put_number(text, b"", root_number(subject, place) as u128)?;
    put(text, b"_out")?;
    if subject.statements.len() == 1 {
        return Ok(());
    }
    put(text, b"_")?;
    put_result(text, subject, place)
}

/// What names begin with in a scope of this sort within that in which nodes are made.
pub(crate) fn path_of(
    alloc: Global,
    naming: Naming<'_>,
    scopes: &Scopes,
    sort: Sort,
) -> Result<Vec<u8>, Memory> {
    let current = scopes.current();
    let mut path = front_of(alloc, scopes.path(current))?;
    match sort {
        Sort::Ports => {}
        Sort::Operator(node) if path.is_empty() => put_number(&mut path, b"", node as u128)?,
        Sort::Operator(node) => put_number(&mut path, b"_p", node as u128)?,
        Sort::Copy(copy) => put_number(&mut path, b"c", copy as u128)?,
        Sort::Output(place) => put_output(&mut path, naming.subject, place)?,
        Sort::Part(column) => {
            put(&mut path, b"_")?;
            let owner = scopes.sort(scopes.section(current));
            put_column(&mut path, naming, owner, column)?;
        }
    }
    Ok(path)
}

// Appends the words of an operator.
fn put_operator(text: &mut Vec<u8>, number: usize) -> Result<(), Memory> {
    let front: &[u8] = if text.is_empty() { b"p" } else { b": p" };
    put_number(text, front, number as u128)
}

/// What headings begin with in a scope of this sort within that in which nodes are made.
pub(crate) fn words_of(
    alloc: Global,
    naming: Naming<'_>,
    scopes: &Scopes,
    sort: Sort,
) -> Result<Vec<u8>, Memory> {
    let mut words = front_of(alloc, scopes.words(scopes.current()))?;
    match sort {
        Sort::Ports | Sort::Part(_) => {}
        Sort::Operator(number) => put_operator(&mut words, number)?,
        Sort::Copy(copy) => put_number(&mut words, b" copy ", copy as u128)?,
        Sort::Output(place) => {
            put(&mut words, b"output of ")?;
            put_result(&mut words, naming.subject, place)?;
            put_number(
                &mut words,
                b", p",
                root_number(naming.subject, place) as u128,
            )?;
        }
    }
    Ok(words)
}

// Appends a space and what explain says of a node of the plan.
fn put_node(text: &mut Vec<u8>, subject: Subject<'_>, number: usize) -> Result<(), Memory> {
    if number >= subject.plan.len() {
        return Ok(());
    }
    put(text, b" ")?;
    put_words(
        text,
        subject.schema,
        subject.plan.node(subject.plan.id(number)),
    )
}

/// The heading of a section.
pub(crate) fn heading_of(
    alloc: Global,
    naming: Naming<'_>,
    scopes: &Scopes,
    section: usize,
) -> Result<Vec<u8>, Memory> {
    let mut text = Vec::new(alloc);
    match scopes.sort(section) {
        Sort::Ports => put(&mut text, b"ports")?,
        Sort::Operator(number) => {
            put(&mut text, scopes.words(section))?;
            put_node(&mut text, naming.subject, number)?;
        }
        _ => put(&mut text, scopes.words(section))?,
    }
    Ok(text)
}

/// Whether a section is of the rows that a body is given.
pub(crate) fn is_body(subject: Subject<'_>, sort: Sort) -> bool {
    match sort {
        Sort::Operator(number) => {
            number < subject.plan.len()
                && matches!(
                    subject.plan.node(subject.plan.id(number)),
                    PlanNode::Body(_)
                )
        }
        _ => false,
    }
}
