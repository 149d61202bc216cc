//! The names of a plan's columns.

use crate::passing::pass_names;
use crate::subject::{Subject, results_of};
use gl_algebra::Plan;
use gl_bits::Memory;
use gl_schema::{Column, Columns, Schema};
use std::alloc::Global;

/// Where the name of a column stands.
#[derive(Clone, Copy, PartialEq, Eq, Debug)]
pub(crate) enum Source {
    /// Nothing names the column.
    Unknown,
    /// At this place among the columns of the result at this place.
    Result(usize, usize),
    /// At this place among the columns of the stream at this place.
    Stream(usize, usize),
}

/// Where the names of all columns of a plan stand, those of each node behind those of the nodes before it.
#[derive(Drop)]
pub(crate) struct Table {
    // Where the columns of each node begin.
    starts: Vec<usize>,
    sources: Vec<Source>,
}

impl Table {
    /// The table of a plan that no name has reached.
    fn new(alloc: Global, plan: &Plan) -> Result<Table, Memory> {
        let mut starts = Vec::new(alloc);
        let mut sources = Vec::new(alloc);
        for number in 0..plan.len() {
            starts.push(sources.len())?;
            for _ in plan.kinds(plan.id(number)) {
                sources.push(Source::Unknown)?;
            }
        }
        Ok(Table { starts, sources })
    }

    // Where the columns of a node begin, and where they end.
    fn range(&self, node: usize) -> (usize, usize) {
        let all = self.sources.len();
        let start = match self.starts.get(node) {
            Some(start) => *start,
            None => all,
        };
        let end = match node.checked_add(1) {
            Some(next) => match self.starts.get(next) {
                Some(end) => *end,
                None => all,
            },
            None => all,
        };
        (start, end)
    }

    /// How many columns a node has.
    pub(crate) fn count(&self, node: usize) -> usize {
        let (start, end) = self.range(node);
        end.saturating_sub(start)
    }

    // The place of a node's column in the whole table.
    fn place(&self, node: usize, column: usize) -> Option<usize> {
        let (start, end) = self.range(node);
        let place = start.checked_add(column)?;
        if place < end { Some(place) } else { None }
    }

    /// Where the name of a node's column stands.
    pub(crate) fn source(&self, node: usize, column: usize) -> Source {
        let Some(place) = self.place(node, column) else {
            return Source::Unknown;
        };
        match self.sources.get(place) {
            Some(source) => *source,
            None => Source::Unknown,
        }
    }

    /// Names a node's column, unless it has a name.
    pub(crate) fn name(&mut self, node: usize, column: usize, source: Source) {
        let Some(place) = self.place(node, column) else {
            return;
        };
        if let Some(found) = self.sources.get_mut(place) {
            if matches!(*found, Source::Unknown) {
                *found = source;
            }
        }
    }
}

/// The names of a plan's columns, and of the results.
#[derive(Drop)]
pub(crate) struct ColumnNames {
    table: Table,
    results: Vec<Columns>,
}

impl ColumnNames {
    /// The names of the columns: those of results come down to what they are made of, and those of streams up.
    pub(crate) fn new(alloc: Global, subject: Subject<'_>) -> Result<ColumnNames, Memory> {
        let results = results_of(alloc, subject)?;
        let mut table = Table::new(alloc, subject.plan)?;
        pass_names(alloc, subject, &mut table)?;
        Ok(ColumnNames { table, results })
    }

    /// The name of a node's column, if it has one.
    pub(crate) fn of_node<'a>(
        &'a self,
        schema: &'a Schema,
        node: usize,
        column: usize,
    ) -> Option<&'a [u8]> {
        match self.table.source(node, column) {
            Source::Unknown => None,
            Source::Result(place, at) => self.of_result(place, at),
            Source::Stream(stream, at) => {
                name_at(
                    schema.streams.as_slice().get(stream)?.columns.as_slice(),
                    at,
                )
            }
        }
    }

    /// The name of a result's column.
    pub(crate) fn of_result(&self, place: usize, column: usize) -> Option<&[u8]> {
        name_at(self.results.get(place)?.as_slice(), column)
    }
}

// The name of the column at a place.
fn name_at(columns: &[Column], at: usize) -> Option<&[u8]> {
    let column = columns.get(at)?;
    Some(column.name.as_slice())
}
