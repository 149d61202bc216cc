//! How names pass from the columns of one node to those of another.

use crate::columns::{Source, Table};
use crate::subject::Subject;
use gl_algebra::{Operand, Plan, PlanFrame, PlanNode};
use gl_bits::Memory;
use std::alloc::Global;

// Of two nodes side by side the one that a column is of, and its place there.
fn beside(table: &Table, left: usize, right: usize, column: usize) -> (usize, usize) {
    let first = table.count(left);
    if column < first {
        (left, column)
    } else {
        (right, column - first)
    }
}

// The column that an operand is.
fn column_in(operand: &Operand) -> Option<usize> {
    match operand {
        Operand::Column(at) => Some(*at as usize),
        Operand::Literal(_, _) | Operand::Parameter(_, _) => None,
    }
}

// The column that an item of a node of frames is as it stands.
fn own_column(item: &PlanFrame) -> Option<usize> {
    match item {
        PlanFrame::Own(operand) => column_in(operand),
        PlanFrame::Lag(_, _) | PlanFrame::Over { .. } => None,
    }
}

// The node below, and the place there, of a node's column, where it is that column as it stands.
fn column_below(table: &Table, node: &PlanNode, column: usize) -> Option<(usize, usize)> {
    match node {
        PlanNode::Stream(_, _) | PlanNode::Body(_) | PlanNode::Aggregate { .. } => None,
        PlanNode::Compute { child, .. } | PlanNode::Select { child, .. } => {
            Some((child.number(), column))
        }
        PlanNode::Project { child, items } => {
            let at = column_in(items.as_slice().get(column)?)?;
            Some((child.number(), at))
        }
        PlanNode::Frames { child, items, .. } => {
            let at = own_column(items.as_slice().get(column)?)?;
            Some((child.number(), at))
        }
        PlanNode::Union { left, .. } | PlanNode::Merge { left, .. } => {
            Some((left.number(), column))
        }
        PlanNode::Beside { left, right } => {
            Some(beside(table, left.number(), right.number(), column))
        }
        PlanNode::Window { body, .. } | PlanNode::TimeWindow { body, .. } => {
            Some((body.number(), column))
        }
        PlanNode::Group {
            source,
            body,
            key,
            ..
        }
        | PlanNode::Partition {
            source,
            body,
            key,
            ..
        } => {
            if column == 0 {
                Some((source.number(), *key as usize))
            } else {
                Some((body.number(), column - 1))
            }
        }
    }
}

// Names the columns of a stream's node as the schema does.
fn name_stream(node: &PlanNode, number: usize, table: &mut Table) {
    if let PlanNode::Stream(stream, _) = node {
        for column in 0..table.count(number) {
            table.name(number, column, Source::Stream(*stream as usize, column));
        }
    }
}

// Hands the names of a node's columns to what they are made of.
fn pass_down(node: &PlanNode, number: usize, table: &mut Table) {
    for column in 0..table.count(number) {
        let source = table.source(number, column);
        if let Some((below, at)) = column_below(table, node, column) {
            table.name(below, at, source);
        }
        match node {
            PlanNode::Union { right, .. } | PlanNode::Merge { right, .. } => {
                table.name(right.number(), column, source)
            }
            _ => {}
        }
    }
}

// Takes the names of a node's columns from what they are made of. The rows of a body are those of this node.
fn pass_up(node: &PlanNode, number: usize, rows: Option<usize>, table: &mut Table) {
    for column in 0..table.count(number) {
        let found = match rows {
            Some(rows) => Some((rows, column)),
            None => column_below(table, node, column),
        };
        if let Some((below, at)) = found {
            let source = table.source(below, at);
            table.name(number, column, source);
        }
    }
}

// What stands at a place, if anything.
fn entry(entries: &[Option<usize>], at: usize) -> Option<usize> {
    *entries.get(at)?
}

// The body's input that a node reads, if it reads one, by those of the nodes before it.
fn leaf_of(node: &PlanNode, number: usize, leaves: &[Option<usize>]) -> Option<usize> {
    match node {
        PlanNode::Stream(_, _) => None,
        PlanNode::Body(_) => Some(number),
        PlanNode::Compute { child, .. }
        | PlanNode::Select { child, .. }
        | PlanNode::Project { child, .. }
        | PlanNode::Frames { child, .. }
        | PlanNode::Aggregate { child, .. } => entry(leaves, child.number()),
        PlanNode::Union { left, right }
        | PlanNode::Merge { left, right }
        | PlanNode::Beside { left, right } => {
            match entry(leaves, left.number()) {
                Some(leaf) => Some(leaf),
                None => entry(leaves, right.number()),
            }
        }
        PlanNode::Window { source, .. }
        | PlanNode::TimeWindow { source, .. }
        | PlanNode::Group { source, .. }
        | PlanNode::Partition { source, .. } => entry(leaves, source.number()),
    }
}

// The source and the body of a node that parts rows.
fn parted(node: &PlanNode) -> Option<(usize, usize)> {
    match node {
        PlanNode::Window { source, body, .. }
        | PlanNode::TimeWindow { source, body, .. }
        | PlanNode::Group { source, body, .. }
        | PlanNode::Partition { source, body, .. } => Some((source.number(), body.number())),
        _ => None,
    }
}

// For each input of a body the node whose rows it is given first.
fn rows_of_bodies(alloc: Global, plan: &Plan) -> Result<Vec<Option<usize>>, Memory> {
    let mut leaves = Vec::new(alloc);
    let mut rows = Vec::new(alloc);
    for number in 0..plan.len() {
        let node = plan.node(plan.id(number));
        let leaf = leaf_of(node, number, leaves.as_slice());
        leaves.push(leaf)?;
        rows.push(None)?;
        if let Some((source, body)) = parted(node) {
            if let Some(leaf) = entry(leaves.as_slice(), body) {
                give_rows(rows.as_mut_slice(), leaf, source);
            }
        }
    }
    Ok(rows)
}

// Gives a body's input the rows of a node, unless it has some.
fn give_rows(rows: &mut [Option<usize>], leaf: usize, source: usize) {
    if let Some(found) = rows.get_mut(leaf) {
        if found.is_none() {
            *found = Some(source);
        }
    }
}

// Names the columns of each result as its statement does.
fn name_results(subject: Subject<'_>, table: &mut Table) {
    for (place, root) in subject.roots.iter().enumerate() {
        for column in 0..table.count(root.number()) {
            table.name(root.number(), column, Source::Result(place, column));
        }
    }
}

/// Hands the names of results down, and those of streams up where no result named a column.
pub(crate) fn pass_names(
    alloc: Global,
    subject: Subject<'_>,
    table: &mut Table,
) -> Result<(), Memory> {
    let plan = subject.plan;
    let rows = rows_of_bodies(alloc, plan)?;
    for number in 0..plan.len() {
        name_stream(plan.node(plan.id(number)), number, table);
    }
    name_results(subject, table);
    for step in 0..plan.len() {
        let number = plan.len() - 1 - step;
        pass_down(plan.node(plan.id(number)), number, table);
    }
    for number in 0..plan.len() {
        let given = entry(rows.as_slice(), number);
        pass_up(plan.node(plan.id(number)), number, given, table);
    }
    Ok(())
}
