//! What labels are made of.

use gl_algebra::{Figures, Plan, PlanId};
use gl_bits::Memory;
use gl_figures::{Printed, Spare};
use gl_query::columns::{Sources, columns_of};
use gl_query_check::Checked;
use gl_schema::{Columns, Schema};
use std::alloc::Global;

/// The figures of a module.
#[derive(Clone, Copy)]
pub enum Figured<'a> {
    /// Of one query: those of each node of its plan, what is printed of the whole, and its root's spare copies.
    Alone(&'a [Figures], Printed, Option<Spare>),
    /// Of several queries: the latency of each, the gap of them all, and that of ticks where it is another one.
    Together(&'a [u64], u32, Option<u32>),
}

/// What a module was made of.
#[derive(Clone, Copy)]
pub struct Subject<'a> {
    /// The schema of its inputs.
    pub schema: &'a Schema,
    /// The statements whose results it shows, in order.
    pub statements: &'a [Checked],
    /// Their joint plan.
    pub plan: &'a Plan,
    /// The node of each statement.
    pub roots: &'a [PlanId],
    /// The figures.
    pub figured: Figured<'a>,
}

/// The columns of the result of each statement.
pub(crate) fn results_of(alloc: Global, subject: Subject<'_>) -> Result<Vec<Columns>, Memory> {
    let mut results = Vec::new(alloc);
    for checked in subject.statements {
        let sources = Sources::Schema(
            subject.schema.streams.as_slice(),
            subject.schema.parameters.as_slice(),
        );
        results.push(columns_of(alloc, sources, &checked.statement.query)?)?;
    }
    Ok(results)
}
