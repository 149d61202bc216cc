//! The roots of statements in their joint plan, under the names of their results.

ghost use Rattle.std.specs.Prelude.{◌≡◌, ◌++◌, IfOk, OnOk};
ghost use Rattle.gl_plan.specs.Together.{statements_of};
ghost use Rattle.gl_many.specs.Roots.{root_of, roots_of};

use gl_algebra::PlanId;
use gl_bits::Memory;
use gl_compiler::naming::{result_columns, result_names};
use gl_query::Statement;
use gl_query_check::Checked;
use gl_schema::Schema;
use gl_wiring::Root;
use std::alloc::Global;

// The root of a statement at a node.
fn root_of(
    alloc: Global,
    schema: &Schema,
    statement: &Statement,
    id: PlanId,
) -> Result<Root, Memory>
    ensures { IfOk result (λ root. root ≡ root_of schema.now statement.now id) }
{
    let columns = result_columns(alloc, schema, statement)?;
    let names = result_names(alloc, statement, columns.as_slice())?;
    Ok(Root { id, names })
}

// Adds the roots of statements, each at its node, to others.
fn push_roots(
    alloc: Global,
    schema: &Schema,
    statements: &[Checked],
    ids: &[PlanId],
    roots: &mut Vec<Root>,
) -> Result<(), Memory>
    ensures { OnOk result (roots.new.items
        ≡ roots.old.items ++ roots_of schema.now (statements_of statements.now) ids.now) }
{
    let Some((first, others)) = statements.split_first() else {
        return Ok(());
    };
    let Some((id, behind)) = ids.split_first() else {
        return Ok(());
    };
    let root = root_of(alloc, schema, &first.statement, *id)?;
    roots.push(root)?;
    push_roots(alloc, schema, others, behind, roots)
}

/// The roots of statements, each at its node.
pub(crate) fn roots_of(
    alloc: Global,
    schema: &Schema,
    statements: &[Checked],
    ids: &[PlanId],
) -> Result<Vec<Root>, Memory>
    ensures { IfOk result (λ roots.
        roots.items ≡ roots_of schema.now (statements_of statements.now) ids.now) }
{
    let mut roots = Vec::new(alloc);
    push_roots(alloc, schema, statements, ids, &mut roots)?;
    Ok(roots)
}
