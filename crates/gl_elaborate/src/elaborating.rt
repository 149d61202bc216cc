//! Plans of queries.

ghost use Rattle.std.specs.Prelude.{◌≡◌, ◌<◌, ◌≤◌, length, IfOk, OnOk};
ghost use Rattle.gl_query.specs.Checked.{IsChecked};
ghost use Rattle.gl_query.specs.Columns.{columns_of};
ghost use Rattle.gl_query.specs.Shapes.{query_shape};
ghost use Rattle.gl_query.specs.Sources.{scope_of};
ghost use Rattle.gl_algebra.specs.Added.{added, placed_at};
ghost use Rattle.gl_algebra.specs.Fits.{IsPlan};
ghost use Rattle.gl_algebra.specs.declared.node.PlanNode.TheVariants as node;
ghost use Rattle.gl_elaborate.specs.Fitting.{CanPlace, FitsNext, PlacedFit};
ghost use Rattle.gl_elaborate.specs.Plans.{placed, plan_behind, plan_of, window_node, Keeps};
ghost use Rattle.gl_elaborate.specs.Sources.{read_of};

use crate::frames::{Parted, frames_over, key_over};
use crate::joins::{Sides, as_of_over};
use crate::levels::put;
use crate::rows::{Below, rows_over};
use crate::sources::source_node;
use crate::totals::totals_over;
use gl_algebra::{Plan, PlanId, PlanNode};
use gl_bits::Memory;
use gl_query::columns::{
    agg_columns, but_key, frame_columns, group_columns, joined_columns, parameters_in,
    picked_columns, reach_of, source_columns,
};
use gl_query::kinds::column_number;
use gl_query::laws::results_are_long;
use gl_query::{Measure, Query, Sources};
use gl_query_check::Checked;
use gl_schema::Columns;
use std::alloc::Global;

// How windows are cut: each has `size` rows or ticks, and one begins at each `advance`.
#[derive(Clone, Copy)]
struct Cut {
    size: u128,
    advance: u128,
}

// Adds the windows of a source.
fn put_window(
    plan: &mut Plan,
    measure: Measure,
    source: PlanId,
    body: PlanId,
    cut: Cut,
) -> Result<PlanId, Memory>
    requires most_size { cut.size ≤ 65536 }
    requires most_advance { cut.advance ≤ 65536 }
    requires fits { FitsNext plan.old (window_node measure source body cut.size cut.advance) }
    ensures added { let node = window_node measure source body cut.size cut.advance in
        IfOk result (λ id. placed_at plan.new id ≡ added plan.old node) }
    ensures keeps { Keeps plan.old plan.new }
{
    let size = cut.size as u32;
    let advance = cut.advance as u32;
    match measure {
        Measure::Tuples => put(
            plan,
            PlanNode::Window {
                source,
                body,
                size,
                advance,
            },
        ),
        Measure::Time => put(
            plan,
            PlanNode::TimeWindow {
                source,
                body,
                size,
                advance,
            },
        ),
    }
}

// Adds the groups of a source.
fn put_group(
    plan: &mut Plan,
    source: PlanId,
    body: PlanId,
    key: usize,
    groups: u128,
) -> Result<PlanId, Memory>
    requires most_key { key ≤ 255 }
    requires most_groups { groups ≤ 256 }
    requires fits { FitsNext plan.old (node.Group source body key groups) }
    ensures added { IfOk result (λ id.
        placed_at plan.new id ≡ added plan.old (node.Group source body key groups)) }
    ensures keeps { Keeps plan.old plan.new }
{
    let key = key as u8;
    let groups = groups as u16;
    put(
        plan,
        PlanNode::Group {
            source,
            body,
            key,
            groups,
        },
    )
}

// Adds windows of each group of a column.
fn put_partition(
    plan: &mut Plan,
    source: PlanId,
    body: PlanId,
    key: usize,
    groups: u128,
    cut: Cut,
) -> Result<PlanId, Memory>
    requires most_key { key ≤ 255 }
    requires most_groups { groups ≤ 256 }
    requires most_size { cut.size ≤ 65536 }
    requires most_advance { cut.advance ≤ 65536 }
    requires fits { FitsNext plan.old
        (node.Partition source body key groups cut.size cut.advance) }
    ensures added { let partition = node.Partition source body key groups cut.size cut.advance in
        IfOk result (λ id. placed_at plan.new id ≡ added plan.old partition) }
    ensures keeps { Keeps plan.old plan.new }
{
    let key = key as u8;
    let groups = groups as u16;
    let size = cut.size as u32;
    let advance = cut.advance as u32;
    put(
        plan,
        PlanNode::Partition {
            source,
            body,
            key,
            groups,
            size,
            advance,
        },
    )
}

/// Adds the nodes of a query, and answers its columns too.
pub fn query_into(
    alloc: Global,
    sources: Sources<'_>,
    query: &Query,
    plan: &mut Plan,
) -> Result<(PlanId, Columns), Memory>
    requires can { CanPlace (scope_of sources).sources (query_shape query.now) }
    requires fit { PlacedFit (read_of sources) (scope_of sources).sources
        (query_shape query.now) plan.old }
    ensures root { IfOk result (λ r.
        placed_at plan.new r.0
        ≡ placed (read_of sources.entry) (scope_of sources.entry).sources
        (query_shape query.now) plan.old) }
    ensures columns { IfOk result (λ r.
        r.1 ≡ columns_of (scope_of sources.entry).sources (query_shape query.now)) }
    ensures keeps { Keeps plan.old plan.new }
{
    match query {
        Query::Read(name) => {
            let columns = source_columns(alloc, sources, name.text.as_slice())?;
            let node = source_node(alloc, sources, name.text.as_slice(), columns.as_slice())?;
            let root = put(plan, node)?;
            Ok((root, columns))
        }
        Query::Rows {
            pick,
            filter,
            source,
        } => {
            let (at, columns) = query_into(alloc, sources, source, plan)?;
            let reach = reach_of(alloc, sources, columns.as_slice())?;
            let below = Below {
                at,
                columns: columns.as_slice(),
            };
            let root = rows_over(alloc, plan, below, reach.as_slice(), pick, filter)?;
            Ok((
                root,
                picked_columns(alloc, columns, reach.as_slice(), pick)?,
            ))
        }
        Query::Total { aggs, source } => {
            let (at, columns) = query_into(alloc, sources, source, plan)?;
            let reach = reach_of(alloc, sources, columns.as_slice())?;
            let below = Below {
                at,
                columns: columns.as_slice(),
            };
            let root = totals_over(alloc, plan, below, reach.as_slice(), aggs.as_slice())?;
            let own = agg_columns(alloc, reach.as_slice(), aggs.as_slice())?;
            Ok((root, own))
        }
        Query::Frames {
            items,
            filter,
            slots,
            source,
        } => {
            let (at, columns) = query_into(alloc, sources, source, plan)?;
            let reach = reach_of(alloc, sources, columns.as_slice())?;
            let parted = Parted {
                at,
                columns: columns.as_slice(),
                by: key_over(columns.as_slice(), slots),
            };
            let root = frames_over(
                alloc,
                plan,
                parted,
                reach.as_slice(),
                items.as_slice(),
                filter,
            )?;
            let own = frame_columns(alloc, reach.as_slice(), items.as_slice())?;
            Ok((root, own))
        }
        Query::Each {
            var,
            source,
            size,
            advance,
            body,
            ..
        } => {
            let (from, columns) = query_into(alloc, sources, source, plan)?;
            let parameters = parameters_in(sources);
            let inside = Sources::Variable(var.text.as_slice(), columns.as_slice(), parameters);
            let (into, own) = query_into(alloc, inside, body, plan)?;
            let cut = Cut {
                size: size.value,
                advance: advance.value,
            };
            let root = put_window(plan, Measure::Tuples, from, into, cut)?;
            Ok((root, own))
        }
        Query::EachTime {
            var,
            source,
            size,
            advance,
            body,
            ..
        } => {
            let (from, columns) = query_into(alloc, sources, source, plan)?;
            let parameters = parameters_in(sources);
            let inside = Sources::Variable(var.text.as_slice(), columns.as_slice(), parameters);
            let (into, own) = query_into(alloc, inside, body, plan)?;
            let cut = Cut {
                size: size.value,
                advance: advance.value,
            };
            let root = put_window(plan, Measure::Time, from, into, cut)?;
            Ok((root, own))
        }
        Query::PerGroup {
            var,
            source,
            key,
            groups,
            body,
            ..
        } => {
            let (from, columns) = query_into(alloc, sources, source, plan)?;
            let parameters = parameters_in(sources);
            let inside = Sources::Variable(var.text.as_slice(), columns.as_slice(), parameters);
            let (into, own) = query_into(alloc, inside, body, plan)?;
            let number = column_number(columns.as_slice(), key.text.as_slice());
            let root = put_group(plan, from, into, number, groups.value)?;
            let all = group_columns(alloc, columns.as_slice(), key.text.as_slice(), own)?;
            Ok((root, all))
        }
        Query::Partition {
            var,
            source,
            key,
            groups,
            size,
            advance,
            body,
            ..
        } => {
            let (from, columns) = query_into(alloc, sources, source, plan)?;
            let parameters = parameters_in(sources);
            let inside = Sources::Variable(var.text.as_slice(), columns.as_slice(), parameters);
            let (into, own) = query_into(alloc, inside, body, plan)?;
            let number = column_number(columns.as_slice(), key.text.as_slice());
            let cut = Cut {
                size: size.value,
                advance: advance.value,
            };
            let root = put_partition(plan, from, into, number, groups.value, cut)?;
            let all = group_columns(alloc, columns.as_slice(), key.text.as_slice(), own)?;
            Ok((root, all))
        }
        Query::Union { left, right, .. } => {
            let (left, columns) = query_into(alloc, sources, left, plan)?;
            let (right, _) = query_into(alloc, sources, right, plan)?;
            let root = put(plan, PlanNode::Union { left, right })?;
            Ok((root, columns))
        }
        Query::ByArrival { left, right, .. } => {
            let (left, columns) = query_into(alloc, sources, left, plan)?;
            let (right, _) = query_into(alloc, sources, right, plan)?;
            let root = put(plan, PlanNode::Merge { left, right })?;
            Ok((root, columns))
        }
        Query::AsOf {
            left,
            right,
            slots,
            ..
        } => {
            let (left, lefts) = query_into(alloc, sources, left, plan)?;
            let (right, rights) = query_into(alloc, sources, right, plan)?;
            let sides = Sides {
                lefts: lefts.as_slice(),
                rights: rights.as_slice(),
                slots,
            };
            let root = as_of_over(alloc, plan, sides, left, right)?;
            let others = but_key(rights, slots.key.text.as_slice());
            Ok((root, joined_columns(lefts, others)?))
        }
        Query::Concat { left, right, .. } => {
            let (left, columns) = query_into(alloc, sources, left, plan)?;
            let (right, more) = query_into(alloc, sources, right, plan)?;
            let root = put(plan, PlanNode::Beside { left, right })?;
            Ok((root, joined_columns(columns, more)?))
        }
    }
}

/// Adds the plan of a checked statement to a plan, exactly `plan_behind`, and answers its root. Only want of
/// memory may come in its place; nodes may have been added then, and none is changed.
pub fn elaborate_into(alloc: Global, checked: &Checked, plan: &mut Plan) -> Result<PlanId, Memory>
    requires checked { IsChecked checked.now.schema checked.now.statement }
    requires plan { IsPlan plan.old }
    ensures plan { IfOk result (λ root.
        placed_at plan.new root
        ≡ plan_behind plan.old checked.now.schema checked.now.statement) }
    ensures within { IfOk result (λ root. root < length plan.new) }
    ensures is { OnOk result (IsPlan plan.new) }
    ensures keeps { Keeps plan.old plan.new }
{
    results_are_long();
    let sources = Sources::Schema(
        checked.schema.streams.as_slice(),
        checked.schema.parameters.as_slice(),
    );
    let (root, _columns) = query_into(alloc, sources, &checked.statement.query, plan)?;
    Ok(root)
}

/// The plan of a checked statement, exactly `plan_of`, and its root. Only want of memory may come in their
/// place.
pub fn elaborate(alloc: Global, checked: &Checked) -> Result<(Plan, PlanId), Memory>
    requires { IsChecked checked.now.schema checked.now.statement }
    ensures plan { IfOk result (λ r.
        placed_at r.0 r.1 ≡ plan_of checked.now.schema checked.now.statement) }
    ensures within { IfOk result (λ r. r.1 < length r.0) }
{
    let mut plan = Plan::new(alloc);
    let root = elaborate_into(alloc, checked, &mut plan)?;
    Ok((plan, root))
}
