//! Faults of queries, and the columns of those that have none.

ghost use Rattle.std.specs.Prelude.{◌≡◌, ◌*◌, ◌≤◌, [], map, nat_le, IfOk};
ghost use Rattle.gl_bits.specs.Limits.{most_copies, most_groups, most_rows};
ghost use Rattle.gl_query.specs.Accepted as accepted;
ghost use Rattle.gl_query.specs.Accepted.{columns_under};
ghost use Rattle.gl_query.specs.Alike.{agg_item_alike, frame_item_alike, pick_alike, query_alike};
ghost use Rattle.gl_query.specs.Columns as columns;
ghost use Rattle.gl_query.specs.Faults as faults;
ghost use Rattle.gl_query.specs.declared.fault.QueryFault.TheVariants as fault;
ghost use Rattle.gl_query.specs.Sources.{scope_of};
ghost use Rattle.gl_query.specs.Columns.{agg_column, frame_column, picked_columns};
ghost use Rattle.gl_query.specs.Windows.{copies_of};
ghost use Rattle.gl_query.specs.Trees.{agg_item_tree, filter_tree, frame_item_tree, pick_tree, query_tree};
ghost use Rattle.gl_query_check.specs.Answers.{Answers};

use crate::expressions::filter_fault;
use crate::frames::{frames_fault, slots_fault};
use crate::items::{aggs_fault, pick_fault};
use crate::joins::{beside_fault, join_checked};
use crate::paces::both_arrive;
use crate::rules::{
    has_column, has_source, is_among, is_within, or_else, refuse, same_kinds, unless,
};
use gl_bits::Memory;
use gl_bits::limits::{MOST_COLUMNS, MOST_COPIES, MOST_GROUPS, MOST_ROWS, MOST_WINDOWS};
use gl_query::columns::{
    agg_columns, frame_columns, group_columns, joined_columns, parameters_in, picked_columns,
    reach_of, source_columns,
};
use gl_query::{
    AggItem, AggItems, Expr, FrameItem, FrameItems, Measure, Name, Num, Pick, Query, QueryFault,
    Sources,
};
use gl_schema::{Column, Columns};
use std::alloc::Global;

// Whether a query gives its rows at the end of its input.
#[tactic(auto, using(gl_query::proofs::Alike::query_same))]
fn is_closing(query: &Query) -> bool
    ensures { result ≡ columns.is_closing (query_alike (query_tree query.now)) }
{
    match query {
        Query::Read(_) => false,
        Query::Rows { source, .. } => is_closing(source),
        Query::Total { .. } => true,
        Query::Frames { source, .. } => is_closing(source),
        Query::Each { source, .. } => is_closing(source),
        Query::EachTime { .. } => false,
        Query::PerGroup { .. } => true,
        Query::Partition { source, .. } => is_closing(source),
        Query::Union { left, right, .. } => is_closing(left) && is_closing(right),
        Query::ByArrival { .. } | Query::AsOf { .. } => false,
        Query::Concat { left, right, .. } => is_closing(left) && is_closing(right),
    }
}

// Whether the rows of a query have times: it is a stream of the schema itself.
#[tactic(auto, using(gl_query::proofs::Alike::query_same))]
fn has_times(sources: Sources<'_>, query: &Query) -> bool
    ensures { result ≡ accepted.has_times (scope_of sources.entry)
        (query_alike (query_tree query.now)) }
{
    match query {
        Query::Read(_) => match sources {
            Sources::Schema(..) => true,
            Sources::Variable(..) => false,
        },
        Query::Rows { .. }
        | Query::Total { .. }
        | Query::Frames { .. }
        | Query::Each { .. }
        | Query::EachTime { .. }
        | Query::PerGroup { .. }
        | Query::Partition { .. }
        | Query::Union { .. }
        | Query::ByArrival { .. }
        | Query::AsOf { .. }
        | Query::Concat { .. } => false,
    }
}

// Whether no more windows are open at once than may be.
fn keeps_copies(measure: Measure, size: u128, advance: u128) -> bool
    requires { 1 ≤ advance }
    ensures { result ≡ nat_le (copies_of measure size advance) most_copies }
{
    match measure {
        Measure::Tuples => size.div_ceil(advance) <= MOST_COPIES,
        Measure::Time => size / advance < MOST_COPIES,
    }
}

// The first fault of a window's advance, and of how many are open at once.
fn advance_fault(measure: Measure, size: Num, advance: Num) -> Option<QueryFault>
    ensures { let within = faults.is_within advance.value most_rows in
        let keeps = nat_le (copies_of measure size.value advance.value) most_copies in
        result ≡ faults.or_else (faults.unless within (fault.OutOfRange advance.at))
        (faults.unless keeps (fault.OutOfRange size.at)) }
{
    if !is_within(advance.value, MOST_ROWS) {
        return Some(QueryFault::OutOfRange { at: advance.at });
    }
    unless(
        keeps_copies(measure, size.value, advance.value),
        QueryFault::OutOfRange { at: size.at },
    )
}

// The first fault of a window's numbers.
fn window_fault(measure: Measure, size: Num, advance: Num) -> Option<QueryFault>
    ensures { result ≡ faults.window_fault measure size advance }
{
    or_else(
        unless(
            is_within(size.value, MOST_ROWS),
            QueryFault::OutOfRange { at: size.at },
        ),
        advance_fault(measure, size, advance),
    )
}

// The first fault of the windows of all groups together, where each number has none.
fn windows_fault(groups: Num, size: Num, advance: Num) -> Option<QueryFault>
    requires groups { groups.value ≤ most_groups }
    requires size { size.value ≤ most_rows }
    requires advance { 1 ≤ advance.value }
    ensures { result ≡ faults.windows_fault groups size advance }
{
    let open = size.value.div_ceil(advance.value);
    unless(
        groups.value * open <= MOST_WINDOWS,
        QueryFault::OutOfRange { at: groups.at },
    )
}

// The first fault of a key before the columns of a body.
fn key_fault(key: &Name, columns: &[Column]) -> Option<QueryFault>
    ensures { result ≡ faults.key_fault key.now columns.now }
{
    let fresh = !is_among(key.text.as_slice(), columns);
    or_else(
        unless(fresh, QueryFault::TwiceNamed { at: key.at }),
        unless(
            columns.len() < MOST_COLUMNS,
            QueryFault::OutOfRange { at: key.at },
        ),
    )
}

// The columns of what a select picks.
#[tactic(auto, using(gl_query::proofs::Alike::pick_same))]
fn picked(alloc: Global, columns: Columns, reach: &[Column], pick: &Pick) -> Result<Columns, Memory>
    ensures { IfOk result
        (λ v. v ≡ picked_columns columns reach.now (pick_alike (pick_tree pick.now))) }
{
    picked_columns(alloc, columns, reach, pick)
}

// The columns of aggregates.
#[tactic(auto, using(gl_query::proofs::Alike::aggs_same))]
fn totalled(alloc: Global, columns: &[Column], aggs: &[AggItem]) -> Result<Columns, Memory>
    ensures { let shapes = map agg_item_alike (map agg_item_tree aggs.now) in
        IfOk result (λ v. v ≡ map (agg_column columns.now) shapes) }
{
    agg_columns(alloc, columns, aggs)
}

// The columns of frames.
#[tactic(auto, using(gl_query::proofs::Alike::frames_same))]
fn framed(alloc: Global, columns: &[Column], items: &[FrameItem]) -> Result<Columns, Memory>
    ensures { let shapes = map frame_item_alike (map frame_item_tree items.now) in
        IfOk result (λ v. v ≡ map (frame_column columns.now) shapes) }
{
    frame_columns(alloc, columns, items)
}

// A select of items over columns, from what expressions may name.
#[tactic(auto, using(crate::proofs::Passing::passing))]
fn rows_checked(
    alloc: Global,
    columns: Columns,
    reach: &[Column],
    pick: &Pick,
    filter: &Option<Expr>,
) -> Result<Columns, QueryFault>
    ensures { let of_pick = faults.pick_fault reach.now (pick_tree pick.now) in
        let of_filter = faults.filter_fault reach.now (filter_tree filter.now) in
        let out = picked_columns columns reach.now (pick_alike (pick_tree pick.now)) in
        Answers (faults.or_else of_pick of_filter) out result }
{
    refuse(pick_fault(reach, pick))?;
    refuse(filter_fault(reach, filter))?;
    Ok(picked(alloc, columns, reach, pick)?)
}

// A select of aggregates, from what expressions may name.
#[tactic(auto, using(crate::proofs::Passing::passing))]
fn total_checked(alloc: Global, reach: &[Column], aggs: &AggItems) -> Result<Columns, QueryFault>
    ensures { let trees = map agg_item_tree aggs.now in
        let out = map (agg_column reach.now) (map agg_item_alike trees) in
        Answers (faults.aggs_fault reach.now [] trees) out result }
{
    refuse(aggs_fault(reach, aggs.as_slice(), 0))?;
    Ok(totalled(alloc, reach, aggs.as_slice())?)
}

// A select of frames, from what expressions may name.
#[tactic(auto, using(crate::proofs::Passing::passing))]
fn frames_checked(
    alloc: Global,
    reach: &[Column],
    items: &FrameItems,
    filter: &Option<Expr>,
) -> Result<Columns, QueryFault>
    ensures { let trees = map frame_item_tree items.now in
        let of_items = faults.frames_fault reach.now [] trees in
        let of_filter = faults.filter_fault reach.now (filter_tree filter.now) in
        let out = map (frame_column reach.now) (map frame_item_alike trees) in
        Answers (faults.or_else of_items of_filter) out result }
{
    refuse(frames_fault(reach, items.as_slice(), 0))?;
    refuse(filter_fault(reach, filter))?;
    Ok(framed(alloc, reach, items.as_slice())?)
}

/// The columns of a query, where it is accepted over the sources that it may read, or its first
/// fault.
#[tactic(auto, using(crate::proofs::Passing::passing))]
pub fn columns_checked(
    alloc: Global,
    sources: Sources<'_>,
    query: &Query,
) -> Result<Columns, QueryFault>
    ensures { let scope = scope_of sources.entry in let tree = query_tree query.now in
        Answers (faults.query_fault scope tree) (columns_under scope (query_alike tree)) result }
{
    match query {
        Query::Read(name) => {
            let known = has_source(sources, name.text.as_slice());
            refuse(unless(known, QueryFault::UnknownStream { at: name.at }))?;
            Ok(source_columns(alloc, sources, name.text.as_slice())?)
        }
        Query::Rows {
            pick,
            filter,
            source,
        } => {
            let columns = columns_checked(alloc, sources, source)?;
            let reach = reach_of(alloc, sources, columns.as_slice())?;
            rows_checked(alloc, columns, reach.as_slice(), pick, filter)
        }
        Query::Total { aggs, source } => {
            let columns = columns_checked(alloc, sources, source)?;
            let reach = reach_of(alloc, sources, columns.as_slice())?;
            total_checked(alloc, reach.as_slice(), aggs)
        }
        Query::Frames {
            items,
            filter,
            slots,
            source,
        } => {
            let columns = columns_checked(alloc, sources, source)?;
            let reach = reach_of(alloc, sources, columns.as_slice())?;
            refuse(slots_fault(columns.as_slice(), slots))?;
            frames_checked(alloc, reach.as_slice(), items, filter)
        }
        Query::Each {
            var,
            source,
            size,
            advance,
            body,
            at,
        } => {
            let columns = columns_checked(alloc, sources, source)?;
            refuse(window_fault(Measure::Tuples, *size, *advance))?;
            let parameters = parameters_in(sources);
            let inside = Sources::Variable(var.text.as_slice(), columns.as_slice(), parameters);
            let out = columns_checked(alloc, inside, body)?;
            refuse(unless(is_closing(body), QueryFault::NotClosing { at: *at }))?;
            Ok(out)
        }
        Query::EachTime {
            var,
            source,
            size,
            advance,
            body,
            at,
        } => {
            let columns = columns_checked(alloc, sources, source)?;
            let timed = has_times(sources, source);
            refuse(unless(timed, QueryFault::NoTime { at: *at }))?;
            refuse(window_fault(Measure::Time, *size, *advance))?;
            let parameters = parameters_in(sources);
            let inside = Sources::Variable(var.text.as_slice(), columns.as_slice(), parameters);
            let out = columns_checked(alloc, inside, body)?;
            refuse(unless(is_closing(body), QueryFault::NotClosing { at: *at }))?;
            Ok(out)
        }
        Query::PerGroup {
            var,
            source,
            key,
            groups,
            body,
            at,
        } => {
            let columns = columns_checked(alloc, sources, source)?;
            let known = has_column(columns.as_slice(), key.text.as_slice());
            refuse(unless(known, QueryFault::UnknownColumn { at: key.at }))?;
            let within = is_within(groups.value, MOST_GROUPS);
            refuse(unless(within, QueryFault::OutOfRange { at: groups.at }))?;
            let parameters = parameters_in(sources);
            let inside = Sources::Variable(var.text.as_slice(), columns.as_slice(), parameters);
            let later = columns_checked(alloc, inside, body)?;
            refuse(unless(is_closing(body), QueryFault::NotClosing { at: *at }))?;
            refuse(key_fault(key, later.as_slice()))?;
            Ok(group_columns(alloc, columns.as_slice(), key.text.as_slice(), later)?)
        }
        Query::Partition {
            var,
            source,
            key,
            groups,
            size,
            advance,
            body,
            at,
        } => {
            let columns = columns_checked(alloc, sources, source)?;
            let known = has_column(columns.as_slice(), key.text.as_slice());
            refuse(unless(known, QueryFault::UnknownColumn { at: key.at }))?;
            let within = is_within(groups.value, MOST_GROUPS);
            refuse(unless(within, QueryFault::OutOfRange { at: groups.at }))?;
            refuse(window_fault(Measure::Tuples, *size, *advance))?;
            refuse(windows_fault(*groups, *size, *advance))?;
            let parameters = parameters_in(sources);
            let inside = Sources::Variable(var.text.as_slice(), columns.as_slice(), parameters);
            let later = columns_checked(alloc, inside, body)?;
            refuse(unless(is_closing(body), QueryFault::NotClosing { at: *at }))?;
            refuse(key_fault(key, later.as_slice()))?;
            Ok(group_columns(alloc, columns.as_slice(), key.text.as_slice(), later)?)
        }
        Query::Union { left, right, at } => {
            let first = columns_checked(alloc, sources, left)?;
            let second = columns_checked(alloc, sources, right)?;
            let same = same_kinds(first.as_slice(), second.as_slice());
            refuse(unless(same, QueryFault::ColumnsDiffer { at: *at }))?;
            Ok(first)
        }
        Query::ByArrival { left, right, at } => {
            let first = columns_checked(alloc, sources, left)?;
            let second = columns_checked(alloc, sources, right)?;
            let come = both_arrive(left, right);
            refuse(unless(come, QueryFault::NoArrival { at: *at }))?;
            let same = same_kinds(first.as_slice(), second.as_slice());
            refuse(unless(same, QueryFault::ColumnsDiffer { at: *at }))?;
            Ok(first)
        }
        Query::AsOf {
            left,
            right,
            slots,
            at,
        } => {
            let first = columns_checked(alloc, sources, left)?;
            let second = columns_checked(alloc, sources, right)?;
            join_checked(left, right, first, second, slots, *at)
        }
        Query::Concat { left, right, at } => {
            let first = columns_checked(alloc, sources, left)?;
            let second = columns_checked(alloc, sources, right)?;
            let both = joined_columns(first, second)?;
            refuse(beside_fault(left, right, both.as_slice(), *at))?;
            Ok(both)
        }
    }
}
