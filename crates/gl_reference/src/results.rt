//! One result of a query over lists of rows.

ghost use Rattle.std.specs.Prelude.{◌≡◌, ◌∷◌, Bool, IfOk, length, map};
ghost use Rattle.gl_query.specs.Shapes.{query_shape};
ghost use Rattle.std.specs.List.{AllByRecursion};
ghost use Rattle.gl_values.specs.declared.lists.Group.{Group};
ghost use Rattle.gl_schema.specs.Schemas.{IsRowOf};
ghost use Rattle.gl_query.specs.Accepted.{IsAcceptedOver};
ghost use Rattle.gl_query.specs.Laws.{scope_of};
ghost use Rattle.gl_query.specs.Results.{IsResult, first_row, numbered};
ghost use Rattle.gl_reference.specs.Fits.{AreSources, IsBody, IsFit, IsOrMemory};
ghost use Rattle.gl_reference.specs.Sources.{IsAnswer, env_view, given_inputs, source_of};
ghost use Rattle.gl_reference.specs.Joins.{AreOverGroups, AreOverSlices};

use crate::answers::{
    Answer, concat_of, frames_from, groups_wanted, of_parts, read, rows_from, total_from, union_of,
    windows_of,
};
use crate::arrivals::{as_of, by_arrival, without_places};
use crate::columns::{
    Clock, Source, columns_of, copy_of_parameters, one_row, parameters_as, words_table,
};
use crate::frames::Framing;
use crate::partitions::partitions_of;
use crate::rows::{Fault, joined, with_key};
use crate::windows::{clock_of, slices_in, time_windows_of};
use gl_bits::{Listed, Memory};
use gl_query::kinds::column_number;
use gl_query::laws::results_fit;
use gl_query::{Query, Statement};
use gl_schema::{Column, Schema, Stream};
use gl_values::lists::{groups_of, some_further};
use gl_values::{Group, Table};
use std::alloc::Global;

/// A body over each slice, its results joined in order.
#[cycle(results)]
fn over_slices<'a>(
    alloc: Global,
    sources: &[Source<'_>],
    body: &Query,
    var: &'a [u8],
    columns: &'a [Column],
    slices: &'a [&'a [Listed<u128>]],
) -> Result<Answer, Fault>
    ensures value { IfOk result (λ a. AreOverSlices (query_shape body.now)
        (env_view sources.now) var.now columns.now
        (map (λ s. s.now) slices.now) a.rows a.spill) }
    ensures fits { AreSources (env_view sources.now)
        → IsBody (env_view sources.now) var.now columns.now (query_shape body.now)
        → AllByRecursion (AllByRecursion (IsRowOf columns.now)) (map (λ s. s.now) slices.now)
        → IsOrMemory result }
{
    let table = words_table(alloc, sources)?;
    let words = table.as_slice();
    let names = copy_of_parameters(alloc, sources)?;
    let parameters = names.as_slice();
    let outer = parameters_as(parameters, words);
    let mut rows = Listed::new(alloc);
    let mut spill = false;
    for slice in slices {
        let inside = Source {
            name: var,
            columns,
            rows: slice,
            clock: None,
        };
        let part = result_of(alloc, &[outer, inside], body)?;
        rows = joined(rows, part.rows)?;
        spill |= part.spill;
    }
    Ok(Answer { rows, spill })
}

/// A body over each group, its results joined in order, the key first in each row.
#[cycle(results)]
fn over_groups<'a>(
    alloc: Global,
    sources: &[Source<'_>],
    body: &Query,
    var: &'a [u8],
    columns: &'a [Column],
    groups: &'a [Group],
) -> Result<Answer, Fault>
    ensures value { IfOk result (λ a. AreOverGroups (query_shape body.now)
        (env_view sources.now) var.now columns.now groups.now a.rows a.spill) }
    ensures fits { AreSources (env_view sources.now)
        → IsBody (env_view sources.now) var.now columns.now (query_shape body.now)
        → AllByRecursion (λ (g : Group). AllByRecursion (IsRowOf columns.now) g.rows) groups.now
        → IsOrMemory result }
{
    let table = words_table(alloc, sources)?;
    let words = table.as_slice();
    let names = copy_of_parameters(alloc, sources)?;
    let parameters = names.as_slice();
    let outer = parameters_as(parameters, words);
    let mut rows = Listed::new(alloc);
    let mut spill = false;
    for group in groups {
        let inside = Source {
            name: var,
            columns,
            rows: group.rows.as_slice(),
            clock: None,
        };
        let part = result_of(alloc, &[outer, inside], body)?;
        let keyed = with_key(alloc, group.key, part.rows.as_slice())?;
        rows = joined(rows, keyed)?;
        spill |= part.spill;
    }
    Ok(Answer { rows, spill })
}

/// One result of a query over the sources that it sees; a UNION has the rows of its left side
/// first.
#[cycle(results)]
pub fn result_of(alloc: Global, sources: &[Source<'_>], query: &Query) -> Result<Answer, Fault>
    ensures value { IfOk result (IsAnswer sources.now (query_shape query.now)) }
    ensures fits { (timed : Bool) → AreSources (env_view sources.now)
        → IsAcceptedOver (scope_of (env_view sources.now) timed) (query_shape query.now)
        → IsOrMemory result }
{
    results_fit();
    match query {
        Query::Read(name) => read(alloc, sources, name),
        Query::Rows {
            pick,
            filter,
            source,
        } => {
            let from = result_of(alloc, sources, source)?;
            rows_from(alloc, sources, source, pick, filter, from)
        }
        Query::Total { aggs, source } => {
            let from = result_of(alloc, sources, source)?;
            total_from(alloc, sources, source, aggs.as_slice(), from)
        }
        Query::Frames {
            items,
            filter,
            slots,
            source,
        } => {
            let from = result_of(alloc, sources, source)?;
            let columns = columns_of(alloc, sources, source)?;
            frames_from(
                alloc,
                sources,
                columns.as_slice(),
                Framing {
                    items: items.as_slice(),
                    filter,
                    slots,
                },
                from,
            )
        }
        Query::Each {
            var,
            source,
            size,
            advance,
            body,
            ..
        } => {
            let from = result_of(alloc, sources, source)?;
            let columns = columns_of(alloc, sources, source)?;
            let slices = windows_of(alloc, size.value, advance.value, from.rows.as_slice())?;
            let inside = over_slices(
                alloc,
                sources,
                body,
                var.text.as_slice(),
                columns.as_slice(),
                slices.as_slice(),
            )?;
            Ok(of_parts(from.spill, inside, false))
        }
        Query::EachTime {
            var,
            source,
            size,
            advance,
            body,
            ..
        } => {
            let from = result_of(alloc, sources, source)?;
            let columns = columns_of(alloc, sources, source)?;
            let clock = clock_of(sources, source);
            let rows = from.rows.as_slice();
            let tables = time_windows_of(alloc, size.value, advance.value, clock, rows)?;
            let parts = slices_in(alloc, tables.as_slice())?;
            let inside = over_slices(
                alloc,
                sources,
                body,
                var.text.as_slice(),
                columns.as_slice(),
                parts.as_slice(),
            )?;
            Ok(of_parts(from.spill, inside, false))
        }
        Query::PerGroup {
            var,
            source,
            key,
            groups,
            body,
            ..
        } => {
            let from = result_of(alloc, sources, source)?;
            let columns = columns_of(alloc, sources, source)?;
            let column = column_number(columns.as_slice(), key.text.as_slice());
            let most = groups_wanted(groups.value)?;
            let parts = groups_of(alloc, most, column, from.rows.as_slice())?;
            let inside = over_groups(
                alloc,
                sources,
                body,
                var.text.as_slice(),
                columns.as_slice(),
                parts.as_slice(),
            )?;
            let further = some_further(alloc, most, column, from.rows.as_slice())?;
            Ok(of_parts(from.spill, inside, further))
        }
        Query::Partition {
            var,
            source,
            key,
            groups,
            size,
            advance,
            body,
            ..
        } => {
            let from = result_of(alloc, sources, source)?;
            let columns = columns_of(alloc, sources, source)?;
            let column = column_number(columns.as_slice(), key.text.as_slice());
            let most = groups_wanted(groups.value)?;
            let parts = partitions_of(
                alloc,
                most,
                column,
                size.value,
                advance.value,
                from.rows.as_slice(),
            )?;
            let inside = over_groups(
                alloc,
                sources,
                body,
                var.text.as_slice(),
                columns.as_slice(),
                parts.as_slice(),
            )?;
            let further = some_further(alloc, most, column, from.rows.as_slice())?;
            Ok(of_parts(from.spill, inside, further))
        }
        Query::Union { left, right, .. } => {
            let first = result_of(alloc, sources, left)?;
            let second = result_of(alloc, sources, right)?;
            union_of(first, second)
        }
        Query::ByArrival { left, right, .. } => {
            let both = by_arrival(alloc, sources, left, right)?;
            // Named, since a goal speaks of the value.
            let answer = without_places(alloc, both)?;
            Ok(answer)
        }
        Query::AsOf {
            left,
            right,
            slots,
            ..
        } => {
            let both = as_of(alloc, sources, left, right, slots)?;
            let answer = without_places(alloc, both)?;
            Ok(answer)
        }
        Query::Concat { left, right, .. } => {
            let first = result_of(alloc, sources, left)?;
            let second = result_of(alloc, sources, right)?;
            concat_of(alloc, first, second)
        }
    }
}

/// The times of a stream's rows, or their places, one for each.
pub type Times = Listed<u64>;

/// What came over the streams of a schema, of each stream in order, and the words of its parameters.
#[derive(Clone, Copy)]
pub struct Brought<'a> {
    /// The rows of each stream.
    pub rows: &'a [Table],
    /// The places of the rows of each stream.
    pub places: &'a [Times],
    /// The times of the rows of each stream.
    pub times: &'a [Times],
    /// How many ticks came in all.
    pub ticks: u64,
    /// The word of each parameter.
    pub words: &'a [u128],
}

/// A first source, and the streams of a schema, each with its rows and their times.
fn sources_of<'a>(
    alloc: Global,
    first: Source<'a>,
    streams: &'a [Stream],
    brought: Brought<'a>,
) -> Result<Vec<Source<'a>>, Memory>
    requires rows { length brought.rows.now ≡ length streams.now }
    requires places { length brought.places.now ≡ length streams.now }
    requires times { length brought.times.now ≡ length streams.now }
    ensures { let outer = source_of first.entry in let b = brought.entry in
        IfOk result (λ v. env_view v.items ≡ outer ∷ numbered 0 streams.now
        (given_inputs b.rows.now b.places.now b.times.now b.ticks (first_row outer.rows))) }
{
    let Brought {
        rows,
        places,
        times,
        ticks,
        ..
    } = brought;
    let mut out = Vec::new(alloc);
    out.push(first)?;
    for (i, stream) in streams.iter().enumerate() {
        out.push(Source {
            name: stream.name.as_slice(),
            columns: stream.columns.as_slice(),
            rows: rows[i].as_slice(),
            clock: Some(Clock {
                places: places[i].as_slice(),
                times: times[i].as_slice(),
                ticks,
            }),
        })?;
    }
    Ok(out)
}

/// One result of an accepted statement over a schema and what came over its streams.
pub fn evaluate(
    alloc: Global,
    schema: &Schema,
    statement: &Statement,
    brought: Brought<'_>,
) -> Result<Answer, Fault>
    requires rows { length brought.rows.now ≡ length schema.now.streams }
    requires places { length brought.places.now ≡ length schema.now.streams }
    requires times { length brought.times.now ≡ length schema.now.streams }
    ensures value { let b = brought.entry in
        let inputs = given_inputs b.rows.now b.places.now b.times.now b.ticks b.words.now in
        IfOk result (λ a. IsResult schema.now statement.now inputs a.rows a.spill) }
    ensures fits { let b = brought.entry in
        IsFit schema.now statement.now b.rows.now b.places.now b.times.now b.ticks b.words.now
        → IsOrMemory result }
{
    let table = one_row(alloc, brought.words)?;
    let rows = table.as_slice();
    let parameters = schema.parameters.as_slice();
    let first = parameters_as(parameters, rows);
    let sources = sources_of(alloc, first, schema.streams.as_slice(), brought)?;
    result_of(alloc, sources.as_slice(), &statement.query)
}
