//! Windows over time, and the clock that they go by.

ghost use Rattle.std.specs.Prelude.{◌≡◌, ◌≤◌, ◌*◌, ◌^◌, ◌++◌, IfOk, OnOk, [], map};
ghost use Rattle.gl_values.specs.Times.{tfirsts, tpart, tslices};
ghost use Rattle.gl_query.specs.Accepted.{IsWindow};
ghost use Rattle.gl_query.specs.Results.{ticks_in, times_in};
ghost use Rattle.gl_query.specs.Shapes.{query_shape};
ghost use Rattle.gl_query.specs.declared.tree.Measure.TheVariants.{Time};
ghost use Rattle.gl_reference.specs.Fits.{IsOrMemory};
ghost use Rattle.gl_reference.specs.Sources.{env_view, ticks_on, times_on};

use crate::columns::{Clock, Source, source_named};
use crate::rows::Fault;
use gl_bits::limits::MOST_ROWS;
use gl_bits::{Listed, Memory};
use gl_query::Query;
use gl_values::Table;
use gl_values::lists::copy_of_row;
use std::alloc::Global;

/// The clock of a query that is a stream itself.
pub fn clock_of<'a>(sources: &[Source<'a>], query: &Query) -> Option<Clock<'a>>
    ensures times { times_on result ≡ times_in (env_view sources.now) (query_shape query.now) }
    ensures ticks { ticks_on result ≡ ticks_in (env_view sources.now) (query_shape query.now) }
{
    match query {
        Query::Read(name) => match source_named(sources, name.text.as_slice()) {
            Some(source) => source.clock,
            None => None,
        },
        Query::Rows { .. }
        | Query::Total { .. }
        | Query::Frames { .. }
        | Query::Each { .. }
        | Query::EachTime { .. }
        | Query::PerGroup { .. }
        | Query::Partition { .. }
        | Query::Union { .. }
        | Query::ByArrival { .. }
        | Query::AsOf { .. }
        | Query::Concat { .. } => None,
    }
}

// Adds the rows whose time is in the `size` ticks from `from` on.
fn add_part(
    alloc: Global,
    from: u128,
    size: u128,
    times: &[u64],
    rows: &[Listed<u128>],
    part: &mut Table,
) -> Result<(), Memory>
    requires from { from ≤ 2 ^ 100 }
    requires size { size ≤ 65536 }
    ensures { OnOk result (part.new ≡ part.old ++ tpart from size times.now rows.now) }
{
    let Some((first, later)) = times.split_first() else {
        return Ok(());
    };
    let Some((row, others)) = rows.split_first() else {
        return Ok(());
    };
    let time = u128::from(*first);
    if from <= time && time < from + size {
        part.push(copy_of_row(alloc, row.as_slice())?)?;
        return add_part(alloc, from, size, later, others, part);
    }
    add_part(alloc, from, size, later, others, part)
}

// The rows whose time is in the `size` ticks from `from` on.
fn part_of(
    alloc: Global,
    from: u128,
    size: u128,
    times: &[u64],
    rows: &[Listed<u128>],
) -> Result<Table, Memory>
    requires from { from ≤ 2 ^ 100 }
    requires size { size ≤ 65536 }
    ensures { IfOk result (λ v. v ≡ tpart from size times.now rows.now) }
{
    let mut part = Listed::new(alloc);
    add_part(alloc, from, size, times, rows, &mut part)?;
    Ok(part)
}

// Where a window begins.
fn start_of(number: u128, advance: u128) -> u128
    requires number { number ≤ 2 ^ 64 }
    requires advance { advance ≤ 65536 }
    ensures value { result ≡ number * advance }
    ensures bound { result ≤ 2 ^ 100 }
{
    number * advance
}

// The first `count` windows.
fn first_windows(
    alloc: Global,
    size: u128,
    advance: u128,
    count: u128,
    times: &[u64],
    rows: &[Listed<u128>],
) -> Result<Listed<Table>, Memory>
    requires size { size ≤ 65536 }
    requires advance { advance ≤ 65536 }
    requires count { count ≤ 2 ^ 64 }
    ensures { IfOk result (λ v. v ≡ tfirsts size advance count times.now rows.now) }
{
    let mut out = Listed::new(alloc);
    let mut number = 0;
    while number < count {
        let from = start_of(number, advance);
        out.push(part_of(alloc, from, size, times, rows)?)?;
        number += 1;
    }
    Ok(out)
}

// The windows of rows with these times, where `ticks` ticks come in all.
fn windows_in(
    alloc: Global,
    size: u128,
    advance: u128,
    times: &[u64],
    ticks: u64,
    rows: &[Listed<u128>],
) -> Result<Listed<Table>, Memory>
    requires size { size ≤ 65536 }
    requires some_advance { 1 ≤ advance }
    requires advance { advance ≤ 65536 }
    ensures { IfOk result (λ v. v ≡ tslices size advance times.now ticks rows.now) }
{
    let count = u128::from(ticks) / advance + 1;
    first_windows(alloc, size, advance, count, times, rows)
}

// No times.
fn no_times<'a>() -> &'a [u64]
    ensures { result.now ≡ [] }
{
    &[]
}

/// The windows of rows over time.
pub fn time_windows_of(
    alloc: Global,
    size: u128,
    advance: u128,
    clock: Option<Clock<'_>>,
    rows: &[Listed<u128>],
) -> Result<Listed<Table>, Fault>
    ensures value { IfOk result (λ v. v
        ≡ tslices size advance (times_on clock.entry) (ticks_on clock.entry) rows.now) }
    ensures fits { IsWindow Time size advance → IsOrMemory result }
{
    if size > MOST_ROWS || advance == 0 || advance > MOST_ROWS {
        return Err(Fault::Unfit);
    }
    match clock {
        Some(shown) => Ok(windows_in(alloc, size, advance, shown.times, shown.ticks, rows)?),
        None => Ok(windows_in(alloc, size, advance, no_times(), 0, rows)?),
    }
}

/// The rows of each table.
pub fn slices_in<'a>(alloc: Global, tables: &'a [Table]) -> Result<Vec<&'a [Listed<u128>]>, Memory>
    ensures { IfOk result (λ v. map (λ s. s.now) v.items ≡ tables.now) }
{
    let mut out = Vec::new(alloc);
    for table in tables {
        out.push(table.as_slice())?;
    }
    Ok(out)
}
