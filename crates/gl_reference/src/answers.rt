//! Results, and the steps that make one of others.

ghost use Rattle.std.specs.Prelude.{◌≡◌, ◌≤◌, ◌||◌, ◌++◌, IfOk, length, map, option_map};
ghost use Rattle.gl_bits.specs.Limits.{most_groups};
ghost use Rattle.gl_values.specs.Lists.{slices};
ghost use Rattle.gl_query.specs.Results.{kept};
ghost use Rattle.gl_query.specs.Shapes.{agg_item_shape, expr_shape, frame_item_shape, pick_shape, query_shape, slots_shape};
ghost use Rattle.gl_query.specs.Shapes as shape;
ghost use Rattle.gl_values.specs.Results.{AreBeside};
ghost use Rattle.gl_query.specs.Accepted.{IsFilter, IsParted, IsRows, IsWindow};
ghost use Rattle.gl_query.specs.declared.tree.Measure.TheVariants.{Tuples};
ghost use Rattle.gl_reference.specs.Fits.{AreAggs, AreFramesOf, IsOrMemory};
ghost use Rattle.gl_reference.specs.Frames.{framed_rows, left_out};
ghost use Rattle.gl_reference.specs.Rows.{AreSeen, reach_over};
ghost use Rattle.gl_reference.specs.Sources.{IsAnswer, columns_over};

use crate::aggregates::total_row;
use crate::columns::{Seen, Source, columns_of, one_row, reach_of, source_named, words_of};
use crate::frames::{Framing, frames_over};
use crate::rows::{Fault, beside, copy_of_table, joined, picked_rows, wide_rows};
use gl_bits::Listed;
use gl_bits::limits::{MOST_GROUPS, MOST_ROWS};
use gl_query::{AggItem, Expr, Name, Pick, Query};
use gl_schema::Column;
use gl_values::Table;
use gl_values::lists::slices_of;
use std::alloc::Global;

/// A result: its rows, and whether rows of further keys were left out.
#[derive(Drop, Debug)]
pub struct Answer {
    /// The rows, in order.
    pub rows: Table,
    /// Whether rows of further keys were left out.
    pub spill: bool,
}

/// The rows of a source, by its name.
pub fn read(alloc: Global, sources: &[Source<'_>], name: &Name) -> Result<Answer, Fault>
    ensures value { IfOk result (IsAnswer sources.now (shape.Read name.now.text)) }
    ensures fits { IsOrMemory result }
{
    let rows = match source_named(sources, name.text.as_slice()) {
        Some(source) => copy_of_table(alloc, source.rows)?,
        None => Listed::new(alloc),
    };
    Ok(Answer { rows, spill: false })
}

/// The rows that a filter keeps of a result of the source, each picked.
pub fn rows_from(
    alloc: Global,
    sources: &[Source<'_>],
    source: &Query,
    pick: &Pick,
    filter: &Option<Expr>,
    from: Answer,
) -> Result<Answer, Fault>
    requires { IsAnswer sources.now (query_shape source.now) from }
    ensures value { IfOk result (IsAnswer sources.now
        (shape.Rows (pick_shape pick.now) (option_map expr_shape filter.now)
        (query_shape source.now))) }
    ensures fits { let reach = reach_over sources.now (columns_over sources.now source.now) in
        IsRows reach.columns (pick_shape pick.now) (option_map expr_shape filter.now)
        → AreSeen reach from.rows → IsOrMemory result }
{
    let columns = columns_of(alloc, sources, source)?;
    let reach = reach_of(alloc, sources, columns.as_slice())?;
    let seen = Seen {
        columns: reach.as_slice(),
        words: words_of(sources),
    };
    let rows = picked_rows(alloc, seen, pick, filter, from.rows.as_slice())?;
    Ok(Answer {
        rows,
        spill: from.spill,
    })
}

/// The one row of aggregates over a result of the source.
pub fn total_from(
    alloc: Global,
    sources: &[Source<'_>],
    source: &Query,
    aggs: &[AggItem],
    from: Answer,
) -> Result<Answer, Fault>
    requires { IsAnswer sources.now (query_shape source.now) from }
    ensures value { IfOk result (IsAnswer sources.now
        (shape.Total (map agg_item_shape aggs.now) (query_shape source.now))) }
    ensures fits { let reach = reach_over sources.now (columns_over sources.now source.now) in
        AreAggs reach.columns (map agg_item_shape aggs.now) → AreSeen reach from.rows
        → IsOrMemory result }
{
    let columns = columns_of(alloc, sources, source)?;
    let reach = reach_of(alloc, sources, columns.as_slice())?;
    let wide = wide_rows(alloc, words_of(sources), from.rows.as_slice())?;
    let row = total_row(alloc, reach.as_slice(), aggs, wide.as_slice())?;
    let rows = one_row(alloc, row.as_slice())?;
    Ok(Answer {
        rows,
        spill: from.spill,
    })
}

/// What frames make of the rows that a filter keeps of a result with these columns.
pub fn frames_from(
    alloc: Global,
    sources: &[Source<'_>],
    columns: &[Column],
    framing: Framing<'_>,
    from: Answer,
) -> Result<Answer, Fault>
    ensures value { let reach = reach_over sources.now columns.now in let f = framing.entry in
        let kept_ones = kept reach (option_map expr_shape f.filter.now) from.rows in
        let parted = option_map slots_shape f.slots.now in
        let shapes = map frame_item_shape f.items.now in IfOk result (λ a.
        (a.rows ≡ framed_rows columns.now reach shapes parted kept_ones)
        × (a.spill ≡ (from.spill || left_out columns.now parted kept_ones))) }
    ensures fits { let reach = reach_over sources.now columns.now in let f = framing.entry in
        AreFramesOf reach.columns (map frame_item_shape f.items.now)
        → IsFilter reach.columns (option_map expr_shape f.filter.now)
        → IsParted columns.now (option_map slots_shape f.slots.now)
        → AreSeen reach from.rows → IsOrMemory result }
{
    let reach = reach_of(alloc, sources, columns)?;
    let seen = Seen {
        columns: reach.as_slice(),
        words: words_of(sources),
    };
    let rows = from.rows.as_slice();
    let framed = frames_over(alloc, columns, seen, framing, rows)?;
    Ok(Answer {
        rows: framed.rows,
        spill: from.spill || framed.further,
    })
}

/// The windows of rows.
pub fn windows_of<'a>(
    alloc: Global,
    size: u128,
    advance: u128,
    rows: &'a [Listed<u128>],
) -> Result<Vec<&'a [Listed<u128>]>, Fault>
    ensures value { IfOk result (λ v. map (λ s. s.now) v.items ≡ slices size advance rows.now) }
    ensures fits { IsWindow Tuples size advance → IsOrMemory result }
{
    if size > MOST_ROWS || advance == 0 || advance > MOST_ROWS {
        return Err(Fault::Unfit);
    }
    Ok(slices_of(alloc, size as usize, advance as usize, rows)?)
}

/// GROUPS within its limit.
pub fn groups_wanted(groups: u128) -> Result<usize, Fault>
    ensures value { IfOk result (λ n. n ≡ groups) }
    ensures fits { groups ≤ most_groups → IsOrMemory result }
{
    if groups > MOST_GROUPS {
        return Err(Fault::Unfit);
    }
    Ok(groups as usize)
}

/// The result of all parts of a source: it spills where the source does, a part does, or rows were
/// left out.
pub fn of_parts(before: bool, inside: Answer, left_out: bool) -> Answer
    ensures rows { result.rows ≡ inside.rows }
    ensures spill { result.spill ≡ (before || inside.spill || left_out) }
{
    Answer {
        rows: inside.rows,
        spill: before || inside.spill || left_out,
    }
}

/// The rows of the left side, then those of the right one.
pub fn union_of(left: Answer, right: Answer) -> Result<Answer, Fault>
    ensures value { IfOk result (λ a. (a.rows ≡ left.rows ++ right.rows)
        × (a.spill ≡ (left.spill || right.spill))) }
    ensures fits { IsOrMemory result }
{
    let rows = joined(left.rows, right.rows)?;
    Ok(Answer {
        rows,
        spill: left.spill || right.spill,
    })
}

/// The rows of both sides side by side.
pub fn concat_of(alloc: Global, left: Answer, right: Answer) -> Result<Answer, Fault>
    ensures value { IfOk result (λ a. AreBeside left.rows right.rows a.rows
        × (a.spill ≡ (left.spill || right.spill))) }
    ensures fits { length left.rows ≡ length right.rows → IsOrMemory result }
{
    if left.rows.len() != right.rows.len() {
        return Err(Fault::Unfit);
    }
    let rows = beside(alloc, left.rows.as_slice(), right.rows.as_slice())?;
    Ok(Answer {
        rows,
        spill: left.spill || right.spill,
    })
}
