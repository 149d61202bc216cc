//! Frames: for each row what is made of it and of the rows before it.

ghost use Rattle.std.specs.Prelude.{◌≡◌, ◌++◌, IfOk, OnOk, ℕ, List, Bool, Option, map, option_map, option_to_list, slice_index};
ghost use Rattle.gl_values.specs.Results.{Row};
ghost use Rattle.gl_frames.specs.Frames.{frame_of, framed, framed_by_key, lag_of, rows_preceding};
ghost use Rattle.gl_query.specs.Accepted.{AreSlots, IsBack, IsFilter, IsFrame, IsFrameAgg, IsParted};
ghost use Rattle.gl_query.specs.Results.{frame_agg_value, frame_row, frame_value, kept, reached_row};
ghost use Rattle.gl_query.specs.Shapes.{expr_shape, frame_agg_shape, frame_item_shape, frame_shape, slots_shape};
ghost use Rattle.gl_query.specs.Values.{column_number, kind_alone, value_of};
ghost use Rattle.gl_reference.specs.Fits.{AreFramesOf, AreRows, HasKindAlone, IsOrMemory};
ghost use Rattle.gl_reference.specs.Frames.{back_of, framed_rows, key_row, left_out};
ghost use Rattle.gl_reference.specs.Rows.{AreSeen, reach_seen};

use crate::aggregates::{average_in, own_kind, sum_in, values_over};
use crate::columns::Seen;
use crate::partitions::has_key;
use crate::rows::{Fault, kept_rows, passing_rows, wide_rows};
use crate::values::value_of;
use gl_bits::limits::MOST_ROWS;
use gl_bits::{Listed, Memory};
use gl_query::kinds::{column_number, kind_alone};
use gl_query::{Expr, Frame, FrameAgg, FrameItem, MOST_SLOTS, Num, Slots};
use gl_schema::Column;
use gl_values::lists::{number_at, rows_with_key, some_further};
use gl_values::{Table, totals};
use std::alloc::Global;

// The value of an expression over the row so many before the last; 0 where there is none.
fn value_before(
    columns: &[Column],
    expr: &Expr,
    back: usize,
    rows: &[Listed<u128>],
) -> Result<u128, Fault>
    ensures value { let e = expr_shape expr.now in IfOk result (λ v. v
        ≡ lag_of (value_of columns.now (kind_alone e) e) back rows.now) }
    ensures fits { HasKindAlone columns.now (expr_shape expr.now) → AreRows columns.now rows.now
        → IsOrMemory result }
{
    if back >= rows.len() {
        return Ok(0);
    }
    let row = &rows[rows.len() - 1 - back];
    value_of(columns, kind_alone(expr), expr, row.as_slice()).ok_or(Fault::Unfit)
}

// What a function makes of the rows of a frame.
fn frame_agg_value(
    alloc: Global,
    columns: &[Column],
    agg: &FrameAgg,
    rows: &[Listed<u128>],
) -> Result<u128, Fault>
    ensures value { (back : Option ℕ) (passes : Row → Bool) (seen : List Row)
        → rows.now ≡ frame_of back passes seen → IfOk result (λ v. v
        ≡ frame_agg_value columns.now back passes seen (frame_agg_shape agg.now)) }
    ensures fits { IsFrameAgg columns.now (frame_agg_shape agg.now) → AreRows columns.now rows.now
        → IsOrMemory result }
{
    match agg {
        FrameAgg::Count => Ok(totals::count(rows)),
        FrameAgg::Sum(expr) => {
            let values = values_over(alloc, columns, expr, rows)?;
            sum_in(own_kind(columns, expr), values.as_slice())
        }
        FrameAgg::Min(expr) => {
            let values = values_over(alloc, columns, expr, rows)?;
            Ok(totals::least(own_kind(columns, expr), values.as_slice()))
        }
        FrameAgg::Max(expr) => {
            let values = values_over(alloc, columns, expr, rows)?;
            Ok(totals::greatest(own_kind(columns, expr), values.as_slice()))
        }
        FrameAgg::Avg(expr) => {
            let values = values_over(alloc, columns, expr, rows)?;
            average_in(own_kind(columns, expr), values.as_slice())
        }
        FrameAgg::LastValue(expr) => value_before(columns, expr, 0, rows),
    }
}

// The last rows of those up to a row.
fn rows_back<'a>(back: &Option<Num>, rows: &'a [Listed<u128>]) -> Result<&'a [Listed<u128>], Fault>
    ensures value { IfOk result (λ last. last.now ≡ rows_preceding (back_of back.now) rows.now) }
    ensures fits { IsBack (back_of back.now) → IsOrMemory result }
{
    match back {
        None => Ok(rows),
        Some(number) => {
            if number.value >= MOST_ROWS {
                return Err(Fault::Unfit);
            }
            let wanted = number.value as usize + 1;
            if wanted >= rows.len() {
                return Ok(rows);
            }
            let (_, last) = rows.split_at(rows.len() - wanted);
            Ok(last)
        }
    }
}

// What a frame makes of the rows up to a row.
fn frame_value(
    alloc: Global,
    columns: &[Column],
    frame: &Frame,
    rows: &[Listed<u128>],
) -> Result<u128, Fault>
    ensures value { IfOk result (λ v. v
        ≡ frame_value columns.now rows.now (frame_shape frame.now)) }
    ensures fits { IsFrame columns.now (frame_shape frame.now) → AreRows columns.now rows.now
        → IsOrMemory result }
{
    match frame {
        Frame::Own(expr) => value_before(columns, expr, 0, rows),
        Frame::Lag { arg, back, .. } => {
            if back.value >= MOST_ROWS {
                return Err(Fault::Unfit);
            }
            value_before(columns, arg, back.value as usize, rows)
        }
        Frame::Over {
            agg,
            filter,
            back,
            ..
        } => {
            let last = rows_back(back, rows)?;
            let inside = passing_rows(alloc, columns, filter, last)?;
            frame_agg_value(alloc, columns, agg, inside.as_slice())
        }
    }
}

// The row of a select of frames, of the rows up to a row.
fn frame_row(
    alloc: Global,
    columns: &[Column],
    items: &[FrameItem],
    rows: &[Listed<u128>],
) -> Result<Listed<u128>, Fault>
    ensures value { IfOk result (λ v. v
        ≡ frame_row columns.now (map frame_item_shape items.now) rows.now) }
    ensures fits { AreFramesOf columns.now (map frame_item_shape items.now)
        → AreRows columns.now rows.now → IsOrMemory result }
{
    let mut out = Listed::new(alloc);
    for item in items {
        out.push(frame_value(alloc, columns, &item.frame, rows)?)?;
    }
    Ok(out)
}

/// The same of rows without the words of the parameters.
pub(crate) fn reached_row(
    alloc: Global,
    seen: Seen<'_>,
    items: &[FrameItem],
    rows: &[Listed<u128>],
) -> Result<Listed<u128>, Fault>
    ensures value { IfOk result (λ v. v
        ≡ reached_row (reach_seen seen.entry) (map frame_item_shape items.now) rows.now) }
    ensures fits { let reach = reach_seen seen.entry in
        AreFramesOf reach.columns (map frame_item_shape items.now)
        → AreSeen reach rows.now → IsOrMemory result }
{
    let wide = wide_rows(alloc, seen.words, rows)?;
    frame_row(alloc, seen.columns, items, wide.as_slice())
}

// For each row what the items make of the rows up to it.
fn framed_rows(
    alloc: Global,
    seen: Seen<'_>,
    items: &[FrameItem],
    rows: &[Listed<u128>],
) -> Result<Table, Fault>
    ensures value { let reach = reach_seen seen.entry in IfOk result (λ v. v
        ≡ framed (reached_row reach (map frame_item_shape items.now)) rows.now) }
    ensures fits { let reach = reach_seen seen.entry in
        AreFramesOf reach.columns (map frame_item_shape items.now)
        → AreSeen reach rows.now → IsOrMemory result }
{
    let mut out = Listed::new(alloc);
    let mut number = 0;
    while number < rows.len() {
        number += 1;
        let (first, _) = rows.split_at(number);
        out.push(reached_row(alloc, seen, items, first)?)?;
    }
    Ok(out)
}

/// The keys that have a place: the first so many, by a column.
#[derive(Clone, Copy)]
pub(crate) struct Keys {
    pub(crate) most: usize,
    pub(crate) column: usize,
}

/// The keys of PARTITION, within its limit.
pub(crate) fn keys_of(columns: &[Column], slots: &Slots) -> Result<Keys, Fault>
    ensures value { let s = slots_shape slots.now in
        IfOk result (λ k. (k.most ≡ s.groups) × (k.column ≡ column_number columns.now s.key)) }
    ensures fits { AreSlots columns.now (slots_shape slots.now) → IsOrMemory result }
{
    if slots.groups.value > MOST_SLOTS {
        return Err(Fault::Unfit);
    }
    let most = slots.groups.value as usize;
    let column = column_number(columns, slots.key.text.as_slice());
    Ok(Keys { most, column })
}

/// What the items make of the rows of a key, if it has a place.
pub(crate) fn key_row(
    alloc: Global,
    seen: Seen<'_>,
    items: &[FrameItem],
    keys: Keys,
    rows: &[Listed<u128>],
    key: u128,
) -> Result<Option<Listed<u128>>, Fault>
    ensures value { let reach = reach_seen seen.entry in IfOk result (λ v. v
        ≡ key_row reach (map frame_item_shape items.now) keys.most keys.column rows.now key) }
    ensures fits { let reach = reach_seen seen.entry in
        AreFramesOf reach.columns (map frame_item_shape items.now)
        → AreSeen reach rows.now → IsOrMemory result }
{
    if !has_key(alloc, keys.most, keys.column, rows, key)? {
        return Ok(None);
    }
    let own = rows_with_key(alloc, keys.column, rows, key)?;
    let row = reached_row(alloc, seen, items, own.as_slice())?;
    Ok(Some(row))
}

// Adds a row, if there is one.
fn push_some(out: &mut Table, row: Option<Listed<u128>>) -> Result<(), Memory>
    ensures { OnOk result (out.new ≡ out.old ++ option_to_list row) }
{
    match row {
        Some(row) => out.push(row),
        None => Ok(()),
    }
}

// For each row of a key that has a place what the items make of its key's rows up to it.
fn keyed_rows(
    alloc: Global,
    seen: Seen<'_>,
    items: &[FrameItem],
    keys: Keys,
    rows: &[Listed<u128>],
) -> Result<Table, Fault>
    ensures value { let of_rows = reached_row (reach_seen seen.entry) (map frame_item_shape items.now)
        in IfOk result (λ v. v
        ≡ framed_by_key keys.most (λ (r : Row). slice_index r keys.column) of_rows rows.now) }
    ensures fits { let reach = reach_seen seen.entry in
        AreFramesOf reach.columns (map frame_item_shape items.now)
        → AreSeen reach rows.now → IsOrMemory result }
{
    let mut out = Listed::new(alloc);
    for (i, row) in rows.iter().enumerate() {
        let key = number_at(row.as_slice(), keys.column);
        let own = key_row(alloc, seen, items, keys, &rows[..i + 1], key)?;
        push_some(&mut out, own)?;
    }
    Ok(out)
}

/// What a select of frames says.
#[derive(Clone, Copy)]
pub struct Framing<'a> {
    /// What it makes of the rows up to a row.
    pub items: &'a [FrameItem],
    /// Which rows it keeps.
    pub filter: &'a Option<Expr>,
    /// By which key it parts them.
    pub slots: &'a Option<Slots>,
}

/// The rows of a select of frames, and whether rows of further keys were left out.
#[derive(Drop, Debug)]
pub struct Framed {
    /// The rows, in order.
    pub rows: Table,
    /// Whether rows of further keys were left out.
    pub further: bool,
}

// What the items make of rows, with PARTITION of the rows of each key.
fn parted_rows(
    alloc: Global,
    columns: &[Column],
    seen: Seen<'_>,
    items: &[FrameItem],
    slots: &Option<Slots>,
    rows: &[Listed<u128>],
) -> Result<Framed, Fault>
    ensures value { let reach = reach_seen seen.entry in
        let parted = option_map slots_shape slots.now in IfOk result (λ v.
        (v.rows ≡ framed_rows columns.now reach (map frame_item_shape items.now) parted rows.now)
        × (v.further ≡ left_out columns.now parted rows.now)) }
    ensures fits { let reach = reach_seen seen.entry in
        AreFramesOf reach.columns (map frame_item_shape items.now)
        → IsParted columns.now (option_map slots_shape slots.now)
        → AreSeen reach rows.now → IsOrMemory result }
{
    match slots {
        None => {
            let out = framed_rows(alloc, seen, items, rows)?;
            Ok(Framed {
                rows: out,
                further: false,
            })
        }
        Some(part) => {
            let keys = keys_of(columns, part)?;
            let out = keyed_rows(alloc, seen, items, keys, rows)?;
            let further = some_further(alloc, keys.most, keys.column, rows)?;
            Ok(Framed { rows: out, further })
        }
    }
}

/// Of the rows that a filter keeps, for each what the items make of those up to it. With PARTITION
/// it is made of those of its key alone, and the rows of further keys have none.
pub fn frames_over(
    alloc: Global,
    columns: &[Column],
    seen: Seen<'_>,
    framing: Framing<'_>,
    rows: &[Listed<u128>],
) -> Result<Framed, Fault>
    ensures value { let reach = reach_seen seen.entry in let f = framing.entry in
        let from = kept reach (option_map expr_shape f.filter.now) rows.now in
        let parted = option_map slots_shape f.slots.now in IfOk result (λ v.
        (v.rows ≡ framed_rows columns.now reach (map frame_item_shape f.items.now) parted from)
        × (v.further ≡ left_out columns.now parted from)) }
    ensures fits { let reach = reach_seen seen.entry in let f = framing.entry in
        AreFramesOf reach.columns (map frame_item_shape f.items.now)
        → IsFilter reach.columns (option_map expr_shape f.filter.now)
        → IsParted columns.now (option_map slots_shape f.slots.now)
        → AreSeen reach rows.now → IsOrMemory result }
{
    let from = kept_rows(alloc, seen, framing.filter, rows)?;
    let of_rows = from.as_slice();
    parted_rows(alloc, columns, seen, framing.items, framing.slots, of_rows)
}
