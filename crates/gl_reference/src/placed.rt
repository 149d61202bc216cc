//! Rows at places, and the steps that a query makes on them.

ghost use Rattle.std.specs.Prelude.{◌≡◌, ◌++◌, IfOk, OnOk, map, option_map, option_to_list, slice_index};
ghost use Rattle.gl_values.specs.Results.{Row};
ghost use Rattle.gl_arrival.specs.Arrival.{by_arrival};
ghost use Rattle.gl_arrival.specs.Changes.{framed_at, framed_by_key_at};
ghost use Rattle.gl_arrival.specs.Places.{at_place, at_places};
ghost use Rattle.gl_query.specs.Accepted.{IsFilter, IsPick};
ghost use Rattle.gl_query.specs.Results.{reached_row};
ghost use Rattle.gl_query.specs.Shapes.{expr_shape, frame_item_shape, pick_shape};
ghost use Rattle.gl_reference.specs.Arrivals.{kept_in, picked_one, place_on, rows_in};
ghost use Rattle.gl_reference.specs.Fits.{AreFramesOf, IsOrMemory};
ghost use Rattle.gl_reference.specs.Rows.{AreSeen, reach_seen};
ghost use Rattle.gl_reference.specs.Sources.{placed_of, places_on};

use crate::columns::{Clock, Seen};
use crate::frames::{Keys, key_row, reached_row};
use crate::rows::{Fault, picked_row, wide_row};
use crate::values::keeps;
use gl_bits::{Listed, Memory};
use gl_query::{Expr, FrameItem, Pick};
use gl_values::Table;
use gl_values::lists::{copy_of_row, number_at};
use std::alloc::Global;

/// A row and its place.
#[derive(Drop, Debug)]
pub struct PlacedRow {
    /// The row.
    pub row: Listed<u128>,
    /// Its place.
    pub place: u64,
}

// A row like another, at its place.
fn copy_of_placed(alloc: Global, row: &PlacedRow) -> Result<PlacedRow, Memory>
    ensures { IfOk result (λ v. v ≡ row.now) }
{
    Ok(PlacedRow {
        row: copy_of_row(alloc, row.row.as_slice())?,
        place: row.place,
    })
}

// The place of the row at an index.
fn place_at(clock: Option<Clock<'_>>, index: usize) -> u64
    ensures { result ≡ place_on clock.entry index }
{
    match clock {
        Some(clock) => match clock.places.get(index) {
            Some(place) => *place,
            None => 0,
        },
        None => index as u64,
    }
}

/// Rows at the places of a clock; without one at their positions.
pub(crate) fn placed_rows(
    alloc: Global,
    rows: &[Listed<u128>],
    clock: Option<Clock<'_>>,
) -> Result<Listed<PlacedRow>, Memory>
    ensures { IfOk result (λ v. map placed_of v
        ≡ at_places rows.now (places_on clock.entry rows.now)) }
{
    let mut out = Listed::new(alloc);
    for (index, row) in rows.iter().enumerate() {
        out.push(PlacedRow {
            row: copy_of_row(alloc, row.as_slice())?,
            place: place_at(clock, index),
        })?;
    }
    Ok(out)
}

/// The rows that a filter keeps, each at its place.
pub(crate) fn kept_placed(
    alloc: Global,
    seen: Seen<'_>,
    filter: &Option<Expr>,
    rows: &[PlacedRow],
) -> Result<Listed<PlacedRow>, Fault>
    ensures value { IfOk result (λ v. v
        ≡ kept_in (reach_seen seen.entry) (option_map expr_shape filter.now) rows.now) }
    ensures fits { let reach = reach_seen seen.entry in
        IsFilter reach.columns (option_map expr_shape filter.now)
        → AreSeen reach (rows_in rows.now) → IsOrMemory result }
{
    let mut out = Listed::new(alloc);
    for row in rows {
        let own = row.row.as_slice();
        let joint = wide_row(alloc, seen.words, own)?;
        let wide = joint.as_slice();
        if keeps(seen.columns, filter, wide).ok_or(Fault::Unfit)? {
            out.push(copy_of_placed(alloc, row)?)?;
        }
    }
    Ok(out)
}

/// Each row picked, at its place.
pub(crate) fn picked_placed(
    alloc: Global,
    seen: Seen<'_>,
    pick: &Pick,
    rows: &[PlacedRow],
) -> Result<Listed<PlacedRow>, Fault>
    ensures value { IfOk result (λ v. v
        ≡ map (picked_one (reach_seen seen.entry) (pick_shape pick.now)) rows.now) }
    ensures fits { let reach = reach_seen seen.entry in IsPick reach.columns (pick_shape pick.now)
        → AreSeen reach (rows_in rows.now) → IsOrMemory result }
{
    let mut out = Listed::new(alloc);
    for row in rows {
        let own = row.row.as_slice();
        let joint = wide_row(alloc, seen.words, own)?;
        let wide = joint.as_slice();
        out.push(PlacedRow {
            row: picked_row(alloc, seen, pick, own, wide)?,
            place: row.place,
        })?;
    }
    Ok(out)
}

/// The rows without their places.
pub(crate) fn rows_alone(alloc: Global, rows: &[PlacedRow]) -> Result<Table, Memory>
    ensures { IfOk result (λ v. v ≡ rows_in rows.now) }
{
    let mut out = Listed::new(alloc);
    for row in rows {
        out.push(copy_of_row(alloc, row.row.as_slice())?)?;
    }
    Ok(out)
}

/// For each row what the items make of the rows up to it, at its place; `alone` has the rows without
/// their places.
pub(crate) fn framed_placed(
    alloc: Global,
    seen: Seen<'_>,
    items: &[FrameItem],
    alone: &[Listed<u128>],
    rows: &[PlacedRow],
) -> Result<Listed<PlacedRow>, Fault>
    requires { alone.now ≡ rows_in rows.now }
    ensures value { let reach = reach_seen seen.entry in IfOk result (λ v. map placed_of v
        ≡ framed_at (reached_row reach (map frame_item_shape items.now)) (map placed_of rows.now)) }
    ensures fits { let reach = reach_seen seen.entry in
        AreFramesOf reach.columns (map frame_item_shape items.now)
        → AreSeen reach alone.now → IsOrMemory result }
{
    let mut out = Listed::new(alloc);
    for (i, row) in rows.iter().enumerate() {
        let made = reached_row(alloc, seen, items, &alone[..i + 1])?;
        out.push(PlacedRow {
            row: made,
            place: row.place,
        })?;
    }
    Ok(out)
}

/// Adds a row at a place, if there is one.
pub(crate) fn push_placed(
    out: &mut Listed<PlacedRow>,
    row: Option<Listed<u128>>,
    place: u64,
) -> Result<(), Memory>
    ensures { OnOk result (map placed_of out.new ≡ map placed_of out.old
        ++ option_to_list (option_map (λ (r : Row). at_place r place) row)) }
{
    match row {
        Some(row) => out.push(PlacedRow { row, place }),
        None => Ok(()),
    }
}

/// For each row of a key that has a slot what the items make of its key's rows up to it, at its place;
/// `alone` has the rows without their places.
pub(crate) fn keyed_placed(
    alloc: Global,
    seen: Seen<'_>,
    items: &[FrameItem],
    keys: Keys,
    alone: &[Listed<u128>],
    rows: &[PlacedRow],
) -> Result<Listed<PlacedRow>, Fault>
    requires { alone.now ≡ rows_in rows.now }
    ensures value { let reach = reach_seen seen.entry in IfOk result (λ v. map placed_of v
        ≡ framed_by_key_at keys.most (λ (r : Row). slice_index r keys.column)
        (reached_row reach (map frame_item_shape items.now)) (map placed_of rows.now)) }
    ensures fits { let reach = reach_seen seen.entry in
        AreFramesOf reach.columns (map frame_item_shape items.now)
        → AreSeen reach alone.now → IsOrMemory result }
{
    let mut out = Listed::new(alloc);
    for (i, row) in rows.iter().enumerate() {
        let key = number_at(row.row.as_slice(), keys.column);
        let own = key_row(alloc, seen, items, keys, &alone[..i + 1], key)?;
        push_placed(&mut out, own, row.place)?;
    }
    Ok(out)
}

// Adds the rows of both sides by their places, of one place the left side's first.
fn add_by_arrival(
    alloc: Global,
    left: &[PlacedRow],
    right: &[PlacedRow],
    out: &mut Listed<PlacedRow>,
) -> Result<(), Memory>
    ensures { OnOk result (map placed_of out.new ≡ map placed_of out.old
        ++ by_arrival (map placed_of left.now) (map placed_of right.now)) }
{
    match left.split_first() {
        Some((first, later)) => match right.split_first() {
            Some((other, others)) => {
                if other.place < first.place {
                    out.push(copy_of_placed(alloc, other)?)?;
                    add_by_arrival(alloc, left, others, out)
                } else {
                    out.push(copy_of_placed(alloc, first)?)?;
                    add_by_arrival(alloc, later, right, out)
                }
            }
            None => {
                out.push(copy_of_placed(alloc, first)?)?;
                add_by_arrival(alloc, later, right, out)
            }
        },
        None => add_placed(alloc, right, out),
    }
}

// Adds rows at their places.
fn add_placed(alloc: Global, rows: &[PlacedRow], out: &mut Listed<PlacedRow>) -> Result<(), Memory>
    ensures { OnOk result (out.new ≡ out.old ++ rows.now) }
{
    for row in rows {
        out.push(copy_of_placed(alloc, row)?)?;
    }
    Ok(())
}

/// The rows of both sides by their places.
pub(crate) fn merged(
    alloc: Global,
    left: &[PlacedRow],
    right: &[PlacedRow],
) -> Result<Listed<PlacedRow>, Memory>
    ensures { IfOk result (λ v. map placed_of v
        ≡ by_arrival (map placed_of left.now) (map placed_of right.now)) }
{
    let mut out = Listed::new(alloc);
    add_by_arrival(alloc, left, right, &mut out)?;
    Ok(out)
}
