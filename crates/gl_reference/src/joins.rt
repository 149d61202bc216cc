//! As-of joins: each row of the left side beside the last row of the right side that has its key
//! and came no later.

ghost use Rattle.std.specs.Prelude.{◌≡◌, ◌++◌, [], IfOk, OnOk, drop, map, remove};
ghost use Rattle.gl_arrival.specs.Changes.{each_at};
ghost use Rattle.gl_asof.specs.AsOf.{as_of, more_keys};
ghost use Rattle.gl_query.specs.Accepted.{AreSlots};
ghost use Rattle.gl_query.specs.Results.{join_by};
ghost use Rattle.gl_query.specs.Shapes.{slots_shape};
ghost use Rattle.gl_reference.specs.Arrivals.{rows_in};
ghost use Rattle.gl_reference.specs.Fits.{IsOrMemory};
ghost use Rattle.gl_reference.specs.Sides.{join_row, last_of_right, marked, row_joined, zeros_of};
ghost use Rattle.gl_reference.specs.Sources.{placed_of};

use crate::frames::keys_of;
use crate::partitions::has_key;
use crate::placed::{PlacedRow, merged, push_placed, rows_alone};
use crate::rows::{Fault, joined};
use gl_bits::{Listed, Memory};
use gl_query::Slots;
use gl_query::kinds::column_number;
use gl_schema::Column;
use gl_values::lists::{copy_of_row, number_at, rows_with_key, some_further};
use std::alloc::Global;

/// The columns of both sides, and the key with its number of groups.
#[derive(Clone, Copy)]
pub(crate) struct Sides<'a> {
    pub(crate) lefts: &'a [Column],
    pub(crate) rights: &'a [Column],
    pub(crate) slots: &'a Slots,
}

/// The rows of a join with their places, and whether rows of further keys were left out.
#[derive(Drop, Debug)]
pub struct Joined {
    /// The rows, in order.
    pub rows: Listed<PlacedRow>,
    /// Whether rows of further keys were left out.
    pub further: bool,
}

// What stands beside a row without a partner, the place of the right side's key, and of how many
// keys rows are kept.
#[derive(Clone, Copy)]
struct Partners<'a> {
    zeros: &'a [u128],
    column: usize,
    most: usize,
}

// Adds a 0 for each column.
fn push_zeros(columns: &[Column], out: &mut Listed<u128>) -> Result<(), Memory>
    ensures { OnOk result (out.new ≡ out.old ++ zeros_of columns.now) }
{
    match columns.split_first() {
        Some((_, rest)) => {
            out.push(0)?;
            push_zeros(rest, out)
        }
        None => Ok(()),
    }
}

// A row behind its key and the number of its side.
fn marked_row(
    alloc: Global,
    side: u128,
    column: usize,
    row: &PlacedRow,
) -> Result<PlacedRow, Memory>
    ensures { IfOk result (λ v. v ≡ marked side column row.now) }
{
    let mut front = Listed::new(alloc);
    front.push(number_at(row.row.as_slice(), column))?;
    front.push(side)?;
    Ok(PlacedRow {
        row: joined(front, copy_of_row(alloc, row.row.as_slice())?)?,
        place: row.place,
    })
}

// Rows of a side, each behind its key and the number of the side.
fn marked_rows(
    alloc: Global,
    side: u128,
    column: usize,
    rows: &[PlacedRow],
) -> Result<Listed<PlacedRow>, Memory>
    ensures { IfOk result (λ v. v ≡ map (marked side column) rows.now) }
{
    let mut out = Listed::new(alloc);
    for row in rows {
        out.push(marked_row(alloc, side, column, row)?)?;
    }
    Ok(out)
}

// The numbers of a row behind its key and the number of its side.
fn own_numbers(row: &[u128]) -> &[u128]
    ensures { result.now ≡ drop 2 row.now }
{
    match row.split_first() {
        Some((_, rest)) => match rest.split_first() {
            Some((_, own)) => own,
            None => rest,
        },
        None => row,
    }
}

// The last row of the right side among these; where there is none it is the row given.
fn last_of_right<'a>(rows: &'a [Listed<u128>], before: &'a [u128]) -> &'a [u128]
    ensures { result.now ≡ last_of_right before.now rows.now }
{
    match rows.split_first() {
        Some((first, rest)) => {
            if number_at(first.as_slice(), 1) == 0 {
                last_of_right(rest, own_numbers(first.as_slice()))
            } else {
                last_of_right(rest, before)
            }
        }
        None => before,
    }
}

// A row without the number at a place.
#[tactic(auto, using(crate::proofs::Marking::all_but_one, crate::proofs::Marking::none_but_one))]
fn row_but(alloc: Global, row: &[u128], at: usize) -> Result<Listed<u128>, Memory>
    ensures { IfOk result (λ v. v ≡ remove row.now at) }
{
    if at >= row.len() {
        return copy_of_row(alloc, row);
    }
    joined(
        copy_of_row(alloc, &row[..at])?,
        copy_of_row(alloc, &row[at + 1..])?,
    )
}

// The row of a join for the last of some rows, if it is of the left side and its key has a place.
fn row_joined(
    alloc: Global,
    partners: Partners<'_>,
    seen: &[Listed<u128>],
    row: &[u128],
) -> Result<Option<Listed<u128>>, Memory>
    ensures { let p = partners.entry in IfOk result (λ v. v
        ≡ row_joined p.zeros.now p.column p.most seen.now row.now) }
{
    if number_at(row, 1) == 0 {
        return Ok(None);
    }
    let key = number_at(row, 0);
    if !has_key(alloc, partners.most, 0, seen, key)? {
        return Ok(None);
    }
    let own = rows_with_key(alloc, 0, seen, key)?;
    let last = last_of_right(own.as_slice(), partners.zeros);
    let beside = row_but(alloc, last, partners.column)?;
    let made = joined(copy_of_row(alloc, own_numbers(row))?, beside)?;
    Ok(Some(made))
}

// The rows of a join, of the rows of both sides by their places; `alone` has them without their
// places.
fn joined_placed(
    alloc: Global,
    partners: Partners<'_>,
    alone: &[Listed<u128>],
    rows: &[PlacedRow],
) -> Result<Listed<PlacedRow>, Memory>
    requires { alone.now ≡ rows_in rows.now }
    ensures { let p = partners.entry in IfOk result (λ v. map placed_of v
        ≡ each_at (join_row p.zeros.now p.column p.most) [] (map placed_of rows.now)) }
{
    let mut out = Listed::new(alloc);
    for (i, row) in rows.iter().enumerate() {
        let own = row_joined(alloc, partners, &alone[..i + 1], row.row.as_slice())?;
        push_placed(&mut out, own, row.place)?;
    }
    Ok(out)
}

/// Two results with places, joined.
pub(crate) fn join_placed(
    alloc: Global,
    sides: Sides<'_>,
    left: &[PlacedRow],
    right: &[PlacedRow],
) -> Result<Joined, Fault>
    ensures value { let s = sides.entry in
        let by = join_by s.lefts.now s.rights.now (slots_shape s.slots.now) in IfOk result (λ j.
        (map placed_of j.rows ≡ as_of by (map placed_of left.now) (map placed_of right.now))
        × (j.further ≡ more_keys by (map placed_of left.now) (map placed_of right.now))) }
    ensures fits { let s = sides.entry in
        AreSlots s.lefts.now (slots_shape s.slots.now) → IsOrMemory result }
{
    let keys = keys_of(sides.lefts, sides.slots)?;
    let key = sides.slots.key.text.as_slice();
    let column = column_number(sides.rights, key);
    let mut zeros = Listed::new(alloc);
    push_zeros(sides.rights, &mut zeros)?;
    let beside = zeros.as_slice();
    let partners = Partners {
        zeros: beside,
        column,
        most: keys.most,
    };
    let of_left = marked_rows(alloc, 1, keys.column, left)?;
    let of_right = marked_rows(alloc, 0, column, right)?;
    let first = of_right.as_slice();
    let second = of_left.as_slice();
    let both = merged(alloc, first, second)?;
    let placed = both.as_slice();
    let alone = rows_alone(alloc, placed)?;
    let unplaced = alone.as_slice();
    let rows = joined_placed(alloc, partners, unplaced, placed)?;
    let further = some_further(alloc, keys.most, 0, unplaced)?;
    Ok(Joined { rows, further })
}
