//! Rows, and the steps that a query makes on them.

ghost use Rattle.std.specs.Prelude.{◌≡◌, ◌++◌, ◌∷◌, IfOk, length, map, option_map};
ghost use Rattle.gl_query.specs.Shapes.{Items, expr_shape, item_shape, pick_shape};
ghost use Rattle.gl_values.specs.Results.{beside};
ghost use Rattle.gl_query.specs.Accepted.{IsFilter, IsPick, IsRows};
ghost use Rattle.gl_query.specs.Results.{kept, picked, widened};
ghost use Rattle.gl_reference.specs.declared.rows.Fault.TheVariants as fault;
ghost use Rattle.gl_reference.specs.Fits.{AreRows, IsOrMemory, IsRow};
ghost use Rattle.gl_reference.specs.Rows.{AreSeen, passing, reach_seen, values_at};

use crate::columns::Seen;
use crate::values::{keeps, value_of};
use gl_bits::{Listed, Memory};
use gl_query::kinds::kind_alone;
use gl_query::{Expr, Item, Pick};
use gl_schema::Column;
use gl_values::Table;
use gl_values::lists::copy_of_row;
use std::alloc::{AllocError, AllocFailed, Global};

/// Why there is no answer.
#[derive(Debug, Drop)]
pub enum Fault {
    /// Want of memory.
    Memory,
    /// A number leaves its kind, which no accepted query over rows of its columns brings about.
    Unfit,
}

impl From<Memory> for Fault {
    ghost from_gives = { λ _ e. e ≡ fault.Memory };

    fn from(_error: Memory) -> Fault {
        Fault::Memory
    }
}

impl<T: Drop> From<AllocFailed<T>> for Fault {
    ghost from_gives = { λ _ e. e ≡ fault.Memory };

    fn from(_error: AllocFailed<T>) -> Fault {
        Fault::Memory
    }
}

impl From<AllocError> for Fault {
    ghost from_gives = { λ _ e. e ≡ fault.Memory };

    fn from(_error: AllocError) -> Fault {
        Fault::Memory
    }
}

/// One list behind another.
pub fn joined<T: Drop>(first: Listed<T>, second: Listed<T>) -> Result<Listed<T>, Memory>
    ensures { IfOk result (λ v. v ≡ first ++ second) }
{
    let mut all = first.into_vec();
    let mut more = second.into_vec();
    all.append(&mut more)?;
    Ok(Listed::from_vec(all))
}

/// A table like another.
pub fn copy_of_table(alloc: Global, rows: &[Listed<u128>]) -> Result<Table, Memory>
    ensures { IfOk result (λ v. v ≡ rows.now) }
{
    let mut out = Listed::new(alloc);
    for row in rows {
        out.push(copy_of_row(alloc, row.as_slice())?)?;
    }
    Ok(out)
}

/// The values of items over a row.
fn item_values(
    alloc: Global,
    columns: &[Column],
    items: &[Item],
    row: &[u128],
) -> Result<Listed<u128>, Fault>
    ensures value { IfOk result (λ v. v
        ≡ values_at columns.now (map item_shape items.now) row.now) }
    ensures fits { IsPick columns.now (Items (map item_shape items.now)) → IsRow columns.now row.now
        → IsOrMemory result }
{
    let mut out = Listed::new(alloc);
    for item in items {
        let value = value_of(columns, kind_alone(&item.expr), &item.expr, row);
        out.push(value.ok_or(Fault::Unfit)?)?;
    }
    Ok(out)
}

/// A row with the words of the parameters behind it.
pub(crate) fn wide_row(alloc: Global, words: &[u128], row: &[u128]) -> Result<Listed<u128>, Memory>
    ensures { IfOk result (λ v. v ≡ row.now ++ words.now) }
{
    let first = copy_of_row(alloc, row)?;
    let behind = copy_of_row(alloc, words)?;
    joined(first, behind)
}

/// Each row with the words of the parameters behind it.
pub fn wide_rows(alloc: Global, words: &[u128], rows: &[Listed<u128>]) -> Result<Table, Memory>
    ensures { IfOk result (λ v. v ≡ widened words.now rows.now) }
{
    let mut out = Listed::new(alloc);
    for row in rows {
        out.push(wide_row(alloc, words, row.as_slice())?)?;
    }
    Ok(out)
}

/// The row that is picked of a row, which is given with the words of the parameters too.
pub(crate) fn picked_row(
    alloc: Global,
    seen: Seen<'_>,
    pick: &Pick,
    row: &[u128],
    wide: &[u128],
) -> Result<Listed<u128>, Fault>
    requires { wide.now ≡ row.now ++ seen.words.now }
    ensures value { IfOk result (λ v. v
        ≡ picked (reach_seen seen.entry) (pick_shape pick.now) row.now) }
    ensures fits { let s = seen.entry in IsPick s.columns.now (pick_shape pick.now)
        → IsRow s.columns.now wide.now → IsOrMemory result }
{
    match pick {
        Pick::All => Ok(copy_of_row(alloc, row)?),
        Pick::Items(items) => item_values(alloc, seen.columns, items.as_slice(), wide),
    }
}

/// The rows that a filter keeps, each picked.
pub fn picked_rows(
    alloc: Global,
    seen: Seen<'_>,
    pick: &Pick,
    filter: &Option<Expr>,
    rows: &[Listed<u128>],
) -> Result<Table, Fault>
    ensures value { let reach = reach_seen seen.entry in IfOk result (λ v. v
        ≡ map (picked reach (pick_shape pick.now))
        (kept reach (option_map expr_shape filter.now) rows.now)) }
    ensures fits { let reach = reach_seen seen.entry in
        IsRows reach.columns (pick_shape pick.now) (option_map expr_shape filter.now)
        → AreSeen reach rows.now → IsOrMemory result }
{
    let mut out = Listed::new(alloc);
    for row in rows {
        let own = row.as_slice();
        let joint = wide_row(alloc, seen.words, own)?;
        let wide = joint.as_slice();
        if keeps(seen.columns, filter, wide).ok_or(Fault::Unfit)? {
            out.push(picked_row(alloc, seen, pick, own, wide)?)?;
        }
    }
    Ok(out)
}

/// The rows that a condition passes, which have the words of the parameters behind them.
pub fn passing_rows(
    alloc: Global,
    columns: &[Column],
    filter: &Option<Expr>,
    rows: &[Listed<u128>],
) -> Result<Table, Fault>
    ensures value { IfOk result (λ v. v
        ≡ passing columns.now (option_map expr_shape filter.now) rows.now) }
    ensures fits { IsFilter columns.now (option_map expr_shape filter.now)
        → AreRows columns.now rows.now → IsOrMemory result }
{
    let mut out = Listed::new(alloc);
    for row in rows {
        if keeps(columns, filter, row.as_slice()).ok_or(Fault::Unfit)? {
            out.push(copy_of_row(alloc, row.as_slice())?)?;
        }
    }
    Ok(out)
}

/// The rows that a filter keeps.
pub fn kept_rows(
    alloc: Global,
    seen: Seen<'_>,
    filter: &Option<Expr>,
    rows: &[Listed<u128>],
) -> Result<Table, Fault>
    ensures value { IfOk result (λ v. v
        ≡ kept (reach_seen seen.entry) (option_map expr_shape filter.now) rows.now) }
    ensures fits { let reach = reach_seen seen.entry in
        IsFilter reach.columns (option_map expr_shape filter.now)
        → AreSeen reach rows.now → IsOrMemory result }
{
    let mut out = Listed::new(alloc);
    for row in rows {
        let own = row.as_slice();
        let joint = wide_row(alloc, seen.words, own)?;
        let wide = joint.as_slice();
        if keeps(seen.columns, filter, wide).ok_or(Fault::Unfit)? {
            out.push(copy_of_row(alloc, own)?)?;
        }
    }
    Ok(out)
}

/// A key before each row.
pub fn with_key(alloc: Global, key: u128, rows: &[Listed<u128>]) -> Result<Table, Memory>
    ensures { IfOk result (λ v. v ≡ map (λ row. key ∷ row) rows.now) }
{
    let mut out = Listed::new(alloc);
    for row in rows {
        let mut first = Listed::new(alloc);
        first.push(key)?;
        out.push(joined(first, copy_of_row(alloc, row.as_slice())?)?)?;
    }
    Ok(out)
}

/// Rows side by side.
#[tactic(auto, using(crate::proofs::Siding::beside_more))]
pub fn beside(alloc: Global, left: &[Listed<u128>], right: &[Listed<u128>]) -> Result<Table, Memory>
    requires { length left.now ≡ length right.now }
    ensures { IfOk result (λ v. v ≡ beside left.now right.now) }
{
    let mut out = Listed::new(alloc);
    for i in 0..left.len() {
        let first = copy_of_row(alloc, left[i].as_slice())?;
        let second = copy_of_row(alloc, right[i].as_slice())?;
        out.push(joined(first, second)?)?;
    }
    Ok(out)
}
