//! Windows and groups of lists, answered as plainly as they are defined.

ghost use Rattle.std.specs.Prelude.{◌≡◌, ◌≤◌, IfOk, OnOk, map, nat_eq, option_map, slice_index, take};
ghost use Rattle.std.specs.List.{list_any};
ghost use Rattle.gl_values.specs.Lists.{has_further, keys_of, rows_with, slice_at, slices};
ghost use Rattle.gl_values.specs.Tables.{keyed_groups, with_key};

use gl_bits::{Listed, Memory};
use std::alloc::Global;

/// A list of rows, each the numbers of its words in the order of the columns.
pub type Table = Listed<Listed<u128>>;

/// The rows of one key.
#[derive(Drop, Debug)]
pub struct Group {
    /// The key.
    pub key: u128,
    /// The rows with that key, in order.
    pub rows: Table,
}

/// Slice `at` of the windows of `size` elements that begin `advance` elements apart; None where it
/// would begin at the length or past it.
pub fn slice_of<T>(size: usize, advance: usize, values: &[T], at: usize) -> Option<&[T]>
    ensures { option_map (λ s. s.now) result ≡ slice_at size advance values.now at }
{
    let from = at.checked_mul(advance)?;
    if from >= values.len() {
        return None;
    }
    let rest = &values[from..];
    Some(&rest[..size.min(rest.len())])
}

/// All slices of `size` elements that begin `advance` elements apart, in order.
pub fn slices_of<'a, T>(
    alloc: Global,
    size: usize,
    advance: usize,
    values: &'a [T],
) -> Result<Vec<&'a [T]>, Memory>
    requires { 1 ≤ advance }
    ensures { IfOk result (λ v. map (λ s. s.now) v.items ≡ slices size advance values.now) }
{
    let mut out = Vec::new(alloc);
    let mut rest = values;
    while !rest.is_empty() {
        let (slice, _) = rest.split_at(size.min(rest.len()));
        out.push(slice)?;
        let (_, later) = rest.split_at(advance.min(rest.len()));
        rest = later;
    }
    Ok(out)
}

/// The number of a row at a place; 0 past its end.
pub fn number_at(row: &[u128], at: usize) -> u128
    ensures { result ≡ slice_index row.now at }
{
    row.get(at).copied().unwrap_or(0)
}

/// Whether a number is among some.
fn is_among(numbers: &[u128], number: u128) -> bool
    ensures { result ≡ list_any (nat_eq number) numbers.now }
{
    numbers.iter().any(|x| number == *x)
}

/// Adds a key to those of earlier rows, unless it is among them or there are as many as wanted.
#[tactic(auto, unfolding(crate::specs::Tables::with_key))]
fn add_key(keys: &mut Vec<u128>, most: usize, key: u128) -> Result<(), Memory>
    ensures { OnOk result (keys.new.items ≡ with_key most keys.old.items key) }
{
    if keys.len() < most && !is_among(keys.as_slice(), key) {
        keys.push(key)?;
    }
    Ok(())
}

/// The first `most` keys of the rows, the numbers of one column, in order of first appearance.
fn first_keys(
    alloc: Global,
    most: usize,
    column: usize,
    rows: &[Listed<u128>],
) -> Result<Vec<u128>, Memory>
    ensures { IfOk result (λ v. v.items
        ≡ take most (keys_of (λ r. slice_index r column) rows.now)) }
{
    let mut keys = Vec::new(alloc);
    for row in rows {
        let key = number_at(row.as_slice(), column);
        add_key(&mut keys, most, key)?;
    }
    Ok(keys)
}

/// A row like another.
pub fn copy_of_row(alloc: Global, row: &[u128]) -> Result<Listed<u128>, Memory>
    ensures { IfOk result (λ v. v ≡ row.now) }
{
    Ok(Listed::from_vec(Vec::from_slice(alloc, row)?))
}

/// The rows with a key in a column, in order.
pub fn rows_with_key(
    alloc: Global,
    column: usize,
    rows: &[Listed<u128>],
    key: u128,
) -> Result<Table, Memory>
    ensures { IfOk result (λ v. v ≡ rows_with (λ r. slice_index r column) rows.now key) }
{
    let mut out = Listed::new(alloc);
    for row in rows {
        if number_at(row.as_slice(), column) == key {
            out.push(copy_of_row(alloc, row.as_slice())?)?;
        }
    }
    Ok(out)
}

/// The groups of the first `most` keys in a column, in order of first appearance.
pub fn groups_of(
    alloc: Global,
    most: usize,
    column: usize,
    rows: &[Listed<u128>],
) -> Result<Listed<Group>, Memory>
    ensures { IfOk result (λ v. v ≡ keyed_groups most column rows.now) }
{
    let keys = first_keys(alloc, most, column, rows)?;
    let mut out = Listed::new(alloc);
    for key in &keys {
        let rows = rows_with_key(alloc, column, rows, *key)?;
        out.push(Group { key: *key, rows })?;
    }
    Ok(out)
}

/// Whether some row's key is not among the first `most`.
#[tactic(auto, unfolding(crate::specs::Lists::has_further))]
pub fn some_further(
    alloc: Global,
    most: usize,
    column: usize,
    rows: &[Listed<u128>],
) -> Result<bool, Memory>
    ensures { IfOk result (λ b. b ≡ has_further most (λ r. slice_index r column) rows.now) }
{
    let keys = first_keys(alloc, most, column, rows)?;
    Ok(rows.iter().any(|row| !is_among(keys.as_slice(), number_at(row.as_slice(), column))))
}
