//! Windows of each key of rows, answered as plainly as they are defined.

ghost use Rattle.std.specs.Prelude.{◌≡◌, ◌++◌, ◌≤◌, IfOk, OnOk, flat_map, option_map, option_to_list, slice_index};
ghost use Rattle.gl_values.specs.Partitions.{completed, has_key};
ghost use Rattle.gl_query.specs.Accepted.{IsWindow};
ghost use Rattle.gl_query.specs.declared.tree.Measure.TheVariants.{Tuples};
ghost use Rattle.gl_reference.specs.Fits.{IsOrMemory};
ghost use Rattle.gl_reference.specs.Partitions.{is_key, table_fulls, table_parts, table_short, table_shorts_of, table_windows};

use crate::rows::{Fault, copy_of_table};
use gl_bits::limits::MOST_ROWS;
use gl_bits::{Listed, Memory};
use gl_values::Group;
use gl_values::lists::{groups_of, number_at, rows_with_key, slices_of};
use std::alloc::Global;

// Whether a key is that of a group.
fn is_key(groups: &[Group], key: u128) -> bool
    ensures { result ≡ is_key groups.now key }
{
    groups.iter().any(|group| key == group.key)
}

/// Whether a key is among the first `most` of the rows.
pub fn has_key(
    alloc: Global,
    most: usize,
    column: usize,
    rows: &[Listed<u128>],
    key: u128,
) -> Result<bool, Memory>
    ensures { IfOk result (λ b. b ≡ has_key most (λ r. slice_index r column) rows.now key) }
{
    let groups = groups_of(alloc, most, column, rows)?;
    Ok(is_key(groups.as_slice(), key))
}

// The window that the last of the rows completes, if it does.
fn completed<T>(size: usize, advance: usize, rows: &[T]) -> Option<&[T]>
    requires { 1 ≤ advance }
    ensures { option_to_list (option_map (λ s. s.now) result) ≡ completed size advance rows.now }
{
    let start = rows.len().checked_sub(size)?;
    if start % advance == 0 {
        Some(&rows[start..])
    } else {
        None
    }
}

// The windows of `size` rows of a key, one from each `advance`-th one on, for the first `most` keys
// in a column.
#[derive(Clone, Copy)]
struct Windows {
    most: usize,
    column: usize,
    size: usize,
    advance: usize,
}

// Adds the window that the last of the rows seen completes, if it does.
fn push_full(
    alloc: Global,
    out: &mut Listed<Group>,
    windows: Windows,
    seen: &[Listed<u128>],
    key: u128,
) -> Result<(), Memory>
    requires { 1 ≤ windows.advance }
    ensures { let w = windows in OnOk result (out.new ≡ out.old
        ++ table_windows w.most w.column w.size w.advance seen.now key) }
{
    if !has_key(alloc, windows.most, windows.column, seen, key)? {
        return Ok(());
    }
    let own = rows_with_key(alloc, windows.column, seen, key)?;
    match completed(windows.size, windows.advance, own.as_slice()) {
        Some(window) => {
            let rows = copy_of_table(alloc, window)?;
            out.push(Group { key, rows })
        }
        None => Ok(()),
    }
}

// The windows that rows complete, in the order of these rows.
fn fulls_of(alloc: Global, windows: Windows, rows: &[Listed<u128>]) -> Result<Listed<Group>, Memory>
    requires { 1 ≤ windows.advance }
    ensures { let w = windows in
        IfOk result (λ v. v ≡ table_fulls w.most w.column w.size w.advance rows.now) }
{
    let mut out = Listed::new(alloc);
    for (i, row) in rows.iter().enumerate() {
        let key = number_at(row.as_slice(), windows.column);
        push_full(alloc, &mut out, windows, &rows[..i + 1], key)?;
    }
    Ok(out)
}

// Adds a slice of a key's rows, if the end cuts it short.
fn push_short(
    alloc: Global,
    out: &mut Listed<Group>,
    size: usize,
    key: u128,
    slice: &[Listed<u128>],
) -> Result<(), Memory>
    ensures { OnOk result (out.new ≡ out.old ++ table_short size key slice.now) }
{
    if slice.len() >= size {
        return Ok(());
    }
    let rows = copy_of_table(alloc, slice)?;
    out.push(Group { key, rows })
}

// Adds the slices of a group that the end cuts short.
fn push_shorts(
    alloc: Global,
    out: &mut Listed<Group>,
    size: usize,
    advance: usize,
    group: &Group,
) -> Result<(), Memory>
    requires { 1 ≤ advance }
    ensures { OnOk result (out.new ≡ out.old ++ table_shorts_of size advance group.now) }
{
    let slices = slices_of(alloc, size, advance, group.rows.as_slice())?;
    for slice in &slices {
        push_short(alloc, out, size, group.key, slice)?;
    }
    Ok(())
}

// Adds the windows that the end cuts short, key by key.
fn push_all_shorts(
    alloc: Global,
    out: &mut Listed<Group>,
    size: usize,
    advance: usize,
    groups: &[Group],
) -> Result<(), Memory>
    requires { 1 ≤ advance }
    ensures { OnOk result (out.new ≡ out.old
        ++ flat_map (table_shorts_of size advance) groups.now) }
{
    for group in groups {
        push_shorts(alloc, out, size, advance, group)?;
    }
    Ok(())
}

/// The windows of the first `most` keys in a column: of `size` rows of a key, one from each
/// `advance`-th one on. Those that a row completes come in the order of these rows, and then those of
/// fewer rows, key by key.
pub fn partitions_of(
    alloc: Global,
    most: usize,
    column: usize,
    size: u128,
    advance: u128,
    rows: &[Listed<u128>],
) -> Result<Listed<Group>, Fault>
    ensures value { IfOk result (λ v. v ≡ table_parts most column size advance rows.now) }
    ensures fits { IsWindow Tuples size advance → IsOrMemory result }
{
    if size > MOST_ROWS || advance == 0 || advance > MOST_ROWS {
        return Err(Fault::Unfit);
    }
    let size = size as usize;
    let advance = advance as usize;
    let windows = Windows {
        most,
        column,
        size,
        advance,
    };
    let mut out = fulls_of(alloc, windows, rows)?;
    let groups = groups_of(alloc, most, column, rows)?;
    push_all_shorts(alloc, &mut out, size, advance, groups.as_slice())?;
    Ok(out)
}
