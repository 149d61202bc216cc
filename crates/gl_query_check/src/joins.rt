//! Faults of two queries whose columns stand beside each other.

ghost use Rattle.std.specs.Prelude.{◌≡◌, ◌++◌, ◌&&◌};
ghost use Rattle.gl_values.specs.Operators.{same_kind};
ghost use Rattle.gl_query.specs.Alike.{query_alike};
ghost use Rattle.gl_query.specs.Columns as columns;
ghost use Rattle.gl_query.specs.Faults as faults;
ghost use Rattle.gl_query.specs.declared.fault.QueryFault.TheVariants as fault;
ghost use Rattle.gl_query.specs.Trees.{query_tree};
ghost use Rattle.gl_query.specs.Values.{column_kind};
ghost use Rattle.gl_query_check.specs.Answers.{Answers};

use crate::frames::parts_fault;
use crate::paces::{both_arrive, pace_of, same_pace};
use crate::rules::{are_distinct, or_else, refuse, unless};
use gl_bits::limits::MOST_COLUMNS;
use gl_query::columns::{but_key, joined_columns};
use gl_query::kinds::column_kind;
use gl_query::{Name, Query, QueryFault, Slots};
use gl_schema::{Column, Columns};

// The first fault of columns that are put beside each other.
fn names_fault(columns: &[Column], at: u64) -> Option<QueryFault>
    ensures { result ≡ faults.names_fault columns.now at }
{
    or_else(
        unless(are_distinct(columns), QueryFault::TwiceNamed { at }),
        unless(columns.len() <= MOST_COLUMNS, QueryFault::OutOfRange { at }),
    )
}

/// The first fault of two queries side by side, of their columns together.
pub fn beside_fault(left: &Query, right: &Query, columns: &[Column], at: u64) -> Option<QueryFault>
    ensures { let l = query_alike (query_tree left.now) in
        let r = query_alike (query_tree right.now) in
        result ≡ faults.beside_fault l r columns.now at }
{
    let paced = same_pace(pace_of(left), pace_of(right));
    or_else(
        unless(paced, QueryFault::PaceDiffers { at }),
        names_fault(columns, at),
    )
}

// The fault of a key that has two kinds.
fn kinds_fault(lefts: &[Column], rights: &[Column], key: &Name) -> Option<QueryFault>
    ensures { let left = column_kind lefts.now key.now.text in
        let right = column_kind rights.now key.now.text in
        result ≡ faults.unless (same_kind left right) (fault.KindsDiffer key.now.at) }
{
    let name = key.text.as_slice();
    let same = column_kind(lefts, name) == column_kind(rights, name);
    unless(same, QueryFault::KindsDiffer { at: key.at })
}

/// The columns of ASOF over two queries of these columns, where both arrive, its key is a column of
/// both, and no other name is on both.
pub fn join_checked(
    left: &Query,
    right: &Query,
    lefts: Columns,
    rights: Columns,
    slots: &Slots,
    at: u64,
) -> Result<Columns, QueryFault>
    ensures { let l = query_alike (query_tree left.now) in
        let r = query_alike (query_tree right.now) in
        let come = columns.arrives l && columns.arrives r in
        let out = lefts ++ columns.but_key slots.now.key.text rights in
        let joined = faults.join_fault lefts rights slots.now out at in
        let first = faults.or_else (faults.unless come (fault.NoArrival at)) joined in
        Answers first out result }
{
    let arrive = unless(both_arrive(left, right), QueryFault::NoArrival { at });
    let of_left = parts_fault(lefts.as_slice(), slots);
    let of_right = parts_fault(rights.as_slice(), slots);
    let kinds = kinds_fault(lefts.as_slice(), rights.as_slice(), &slots.key);
    let both = joined_columns(lefts, but_key(rights, slots.key.text.as_slice()))?;
    let names = names_fault(both.as_slice(), at);
    let joined = or_else(of_left, or_else(of_right, or_else(kinds, names)));
    refuse(or_else(arrive, joined))?;
    Ok(both)
}
