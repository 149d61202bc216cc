//! Faults of items and aggregates.

ghost use Rattle.std.specs.Prelude.{◌≡◌, ◌≤◌, bytes_eq, drop, length, map, slice_get, take};
ghost use Rattle.std.specs.List.{list_any};
ghost use Rattle.gl_values.specs.Kinds.{is_number};
ghost use Rattle.gl_bits.specs.Limits.{most_weights};
ghost use Rattle.gl_query.specs.Faults as faults;
ghost use Rattle.gl_query.specs.declared.fault.QueryFault.TheVariants.{KindsDiffer};
ghost use Rattle.gl_query.specs.Trees.{AggItemTree, ItemTree, agg_item_tree, agg_tree, item_tree, pick_tree};

use crate::expressions::{Placed, judge_whole, number_fault};
use crate::rules::{or_else, unless};
use gl_bits::limits::{MOST_COLUMNS, MOST_WEIGHTS};
use gl_query::{Agg, AggItem, Item, Name, Num, Pick, QueryFault};
use gl_schema::Column;
use gl_values::Kind;

// Whether an item has a name.
fn is_item(items: &[Item], name: &[u8]) -> bool
    ensures { let names_it = λ (j : ItemTree). bytes_eq name.now j.name.text in
        result ≡ list_any names_it (map item_tree items.now) }
{
    match items.split_first() {
        None => false,
        Some((first, rest)) => name == first.name.text.as_slice() || is_item(rest, name),
    }
}

// Whether an aggregate has a name.
fn is_agg(aggs: &[AggItem], name: &[u8]) -> bool
    ensures { let names_it = λ (j : AggItemTree). bytes_eq name.now j.name.text in
        result ≡ list_any names_it (map agg_item_tree aggs.now) }
{
    match aggs.split_first() {
        None => false,
        Some((first, rest)) => name == first.name.text.as_slice() || is_agg(rest, name),
    }
}

// The first fault of the items from a number on.
fn items_fault(columns: &[Column], items: &[Item], number: usize) -> Option<QueryFault>
    requires { number ≤ length items.now }
    ensures { let earlier = map item_tree (take number items.now) in
        let rest = map item_tree (drop number items.now) in
        result ≡ faults.items_fault columns.now earlier rest }
{
    let (earlier, rest) = items.split_at(number);
    let Some((item, _)) = rest.split_first() else {
        return None;
    };
    let at = item.name.at;
    if number >= MOST_COLUMNS {
        return Some(QueryFault::OutOfRange { at });
    }
    let own = judge_whole(columns, &item.expr).fault;
    let fresh = !is_item(earlier, item.name.text.as_slice());
    let later = items_fault(columns, items, number + 1);
    or_else(
        own,
        or_else(unless(fresh, QueryFault::TwiceNamed { at }), later),
    )
}

/// The first fault of what a select picks.
pub fn pick_fault(columns: &[Column], pick: &Pick) -> Option<QueryFault>
    ensures { result ≡ faults.pick_fault columns.now (pick_tree pick.now) }
{
    match pick {
        Pick::All => None,
        Pick::Items(items) => items_fault(columns, items.as_slice(), 0),
    }
}

/// The first fault of an argument that is added or averaged.
pub fn summed_fault(arg: Placed, name: &Name) -> Option<QueryFault>
    ensures { let number = is_number arg.kind in
        result ≡ faults.or_else arg.fault (faults.unless number (KindsDiffer name.now.at)) }
{
    let number = arg.kind.is_number();
    or_else(
        arg.fault,
        unless(number, QueryFault::KindsDiffer { at: name.at }),
    )
}

// The first weight that is no number of the kind.
fn narrow_fault(kind: Kind, weights: &[Num]) -> Option<QueryFault>
    ensures { result ≡ faults.weights_fault kind weights.now }
{
    match weights.split_first() {
        None => None,
        Some((first, rest)) => or_else(number_fault(kind, *first), narrow_fault(kind, rest)),
    }
}

// The 65th weight, or the first that is no number of the kind.
fn weights_fault(kind: Kind, weights: &[Num]) -> Option<QueryFault>
    ensures { let many = faults.too_many (slice_get weights.now most_weights) in
        result ≡ faults.or_else many (faults.weights_fault kind weights.now) }
{
    match weights.get(MOST_WEIGHTS) {
        Some(weight) => Some(QueryFault::OutOfRange { at: weight.at }),
        None => narrow_fault(kind, weights),
    }
}

// The first fault of an aggregate under a name.
fn agg_fault(columns: &[Column], agg: &Agg, name: &Name) -> Option<QueryFault>
    ensures { result ≡ faults.agg_fault columns.now (agg_tree agg.now) name.now }
{
    match agg {
        Agg::Count { .. } => None,
        Agg::Sum(expr) | Agg::Avg(expr) => summed_fault(judge_whole(columns, expr), name),
        Agg::Min(expr) | Agg::Max(expr) => judge_whole(columns, expr).fault,
        Agg::Wsum { arg, weights } => {
            let whole = judge_whole(columns, arg);
            let kind = whole.kind;
            let summed = summed_fault(whole, name);
            or_else(summed, weights_fault(kind, weights.as_slice()))
        }
    }
}

/// The first fault of the aggregates from a number on.
pub fn aggs_fault(columns: &[Column], aggs: &[AggItem], number: usize) -> Option<QueryFault>
    requires { number ≤ length aggs.now }
    ensures { let earlier = map agg_item_tree (take number aggs.now) in
        let rest = map agg_item_tree (drop number aggs.now) in
        result ≡ faults.aggs_fault columns.now earlier rest }
{
    let (earlier, rest) = aggs.split_at(number);
    let Some((item, _)) = rest.split_first() else {
        return None;
    };
    let place = item.name.at;
    if number >= MOST_COLUMNS {
        return Some(QueryFault::OutOfRange { at: place });
    }
    let own = agg_fault(columns, &item.agg, &item.name);
    let fresh = !is_agg(earlier, item.name.text.as_slice());
    let later = aggs_fault(columns, aggs, number + 1);
    or_else(
        own,
        or_else(unless(fresh, QueryFault::TwiceNamed { at: place }), later),
    )
}
