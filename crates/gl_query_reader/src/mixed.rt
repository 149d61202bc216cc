//! Which items may stand in one select.

ghost use Rattle.std.specs.Prelude.{◌≡◌, None, Some, MatchOption};
ghost use Rattle.gl_query_reader.specs.Meaning as meaning;
ghost use Rattle.gl_query_reader.specs.Mixed as mixed;
ghost use Rattle.gl_query_reader.specs.Trees.{expr_of, agg_of, over_agg_of, written_over_of, item_of, items_of, pick_of, query_of};

use crate::written::{Grouping, Part, WrittenExpr, WrittenItem, WrittenPick, WrittenQuery};
use crate::written_functions::{WrittenAgg, WrittenHead, WrittenOver, WrittenOverAgg};
use gl_query::Name;
use gl_query_tokens::Spelling;

// The place of an expression's first token.
fn first_at(expr: &WrittenExpr) -> u64
    ensures { result ≡ mixed.first_at (expr_of expr.now) }
{
    match expr {
        WrittenExpr::Column(name) => name.at,
        WrittenExpr::Number(number) => number.at,
        WrittenExpr::Minus { at, .. } => *at,
        WrittenExpr::Parameter { at, .. } => *at,
        WrittenExpr::Letters { at, .. } => *at,
        WrittenExpr::Brackets { at, .. } => *at,
        WrittenExpr::Cast { at, .. } => *at,
        WrittenExpr::Flip { at, .. } => *at,
        WrittenExpr::Not { at, .. } => *at,
        WrittenExpr::Binary { left, .. } => first_at(left),
    }
}

fn agg_at(agg: &WrittenAgg) -> u64
    ensures { result ≡ mixed.agg_at (agg_of agg.now) }
{
    match agg {
        WrittenAgg::Count { at, .. } => *at,
        WrittenAgg::Fold { at, .. } => *at,
        WrittenAgg::Wsum { at, .. } => *at,
    }
}

/// The place of a word of frames.
pub fn spelled_at(word: Spelling) -> u64
    ensures { result ≡ meaning.spelled_at word }
{
    match word {
        Spelling::Small { at } => at,
        Spelling::Capital { at } => at,
    }
}

/// The place of a function over rows.
pub fn over_agg_at(agg: &WrittenOverAgg) -> u64
    ensures { result ≡ meaning.over_agg_at (over_agg_of agg.now) }
{
    match agg {
        WrittenOverAgg::Count { at, .. } => *at,
        WrittenOverAgg::Fold { at, .. } => *at,
        WrittenOverAgg::LastValue { word, .. } => spelled_at(*word),
    }
}

// The place of the function of an OVER.
fn over_at(over: &WrittenOver) -> u64
    ensures { result ≡ mixed.over_at (written_over_of over.now) }
{
    match &over.head {
        WrittenHead::Lag { word, .. } => spelled_at(*word),
        WrittenHead::Ranged { agg, .. } => over_agg_at(agg),
    }
}

// The place of an item's first token.
fn item_at(item: &WrittenItem) -> u64
    ensures { result ≡ mixed.item_at (item_of item.now) }
{
    match item {
        WrittenItem::Bare(name) => name.at,
        WrittenItem::Named { expr, .. } => first_at(expr),
        WrittenItem::Total { agg, .. } => agg_at(agg),
        WrittenItem::Framed { over, .. } => over_at(over),
    }
}

/// Whether the item is an aggregate.
pub fn is_total(item: &WrittenItem) -> bool
    ensures { result ≡ meaning.is_total (item_of item.now) }
{
    match item {
        WrittenItem::Bare(_) => false,
        WrittenItem::Named { .. } => false,
        WrittenItem::Total { .. } => true,
        WrittenItem::Framed { .. } => false,
    }
}

fn is_framed(item: &WrittenItem) -> bool
    ensures { result ≡ meaning.is_framed (item_of item.now) }
{
    match item {
        WrittenItem::Framed { .. } => true,
        _ => false,
    }
}

/// Whether some item has OVER.
#[tactic(auto, using(crate::proofs::ItemLists::item_steps))]
pub fn has_over(items: &[WrittenItem]) -> bool
    ensures { result ≡ meaning.has_over (items_of items.now) }
{
    for item in items {
        if is_framed(item) {
            return true;
        }
    }
    false
}

/// The first item with OVER.
#[tactic(auto, using(crate::proofs::ItemLists::item_steps))]
pub fn first_over(items: &[WrittenItem]) -> Option<&WrittenItem>
    ensures { let first = meaning.first_over (items_of items.now) in
        MatchOption result (first ≡ None) (λ i. first ≡ Some (item_of i.now)) }
{
    for item in items {
        if is_framed(item) {
            return Some(item);
        }
    }
    None
}

// Whether the item is of this sort.
fn is_of(sort: bool, item: &WrittenItem) -> bool
    ensures { result ≡ mixed.same sort (meaning.is_total (item_of item.now)) }
{
    if sort {
        is_total(item)
    } else {
        !is_total(item)
    }
}

// The first item that is not of this sort.
#[tactic(auto, using(crate::proofs::ItemLists::item_steps))]
fn first_other(sort: bool, items: &[WrittenItem]) -> Option<u64>
    ensures { result ≡ mixed.first_other sort (items_of items.now) }
{
    for item in items {
        if !is_of(sort, item) {
            return Some(item_at(item));
        }
    }
    None
}

// The item is the key alone.
fn is_key(key: &Name, item: &WrittenItem) -> bool
    ensures { result ≡ mixed.is_key key.now (item_of item.now) }
{
    match item {
        WrittenItem::Bare(name) => name.text.as_slice() == key.text.as_slice(),
        WrittenItem::Named { .. } => false,
        WrittenItem::Total { .. } => false,
        WrittenItem::Framed { .. } => false,
    }
}

// Behind the key stands at least one item, and all are aggregates.
fn behind_key(grouping: &Grouping, items: &[WrittenItem]) -> Option<u64>
    ensures { result ≡ mixed.behind_key grouping.now (items_of items.now) }
{
    match items {
        [] => Some(grouping.at),
        [_, ..] => first_other(true, items),
    }
}

fn same_part(a: &Option<Part>, b: &Option<Part>) -> bool
    ensures { result ≡ mixed.same_part a.now b.now }
{
    match (a, b) {
        (None, None) => true,
        (Some(p), Some(q)) => {
            p.grouping.key.text.as_slice() == q.grouping.key.text.as_slice()
                && p.grouping.groups.value == q.grouping.groups.value
        }
        (None, Some(_)) | (Some(_), None) => false,
    }
}

// The PARTITION is that of an item.
fn is_part_of(first: &WrittenItem, part: &Option<Part>) -> bool
    ensures { result ≡ mixed.same_part (meaning.part_in (item_of first.now)) part.now }
{
    match first {
        WrittenItem::Framed { over, .. } => same_part(&over.part, part),
        _ => match part {
            None => true,
            Some(_) => false,
        },
    }
}

// The item has the PARTITION of another one, or no OVER.
fn has_part(first: &WrittenItem, item: &WrittenItem) -> bool
    ensures { result ≡ mixed.has_part (meaning.part_in (item_of first.now)) (item_of item.now) }
{
    match item {
        WrittenItem::Framed { over, .. } => is_part_of(first, &over.part),
        _ => true,
    }
}

// The first item with OVER and another PARTITION than this one.
#[tactic(auto, using(crate::proofs::ItemLists::item_steps))]
fn other_part(first: &WrittenItem, items: &[WrittenItem]) -> Option<u64>
    ensures { let part = meaning.part_in (item_of first.now) in
        result ≡ mixed.other_part part (items_of items.now) }
{
    for item in items {
        if !has_part(first, item) {
            return Some(item_at(item));
        }
    }
    None
}

// The first item with OVER that has not the PARTITION of the first of them.
fn mixed_parts(items: &[WrittenItem]) -> Option<u64>
    ensures { result ≡ mixed.mixed_parts (items_of items.now) }
{
    match first_over(items) {
        Some(first) => other_part(first, items),
        None => None,
    }
}

// Without groups all items are of the first one's sort, and all with OVER have one PARTITION.
fn mixed_plain(items: &[WrittenItem]) -> Option<u64>
    ensures { result ≡ mixed.mixed_plain (items_of items.now) }
{
    match items {
        [] => None,
        [first, rest @ ..] => least(first_other(is_total(first), rest), mixed_parts(items)),
    }
}

// With groups the first item is the key alone.
fn mixed_groups(items: &[WrittenItem], grouping: &Grouping) -> Option<u64>
    ensures { result ≡ mixed.mixed_groups (items_of items.now) grouping.now }
{
    match items {
        [] => Some(grouping.at),
        [first, rest @ ..] => {
            if is_key(&grouping.key, first) {
                behind_key(grouping, rest)
            } else {
                Some(item_at(first))
            }
        }
    }
}

// The item that shows that the items of a select do not go together.
fn mixed_pick(pick: &WrittenPick, grouping: &Option<Grouping>) -> Option<u64>
    ensures { result ≡ mixed.mixed_pick (pick_of pick.now) grouping.now }
{
    match (pick, grouping) {
        (WrittenPick::All { .. }, None) => None,
        (WrittenPick::All { at }, Some(_)) => Some(*at),
        (WrittenPick::Items(items), None) => mixed_plain(items.as_slice()),
        (WrittenPick::Items(items), Some(grouping)) => mixed_groups(items.as_slice(), grouping),
    }
}

// The smaller of two places.
fn least(a: Option<u64>, b: Option<u64>) -> Option<u64>
    ensures { result ≡ mixed.least a b }
{
    match (a, b) {
        (None, b) => b,
        (Some(a), None) => Some(a),
        (Some(a), Some(b)) => Some(if a <= b { a } else { b }),
    }
}

/// The first item in the text that shows that the items of its select do not go together.
#[tactic(auto, using(crate::proofs::Eaches::eaches))]
pub fn mixed_in(query: &WrittenQuery) -> Option<u64>
    ensures { result ≡ mixed.mixed_in (query_of query.now) }
{
    match query {
        WrittenQuery::Stream(_) => None,
        WrittenQuery::Brackets { inner, .. } => mixed_in(inner),
        WrittenQuery::Select { select, source } => {
            least(mixed_pick(&select.pick, &select.grouping), mixed_in(source))
        }
        WrittenQuery::Each { source, body, .. } => least(mixed_in(source), mixed_in(body)),
        WrittenQuery::AsOf { left, right, .. } | WrittenQuery::Join { left, right, .. } => {
            least(mixed_in(left), mixed_in(right))
        }
    }
}
