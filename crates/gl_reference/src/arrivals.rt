//! Results of queries each of whose rows comes of one row that came: rows with their places.

ghost use Rattle.std.specs.Prelude.{◌≡◌, ◌||◌, Bool, IfOk, IsTrue, map, option_map};
ghost use Rattle.gl_arrival.specs.Changes.{kept_at, mapped_at};
ghost use Rattle.gl_arrival.specs.Places.{rows_of};
ghost use Rattle.gl_query.specs.Accepted.{IsAcceptedOver, IsFilter, IsParted, IsRows};
ghost use Rattle.gl_query.specs.Columns.{arrives};
ghost use Rattle.gl_query.specs.Laws.{scope_of};
ghost use Rattle.gl_query.specs.Results.{is_kept, kept, picked};
ghost use Rattle.gl_query.specs.Shapes.{expr_shape, frame_item_shape, pick_shape, query_shape, slots_shape};
ghost use Rattle.gl_query.specs.Shapes as shape;
ghost use Rattle.gl_reference.specs.Arrivals.{framed_in, rows_in, spills};
ghost use Rattle.gl_reference.specs.Fits.{AreFramesOf, AreSources, IsOrMemory};
ghost use Rattle.gl_reference.specs.Rows.{AreSeen, reach_over, reach_seen};
ghost use Rattle.gl_reference.specs.Sources.{HasArrived, columns_over, env_view, placed_of};

use crate::answers::Answer;
use crate::columns::{Seen, Source, columns_of, reach_of, source_named, words_of};
use crate::frames::{Framing, keys_of};
use crate::joins::{Sides, join_placed};
use crate::placed::{
    PlacedRow, framed_placed, kept_placed, keyed_placed, merged, picked_placed, placed_rows,
    rows_alone,
};
use crate::rows::Fault;
use gl_bits::{Listed, Memory};
use gl_query::laws::{arrivals_are_results, results_fit};
use gl_query::{Expr, FrameItem, Name, Pick, Query, Slots};
use gl_schema::Column;
use gl_values::lists::some_further;
use std::alloc::Global;

/// A result with places.
#[derive(Drop, Debug)]
pub struct Arrived {
    /// The rows, in order.
    pub rows: Listed<PlacedRow>,
    /// Whether rows of further keys were left out.
    pub spill: bool,
}

// The rows of a source, by its name.
fn read_placed(alloc: Global, sources: &[Source<'_>], name: &Name) -> Result<Arrived, Fault>
    ensures value { IfOk result (HasArrived sources.now (shape.Read name.now.text)) }
    ensures fits { IsOrMemory result }
{
    let rows = match source_named(sources, name.text.as_slice()) {
        Some(source) => placed_rows(alloc, source.rows, source.clock)?,
        None => Listed::new(alloc),
    };
    Ok(Arrived { rows, spill: false })
}

// What frames make of rows at places.
fn parted_placed(
    alloc: Global,
    columns: &[Column],
    seen: Seen<'_>,
    items: &[FrameItem],
    slots: &Option<Slots>,
    from: Arrived,
) -> Result<Arrived, Fault>
    ensures value { let reach = reach_seen seen.entry in
        let parted = option_map slots_shape slots.now in IfOk result (λ a.
        (map placed_of a.rows ≡ framed_in columns.now reach (map frame_item_shape items.now) parted
        (map placed_of from.rows))
        × (a.spill ≡ spills columns.now parted from.spill (rows_in from.rows))) }
    ensures fits { let reach = reach_seen seen.entry in
        AreFramesOf reach.columns (map frame_item_shape items.now)
        → IsParted columns.now (option_map slots_shape slots.now)
        → AreSeen reach (rows_in from.rows) → IsOrMemory result }
{
    let alone = rows_alone(alloc, from.rows.as_slice())?;
    let unplaced = alone.as_slice();
    let rows = from.rows.as_slice();
    match slots {
        None => {
            let made = framed_placed(alloc, seen, items, unplaced, rows)?;
            Ok(Arrived {
                rows: made,
                spill: from.spill,
            })
        }
        Some(part) => {
            let keys = keys_of(columns, part)?;
            let made = keyed_placed(alloc, seen, items, keys, unplaced, rows)?;
            let further = some_further(alloc, keys.most, keys.column, unplaced)?;
            Ok(Arrived {
                rows: made,
                spill: from.spill || further,
            })
        }
    }
}

// What frames make of the rows that a filter keeps of a result with these columns.
fn frames_placed(
    alloc: Global,
    sources: &[Source<'_>],
    columns: &[Column],
    framing: Framing<'_>,
    from: Arrived,
) -> Result<Arrived, Fault>
    ensures value { let reach = reach_over sources.now columns.now in let f = framing.entry in
        let parted = option_map slots_shape f.slots.now in
        let condition = option_map expr_shape f.filter.now in IfOk result (λ a.
        (map placed_of a.rows
        ≡ framed_in columns.now reach (map frame_item_shape f.items.now) parted
        (kept_at (is_kept reach condition) (map placed_of from.rows)))
        × (a.spill
        ≡ spills columns.now parted from.spill (kept reach condition (rows_in from.rows)))) }
    ensures fits { let reach = reach_over sources.now columns.now in let f = framing.entry in
        AreFramesOf reach.columns (map frame_item_shape f.items.now)
        → IsFilter reach.columns (option_map expr_shape f.filter.now)
        → IsParted columns.now (option_map slots_shape f.slots.now)
        → AreSeen reach (rows_in from.rows) → IsOrMemory result }
{
    let reach = reach_of(alloc, sources, columns)?;
    let seen = Seen {
        columns: reach.as_slice(),
        words: words_of(sources),
    };
    let kept = kept_placed(alloc, seen, framing.filter, from.rows.as_slice())?;
    let left = Arrived {
        rows: kept,
        spill: from.spill,
    };
    parted_placed(alloc, columns, seen, framing.items, framing.slots, left)
}

// The rows that a filter keeps of a result of the source, each picked.
fn rows_placed(
    alloc: Global,
    sources: &[Source<'_>],
    source: &Query,
    pick: &Pick,
    filter: &Option<Expr>,
    from: Arrived,
) -> Result<Arrived, Fault>
    ensures value { let reach = reach_over sources.now (columns_over sources.now source.now) in
        let condition = option_map expr_shape filter.now in IfOk result (λ a.
        (map placed_of a.rows ≡ mapped_at (picked reach (pick_shape pick.now))
        (kept_at (is_kept reach condition) (map placed_of from.rows)))
        × (a.spill ≡ from.spill)) }
    ensures fits { let reach = reach_over sources.now (columns_over sources.now source.now) in
        IsRows reach.columns (pick_shape pick.now) (option_map expr_shape filter.now)
        → AreSeen reach (rows_in from.rows) → IsOrMemory result }
{
    let columns = columns_of(alloc, sources, source)?;
    let reach = reach_of(alloc, sources, columns.as_slice())?;
    let seen = Seen {
        columns: reach.as_slice(),
        words: words_of(sources),
    };
    let kept = kept_placed(alloc, seen, filter, from.rows.as_slice())?;
    let rows = picked_placed(alloc, seen, pick, kept.as_slice())?;
    Ok(Arrived {
        rows,
        spill: from.spill,
    })
}

/// The one result with places of a query; one that does not arrive has none.
#[cycle(arrivals)]
fn arrival_of(alloc: Global, sources: &[Source<'_>], query: &Query) -> Result<Arrived, Fault>
    ensures value { IfOk result (HasArrived sources.now (query_shape query.now)) }
    ensures fits { let env = env_view sources.now in let q = query_shape query.now in
        (timed : Bool) → IsTrue (arrives q) → AreSources env
        → IsAcceptedOver (scope_of env timed) q → IsOrMemory result }
{
    results_fit();
    arrivals_are_results();
    match query {
        Query::Read(name) => read_placed(alloc, sources, name),
        Query::Rows {
            pick,
            filter,
            source,
        } => {
            let from = arrival_of(alloc, sources, source)?;
            rows_placed(alloc, sources, source, pick, filter, from)
        }
        Query::Frames {
            items,
            filter,
            slots,
            source,
        } => {
            let from = arrival_of(alloc, sources, source)?;
            let columns = columns_of(alloc, sources, source)?;
            let items = items.as_slice();
            let columns = columns.as_slice();
            let framing = Framing {
                items,
                filter,
                slots,
            };
            frames_placed(alloc, sources, columns, framing, from)
        }
        Query::ByArrival { left, right, .. } => by_arrival(alloc, sources, left, right),
        Query::AsOf {
            left,
            right,
            slots,
            ..
        } => as_of(alloc, sources, left, right, slots),
        _ => Err(Fault::Unfit),
    }
}

/// The rows of two queries that arrive, in the order in which they came.
#[cycle(arrivals)]
pub fn by_arrival(
    alloc: Global,
    sources: &[Source<'_>],
    left: &Query,
    right: &Query,
) -> Result<Arrived, Fault>
    ensures value { IfOk result (HasArrived sources.now
        (shape.ByArrival (query_shape left.now) (query_shape right.now))) }
    ensures fits { (timed : Bool) → AreSources (env_view sources.now)
        → IsAcceptedOver (scope_of (env_view sources.now) timed)
        (shape.ByArrival (query_shape left.now) (query_shape right.now))
        → IsOrMemory result }
{
    let first = arrival_of(alloc, sources, left)?;
    let second = arrival_of(alloc, sources, right)?;
    let rows = merged(alloc, first.rows.as_slice(), second.rows.as_slice())?;
    Ok(Arrived {
        rows,
        spill: first.spill || second.spill,
    })
}

// Whether any of these is so.
fn is_any(first: bool, second: bool, third: bool) -> bool
    ensures { result ≡ ((first || second) || third) }
{
    first || second || third
}

/// The rows of two queries that arrive, joined.
#[cycle(arrivals)]
pub fn as_of(
    alloc: Global,
    sources: &[Source<'_>],
    left: &Query,
    right: &Query,
    slots: &Slots,
) -> Result<Arrived, Fault>
    ensures value { IfOk result (HasArrived sources.now
        (shape.AsOf (query_shape left.now) (query_shape right.now) (slots_shape slots.now))) }
    ensures fits { (timed : Bool) → AreSources (env_view sources.now)
        → IsAcceptedOver (scope_of (env_view sources.now) timed)
        (shape.AsOf (query_shape left.now) (query_shape right.now) (slots_shape slots.now))
        → IsOrMemory result }
{
    let first = arrival_of(alloc, sources, left)?;
    let second = arrival_of(alloc, sources, right)?;
    let lefts = columns_of(alloc, sources, left)?;
    let rights = columns_of(alloc, sources, right)?;
    let of_left = lefts.as_slice();
    let of_right = rights.as_slice();
    let sides = Sides {
        lefts: of_left,
        rights: of_right,
        slots,
    };
    let left_rows = first.rows.as_slice();
    let right_rows = second.rows.as_slice();
    let made = join_placed(alloc, sides, left_rows, right_rows)?;
    let spill = is_any(second.spill, first.spill, made.further);
    Ok(Arrived {
        rows: made.rows,
        spill,
    })
}

/// A result without its places.
pub fn without_places(alloc: Global, from: Arrived) -> Result<Answer, Memory>
    ensures { IfOk result (λ a.
        (a.rows ≡ rows_of (map placed_of from.rows)) × (a.spill ≡ from.spill)) }
{
    Ok(Answer {
        rows: rows_alone(alloc, from.rows.as_slice())?,
        spill: from.spill,
    })
}
