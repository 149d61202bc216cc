//! Faults of frames.

ghost use Rattle.std.specs.Prelude.{◌≡◌, ◌≤◌, ◌&&◌, Some, bytes_eq, drop, length, map, nat_le, nat_lt, take};
ghost use Rattle.std.specs.List.{list_any};
ghost use Rattle.gl_bits.specs.Limits.{most_rows};
ghost use Rattle.gl_query.specs.Faults as faults;
ghost use Rattle.gl_query.specs.declared.fault.QueryFault.TheVariants.{OutOfRange};
ghost use Rattle.gl_query.specs.Trees.{FrameItemTree, frame_agg_tree, frame_item_tree, frame_tree};

use crate::expressions::{filter_fault, judge_whole};
use crate::items::summed_fault;
use crate::rules::{has_column, is_within, or_else, unless};
use gl_bits::limits::{MOST_COLUMNS, MOST_ROWS};
use gl_query::{Frame, FrameAgg, FrameItem, MOST_SLOTS, Name, Num, QueryFault, Slots};
use gl_schema::Column;

// Whether a frame has a name.
fn is_frame(frames: &[FrameItem], name: &[u8]) -> bool
    ensures { let names_it = λ (j : FrameItemTree). bytes_eq name.now j.name.text in
        result ≡ list_any names_it (map frame_item_tree frames.now) }
{
    match frames.split_first() {
        None => false,
        Some((first, rest)) => name == first.name.text.as_slice() || is_frame(rest, name),
    }
}

// The first fault of a function over the rows of a frame.
fn frame_agg_fault(columns: &[Column], agg: &FrameAgg, name: &Name) -> Option<QueryFault>
    ensures { result ≡ faults.frame_agg_fault columns.now (frame_agg_tree agg.now) name.now }
{
    match agg {
        FrameAgg::Count => None,
        FrameAgg::Sum(expr) | FrameAgg::Avg(expr) => summed_fault(judge_whole(columns, expr), name),
        FrameAgg::Min(expr) | FrameAgg::Max(expr) | FrameAgg::LastValue(expr) => {
            judge_whole(columns, expr).fault
        }
    }
}

// The fault of a number of rows that are looked back over, where there is one.
fn back_fault(back: &Option<Num>) -> Option<QueryFault>
    ensures { result ≡ faults.back_fault back.now }
{
    match back {
        None => None,
        Some(number) => unless(
            number.value < MOST_ROWS,
            QueryFault::OutOfRange { at: number.at },
        ),
    }
}

// The fault of LAG's number.
fn lag_fault(back: Num) -> Option<QueryFault>
    ensures { let within = nat_le 1 back.value && nat_lt back.value most_rows in
        result ≡ faults.unless within (OutOfRange back.at) }
{
    unless(
        1 <= back.value && back.value < MOST_ROWS,
        QueryFault::OutOfRange { at: back.at },
    )
}

// The first fault of a frame under a name.
fn frame_fault(columns: &[Column], frame: &Frame, name: &Name) -> Option<QueryFault>
    ensures { result ≡ faults.frame_fault columns.now (frame_tree frame.now) name.now }
{
    match frame {
        Frame::Own(expr) => judge_whole(columns, expr).fault,
        Frame::Lag { arg, back, .. } => {
            or_else(judge_whole(columns, arg).fault, lag_fault(*back))
        }
        Frame::Over {
            agg,
            filter,
            back,
            ..
        } => {
            let behind = or_else(filter_fault(columns, filter), back_fault(back));
            or_else(frame_agg_fault(columns, agg, name), behind)
        }
    }
}

/// The first fault of a key and of how many keys there are.
pub fn parts_fault(columns: &[Column], slots: &Slots) -> Option<QueryFault>
    ensures { result ≡ faults.slots_fault columns.now (Some slots.now) }
{
    let at = slots.groups.at;
    let known = has_column(columns, slots.key.text.as_slice());
    let within = is_within(slots.groups.value, MOST_SLOTS);
    or_else(
        unless(known, QueryFault::UnknownColumn { at: slots.key.at }),
        unless(within, QueryFault::OutOfRange { at }),
    )
}

/// The first fault of PARTITION, where there is one.
pub fn slots_fault(columns: &[Column], slots: &Option<Slots>) -> Option<QueryFault>
    ensures { result ≡ faults.slots_fault columns.now slots.now }
{
    match slots {
        None => None,
        Some(slots) => parts_fault(columns, slots),
    }
}

/// The first fault of the frames from a number on.
pub fn frames_fault(columns: &[Column], frames: &[FrameItem], number: usize) -> Option<QueryFault>
    requires { number ≤ length frames.now }
    ensures { let earlier = map frame_item_tree (take number frames.now) in
        let rest = map frame_item_tree (drop number frames.now) in
        result ≡ faults.frames_fault columns.now earlier rest }
{
    let (earlier, rest) = frames.split_at(number);
    let Some((item, _)) = rest.split_first() else {
        return None;
    };
    let place = item.name.at;
    if number >= MOST_COLUMNS {
        return Some(QueryFault::OutOfRange { at: place });
    }
    let own = frame_fault(columns, &item.frame, &item.name);
    let fresh = !is_frame(earlier, item.name.text.as_slice());
    let later = frames_fault(columns, frames, number + 1);
    or_else(
        own,
        or_else(unless(fresh, QueryFault::TwiceNamed { at: place }), later),
    )
}
