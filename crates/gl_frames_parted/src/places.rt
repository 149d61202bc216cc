//! How a node of frames has its rows parted by a key.

ghost use Rattle.std.specs.Prelude.{◌≡◌, ◌≤◌, ◌^◌};
ghost use Rattle.gl_frames_wire.specs.Reaches.{place_bits};
ghost use Rattle.gl_frames_parted.specs.Parted.{cycles_to_slot, has_map, has_tree, keys_by, partition_by, place_of_frame, place_over, places_of_frames};

use gl_algebra::frames::least_exponent;
use gl_algebra::keys::{cycles_of_look_up, width_of_key};
use gl_algebra::{PlanFrame, PlanKey};
use gl_frames_lanes::Keys;
use gl_frames_slots::Partition;
use gl_values::Kind;

// The bits of a place in a ring that reaches back so far.
fn place_bits(back: u64) -> u8
    requires { back ≤ 2 ^ 32 }
    ensures { result ≡ place_bits back }
{
    least_exponent(back + 1, 1, back + 1)
}

// Those of a ring that reaches to what leaves a frame, 1 where all rows are in it.
fn place_over(back: Option<u32>) -> u8
    ensures { result ≡ place_over back }
{
    match back {
        None => 1,
        Some(back) => place_bits(u64::from(back) + 1),
    }
}

// Those of the rings of an item, 1 where it has none.
fn place_of_frame(item: &PlanFrame) -> u8
    ensures { result ≡ place_of_frame item.now }
{
    match item {
        PlanFrame::Own(_) => 1,
        PlanFrame::Lag(_, back) => place_bits(u64::from(*back)),
        PlanFrame::Over { back, .. } => place_over(*back),
    }
}

// Those of the greatest ring of some items.
fn places_of_frames(items: &[PlanFrame]) -> u8
    ensures { result ≡ places_of_frames items.now }
{
    match items.split_first() {
        None => 1,
        Some((item, others)) => place_of_frame(item).max(places_of_frames(others)),
    }
}

/// The slots of the groups of a key.
pub fn keys_by(by: PlanKey) -> Keys
    ensures { result ≡ keys_by by }
{
    let groups = u64::from(by.groups);
    Keys {
        column: usize::from(by.key),
        groups: u32::from(by.groups),
        width: least_exponent(groups, 1, groups),
    }
}

/// Whether a key is found in a map: one of at most 10 bits is.
pub fn has_map(kinds: &[Kind], by: PlanKey) -> bool
    ensures { result ≡ has_map kinds.now by }
{
    width_of_key(kinds, by) <= 10
}

/// Whether another one is found in a tree: one of more than 64 groups is, unless more than 50
/// columns would go through its levels.
pub fn has_tree(kinds: &[Kind], by: PlanKey) -> bool
    ensures { result ≡ has_tree kinds.now by }
{
    by.groups > 64 && kinds.len() <= 50
}

// The cycles until its slot is found. In a tree two bits of the key take one.
fn cycles_to_slot(kinds: &[Kind], by: PlanKey) -> u32
    ensures { result ≡ cycles_to_slot kinds.now by }
{
    if has_map(kinds, by) {
        3
    } else if has_tree(kinds, by) {
        (width_of_key(kinds, by) + 1) / 2
    } else {
        2
    }
}

/// The slots of the groups of a key, how far back the rings of items reach, and the cycles that
/// rows wait beside those until their slot is found.
pub fn partition_by(kinds: &[Kind], by: PlanKey, items: &[PlanFrame]) -> Partition
    ensures { result ≡ partition_by kinds.now by items.now }
{
    let cycles = cycles_of_look_up(width_of_key(kinds, by), by.groups);
    let wait = cycles - cycles_to_slot(kinds, by);
    Partition {
        keys: keys_by(by),
        bits: places_of_frames(items),
        wait,
    }
}
