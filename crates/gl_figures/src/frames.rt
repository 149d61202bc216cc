//! The weights of frames.

ghost use Rattle.std.specs.Prelude.{◌≡◌, ◌<◌, ◌≤◌, ◌+◌, ◌*◌, ◌^◌, length, sum_by, Some};
ghost use Rattle.gl_algebra.specs.Frames.{frames_in, words_of_frame};
ghost use Rattle.gl_algebra.specs.Keys.{weight_of_look_up, words_of_look_up};
ghost use Rattle.gl_algebra.specs.Weights.{weight_by_key, weight_of_frame, weight_of_frames, weight_of_rings, weight_waiting, words_of_frames};

use crate::copied::times;
use gl_algebra::frames::{
    delay_of_frames, digits_of_frame, frames_in, rings_of_frame, words_of_frame,
};
use gl_algebra::keys::{delay_by_key, slots_of, width_of_key};
use gl_algebra::{PlanFrame, PlanKey};
use gl_values::Kind;

// The part of a frame, its words aside.
fn weight_of_rings(rings: u32, digits: u32) -> u128
    ensures value { result ≡ weight_of_rings rings digits }
    ensures below { result < 2 ^ 39 }
{
    48 + 32 * rings as u128 + 16 * (digits as u128 + 2)
}

// The part of an item, its words aside.
fn weight_of_frame(kinds: &[Kind], item: &PlanFrame) -> u128
    ensures value { result ≡ weight_of_frame kinds.now item.now }
    ensures below { result < 2 ^ 39 }
{
    match item {
        PlanFrame::Own(_) => 0,
        PlanFrame::Lag(_, _) => weight_of_rings(1, 0),
        PlanFrame::Over { .. } => {
            weight_of_rings(rings_of_frame(item), digits_of_frame(kinds, item))
        }
    }
}

// The parts of items, their words aside.
fn weight_of_items(kinds: &[Kind], items: &[PlanFrame]) -> u128
    requires { length items.now < 2 ^ 64 }
    ensures value { result ≡ sum_by (weight_of_frame kinds.now) items.now }
    ensures below { result ≤ length items.now * 2 ^ 40 }
{
    match items.split_first() {
        None => 0,
        Some((item, others)) => weight_of_frame(kinds, item) + weight_of_items(kinds, others),
    }
}

// The words of items.
fn words_of_items(items: &[PlanFrame]) -> u128
    requires { length items.now < 2 ^ 64 }
    ensures value { result ≡ sum_by (λ item. 2 * frames_in item + words_of_frame item) items.now }
    ensures below { result ≤ length items.now * 2 ^ 47 }
{
    match items.split_first() {
        None => 0,
        Some((item, others)) => {
            let own = 2 * frames_in(item) as u128 + words_of_frame(item) as u128;
            own + words_of_items(others)
        }
    }
}

// The words of items, and the one that counts rows.
fn words_of_frames(items: &[PlanFrame]) -> u128
    requires { length items.now < 2 ^ 64 }
    ensures value { result ≡ words_of_frames items.now }
    ensures below { result < 2 ^ 111 }
{
    1 + words_of_items(items)
}

// The part of items that wait so many cycles, their words aside.
fn weight_waiting(kinds: &[Kind], lines: u128, delay: u64, items: &[PlanFrame]) -> u128
    requires lines { lines < 2 ^ 65 }
    requires room { length items.now < 2 ^ 64 }
    ensures value { result ≡ weight_waiting kinds.now lines delay items.now }
    ensures below { result < 2 ^ 112 }
{
    times(4 * lines, delay.min(4) as u128 + 4) + 32 + weight_of_items(kinds, items)
}

// The part of the look-up of a key of so many bits, its words aside.
fn weight_of_look_up(width: u32, groups: u16) -> u128
    requires { width < 2 ^ 12 }
    ensures value { result ≡ weight_of_look_up width groups }
    ensures below { result < 2 ^ 22 }
{
    let way = if width <= 10 {
        160
    } else if groups <= 64 {
        96
    } else {
        80 * ((width as u128 + 1) / 2)
    };
    16 * groups as u128 + way
}

// The keys of so many bits.
fn keys_of(width: u32) -> u64
    requires { width ≤ 10 }
    ensures { result ≡ 2 ^ width }
{
    1u64 << width
}

// The words of such a look-up.
fn words_of_look_up(width: u32, groups: u16) -> u128
    requires { width < 2 ^ 12 }
    ensures value { result ≡ words_of_look_up width groups }
    ensures below { result < 2 ^ 111 }
{
    if width <= 10 {
        keys_of(width) as u128 + slots_of(groups) as u128
    } else if groups <= 64 {
        0
    } else {
        times((width as u128 + 1) / 2, slots_of(groups) as u128)
    }
}

// So many words in each of so many slots.
fn words_in_slots(slots: u64, words: u128) -> u128
    requires slots { slots ≤ 2 ^ 16 }
    requires words { words < 2 ^ 111 }
    ensures value { result ≡ slots * words }
    ensures below { result < 2 ^ 127 }
{
    slots as u128 * words
}

// The part of items over columns of these kinds, where their node has `lines` lines and no key.
fn weight_of_frames(kinds: &[Kind], lines: u128, items: &[PlanFrame]) -> u128
    requires lines { lines < 2 ^ 65 }
    requires room { length items.now < 2 ^ 64 }
    ensures value { result ≡ weight_of_frames kinds.now lines items.now }
    ensures below { result < 2 ^ 125 }
{
    let delay = delay_of_frames(kinds, items) as u64;
    weight_waiting(kinds, lines, delay, items) + words_of_frames(items) / 16
}

// The same by a key.
fn weight_with_key(kinds: &[Kind], lines: u128, by: PlanKey, items: &[PlanFrame]) -> u128
    requires lines { lines < 2 ^ 65 }
    requires room { length items.now < 2 ^ 64 }
    ensures value { result ≡ weight_by_key kinds.now lines (Some by) items.now }
    ensures below { result < 2 ^ 125 }
{
    let width = width_of_key(kinds, by);
    let delay = delay_by_key(kinds, Some(by), items);
    let slots = words_in_slots(slots_of(by.groups), words_of_frames(items));
    weight_waiting(kinds, lines, delay, items)
        + weight_of_look_up(width, by.groups)
        + (slots + words_of_look_up(width, by.groups)) / 16
}

// The part of items by a key, if there is one.
pub(crate) fn weight_by_key(
    kinds: &[Kind],
    lines: u128,
    by: Option<PlanKey>,
    items: &[PlanFrame],
) -> u128
    requires lines { lines < 2 ^ 65 }
    requires room { length items.now < 2 ^ 64 }
    ensures value { result ≡ weight_by_key kinds.now lines by items.now }
    ensures below { result < 2 ^ 125 }
{
    match by {
        None => weight_of_frames(kinds, lines, items),
        Some(by) => weight_with_key(kinds, lines, by, items),
    }
}
