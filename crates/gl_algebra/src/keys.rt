//! How a node of frames finds the slot of a row's key: the cycles that it takes, and the slots.

ghost use Rattle.std.specs.Prelude.{◌≡◌, ◌<◌, ◌≤◌, ◌^◌};
ghost use Rattle.gl_algebra.specs.Keys.{cycles_of_look_up, delay_by_key, width_of_key};
ghost use Rattle.gl_algebra.specs.Rings.{ring};

use crate::columns::kind_of_column;
use crate::frames::{delay_of_frames, ring};
use crate::node::{PlanFrame, PlanKey};
use gl_values::Kind;

/// The bits of a key.
pub fn width_of_key(kinds: &[Kind], by: PlanKey) -> u32
    ensures value { result ≡ width_of_key kinds.now by }
    ensures most { result < 2 ^ 12 }
{
    u32::from(kind_of_column(kinds, by.key as usize).bits())
}

/// The slots of so many groups.
pub fn slots_of(groups: u16) -> u64
    ensures value { result ≡ ring groups }
    ensures most { result ≤ 2 ^ 16 }
{
    ring(groups as u64)
}

/// The cycles until the slot of a key of so many bits is known.
pub fn cycles_of_look_up(width: u32, groups: u16) -> u32
    requires { width < 2 ^ 12 }
    ensures value { result ≡ cycles_of_look_up width groups }
    ensures most { result < 2 ^ 12 }
{
    if width <= 10 {
        3
    } else if groups <= 64 {
        2
    } else {
        (width + 1) / 2
    }
}

/// The cycles of the slowest item, and by a key those until its slot is known before them.
pub fn delay_by_key(kinds: &[Kind], by: Option<PlanKey>, items: &[PlanFrame]) -> u64
    ensures value { result ≡ delay_by_key kinds.now by items.now }
    ensures most { result < 2 ^ 33 }
{
    let delay = u64::from(delay_of_frames(kinds, items));
    match by {
        None => delay,
        Some(by) => {
            let known = cycles_of_look_up(width_of_key(kinds, by), by.groups);
            delay + u64::from(known) + 1
        }
    }
}
