//! Numbers of nodes.

ghost use Rattle.std.specs.Prelude.{◌≡◌};

use std::hash::Hash;
use std::marker::Model;

/// A node of a plan, by its number: its place in the plan's list.
#[derive(Clone, Copy, PartialEq, Eq, Hash, Debug)]
pub struct PlanId(usize);

impl Model for PlanId {
    ghost use Rattle.std.specs.Prelude.{ℕ};

    ghost Value = { ℕ };

    ghost view = { λ id. id.0 };

    ghost inverse = { λ number. record { 0 = number } };
}

impl PlanId {
    /// The number.
    pub fn number(self) -> usize
        ensures { result ≡ self }
    {
        self.0
    }

    // The node of this number.
    pub(crate) fn of(number: usize) -> PlanId
        ensures { result ≡ number }
    {
        PlanId(number)
    }
}
