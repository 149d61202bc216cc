//! The first assignment of a module whose net depends on itself. What else a module has to keep is
//! not asked here.
#![tactic(auto)]

mod loops;
mod ranks;

pub use loops::first_looped;
