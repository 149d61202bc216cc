//! From a module as it is written to the module that it means, or the first rule that it breaks.
#![tactic(auto)]

mod blocks;
mod declarations;
mod drivers;
mod elaborating;
mod expressions;
mod items;
mod numbers;
mod scope;
mod statements;
mod stop;
mod trees;

pub use elaborating::elaborate;
pub use stop::{Rule, Stop};
