//! Which columns of a row the key and the items of a node of frames ask for, and the same node over
//! these columns alone.
//!
//! Here belongs what is said of a plan's nodes. The circuit that carries these columns alone stands
//! above.
#![tactic(auto)]

pub mod among;
pub mod asked;
pub mod laws;

pub use among::{asked_items, asked_kinds, place_among};
pub use asked::asked_columns;
