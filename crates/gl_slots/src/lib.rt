//! Slots of keys: which slot takes a row and which one ends, the lines and the look-up of the slots, their flush after an end, and what
//! joins the copies behind them with the keys in front. Here belongs what any machine with a slot for each key needs; what a group or a
//! window of a key is does not, nor what a body makes of a slot's rows.
#![tactic(auto)]

pub mod choices;
pub mod front;
pub mod homes;
pub mod joins;
mod notes;
pub mod parts;
pub mod pick;
pub mod slots;
