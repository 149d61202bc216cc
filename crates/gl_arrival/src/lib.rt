//! The order of arrival: rows at the places at which they came, two lists of them in one, and
//! selects that keep places.
//!
//! Here belongs what is said of lists alone. Which queries arrive is said in gl_query, and what a
//! circuit makes of it in gl_turns.
#![tactic(auto)]

pub mod laws;
