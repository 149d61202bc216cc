//! Reading tuple files.
//!
//! Here belong the records of a file and the beats that they are. What a beat, a fault and a line
//! are does not (`gl_tuples`), nor where the bytes come from (`gl_outside`).
#![tactic(auto)]

mod entry;
mod filing;
mod progress;
pub mod reading;
mod record;
mod setting;

pub use reading::{one_reading, read_tuples};
