//! Beats, their faults, the values of fields, and the lines of a result.
//!
//! Here belongs what a beat, a fault and a value are, how a row is printed, and the lines of one cycle of a result. What the
//! records of a file mean does not (`gl_tuple_reader`), nor where a line goes to (`gl_outside`), nor what beats
//! put on ports (`gl_schema`).
#![tactic(auto)]

pub mod beats;
pub mod fault;
mod flat;
pub mod line;
pub mod lines;
mod row;
pub mod value;

pub use beats::{Beat, BeatView, Beats, GrowingBeats, StreamRows};
pub use fault::TupleFault;
pub use line::line_into;
pub use lines::{Format, Sample, put_cycle, put_lines};
pub use row::{set_value, zero_row};
