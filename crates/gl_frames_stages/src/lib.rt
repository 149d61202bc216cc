//! Frames in stages: of each row of streams one after another what items make of the rows of its
//! stream up to it, so many cycles later. A stage reads a ring, makes something of a row, or folds
//! the rows; stages behind one another are put together by one law.
//!
//! Here belongs what a select of frames without PARTITION takes. What finds the slot of a key does
//! not.
#![tactic(auto)]

pub mod average;
pub mod delay;
pub mod doubling;
pub mod filtered;
pub mod framed;
pub mod frames;
pub mod input;
pub mod lagged;
pub mod last;
pub mod laws;
pub mod level;
pub mod lines;
pub mod number;
pub mod over;
pub mod recent;
pub mod slide;
pub mod sum;
pub mod whole;

pub use frames::{FrameRows, put_frames};
pub use input::Input;
pub use lines::Lines;
