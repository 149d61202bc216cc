//! Frames, the window functions of SQL: what each row of a list has of the rows up to it, and the
//! equations by which circuits find it.
//!
//! Here belongs what is said of lists alone. What has a cycle or a wire stands in gl_frames_wire.
#![tactic(auto)]

pub mod laws;
