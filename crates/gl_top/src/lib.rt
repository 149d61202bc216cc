//! All that the program does, over any shelf and any sinks.
//!
//! Here belongs what each command does with the texts that gl_top_inputs gives: `compile`, `figures`,
//! `run`, `vcd` and `load` on the text that a query is compiled to, `many`, `manyfigures` and `manyrun`
//! on that of several queries, `sim` on a given Verilog text, `undump` on a given dump, and help and `--version` on none. `why` tells
//! why texts are refused, in the sentences of gl_top_why. `explain`
//! belongs to gl_top_explain. The words' forms are those of gl_top_forms, what they say is found by
//! gl_top_matches, statuses and notes are those of gl_top_status.
#![tactic(auto)]

mod asking;
mod chain;
pub mod desk;
mod helping;
mod loading;
pub mod running;
mod showing;
mod tracing;
mod undumping;
mod version;
mod writing;

pub use desk::Desk;
pub use gl_top_forms::Part;
pub use gl_top_status::Status;
pub use running::run;
