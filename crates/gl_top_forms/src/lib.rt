//! The forms of command lines: which command the words are, which texts they name, what a run
//! starts from, how long a simulation waits for its end, and how many tuples a load has. What help
//! writes of them, and which word is wrong where there is no form.
//!
//! Here belongs what the words alone say. What the texts say, and what a command does, stands above
//! (`gl_top`).
#![tactic(auto)]

pub mod command;
pub mod copying;
pub mod help;
pub mod laws;
pub mod reading;
pub mod taken;
pub mod wrong;

pub use command::{Command, Part};
pub use copying::copied;
pub use help::help_text;
pub use reading::{command_named, command_of, extra_at, load_at, name_of, start_at};
pub use taken::Taken;
pub use wrong::{Wrong, wrong_of, wrong_word};
