//! What a module's text tells its readers: a name for each net, headings of sections, and the lines in front.
//!
//! Here belongs which words of a query, of its plan and of the notes in a netlist become such labels. Clauses say
//! how many there are, and nothing of the words. How labels are printed stands in gl_verilog_writer.
#![tactic(auto)]

mod columns;
mod head;
mod kinds;
pub mod labels;
mod naming;
mod owners;
mod passing;
mod scopes;
pub mod subject;
mod telling;

pub use head::VERSION;
pub use labels::labels_of;
pub use subject::{Figured, Subject};
