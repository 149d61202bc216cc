//! Why the program ends: its status, and the one line on standard error that tells it; and a text that the words name, fetched from
//! a shelf.
//!
//! Here belong the refusals, the numbers of the statuses and the text of each line, the status of
//! an output that is written at once, and what each command does first: fetch a text, and read the schema. In which order
//! texts are judged, and what the first fault of all is, belongs to gl_top_inputs, and what is done where there is none to gl_top.
#![tactic(auto)]

mod faults;
pub mod fetching;
pub mod notes;
pub mod refusal;
pub mod status;

pub use faults::{query_place, schema_place, tuples_record};
pub use fetching::{fetch, fetch_schema, keep_schema};
pub use notes::{explain, show, tell, tell_no_end, tell_words, tell_write_fault};
pub use refusal::Refusal;
pub use status::{Status, exit_code};
