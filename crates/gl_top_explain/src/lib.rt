//! Explaining the text of a query: it is read and judged, and its plan is shown as text; from the words
//! of `explain S Q` to a status.
//!
//! Here belongs which texts are explained and what refuses others. How a statement and its plan are
//! written belongs to gl_explain, and the lines of refusals to gl_top_status.
#![tactic(auto)]

pub mod answering;
pub mod explaining;

pub use answering::answer_explain;
pub use explaining::explain_query;
