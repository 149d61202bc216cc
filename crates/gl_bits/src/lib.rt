//! Words and rows, the lists of which all else is made, limits, and every plain lemma on truth values,
//! options, lists and words (`proofs/`, public).
//!
//! Here belongs what queries, plans, netlists and modules all speak of. Kinds, and what results are,
//! stand in gl_values.
#![tactic(auto)]

pub mod boxes;
pub mod limits;
pub mod listed;
pub mod row;
pub mod word;

pub use listed::Listed;
pub use row::{Memory, Row};
pub use word::Word;
