//! Why a text is refused, in sentences: where it stands, what is wrong, and what one writes in its
//! place.
//!
//! Here belong the sentences, as tables of text, and which of them is told of a place. What is refused
//! and where belongs to the readers below, and the line that tells it to gl_top_status. No clause says
//! what a sentence says.
#![tactic(auto)]

mod calls;
mod elsewhere;
mod expected;
pub mod explaining;
mod fields;
mod frames;
mod functions;
mod joins;
mod kinds;
mod lacking;
mod lines;
mod names;
mod pieces;
mod querying;
mod records;
mod rules;
mod schemas;
mod settings;
mod states;
mod syntax;
mod texts;
mod unions;
mod words;

pub use explaining::{Refused, explanation};
