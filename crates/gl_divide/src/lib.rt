//! A divider of words: a pipeline with one stage for each digit of the quotient, which takes a division in every cycle. What divides by 0
//! does not belong here, nor what a quotient is for.
#![tactic(auto)]

pub mod digit;
pub mod divider;
pub mod stage;

pub use divider::{Quotient, divide};
