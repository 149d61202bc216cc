//! What is wrong with a text that has no module: the first fault, by cases. Definitions and laws
//! alone belong here; what finds the fault stands above.
#![tactic(auto)]

pub mod laws;
