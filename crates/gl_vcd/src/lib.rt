//! Value change dumps of the ports of a module: their text, and the result that one shows. After
//! IEEE 1364-2005, clause 18, of which this is a part.
#![tactic(auto)]

mod changing;
mod columns;
mod declaring;
pub mod fault;
pub mod laws;
pub mod outcome;
mod showing;
mod signals;
mod stop;
mod tokens;
pub mod undumping;
pub mod writing;

pub use fault::VcdFault;
pub use outcome::Undump;
pub use undumping::undump;
pub use writing::{cycle, header, is_dumped, last_time};
