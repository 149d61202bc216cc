//! Where two streams meet, or one is slowed down: queues in registers or memories, and the blocks that stand on them. A queue is known by what it does to
//! a list of entries, and nothing else of it is used by the blocks above it. Here belong the union, the joiner and the spacer; what goes
//! row by row does not, nor do windows and groups.
#![tactic(auto)]

pub mod joiner;
pub mod laws;
pub mod merge;
pub mod pacing;
pub mod queue;
pub mod ring;
pub mod short;
pub mod spacer;
pub mod union;

pub use joiner::Joiner;
pub use queue::{Queue, address_bits, put_queue};
pub use spacer::Spacer;
pub use union::UnionOf;
