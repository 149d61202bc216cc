//! Building blocks of registers for machines over copies of a body: registers that read each other, counters and pointers, lines and wires
//! of many copies, a timer, and a back that joins the copies' wires. Here belongs what a machine is put together of, with what it gives in
//! every cycle of every run; what a machine does with a stream, and when a copy has its turn, does not.
#![tactic(auto)]

pub mod back;
pub mod counters;
pub mod front;
pub mod joins;
pub mod lines;
pub mod numbers;
pub mod over_copies;
pub mod registers;
pub mod rows;
pub mod timers;
pub mod widths;

pub use back::{choose_row, join_copies};
pub use counters::{Counter, count_down, hold, latch, next_count, next_pointer, pointer};
pub use front::{Arrival, Front, stride};
pub use joins::{join_all, join_lines};
pub use lines::{
    Bits, LineOp, any, buses_of, buses_with, decode, gate, lines_of, pairwise, with_all,
};
pub use numbers::{always, never, number_at, number_or, when_equal, word};
pub use over_copies::OverCopies;
pub use registers::{drive_all, open_all, open_same};
pub use rows::{Wires, copy_wires, hold_all, same_buses};
pub use timers::{close_line, later_by, timer};
pub use widths::{bits_below, bits_to};
