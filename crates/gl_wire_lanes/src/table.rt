//! What a table of states gives.

use gl_net::Bus;
use gl_wire::Wire;

/// The totals of the streams of all slots on one wire, and whose each is.
#[derive(Drop)]
pub struct TableOut {
    /// One row with the end of each stream.
    pub wire: Wire,
    /// The slot of each cycle.
    pub slot: Bus,
}
