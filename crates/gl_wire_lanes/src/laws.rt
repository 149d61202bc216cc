//! The laws of lanes, each of which stands in a function's contract.

ghost use Rattle.std.specs.Prelude.{List, ℕ};
ghost use Rattle.gl_wire_lanes.specs.Laws.{AheadIsKept, BeginsBehind, BothAreKept, EventsAreFresh, OneIsSingle, RegisterIsKept, SharesAreStreams, SinglesAreStreams, TablesFold};

/// What is kept for each slot is the fold of the rows of that slot's stream, whatever the words were at the start.
pub fn tables_fold()
    ensures { TablesFold ℕ (List ℕ) }
{}

/// Two states that are kept for the same slots are one.
pub fn both_are_kept()
    ensures { BothAreKept ℕ ℕ }
{}

/// A memory that is read a cycle ahead, past what is written at once, keeps states for slots.
pub fn ahead_is_kept()
    ensures { AheadIsKept ℕ }
{}

/// A register that begins anew behind each end keeps the state of one slot.
pub fn register_is_kept()
    ensures { RegisterIsKept ℕ }
{}

/// Streams one after another are a lane of one slot, which tells where they begin.
pub fn one_is_single()
    ensures { OneIsSingle }
{}

/// In a lane that tells where streams begin, each cycle with a row or an end begins one exactly if none is open.
pub fn events_are_fresh()
    ensures { EventsAreFresh }
{}

/// What is some cycles behind such a lane, rows dropped or not, tells where streams begin too.
pub fn begins_behind()
    ensures { BeginsBehind }
{}

/// The rows of a slot in a lane are the stream of its share.
pub fn shares_are_streams()
    ensures { SharesAreStreams }
{}

/// The rows of streams one after another are those of the wire.
pub fn singles_are_streams()
    ensures { SinglesAreStreams }
{}
