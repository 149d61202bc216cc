//! Shelves: texts by name.

ghost use Rattle.std.specs.Prelude.{◌<◌, ◌≤◌, length, Contains};
ghost use Rattle.gl_outside.specs.States.{ShelfState, Stays, Fetched};
ghost use Rattle.gl_outside.specs.Fetched.{FitsRoom, Says};

/// The most bytes of a text that is read: 64 MiB.
pub const TEXT_LIMIT: u64 = 67_108_864;

/// What a fetch gives.
#[derive(Clone, Copy, PartialEq, Eq, Debug)]
pub enum Fetch {
    /// So many bytes, at least one, now stand at the front of the buffer.
    Got(usize),
    /// The text has no byte at this place or behind it.
    End,
    /// No text has the name. The count of misses rose.
    Missing,
    /// The outside failed. The count of faults rose.
    Failed,
    /// Want of memory.
    Memory,
}

/// Texts by name, for a list of names that is fixed when the shelf is made.
///
/// What is seen of a shelf are its names, what it tells of the text of a name, how often a text was
/// missing, how often a call failed, and the one of its names that last missed or failed.
pub trait Shelf {
    ghost state: { Self → ShelfState };

    /// Reads the text of this name from the byte at this place on, as far as the buffer has room.
    fn fetch(&mut self, name: &str, at: u64, into: &mut [u8]) -> Fetch
        requires room { 0 < length into.old }
        requires listed { Contains (state self.old).names name.now }
        requires within { at ≤ TEXT_LIMIT }
        ensures amount { FitsRoom (length into.old) result }
        // A refusal has its cause and leaves its name; any other answer leaves the counts and the
        // name.
        ensures counts { Fetched (state self.old) (state self.new) name.now result }
        // What the answer says of the text, where the shelf tells it.
        ensures says { Says ((state self.old).told name.now) at into.new result }
        // The names and the texts stay.
        ensures stays { Stays (state self.old) (state self.new) };
}
