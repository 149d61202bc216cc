//! Laws of copies, each of which stands in a function's contract.

ghost use Rattle.gl_wire.specs.CopyLaws.{FitsIsTimed};

/// A wire that fits, and carries so far apart, is in time for a front.
pub fn fits_is_timed()
    ensures { FitsIsTimed }
{}
