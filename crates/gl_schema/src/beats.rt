//! Laws about what beats bring in to a query.

ghost use Rattle.gl_schema.specs.Beats.{AreInOrder, Beats, HavePlaces, HaveTimes, inputs_of};

/// Each row that beats bring has a time, in the rows' order, and none is above the number of ticks.
pub fn rows_have_times()
    ensures { (all : Beats) → HaveTimes (inputs_of all) }
{}

/// Each row that beats bring has a place, in the rows' order, and none is above a later one.
pub fn rows_have_places()
    ensures { (all : Beats) → AreInOrder all.list → HavePlaces (inputs_of all) }
{}
