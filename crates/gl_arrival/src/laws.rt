//! Laws of the order of arrival. The contract of each function is the law; it does nothing.

ghost use Rattle.gl_arrival.specs.Laws.{ChangesAreSteps, ChangesGoByRows, ChangesNeverFall, FirstGoesLast, GoesByOrder, Interleaves, IsTheOrder, Restores, SecondGoesLast};
ghost use Rattle.gl_arrival.specs.Worked.{WorkedBodies, WorkedJoins, WorkedNests, WorkedPlaces, WorkedUnions};

/// Worked lists: two streams, three of them in both nests, windows, and each trade with the last
/// quote of its symbol.
pub fn worked_arrivals()
    ensures unions { WorkedUnions }
    ensures nests { WorkedNests }
    ensures bodies { WorkedBodies }
    ensures joins { WorkedJoins }
    ensures places { WorkedPlaces }
{}

/// Rows by arrival are one of the interleavings that UNION has. Those of each side are that side.
pub fn arrival_interleaves<T>()
    ensures interleaves { Interleaves T }
    ensures restores { Restores T }
{}

/// No row stands behind one at a later place, and of one place the left side's rows stand first.
/// No other interleaving is so.
pub fn arrival_is_the_order<T>()
    ensures { IsTheOrder T }
{}

/// A row more of either side goes last where it belongs behind all rows of the other side.
pub fn last_rows_go_last<T>()
    ensures first { FirstGoesLast T }
    ensures second { SecondGoesLast T }
{}

/// Only the order of places counts, and no row does.
pub fn arrival_goes_by_order<T, U>()
    ensures { GoesByOrder T U }
{}

/// Selects over rows at places are those of rows, and put no row behind one at a later place.
pub fn changes_keep_places<T, U>()
    ensures rows { ChangesGoByRows T U }
    ensures steps { ChangesAreSteps T U }
    ensures order { ChangesNeverFall T U }
{}
