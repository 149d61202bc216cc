//! Laws of serving, each of which stands in a function's contract.

ghost use Rattle.gl_wire.specs.Laws.{DelayServes, SteadyServes, EndsServe, FitsIsSide, FollowersKeepPace, OwnBeatsFit, TotalsComeWithEnds, UnspacedIsApart};

/// A steady block serves the rows computed or dropped one by one.
pub fn steady_serves()
    ensures { SteadyServes }
{}

/// A block that gives one row at each end serves the total of the stream.
pub fn ends_serve()
    ensures { EndsServe }
{}

/// A wire some cycles behind another serves the same rows.
pub fn delay_serves()
    ensures { DelayServes }
{}

/// Over its own beats a wire fits the figures of a stream.
pub fn own_beats_fit()
    ensures { OwnBeatsFit }
{}

/// A wire that follows another keeps its pace.
pub fn followers_keep_pace()
    ensures { FollowersKeepPace }
{}

/// What gives one row at each end has a tuple with each end.
pub fn totals_come_with_ends()
    ensures { TotalsComeWithEnds }
{}

/// Where no spacer is needed, what a wire carries is far enough apart.
pub fn unspaced_is_apart()
    ensures { UnspacedIsApart }
{}

/// What fits sound figures is a side: each tuple and end belongs to the beat whose interval is open.
pub fn fits_is_side()
    ensures { FitsIsSide }
{}
