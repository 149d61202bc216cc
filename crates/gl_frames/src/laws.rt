//! Laws of frames. The contract of each function is the law; it does nothing.

ghost use Rattle.gl_frames.specs.Laws.{BestsMeet, BestsOverlap, CountsAreSums, ExtremesAreBests, FiltersAreMasks, FramesAreCounted, FramesArePlain, LagsArePlain, LastValuesAreOwn, LastValuesStay, RingsGiveEarlier, RowsAreFramed, ShortFramesAreWhole, SumsSlide};
ghost use Rattle.gl_frames.specs.Partitions.{EachIsPlain, KeysAreKnown, PartitionsArePlain};
ghost use Rattle.gl_frames.specs.Worked.{WorkedFrames};
ghost use Rattle.gl_frames.specs.WorkedTrades.{WorkedSelects, WorkedSigns, WorkedSymbols, WorkedTrades};

/// Worked frames: of numbers, of trades, of numbers with a sign, of each symbol, and of selects
/// over such a select.
pub fn worked_frames()
    ensures numbers { WorkedFrames }
    ensures trades { WorkedTrades }
    ensures signs { WorkedSigns }
    ensures symbols { WorkedSymbols }
    ensures selects { WorkedSelects }
{}

/// A select of frames has one row for each row of its source, made of the rows up to it. The frame
/// of row i has the rows from i - k to i, its lag is row i - k, and its last value is its own.
pub fn frames_are_plain<T, U>()
    ensures rows { RowsAreFramed T U }
    ensures frames { FramesArePlain T }
    ensures short { ShortFramesAreWhole T }
    ensures lags { LagsArePlain T }
    ensures last_values { LastValuesAreOwn T }
{}

/// With PARTITION there is one row for each row of the first keys of the whole list, in its order.
/// It is made of the rows of its key up to it. Whether the key is among the first ones is known
/// then.
pub fn partitions_are_plain<T, U>()
    ensures each { EachIsPlain T U }
    ensures known { KeysAreKnown T }
    ensures plain { PartitionsArePlain T U }
{}

/// A sum over the last words goes on by the one that comes and the one that leaves. Words that a
/// FILTER leaves out are 0, and a count is a sum. Without a FILTER it is the number of rows or
/// k + 1.
pub fn sums_slide<T>()
    ensures slide { SumsSlide }
    ensures filters { FiltersAreMasks T }
    ensures counts { CountsAreSums T }
    ensures lengths { FramesAreCounted T }
{}

/// The last value that passes, over all rows, is that of this row where it passes, or stays.
pub fn last_values_stay<T>()
    ensures { LastValuesStay T }
{}

/// The best of more rows is that of two windows, which may overlap. A column of such bests gives
/// at an earlier row what was the best then. The least and the greatest of a kind are such bests.
pub fn bests_meet<T, U>()
    ensures meet { BestsMeet T }
    ensures overlap { BestsOverlap T }
    ensures earlier { RingsGiveEarlier T U }
    ensures extremes { ExtremesAreBests }
{}
