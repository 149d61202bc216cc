//! Laws of the as-of join. The contract of each function is the law; it does nothing.

ghost use Rattle.gl_asof.specs.Laws.{AsOfIsTheSentence, FramesAreAsOf};
ghost use Rattle.gl_asof.specs.Worked.{WorkedJoins, WorkedKeys, WorkedSides};

/// Worked joins: trades with quotes of their symbol, a side without rows, and symbols that come on
/// either side.
pub fn worked_joins()
    ensures joins { WorkedJoins }
    ensures sides { WorkedSides }
    ensures keys { WorkedKeys }
{}

/// Where the places of neither side fall, there is one row for each left row whose key is among the
/// first ones that come on either side. It is beside the last right row of its key that came no
/// later.
pub fn as_of_is_the_sentence<T, U, V>()
    ensures { AsOfIsTheSentence T U V }
{}

/// A select of frames by key over both sides, of which the rows for left rows are kept, is the join
/// where these rows are.
pub fn frames_are_as_of<T, U, V, W>()
    ensures { FramesAreAsOf T U V W }
{}
