//! The laws of frames with PARTITION. The contract of each function is the law; it does nothing.

ghost use Rattle.gl_frames_keys.specs.Laws.{KeyedLanesGoLate, KeyedLanesOpen, KeyedLanesRun, PartitionsServe, SlotsHaveKeys};

/// A wire that gives for each row of one of the first keys what is made of its key's rows so far,
/// with a line that tells of further keys, serves that.
pub fn partitions_serve()
    ensures { PartitionsServe }
{}

/// On a lane whose slots take the rows of the first keys a slot's rows are those of its key. It
/// tells where their streams begin, and so it is one cycle later. What is made of a slot's rows is what is made of its key's.
pub fn keyed_lanes_run()
    ensures slots { SlotsHaveKeys }
    ensures opens { KeyedLanesOpen }
    ensures late { KeyedLanesGoLate }
    ensures runs { KeyedLanesRun }
{}
