//! Laws of windows, groups and interleavings. The contract of each function is the law; it does
//! nothing.

ghost use Rattle.gl_values.specs.WorkedBits.{WorkedBits};
ghost use Rattle.gl_values.specs.WorkedPartitions.{WorkedParts};
ghost use Rattle.gl_values.specs.Laws.{GroupsHaveFirstKeys, InterleavingsKeepOrders, NoSlicesOfNothing, PartsAreSlices, SlicesAreParts, SlicesMissNothing, TimeSlicesAreParts, TimeSlicesGrow};

/// An empty list has no slices.
pub fn no_slices_of_nothing<T>()
    ensures { NoSlicesOfNothing T }
{}

/// Slice j is the part from place j times the advance, where that is below the length, and there
/// are no other slices.
pub fn slices_are_parts<T>()
    ensures { SlicesAreParts T }
{}

/// Where the advance is at most the size, every element is in some slice.
pub fn slices_miss_nothing<T>()
    ensures { SlicesMissNothing T }
{}

/// Window j of time has the elements whose time is from j times the advance on, within the size; it
/// is there where j times the advance is at most the ticks, and there are no other windows.
pub fn time_slices_are_parts<T>()
    ensures { TimeSlicesAreParts T }
{}

/// An element more joins exactly the windows of time that its time is in, behind their others.
pub fn time_slices_grow<T>()
    ensures { TimeSlicesGrow T }
{}

/// The groups hold exactly the rows whose key is among the first keys, each in order and once.
pub fn groups_have_first_keys<T>()
    ensures { GroupsHaveFirstKeys T }
{}

/// An interleaving is a permutation of both lists that keeps both orders.
pub fn interleavings_keep_orders<T>()
    ensures { InterleavingsKeepOrders T }
{}

/// The windows of each of the first keys are the slices of its rows, in their order, and no other
/// key has one.
pub fn parts_are_slices<T>()
    ensures { PartsAreSlices T }
{}

/// Worked windows of two keys and of a third one.
pub fn worked_parts()
    ensures { WorkedParts }
{}

/// Worked words of the operators on bits.
pub fn worked_bits()
    ensures { WorkedBits }
{}
