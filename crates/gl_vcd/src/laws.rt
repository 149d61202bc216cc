//! Laws of dumps: the contract of each function says one; it does nothing.

ghost use Rattle.gl_vcd.specs.RoundTrip.{DumpsReadBack};
ghost use Rattle.gl_vcd.specs.Worked.{WorkedDumps, WorkedFaults, WorkedTexts};

/// A worked dump: what is written of it, and what it shows.
pub fn worked_dumps()
    ensures { WorkedDumps }
{}

/// Worked texts, and the lines that they show.
pub fn worked_texts()
    ensures { WorkedTexts }
{}

/// Worked texts that are no dumps, and their first faults.
pub fn worked_faults()
    ensures { WorkedFaults }
{}

/// What is written of a run is a dump of that run, and shows the lines of the run, all values in
/// decimal.
pub fn dumps_read_back()
    ensures { DumpsReadBack }
{}
