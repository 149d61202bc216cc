//! The law of windows, and what a rotation costs.

ghost use Rattle.gl_windows.specs.Costs.{RotationsAreCounted, TimesAreCounted};
ghost use Rattle.gl_windows.specs.Laws.{RotationsServe, WindowsRotate};
ghost use Rattle.gl_windows.specs.TimeRotations.{TimesRotate};
ghost use Rattle.gl_windows.specs.Worked.{WorkedWindows};
ghost use Rattle.gl_windows.specs.WorkedTimes.{WorkedTimes};

use gl_wire::copy_laws::fits_is_timed;

/// A front, copies that serve a body, and a back serve what the body makes of each window, joined.
pub fn rotations_serve()
    ensures { RotationsServe }
{
    fits_is_timed();
}

/// What a rotation costs is within what a plan counts for it.
pub fn costs_are_counted()
    ensures { RotationsAreCounted }
{}

/// A window of a plan has a rotation over as many copies as it counts.
pub fn windows_rotate()
    ensures { WindowsRotate }
{}

/// Worked streams: the definition of a front gives the visits that were worked out by hand.
pub fn worked_windows()
    ensures { WorkedWindows }
{}

/// What a rotation of windows of time costs is within what a plan counts for it.
pub fn times_are_counted()
    ensures { TimesAreCounted }
{}

/// A window of time of a plan has a rotation over as many copies as it counts.
pub fn times_rotate()
    ensures { TimesRotate }
{}

/// Worked streams with ticks: the definition of a front gives the visits that were worked out by hand.
pub fn worked_times()
    ensures { WorkedTimes }
{}
