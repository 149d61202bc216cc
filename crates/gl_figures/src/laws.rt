//! The law of spare copies, and worked ones.

ghost use Rattle.gl_root_gaps.specs.Roots.{RootsComeCloser};
ghost use Rattle.gl_algebra.specs.Spares.{SparesSuffice};
ghost use Rattle.gl_figures.specs.WorkedSpares.{WorkedSpares};

use gl_algebra::laws::{figures_are_sound, nodes_follow_tables};

/// Spare copies are enough, no fewer are, and beats come closer than without them.
pub fn spares_suffice()
    ensures { SparesSuffice }
{}

/// Spare copies and latencies of windows that were worked out by hand.
pub fn worked_spares()
    ensures { WorkedSpares }
{}

/// Beats of a plan may come as close as its root's own figures say, and closer where its root has spare copies, or ticks are
/// farther apart than tuples.
pub fn roots_come_closer()
    ensures { RootsComeCloser }
{
    figures_are_sound();
    nodes_follow_tables();
}
