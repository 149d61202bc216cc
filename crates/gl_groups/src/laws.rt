//! The laws of groups.

ghost use Rattle.gl_groups.specs.Costs.{GroupingsAreCounted};
ghost use Rattle.gl_groups.specs.LaneLaws.{LanesServe};
ghost use Rattle.gl_groups.specs.Laws.{GroupingsServe, GroupsGroup};
ghost use Rattle.gl_groups.specs.Worked.{WorkedGroups};

use gl_wire::copy_laws::fits_is_timed;
use gl_wire::laws::{ends_serve, own_beats_fit, steady_serves};

/// A front, copies that serve a body, and a back serve what the body makes of each group, joined.
pub fn groupings_serve()
    ensures { GroupingsServe }
{
    fits_is_timed();
}

/// A lane, row operators, a table of totals and a gatherer serve what a body of such operators and that total makes of each group, joined.
pub fn lanes_serve()
    ensures { LanesServe }
{
    fits_is_timed();
    own_beats_fit();
    steady_serves();
    ends_serve();
}

/// The groups of a plan have numbers that a circuit can have.
pub fn groups_group()
    ensures { GroupsGroup }
{}

/// Worked streams: the definition of a front gives the visits that were worked out by hand.
pub fn worked_groups()
    ensures { WorkedGroups }
{}

/// What groups cost is within what a plan counts for them.
pub fn costs_are_counted()
    ensures { GroupingsAreCounted }
{}
