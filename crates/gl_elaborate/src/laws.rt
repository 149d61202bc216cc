//! Laws of elaboration. The contract of each function is the law; it does nothing.

ghost use Rattle.gl_elaborate.specs.Laws.{PlansAreRight, PlansTellTime, SeveralAreRight};
ghost use Rattle.gl_elaborate.specs.Whole.{RootsAreRight};

use gl_query::laws::results_are_long;

/// The plan of a checked statement is a plan whose nodes fit where they are added; its root has the query's
/// columns, closing, pace, leaves and figures; and each of the root's results, with its spill, is one of the
/// statement.
pub fn plans_are_right()
    ensures { PlansAreRight }
{
    results_are_long();
}

/// Of several statements, each planned behind those before it, each is right at its own root, as if it were
/// alone.
pub fn several_are_right()
    ensures { SeveralAreRight }
{
    results_are_long();
}

/// The plan of a statement has a window of time exactly where the statement has one.
pub fn plans_tell_time()
    ensures { PlansTellTime }
{}

/// The root of a statement's plan has the spare copies, the figures and the gaps of ticks that the statement has
/// by the form of its query.
pub fn roots_are_right()
    ensures { RootsAreRight }
{
    results_are_long();
}
