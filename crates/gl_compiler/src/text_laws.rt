//! A law about the gaps of a statement.

ghost use Rattle.gl_compiler.specs.Built.{GapsAreNoFarther};

use gl_elaborate::laws::{plans_are_right, roots_are_right};
use gl_figures::laws::roots_come_closer;

/// Beats of a statement may come as close as the figures of its query say, form by form, and closer
/// where it has spare copies, or where its ticks are farther apart.
pub fn gaps_are_no_farther()
    ensures { GapsAreNoFarther }
{
    plans_are_right();
    roots_are_right();
    roots_come_closer();
}
