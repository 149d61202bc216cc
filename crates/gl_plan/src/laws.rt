//! A law of the limits of plans. The contract of the function is the law; it does nothing.

ghost use Rattle.gl_plan.specs.Planned.{PlansPassOneLimit};

/// A plan that passes a limit passes no other, and is not within the limits.
pub fn plans_pass_one_limit()
    ensures { PlansPassOneLimit }
{}
