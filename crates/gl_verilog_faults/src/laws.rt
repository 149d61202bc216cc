//! Laws of faults: each function's contract is the law.

ghost use Rattle.gl_verilog_faults.specs.Laws.{AreValidOrBroken, DemandsAreNeeded, DemandsSuffice, LimitsAreCounted};

/// All demands are met and no net depends on itself, exactly where a written module means a valid
/// one.
pub fn demands_are_validity()
    ensures suffice { DemandsSuffice }
    ensures needed { DemandsAreNeeded }
{}

/// A written module means a valid one, or it breaks a rule at a token.
pub fn valid_or_broken()
    ensures { AreValidOrBroken }
{}

/// A module keeps the limits exactly where the counts of its tokens do.
pub fn limits_are_counted()
    ensures { LimitsAreCounted }
{}
