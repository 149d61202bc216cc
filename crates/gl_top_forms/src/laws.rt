//! Worked command lines. The contract of the function says them; it does nothing.

ghost use Rattle.gl_top_forms.specs.Worked.{WorkedForms};

/// Worked command lines: the definition of the forms says of each what was worked out by hand.
pub fn worked_forms()
    ensures { WorkedForms }
{}
