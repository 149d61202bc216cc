//! Worked statements, accepted or not. The contract of each function says which; it does nothing.

ghost use Rattle.gl_reference.specs.Worked.{AreAccepted, AreRefused};

/// A filter, windows of a filtered body, and columns side by side are accepted.
pub fn accepts_what_fits()
    ensures { AreAccepted }
{}

/// Unlike kinds, a number too wide, a filter that is no bit, unlike columns or paces, an open body
/// and too many windows are not.
pub fn refuses_what_does_not_fit()
    ensures { AreRefused }
{}
