//! Windows with spare copies at the root of a plan, and the numbers of their machine.

ghost use Rattle.std.specs.Prelude.{◌≡◌};
ghost use Rattle.gl_spare.specs.Rotations.{IsRotation};
ghost use Rattle.gl_wiring.specs.SpareWindows.{IsSpareWindow, rotation_with};

use crate::below::laws_below;
use crate::site::Site;
use crate::windows::WindowOf;
use gl_algebra::Spare;
use gl_spare::SpareRotation;

/// Windows at the root of a plan, with spare copies of their body.
#[derive(Clone, Copy)]
pub struct SpareWindowOf {
    /// The windows.
    pub window: WindowOf,
    /// Their spare copies.
    pub spare: Spare,
}

impl SpareWindowOf {
    // The rotation over all copies.
    pub(crate) fn rotation(&self, site: Site<'_>) -> SpareRotation
        requires node { IsSpareWindow site.plan.now self.now }
        ensures value { let s = site.entry in result ≡ rotation_with s.plan.now self.now }
        ensures is { IsRotation result }
    {
        laws_below();
        SpareRotation {
            size: self.window.size,
            advance: self.window.advance,
            body: site.figures_at(self.window.body),
            spare: self.spare,
        }
    }
}
