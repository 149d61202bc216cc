//! Figures of rows one cycle later.

ghost use Rattle.std.specs.Prelude.{◌≡◌};
ghost use Rattle.gl_algebra.specs.FigureTable.{AreSmall, IsSound, delayed, settled};

use gl_algebra::Figures;
use gl_wire::{delayed_figures, settled_figures};

/// The figures of rows one cycle later, each of which may have been left out.
pub fn later_figures(source: Figures) -> Figures
    requires sound { IsSound source }
    requires small { AreSmall (settled (delayed 1 source)) }
    ensures value { result ≡ settled (delayed 1 source) }
    ensures sound { IsSound result }
{
    settled_figures(delayed_figures(source, 1))
}
