//! Figures of what operators give.

ghost use Rattle.std.specs.Prelude.{◌≡◌};
ghost use Rattle.gl_algebra.specs.declared.figures.Figures.{Figures};
ghost use Rattle.gl_algebra.specs.FigureTable.{AreSmall, IsSound, aggregate_figures, delayed, settled};

use gl_algebra::Figures;

/// The figures of what comes `cycles` cycles later.
pub fn delayed_figures(source: Figures, cycles: u32) -> Figures
    requires sound { IsSound source }
    requires small { AreSmall (delayed cycles source) }
    ensures value { result ≡ delayed cycles source }
    ensures sound { IsSound result }
{
    Figures {
        a: source.a + cycles,
        lt: source.lt + cycles,
        le: source.le + cycles,
        ..source
    }
}

/// The figures with the first cycle as the last one after a beat without the end, where no tuple comes after such a beat.
pub fn settled_figures(source: Figures) -> Figures
    requires { IsSound source }
    ensures value { result ≡ settled source }
    ensures sound { IsSound result }
{
    match source.nt {
        0 => Figures {
            lt: source.a,
            ..source
        },
        _ => source,
    }
}

/// The figures of one row with each end, `cycles` cycles later.
pub fn total_figures(source: Figures, cycles: u32) -> Figures
    requires sound { IsSound source }
    requires small { AreSmall (aggregate_figures cycles source) }
    ensures value { result ≡ aggregate_figures cycles source }
    ensures sound { IsSound result }
{
    Figures {
        a: source.a + cycles,
        lt: source.a + cycles,
        le: source.le + cycles,
        nt: 0,
        ne: 1,
        gt: source.gt,
        ge: source.ge.max(source.le - source.a + 1),
    }
}
