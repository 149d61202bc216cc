//! Operators: what stands between a wire and a wire.

ghost use Rattle.std.specs.Prelude.{◌≡◌, ℕ, List, IfOk};
ghost use Rattle.gl_algebra.specs.declared.figures.Figures.{Figures};
ghost use Rattle.gl_algebra.specs.FigureTable.{AreSmall, IsSound};
ghost use Rattle.gl_algebra.specs.Values.{Sets};
ghost use Rattle.gl_values.specs.Results.{Row};
ghost use Rattle.gl_net.specs.Net.{Net};
ghost use Rattle.gl_wire.specs.Blocks.{IsBehind};
ghost use Rattle.gl_wire.specs.Costs.{Cost};
ghost use Rattle.gl_wire.specs.Operators.{ServesIn};
ghost use Rattle.gl_wire.specs.Wire.{Carried, IsWire, widths};

use crate::emitted::Emitted;
use gl_algebra::Figures;
use gl_bits::Memory;
use gl_net::NetBuilder;
use std::alloc::Global;

/// An operator of one input. It holds the kinds of its columns where it needs them.
pub trait Operator {
    /// Whether it takes an input with columns of these widths, in this netlist.
    ghost takes: { Self → Net → List ℕ → Type 0 };

    /// The widths of the columns that it gives for those of its input.
    ghost gives: { Self → List ℕ → List ℕ };

    /// What it costs at most.
    ghost most: { Self → List ℕ → Cost };

    /// What its wire carries, for what its input carries and the words of the parameters.
    ghost shape: { Self → Sets → Carried → Carried → Type 0 };

    /// Which rows may come out for those that come in and the words of the parameters.
    ghost means: { Self → Sets → List Row → List Row → Type 0 };

    /// The figures of its output for those of its input.
    ghost figures_of: { Self → Figures → Figures };

    /// The figures of the output.
    fn figures(&self, source: Figures) -> Figures
        requires sound { IsSound source }
        requires small { AreSmall (figures_of self.now source) }
        ensures value { result ≡ figures_of self.now source }
        ensures sound { IsSound result };

    /// Adds the operator behind its input, and gives what comes out.
    fn emit(&self, alloc: Global, net: &mut NetBuilder, below: Emitted) -> Result<Emitted, Memory>
        requires wire { IsWire net.old below.wire }
        requires columns { takes self.now net.old (widths below.wire.columns) }
        ensures behind { IfOk result (IsBehind net.old net.new (shape self.now)
            (gives self.now (widths below.wire.columns)) (most self.now (widths below.wire.columns)) below) }
        ensures serves { IfOk result
            (ServesIn net.new (figures_of self.now) (means self.now) below) };
}
