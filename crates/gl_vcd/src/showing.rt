//! Which signals of a dump show a result, and the lines of that.

ghost use Rattle.std.specs.Prelude.{◌≡◌, ◌-◌, ◌≤◌, ◌==◌, ◌&&◌, ◌||◌, not, false, length, map, IfOk, OnOk};
ghost use Rattle.std.specs.List.{AllByRecursion};
ghost use Rattle.gl_values.specs.Kinds.{IsKind, width_of};
ghost use Rattle.gl_bits.specs.Words.{bits_of, widths_of};
ghost use Rattle.gl_outside.specs.States.{Wrote};
ghost use Rattle.gl_schema.specs.Seen.{lines_after};
ghost use Rattle.gl_vcd.specs.Showings.{IsLike, IsShowing, cycles_of, names_shown, shown_from, steady, told_after, value_in};
ghost use Rattle.gl_vcd.specs.Signals.{show_none};
ghost use Rattle.gl_vcd.specs.Standing.{HaveRoom, IsIndexed, signals_of};

use crate::columns::{Columns, columns_of, fill, value_in};
use crate::signals::Signals;
use gl_bits::{Memory, Row, Word};
use gl_outside::{Sink, WriteFault};
use gl_tuples::{Sample, put_cycle, zero_row};
use gl_values::Kind;
use std::alloc::Global;

/// The numbers of the signals that show a result, the row that they show, and whether it was told
/// that a further group came.
#[derive(Drop)]
pub struct Showing<'s, 'a> {
    /// The signals that are declared.
    pub signals: &'s Signals<'a>,
    /// The one that says that a row leaves.
    pub valid: Option<usize>,
    /// The one that says that the end is there.
    pub end: Option<usize>,
    /// The one that says that a further group came.
    pub group: Option<usize>,
    /// The columns.
    pub columns: Columns,
    /// What the columns show.
    pub row: Row,
    /// Whether it was told that a further group came.
    pub told: bool,
}

// Whether a line is high; one that is not there is not.
fn is_high(values: &[Option<Word>], number: Option<usize>) -> bool
    ensures { result ≡ (value_in values.now number == 1) }
{
    value_in(values, number) == 1
}

// Whether a cycle writes nothing.
fn is_silent(sample: Sample, told: bool) -> bool
    ensures { result ≡ not (sample.valid || sample.end || (sample.group && not told)) }
{
    !(sample.valid || sample.end || (sample.group && !told))
}

// What a result shows in a cycle.
#[derive(Drop)]
struct Shown<'r> {
    sample: Sample,
    row: &'r Row,
}

// Writes the lines of the cycles from one time to another that all show this.
fn put_cycles<K: Sink>(
    out: &mut K,
    kinds: &[Kind],
    shown: Shown<'_>,
    from: u64,
    to: u64,
    told: &mut bool,
) -> Result<(), WriteFault>
    requires many { length kinds.now ≤ 32 }
    requires kinds { AllByRecursion IsKind kinds.now }
    requires widths { widths_of shown.row.now ≡ map width_of kinds.now }
    requires order { from ≤ to }
    ensures wrote { let row = bits_of shown.entry.row.now in
        let all = cycles_of shown.entry.sample row from (to - from) in
        Wrote (K.state out.old) (K.state out.new) (lines_after told.old kinds.now all) result }
    ensures told { let row = bits_of shown.entry.row.now in
        let all = cycles_of shown.entry.sample row from (to - from) in
        OnOk result (told.new ≡ told_after told.old all) }
{
    for cycle in from..to {
        // Where a cycle shows nothing, those behind it show nothing either.
        if is_silent(shown.sample, *told) {
            return Ok(());
        }
        put_cycle(out, cycle, kinds, shown.row, *told, shown.sample)?;
        *told |= shown.sample.group;
    }
    Ok(())
}

impl<'s, 'a> Showing<'s, 'a> {
    /// Takes all the memory that it needs.
    pub fn new(alloc: Global, signals: &'s Signals<'a>) -> Result<Showing<'s, 'a>, Memory>
        requires indexed { IsIndexed signals.now }
        requires shows { show_none (signals_of signals.now) ≡ false }
        ensures shows { IfOk result IsShowing }
        ensures signals { IfOk result (λ s. s.signals ≡ signals.entry) }
        ensures untold { IfOk result (λ s. s.told ≡ false) }
    {
        let columns = columns_of(alloc, signals)?;
        let row = zero_row(alloc, columns.kinds.as_slice())?;
        Ok(Showing {
            signals,
            valid: signals.number_of_name(b"out__valid".as_slice()),
            end: signals.number_of_name(b"out__eos".as_slice()),
            group: signals.number_of_name(b"fault__group".as_slice()),
            columns,
            row,
            told: false,
        })
    }

    /// Writes the lines of the cycles from one time to another, in which the signals have these
    /// values.
    pub fn put<K: Sink>(
        &mut self,
        out: &mut K,
        values: &[Option<Word>],
        from: u64,
        to: u64,
    ) -> Result<(), WriteFault>
        requires shows { IsShowing self.old }
        requires room { HaveRoom (signals_of self.old.signals.now) values.now }
        requires order { from ≤ to }
        ensures lines { let signals = signals_of self.old.signals.now in
            let all = shown_from (steady signals values.now) (names_shown signals) from (to - from)
            in Wrote (K.state out.old) (K.state out.new)
            (lines_after self.old.told self.old.columns.kinds.items all) result }
        ensures told { let signals = signals_of self.old.signals.now in
            let all = shown_from (steady signals values.now) (names_shown signals) from (to - from)
            in OnOk result (self.new.told ≡ told_after self.old.told all) }
        ensures like { OnOk result (IsLike self.old self.new) }
    {
        let sample = Sample {
            group: is_high(values, self.group),
            valid: is_high(values, self.valid),
            end: is_high(values, self.end),
        };
        fill(&mut self.row, self.columns.numbers.as_slice(), values);
        let kinds = self.columns.kinds.as_slice();
        let shown = Shown {
            sample,
            row: &self.row,
        };
        put_cycles(out, kinds, shown, from, to, &mut self.told)
    }
}
