//! The signals of a dump, in their order, by their identifiers and names.

ghost use Rattle.std.specs.Prelude.{◌≡◌, ◌++◌, ◌∷◌, [], false, bytes_eq, length, map, nat_lt, IfErr, MatchResult, OnOk};
ghost use Rattle.std.specs.List.{list_any};
ghost use Rattle.gl_vcd.specs.Signals as spec;
ghost use Rattle.gl_vcd.specs.Standing.{IsIndexed, IsNew, is_fault, signal_of, signals_of, words_in};

use crate::stop::Stop;
use indexmap::IndexSet;
use std::alloc::Global;

/// A signal: its identifier, its name and its bits.
#[derive(Clone, Copy, Debug)]
pub struct Signal<'a> {
    /// Its identifier.
    pub code: &'a [u8],
    /// Its name.
    pub name: &'a [u8],
    /// Its bits: 1 to 128.
    pub width: u8,
}

/// The signals so far. The numbers of identifiers and names are those of the signals.
#[derive(Drop)]
pub struct Signals<'a> {
    /// The signals, in the order of the text.
    pub list: Vec<Signal<'a>>,
    /// Their identifiers.
    pub codes: IndexSet<&'a [u8]>,
    /// Their names.
    pub names: IndexSet<&'a [u8]>,
}

// Adds a word behind the others, none of which it is.
fn put<'a>(words: &mut IndexSet<&'a [u8]>, word: &'a [u8]) -> Result<(), Stop>
    requires { list_any (bytes_eq word.now) (words_in words.old.keys) ≡ false }
    ensures { MatchResult result (λ _. words_in words.new.keys
        ≡ words_in words.old.keys ++ word.now ∷ []) (λ e. is_fault e ≡ false) }
{
    words.insert(word)?;
    Ok(())
}

impl<'a> Signals<'a> {
    /// No signal.
    pub fn new(alloc: Global) -> Signals<'a>
        ensures none { signals_of result ≡ [] }
        ensures indexed { IsIndexed result }
    {
        Signals {
            list: Vec::new(alloc),
            codes: IndexSet::new(alloc),
            names: IndexSet::new(alloc),
        }
    }

    /// The number of the signal with an identifier.
    pub fn number_of_code(&self, code: &[u8]) -> Option<usize>
        requires { IsIndexed self.now }
        ensures { result ≡ spec.number_of_code (signals_of self.now) code.now }
    {
        self.codes.get_index_of(code)
    }

    /// The number of the signal with a name.
    pub fn number_of_name(&self, name: &[u8]) -> Option<usize>
        requires { IsIndexed self.now }
        ensures { result ≡ spec.number_of_name (signals_of self.now) name.now }
    {
        self.names.get_index_of(name)
    }

    /// Adds a signal behind the others, whose identifier and name are new.
    pub fn add(&mut self, signal: Signal<'a>) -> Result<(), Stop>
        requires indexed { IsIndexed self.old }
        requires new { IsNew (signals_of self.old) (signal_of signal) }
        ensures added { OnOk result (signals_of self.new
            ≡ signals_of self.old ++ signal_of signal.entry ∷ []) }
        ensures indexed { OnOk result (IsIndexed self.new) }
        ensures stopped { IfErr result (λ e. is_fault e ≡ false) }
    {
        put(&mut self.codes, signal.code)?;
        put(&mut self.names, signal.name)?;
        self.list.push(signal)?;
        Ok(())
    }
}

/// Whether a signal shows a column of a result.
#[tactic(auto, unfolding(gl_schema::specs::Ports::out_valid, gl_schema::specs::Ports::out_eos))]
pub fn shows_column(signal: &Signal) -> bool
    ensures { result ≡ spec.shows_column (signal_of signal.now) }
{
    let name = signal.name;
    name.starts_with(b"out__".as_slice())
        && name != b"out__valid".as_slice()
        && name != b"out__eos".as_slice()
}

// Whether a signal of this name and one bit is there.
fn has_line(signals: &[Signal], name: &[u8]) -> bool
    ensures { result ≡ spec.has_line (map signal_of signals.now) name.now }
{
    signals
        .iter()
        .any(|signal| signal.name == name && signal.width == 1)
}

// Whether a signal of this name and more bits is there.
fn has_wide(signals: &[Signal], name: &[u8]) -> bool
    ensures { result ≡ spec.has_wide (map signal_of signals.now) name.now }
{
    signals
        .iter()
        .any(|signal| signal.name == name && signal.width > 1)
}

// Whether there are at most 32 columns, none of more than 64 bits.
fn are_columns(signals: &[Signal]) -> bool
    ensures { result ≡ spec.are_columns (map signal_of signals.now) }
{
    count_columns(signals) <= 32 && !has_wide_column(signals)
}

// How many signals show a column.
fn count_columns(signals: &[Signal]) -> usize
    ensures { result ≡ length (spec.columns_of (map signal_of signals.now)) }
{
    let mut columns = 0;
    for signal in signals {
        if shows_column(signal) {
            columns += 1;
        }
    }
    columns
}

// Whether a column has more than 64 bits.
fn has_wide_column(signals: &[Signal]) -> bool
    ensures { result ≡ list_any (λ s. nat_lt 64 s.width)
        (spec.columns_of (map signal_of signals.now)) }
{
    signals
        .iter()
        .any(|signal| shows_column(signal) && signal.width > 64)
}

/// Whether the signals show no result: its lines are not there, or its columns are too many or too
/// wide.
#[tactic(auto, unfolding(crate::specs::Signals::show_none, gl_schema::specs::Ports::out_valid, gl_schema::specs::Ports::out_eos, gl_schema::specs::Ports::fault_group))]
pub fn show_none(signals: &[Signal]) -> bool
    ensures { result ≡ spec.show_none (map signal_of signals.now) }
{
    !(has_line(signals, b"out__valid")
        && has_line(signals, b"out__eos")
        && !has_wide(signals, b"fault__group")
        && are_columns(signals))
}
