//! The columns of a result among the signals of a dump.

ghost use Rattle.std.specs.Prelude.{◌≡◌, ◌<◌, ◌^◌, ◌++◌, ◌∷◌, [], length, map, IfOk, OnOk};
ghost use Rattle.std.specs.List.{AllZip};
ghost use Rattle.gl_values.specs.declared.kind.Kind.TheVariants.{Unsigned};
ghost use Rattle.gl_bits.specs.Words.{bits_of, widths_of};
ghost use Rattle.gl_vcd.specs.Showings.{AreColumns, value_in};
ghost use Rattle.gl_vcd.specs.Standing.{IsIndexed, signals_of};

use crate::signals::{Signals, shows_column};
use gl_bits::{Memory, Row, Word};
use gl_tuples::set_value;
use gl_values::Kind;
use std::alloc::Global;

/// The numbers of the signals that show columns, and the kinds by which these are printed.
#[derive(Drop)]
pub struct Columns {
    /// The numbers of the signals.
    pub numbers: Vec<Option<usize>>,
    /// The kinds.
    pub kinds: Vec<Kind>,
}

impl Columns {
    // Adds a column behind the others.
    fn add(&mut self, number: Option<usize>, width: u8) -> Result<(), Memory>
        ensures numbers { OnOk result (self.new.numbers.items
            ≡ self.old.numbers.items ++ number ∷ []) }
        ensures kinds { OnOk result (self.new.kinds.items
            ≡ self.old.kinds.items ++ Unsigned width ∷ []) }
    {
        self.numbers.push(number)?;
        self.kinds.push(Kind::Unsigned(width))?;
        Ok(())
    }

    // Adds the columns of all signals.
    fn add_all(&mut self, signals: &Signals) -> Result<(), Memory>
        requires indexed { IsIndexed signals.now }
        requires numbers { self.old.numbers.items ≡ [] }
        requires kinds { self.old.kinds.items ≡ [] }
        ensures { OnOk result (AreColumns (signals_of signals.now) self.new) }
    {
        for signal in signals.list.as_slice() {
            if shows_column(signal) {
                self.add(signals.number_of_name(signal.name), signal.width)?;
            }
        }
        Ok(())
    }
}

/// The columns among these signals.
pub fn columns_of(alloc: Global, signals: &Signals) -> Result<Columns, Memory>
    requires { IsIndexed signals.now }
    ensures { IfOk result (AreColumns (signals_of signals.now)) }
{
    let mut columns = Columns {
        numbers: Vec::new(alloc),
        kinds: Vec::new(alloc),
    };
    columns.add_all(signals)?;
    Ok(columns)
}

/// The value of a signal of this number, 0 where it has none.
pub fn value_in(values: &[Option<Word>], number: Option<usize>) -> u128
    ensures { result ≡ value_in values.now number }
{
    let Some(number) = number else {
        return 0;
    };
    match values.get(number) {
        Some(Some(word)) => word.bits(),
        _ => 0,
    }
}

/// Puts the values of these signals into a row.
pub fn fill(row: &mut Row, numbers: &[Option<usize>], values: &[Option<Word>])
    requires long { length numbers.now ≡ length row.old }
    requires room { AllZip (λ n width. value_in values.now n < 2 ^ width) numbers.now
        (widths_of row.old) }
    ensures widths { widths_of row.new ≡ widths_of row.old }
    ensures bits { bits_of row.new ≡ map (value_in values.now) numbers.now }
{
    for (place, number) in numbers.iter().enumerate() {
        set_value(row, place, value_in(values, *number));
    }
}
