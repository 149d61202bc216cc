//! The names that have a driver.

ghost use Rattle.std.specs.Prelude.{◌≡◌, false, MatchResult, drop, fold, take};
ghost use Rattle.gl_verilog_faults.specs.Demands.{is_among};
ghost use Rattle.gl_verilog_elaborator.specs.Judged as judged;
ghost use Rattle.gl_verilog_elaborator.specs.Judged.{with_name};
ghost use Rattle.gl_verilog_elaborator.specs.Elaborated as made;
ghost use Rattle.gl_verilog_elaborator.specs.View.{is_broken, names_in, drivers_of};
ghost use Rattle.gl_verilog_tokens.specs.View.{name_of};

use crate::stop::Stop;
use gl_verilog_tokens::Word;
use indexmap::IndexSet;

/// The names that have a driver: of earlier items, of this block too, of earlier statements of the
/// lists that are open; and those of this block, in the order of the text.
#[derive(Drop)]
pub struct Drivers<'a> {
    /// The names that earlier items drive.
    pub done: IndexSet<&'a [u8]>,
    /// The names that earlier items or this block drive.
    pub all: IndexSet<&'a [u8]>,
    /// The names that earlier statements of the open lists assign or write.
    pub beside: IndexSet<&'a [u8]>,
    /// The names that this block has assigned or written, in the order of the text.
    pub before: Vec<&'a [u8]>,
}

/// Whether a name is one of a set.
pub(crate) fn has(names: &IndexSet<&[u8]>, name: &[u8]) -> bool
    ensures { result ≡ is_among name.now (names_in names.now.keys) }
{
    names.contains(name)
}

// A set with one name more.
fn put<'a>(names: &mut IndexSet<&'a [u8]>, name: &'a [u8]) -> Result<(), Stop>
    ensures { MatchResult result (λ _. names_in names.new.keys
        ≡ with_name (names_in names.old.keys) name.now) (λ e. is_broken e ≡ false) }
{
    names.insert(name)?;
    Ok(())
}

// A set with the names of a list from a place on.
fn put_from<'a>(names: &mut IndexSet<&'a [u8]>, more: &[&'a [u8]], from: usize) -> Result<(), Stop>
    ensures { MatchResult result (λ _. names_in names.new.keys
        ≡ fold with_name (names_in names.old.keys) (names_in (drop from more.now)))
        (λ e. is_broken e ≡ false) }
{
    for i in from..more.len() {
        put(names, more[i])?;
    }
    Ok(())
}

/// A target of a block is driven.
pub(crate) fn drive<'a>(drivers: &mut Drivers<'a>, name: Word<'a>) -> Result<(), Stop>
    ensures { MatchResult result (λ _. drivers_of drivers.new
        ≡ judged.driven (drivers_of drivers.old) (name_of name.entry)) (λ e. is_broken e ≡ false) }
{
    put(&mut drivers.all, name.bytes)?;
    drivers.before.push(name.bytes)?;
    Ok(())
}

/// A wire is driven.
pub(crate) fn assign<'a>(drivers: &mut Drivers<'a>, name: Word<'a>) -> Result<(), Stop>
    ensures { MatchResult result (λ _. drivers_of drivers.new
        ≡ made.assigned (drivers_of drivers.old) (name_of name.entry)) (λ e. is_broken e ≡ false) }
{
    put(&mut drivers.done, name.bytes)?;
    put(&mut drivers.all, name.bytes)
}

/// What this block drove from this place on stands beside what comes.
pub(crate) fn pass_by(drivers: &mut Drivers, from: usize) -> Result<(), Stop>
    ensures { MatchResult result (λ _. drivers_of drivers.new
        ≡ judged.passed_by from (drivers_of drivers.old)) (λ e. is_broken e ≡ false) }
{
    put_from(&mut drivers.beside, drivers.before.as_slice(), from)?;
    Ok(())
}

/// A list is left, before which `beside` names stood beside.
pub(crate) fn leave_list(drivers: &mut Drivers, beside: usize)
    ensures { drivers_of drivers.new ≡ judged.left_list
        (take beside (names_in drivers.old.beside.keys)) (drivers_of drivers.old) }
{
    drivers.beside.truncate(beside);
}

/// A block begins.
pub(crate) fn begin_block(drivers: &mut Drivers)
    ensures { drivers_of drivers.new ≡ made.block_begins (drivers_of drivers.old) }
{
    drivers.before.clear();
}

/// A block ends: what it drives has a driver.
pub(crate) fn end_block(drivers: &mut Drivers) -> Result<(), Stop>
    ensures { MatchResult result (λ _. drivers_of drivers.new
        ≡ made.block_ends (drivers_of drivers.old)) (λ e. is_broken e ≡ false) }
{
    put_from(&mut drivers.done, drivers.before.as_slice(), 0)?;
    Ok(())
}
