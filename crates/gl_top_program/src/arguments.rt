//! The words of the command line, as the system hands them over.

ghost use Rattle.std.specs.Prelude.{◌≡◌, ◌++◌, drop, map, string_bytes, IfOk, IfErr, OnOk};
ghost use Rattle.std.specs.Vec.Iter.{into_iter_items};
ghost use Rattle.std.specs.IoError.{error_kind};
ghost use Rattle.gl_top_program.specs.Without.{words_without};

use gl_outside::{Memory, Words};
use std::alloc::Global;
use std::io::ErrorKind;
use std::{env, io};

// Adds the words that are left.
fn push_rest(words: &mut Words, mut all: env::Args) -> Result<(), Memory>
    ensures { let rest = map string_bytes (into_iter_items all) in
        OnOk result (words.new ≡ words.old ++ rest) }
{
    while let Some(word) = all.next() {
        words.push(word.as_str())?;
    }
    Ok(())
}

// The words behind the program's name.
fn behind_name(alloc: Global, mut all: env::Args) -> Result<Words, Memory>
    ensures { let given = map string_bytes (into_iter_items all) in
        IfOk result (λ words. words ≡ drop 1 given) }
{
    let _name = all.next();
    let mut words = Words::new(alloc);
    push_rest(&mut words, all)?;
    Ok(words)
}

/// The words behind the program's name, of the arguments that the system gave (`std::env::args`);
/// none where one of them is no UTF-8.
pub fn words_in(alloc: Global, given: io::Result<env::Args>) -> Result<Words, Memory>
    ensures words { IfOk given (λ all. IfOk result (λ words.
        words ≡ drop 1 (map string_bytes (into_iter_items all)))) }
    ensures without { IfErr given (λ fault. result ≡ words_without (error_kind fault)) }
{
    match given {
        Ok(all) => behind_name(alloc, all),
        Err(fault) => match fault.kind() {
            ErrorKind::InvalidData => Ok(Words::new(alloc)),
            _ => Err(Memory),
        },
    }
}
