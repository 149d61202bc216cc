//! Rows of single words.
//!
//! A row `word NAME X ..` prints the word that an operation gives, its number and its width: `new`,
//! `not`, `cut X HIGH LOW`, `extend X WIDTH`, `choose X Y Z`, and `add`, `sub`, `mul`, `and`, `or`,
//! `xor`, `eq`, `lt` and `join` of X and Y, each written as it is printed. A row `kind TEXT` prints
//! the kind of that name, a row `name TEXT` whether the text is a name.

ghost use Rattle.std.specs.Prelude.{◌≡◌};

use crate::pieces::word_before;
use gl_bits::word::Word;
use gl_schema::{is_name, kind_named};
use std::io;

// The word of this number and this width.
fn word_of(text: &str) -> Option<Word> {
    let (bits, width) = text.split_once('/')?;
    Word::new(bits.parse::<u128>().ok()?, width.parse::<u8>().ok()?)
}

// An operation on two words of one width.
fn of_one_width(name: &str, x: Word, y: Word) -> Option<Word>
    requires { x.width ≡ y.width }
{
    match name {
        "add" => Some(x.add(y)),
        "sub" => Some(x.sub(y)),
        "mul" => Some(x.mul(y)),
        "and" => Some(x.and(y)),
        "or" => Some(x.or(y)),
        "xor" => Some(x.xor(y)),
        "eq" => Some(x.eq(y)),
        "lt" => Some(x.lt(y)),
        _ => None,
    }
}

// An operation on two words; none where their widths are not fit for it.
fn of_two(name: &str, x: Word, y: Word) -> Option<Word> {
    if name == "join" {
        let fits = x.width() <= 128 - y.width();
        return if fits { Some(x.join(y)) } else { None };
    }
    if x.width() == y.width() {
        of_one_width(name, x, y)
    } else {
        None
    }
}

fn cut_of(x: Word, high: u8, low: u8) -> Option<Word> {
    if low <= high && high < x.width() {
        Some(x.cut(high, low))
    } else {
        None
    }
}

fn extended(x: Word, width: u8) -> Option<Word> {
    if x.width() <= width && width <= 128 {
        Some(x.extend(width))
    } else {
        None
    }
}

fn chosen(x: Word, yes: Word, no: Word) -> Option<Word> {
    if x.width() == 1 && yes.width() == no.width() {
        Some(x.choose(yes, no))
    } else {
        None
    }
}

// The word that an operation gives on a word and what stands behind it.
fn given(name: &str, x: Word, rest: &str) -> Option<Word> {
    let (second, third) = word_before(rest);
    match name {
        "new" => Some(x),
        "not" => Some(x.not()),
        "cut" => cut_of(x, second.parse::<u8>().ok()?, third.parse::<u8>().ok()?),
        "extend" => extended(x, second.parse::<u8>().ok()?),
        "choose" => chosen(x, word_of(second)?, word_of(third)?),
        _ => of_two(name, x, word_of(second)?),
    }
}

fn print_word(rt: &HostRuntime, text: &str) -> io::Result<()> {
    let (name, rest) = word_before(text);
    let (first, rest) = word_before(rest);
    let Some(x) = word_of(first) else {
        return println!(rt; "no word");
    };
    match given(name, x, rest) {
        Some(word) => {
            let bits = word.bits();
            let width = word.width();
            println!(rt; "{bits}/{width}")
        }
        None => println!(rt; "no word"),
    }
}

/// Prints what such a row comes to.
pub fn print_single(rt: &HostRuntime, kind: &str, text: &str) -> io::Result<()> {
    match kind {
        "word" => print_word(rt, text),
        "name" if is_name(text.as_bytes()) => println!(rt; "a name"),
        "name" => println!(rt; "no name"),
        _ => match kind_named(text.as_bytes()) {
            Some(kind) => println!(rt; "{kind:?}"),
            None => println!(rt; "no kind"),
        },
    }
}
