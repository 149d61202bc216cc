//! Reading the changes of a dump, from the left. Beside the last value of each signal nothing is
//! kept of them.

ghost use Rattle.std.specs.Prelude.{◌≡◌, ◌≤◌, ◌-◌, ◌^◌, ℕ, IfOk, IsTrue, None, OnOk, Some, ◌||◌, codes, is_none, nat_eq, nat_lt, replicate, unwrap_or, if◌then◌else◌};
ghost use Rattle.std.specs.List.{list_any};
ghost use Rattle.gl_bits.specs.Words.{IsWidth};
ghost use Rattle.gl_vcd.specs.Reading as spec;
ghost use Rattle.gl_vcd.specs.Reading.{Reading};
ghost use Rattle.gl_vcd.specs.Lexing.{token_of};
ghost use Rattle.gl_vcd.specs.Standing.{Changed, Ended, GoesOn, Holds, IsBehind, IsIndexed, IsReady, Keeps, KeepsNext, signals_of};
ghost use Rattle.gl_vcd.specs.Tokens as spec_token;

use crate::fault::VcdFault;
use crate::signals::Signals;
use crate::tokens::{Token, number_in};
use gl_bits::limits::LATEST_TIME;
use gl_bits::{Memory, Word};
use std::alloc::Global;

/// Half of the numbers that 128 bits hold.
const HALF: u128 = 1 << 127;

/// What may come next among the changes.
#[derive(Clone, Copy, Debug)]
pub enum Waiting<'a> {
    /// A change, a time or a section.
    Change,
    /// What is passed over, to its `$end`.
    Comment,
    /// The identifier of the signal that gets the value of binary digits, which begin there.
    Code { at: usize, digits: &'a [u8] },
}

/// What the changes have come to.
#[derive(Drop)]
pub struct Changing<'s, 'a> {
    /// The signals that are declared.
    pub signals: &'s Signals<'a>,
    /// The last value of each, where it has one.
    pub values: Vec<Option<Word>>,
    /// The time that has come.
    pub time: Option<u64>,
    /// What may come next.
    pub waits: Waiting<'a>,
}

fn syntax(at: usize) -> VcdFault
    ensures { result ≡ VcdFault.Syntax at }
{
    VcdFault::Syntax { at: at as u64 }
}

// The number that a binary digit spells.
fn bit_of(digit: u8) -> u128
    requires { IsTrue (spec.is_bit digit) }
    ensures value { result ≡ digit - 48 }
    ensures small { result ≤ 1 }
{
    if digit == b'1' { 1 } else { 0 }
}

// The number that binary digits spell, if it is below 2^128.
fn binary_in(digits: &[u8]) -> Option<u128>
    requires { IsTrue (spec.are_bits digits.now) }
    ensures { result ≡ (if nat_lt (spec.binary_in digits.now) (2 ^ 128) then
        Some (spec.binary_in digits.now) else None) }
{
    let mut number: u128 = 0;
    for digit in digits {
        if number >= HALF {
            return None;
        }
        number = 2 * number + bit_of(*digit);
    }
    Some(number)
}

// The word of `width` bits that binary digits spell, if they have room for it.
fn word_in(digits: &[u8], width: u8) -> Option<Word>
    requires bits { IsTrue (spec.are_bits digits.now) }
    requires width { IsWidth width }
    ensures { let value = spec.binary_in digits.now in
        result ≡ (if nat_lt value (2 ^ width) then Some (record { bits = value; width = width })
        else None) }
{
    Word::new(binary_in(digits)?, width)
}

fn are_bits(digits: &[u8]) -> bool
    ensures { result ≡ spec.are_bits digits.now }
{
    if digits.is_empty() {
        return false;
    }
    digits.iter().all(|digit| matches!(digit, b'0' | b'1'))
}

// No value for `many` signals.
fn no_values(alloc: Global, many: usize) -> Result<Vec<Option<Word>>, Memory>
    ensures { IfOk result (λ v. v.items ≡ replicate many None) }
{
    let mut values = Vec::new(alloc);
    for _ in 0..many {
        values.push(None)?;
    }
    Ok(values)
}

// Whether a value is not there.
fn lack_one(values: &[Option<Word>]) -> bool
    ensures { result ≡ list_any is_none values.now }
{
    values.iter().any(|value| value.is_none())
}

// Whether a time that has come is 0.
fn is_zero(time: Option<u64>) -> bool
    ensures { (t : ℕ) → time ≡ Some t → result ≡ nat_eq t 0 }
{
    match time {
        Some(time) => time == 0,
        None => false,
    }
}

fn is_comment(token: Token) -> bool
    ensures { result ≡ spec.is (token_of token.entry) (codes "$comment") }
{
    token.bytes == b"$comment".as_slice()
}

// Whether a token stands among the changes and says nothing.
fn is_mark(token: Token) -> bool
    ensures { let t = token_of token.entry in
        result ≡ (spec.is t (codes "$dumpvars") || spec.is t (codes "$end")) }
{
    token.bytes == b"$dumpvars".as_slice() || token.bytes == b"$end".as_slice()
}

impl<'s, 'a> Changing<'s, 'a> {
    /// In front of the first change.
    pub fn new(alloc: Global, signals: &'s Signals<'a>) -> Result<Changing<'s, 'a>, Memory>
        requires { IsIndexed signals.now }
        ensures keeps { IfOk result (λ c. (r : Reading)
            → IsBehind (signals_of signals.now) r → Keeps r c) }
        ensures ready { IfOk result IsReady }
        ensures signals { IfOk result (λ c. c.signals ≡ signals.entry) }
    {
        let values = no_values(alloc, signals.list.len())?;
        Ok(Changing {
            signals,
            values,
            time: None,
            waits: Waiting::Change,
        })
    }

    /// The time that has come, 0 before the first.
    pub fn now(&self) -> u64
        ensures { result ≡ unwrap_or self.now.time 0 }
    {
        self.time.unwrap_or(0)
    }

    // A signal gets the value of binary digits, in a change that begins there.
    fn give(&mut self, at: usize, digits: &[u8], code: &[u8]) -> Result<(), VcdFault>
        requires bits { IsTrue (spec.are_bits digits.now) }
        requires ready { IsReady self.old }
        ensures reads { (r : Reading) → Holds r self.old
            → Changed (spec.given r at (spec.binary_in digits.now) code.now) self.new result }
        ensures goes { OnOk result (GoesOn self.old self.new) }
    {
        if self.time.is_none() {
            return Err(syntax(at));
        }
        let Some(number) = self.signals.number_of_code(code) else {
            return Err(VcdFault::UnknownSignal { at: at as u64 });
        };
        let width = self.signals.list[number].width;
        let Some(word) = word_in(digits, width) else {
            return Err(VcdFault::TooWide { at: at as u64 });
        };
        self.values[number] = Some(word);
        self.waits = Waiting::Change;
        Ok(())
    }

    // Whether a signal lacks its value in time 0.
    fn lacks_value(&self) -> bool
        requires { IsReady self.now }
        ensures { (r : Reading) (time : ℕ) → Holds r self.now → r.time ≡ Some time
            → result ≡ spec.lacks_value r time }
    {
        is_zero(self.time) && lack_one(self.values.as_slice())
    }

    // A time comes.
    fn set_time(&mut self, at: usize, digits: &[u8]) -> Result<(), VcdFault>
        requires { IsReady self.old }
        ensures reads { (r : Reading) → Keeps r self.old
            → Changed (spec.time_next r at digits.now) self.new result }
        ensures goes { OnOk result (GoesOn self.old self.new) }
    {
        let Some(time) = self.time else {
            if digits != b"0".as_slice() {
                return Err(syntax(at));
            }
            self.time = Some(0);
            return Ok(());
        };
        let Some(next) = number_in(digits) else {
            return Err(syntax(at));
        };
        if next <= u128::from(time) {
            return Err(VcdFault::TimeFalls { at: at as u64 });
        }
        if self.lacks_value() {
            return Err(VcdFault::NoValue { at: at as u64 });
        }
        if next > LATEST_TIME {
            return Err(VcdFault::TooLate { at: at as u64 });
        }
        self.time = Some(next as u64);
        Ok(())
    }

    // Binary digits come, behind which the identifier is the next token.
    fn hold(&mut self, at: usize, digits: &'a [u8]) -> Result<(), VcdFault>
        requires { IsReady self.old }
        ensures reads { (r : Reading) → Holds r self.old
            → Changed (spec.vector_next r at digits.now) self.new result }
        ensures goes { OnOk result (GoesOn self.old self.new) }
    {
        if self.time.is_none() || !are_bits(digits) {
            return Err(syntax(at));
        }
        self.waits = Waiting::Code { at, digits };
        Ok(())
    }

    // A token that begins with this byte.
    fn begin_with(&mut self, at: usize, first: u8, rest: &'a [u8]) -> Result<(), VcdFault>
        requires { IsReady self.old }
        ensures reads { (r : Reading) (t : spec_token.Token) → t.at ≡ at → Keeps r self.old
            → Changed (spec.begun r t first rest.now) self.new result }
        ensures goes { OnOk result (GoesOn self.old self.new) }
    {
        match first {
            b'#' => self.set_time(at, rest),
            b'b' => self.hold(at, rest),
            b'0' | b'1' if !rest.is_empty() => self.give(at, &[first], rest),
            _ => Err(syntax(at)),
        }
    }

    // A change, a time or a section.
    fn begin(&mut self, token: Token<'a>) -> Result<(), VcdFault>
        requires { IsReady self.old }
        ensures reads { (r : Reading) → Keeps r self.old → r.stage ≡ spec.Changes
            → Changed (spec.change_next r (token_of token.entry)) self.new result }
        ensures goes { OnOk result (GoesOn self.old self.new) }
    {
        if is_comment(token) {
            self.waits = Waiting::Comment;
            return Ok(());
        }
        if is_mark(token) {
            return Ok(());
        }
        match token.bytes.split_first() {
            Some((first, rest)) => self.begin_with(token.at, *first, rest),
            None => Err(syntax(token.at)),
        }
    }

    // A token of a comment.
    fn pass(&mut self, token: Token<'a>)
        requires { IsReady self.old }
        ensures reads { (r : Reading) → Keeps r self.old → r.stage ≡ spec.Comment
            → KeepsNext (spec.passed r (token_of token.entry) spec.Changes) self.new }
        ensures goes { GoesOn self.old self.new }
    {
        if token.bytes == b"$end".as_slice() {
            self.waits = Waiting::Change;
        }
    }

    /// Reads a token of the changes.
    pub fn take(&mut self, token: Token<'a>) -> Result<(), VcdFault>
        requires { IsReady self.old }
        ensures reads { (r : Reading) → Keeps r self.old
            → Changed (spec.next r (token_of token.entry)) self.new result }
        ensures goes { OnOk result (GoesOn self.old self.new) }
    {
        match self.waits {
            Waiting::Change => self.begin(token),
            Waiting::Comment => {
                self.pass(token);
                Ok(())
            }
            Waiting::Code { at, digits } => self.give(at, digits, token.bytes),
        }
    }

    // Judges the end of a text of this length where nothing is begun.
    fn end_time(&self, len: usize) -> Result<(), VcdFault>
        requires { IsReady self.now }
        ensures { (r : Reading) → Holds r self.now → Ended (spec.end_by r len r.time) result }
    {
        if self.time.is_none() {
            return Err(syntax(len));
        }
        if self.lacks_value() {
            return Err(VcdFault::NoValue { at: len as u64 });
        }
        Ok(())
    }

    /// Judges the end of a text of this length.
    pub fn end(&self, len: usize) -> Result<(), VcdFault>
        requires { IsReady self.now }
        ensures { (r : Reading) → Keeps r self.now → Ended (spec.end_of r len) result }
    {
        match self.waits {
            Waiting::Change => self.end_time(len),
            _ => Err(syntax(len)),
        }
    }
}
