//! Multiples of a bus by a word that is known when the circuit is made.

ghost use Rattle.std.specs.Prelude.{◌≡◌, ◌+◌, ◌-◌, ◌^◌, ◌<◌, IfOk, bit_and};
ghost use Rattle.gl_bits.specs.Words.{product_of};
ghost use Rattle.gl_net.specs.Net.{IsBus, binary_of, binary_width};
ghost use Rattle.gl_rows.specs.Made.{Carries};
ghost use Rattle.gl_rows.specs.Multiples.{IsMultiple, TermsFit, is_lean, nodes_of_term, nodes_of_terms, number_of};

use gl_bits::{Memory, Word};
use gl_net::{BinaryOp, Bus, NetBuilder};
use std::hash::Hash;

/// A word as one word, or as what an adder makes of two.
#[derive(Clone, Copy, PartialEq, Eq, Hash, Debug)]
pub enum Terms {
    /// A word of one bit at most, whose product is a shift.
    One(Word),
    /// The sum of two such words.
    Sum(Word, Word),
    /// The difference of two such words.
    Difference(Word, Word),
    /// Any other word.
    Many(Word),
}

impl Terms {
    /// Whether the product needs no multiplier.
    pub fn is_lean(self) -> bool
        ensures { result ≡ is_lean self }
    {
        match self {
            Terms::One(_) | Terms::Sum(_, _) | Terms::Difference(_, _) => true,
            Terms::Many(_) => false,
        }
    }

    /// The nodes of the product.
    pub fn nodes(self) -> u32
        ensures { result ≡ nodes_of_terms self }
    {
        match self {
            Terms::One(word) | Terms::Many(word) => nodes_of_term(word),
            Terms::Sum(first, second) | Terms::Difference(first, second) => {
                1 + nodes_of_term(first) + nodes_of_term(second)
            }
        }
    }
}

// The nodes of the product by a word: none by 1.
fn nodes_of_term(word: Word) -> u32
    ensures value { result ≡ nodes_of_term word.bits }
    ensures few { result < 3 }
{
    if word.bits() == 1 { 0 } else { 2 }
}

// The word with its lowest 1 as 0.
#[tactic(auto, using(std::proofs::lemmas::Nat::and_le_l))]
fn without_lowest(word: Word) -> Word
    ensures bits { result.bits ≡ bit_and word.bits (word.bits - 1) }
    ensures width { result.width ≡ word.width }
    ensures fits { word.bits < 2 ^ word.width }
{
    let bits = word.bits() & word.bits().saturating_sub(1);
    Word::new(bits, word.width()).unwrap()
}

/// The word as the sum or the difference of two powers of two, where it is one. A difference may wrap, so the greatest word is 0 less 1.
#[tactic(auto, using(crate::proofs::MultipleLemmas::with_rest, crate::proofs::MultipleLemmas::without_more))]
pub fn terms_of(word: Word) -> Terms
    ensures fits { TermsFit word.width result }
    ensures number { number_of word.width result ≡ word.bits }
{
    let rest = without_lowest(word);
    if rest.bits() == 0 {
        return Terms::One(word);
    }
    let lowest = word.sub(rest);
    if without_lowest(rest).bits() == 0 {
        return Terms::Sum(rest, lowest);
    }
    let more = word.add(lowest);
    if without_lowest(more).bits() == 0 {
        return Terms::Difference(more, lowest);
    }
    Terms::Many(word)
}

// The product by a word: by 1 the bus itself.
fn put_term(net: &mut NetBuilder, value: Bus, word: Word) -> Result<Bus, Memory>
    requires value { IsBus net.old value }
    requires width { word.width ≡ value.width }
    ensures product { IfOk result
        (IsMultiple net.old net.new value word.bits (nodes_of_term word.bits)) }
    ensures fits { word.bits < 2 ^ word.width }
{
    if word.bits() == 1 {
        return Ok(value);
    }
    let factor = net.constant(word)?;
    let product = net.binary(BinaryOp::Mul, value, factor)?;
    Ok(product)
}

// What an adder makes of the products by two words.
fn put_two(
    net: &mut NetBuilder,
    gate: BinaryOp,
    value: Bus,
    first: Word,
    second: Word,
) -> Result<Bus, Memory>
    requires value { IsBus net.old value }
    requires first_width { first.width ≡ value.width }
    requires second_width { second.width ≡ value.width }
    requires gate { binary_width gate value.width ≡ value.width }
    ensures fits { second.bits < 2 ^ second.width }
    ensures sum { IfOk result (Carries net.old net.new
        (1 + nodes_of_term first.bits + nodes_of_term second.bits) value.width
        (λ run t. binary_of gate value.width
        (product_of value.width (run.at t value.node) first.bits)
        (product_of value.width (run.at t value.node) second.bits))) }
{
    let left = put_term(net, value, first)?;
    let right = put_term(net, value, second)?;
    let out = net.binary(gate, left, right)?;
    Ok(out)
}

/// The product of a bus and a word.
pub fn put_multiple(net: &mut NetBuilder, value: Bus, terms: Terms) -> Result<Bus, Memory>
    requires value { IsBus net.old value }
    requires fits { TermsFit value.width terms }
    ensures { IfOk result (IsMultiple net.old net.new
        value (number_of value.width terms) (nodes_of_terms terms)) }
{
    match terms {
        Terms::One(word) | Terms::Many(word) => put_term(net, value, word),
        Terms::Sum(first, second) => put_two(net, BinaryOp::Add, value, first, second),
        Terms::Difference(first, second) => put_two(net, BinaryOp::Sub, value, first, second),
    }
}
