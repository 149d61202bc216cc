//! The next stage, where a token changes nothing else.

ghost use Rattle.std.specs.Prelude.{◌≡◌, option_map};
ghost use Rattle.gl_verilog_grammar.specs.Stages as machine;
ghost use Rattle.gl_verilog_tokens.specs.View.{keyword_of, token_of, name_of, names_of, range_of};
ghost use Rattle.gl_verilog_grammar.specs.View.{sort_of, owner_of, plain_of};

use crate::matching::{digits_in, is_mark, is_word, is_zero, name_in};
use crate::stage::{Owner, Plain, Sort, with_word};
use gl_verilog_tokens::{Direction, Keyword, Sign, Token, Word};

// The stage behind `wire` or `reg`, where one may stand behind a direction.
#[tactic(auto, using(crate::proofs::Views::plains))]
pub(crate) fn word_stage<'a>(owner: Owner, word: Keyword) -> Option<Plain<'a>>
    ensures { option_map plain_of result ≡ option_map machine.Declaring
        (machine.with_word (owner_of owner) (keyword_of word)) }
{
    match with_word(owner, word) {
        Some(owner) => Some(Plain::Declaring(owner)),
        None => None,
    }
}

#[tactic(auto, using(crate::proofs::Views::plains))]
pub(crate) fn port_stage<'a>(token: Token<'a>) -> Option<Plain<'a>>
    ensures { option_map plain_of result ≡ machine.next_stage machine.WantPort
        (token_of token.entry) }
{
    if is_word(token, Keyword::Input) {
        return Some(Plain::Declaring(Owner::OfPort(Direction::In)));
    }
    if is_word(token, Keyword::Output) {
        return Some(Plain::Declaring(Owner::OfPort(Direction::Out)));
    }
    None
}

#[tactic(auto, using(crate::proofs::Views::plains))]
pub(crate) fn behind_port<'a>(token: Token<'a>) -> Option<Plain<'a>>
    ensures { option_map plain_of result ≡ machine.next_stage machine.AfterPort
        (token_of token.entry) }
{
    if is_mark(token, Sign::Comma) {
        return Some(Plain::WantPort);
    }
    if is_mark(token, Sign::CloseParen) {
        return Some(Plain::AfterPorts);
    }
    None
}

#[tactic(auto, using(crate::proofs::Views::plains))]
pub(crate) fn item_stage<'a>(token: Token<'a>) -> Option<Plain<'a>>
    ensures { option_map plain_of result ≡ machine.item_stage (token_of token.entry) }
{
    if is_word(token, Keyword::Wire) {
        return Some(Plain::Declaring(Owner::OfItem(Sort::WireSort)));
    }
    if is_word(token, Keyword::Reg) {
        return Some(Plain::Declaring(Owner::OfItem(Sort::RegisterSort)));
    }
    if is_word(token, Keyword::Assign) {
        return Some(Plain::WantAssigned);
    }
    if is_word(token, Keyword::Always) {
        return Some(Plain::WantAt);
    }
    if is_word(token, Keyword::EndModule) {
        return Some(Plain::Complete);
    }
    None
}

// A register alone may be a memory.
#[tactic(auto, using(crate::proofs::Views::plains))]
pub(crate) fn memory_stage<'a>(
    sort: Sort,
    range: Option<Word<'a>>,
    names: &[Word<'a>],
) -> Option<Plain<'a>>
    ensures { option_map plain_of result ≡ machine.memory_stage (sort_of sort)
        (range_of range.entry) (names_of names.now) }
{
    match (sort, names) {
        (Sort::RegisterSort, [name]) => Some(Plain::WantFirst(range, *name)),
        _ => None,
    }
}

#[tactic(auto, using(crate::proofs::Views::plains))]
pub(crate) fn high_stage<'a>(owner: Owner, token: Token<'a>) -> Option<Plain<'a>>
    ensures { option_map plain_of result ≡ machine.next_stage (machine.WantHigh (owner_of owner))
        (token_of token.entry) }
{
    match digits_in(token) {
        Some(high) => Some(Plain::WantColon(owner, high)),
        None => None,
    }
}

#[tactic(auto, using(crate::proofs::Views::plains))]
pub(crate) fn last_stage<'a>(
    range: Option<Word<'a>>,
    name: Word<'a>,
    token: Token<'a>,
) -> Option<Plain<'a>>
    ensures { option_map plain_of result ≡ machine.next_stage
        (machine.WantLast (range_of range.entry) (name_of name.entry)) (token_of token.entry) }
{
    match digits_in(token) {
        Some(last) => Some(Plain::WantMemoryClose(range, name, last)),
        None => None,
    }
}

#[tactic(auto, using(crate::proofs::Views::plains))]
pub(crate) fn assigned_stage<'a>(token: Token<'a>) -> Option<Plain<'a>>
    ensures { option_map plain_of result ≡ machine.next_stage machine.WantAssigned
        (token_of token.entry) }
{
    match name_in(token) {
        Some(target) => Some(Plain::WantEquals(target)),
        None => None,
    }
}

#[tactic(auto, using(crate::proofs::Views::plains))]
pub(crate) fn clock_stage<'a>(token: Token<'a>) -> Option<Plain<'a>>
    ensures { option_map plain_of result ≡ machine.next_stage machine.WantClock
        (token_of token.entry) }
{
    match name_in(token) {
        Some(clock) => Some(Plain::WantEdgeEnd(clock)),
        None => None,
    }
}

#[tactic(auto, using(crate::proofs::Views::plains))]
pub(crate) fn low_stage<'a>(name: Word<'a>, high: Word<'a>, token: Token<'a>) -> Option<Plain<'a>>
    ensures { option_map plain_of result ≡ machine.next_stage
        (machine.WantLow (name_of name.entry) (name_of high.entry)) (token_of token.entry) }
{
    match digits_in(token) {
        Some(low) => Some(Plain::AtPart(name, high, low)),
        None => None,
    }
}

// The next stage, where the token is the one that is wanted.
pub(crate) fn expect<'a>(stands: bool, next: Plain<'a>) -> Option<Plain<'a>>
    ensures { option_map plain_of result ≡ machine.expect stands (plain_of next.entry) }
{
    if stands { Some(next) } else { None }
}

// The next stage, where a token changes nothing else.
#[tactic(auto, using(crate::proofs::Views::plains), unfolding(crate::specs::View::plain_of))]
pub(crate) fn next_stage<'a>(plain: Plain<'a>, token: Token<'a>) -> Option<Plain<'a>>
    ensures { option_map plain_of result ≡ machine.next_stage (plain_of plain.entry)
        (token_of token.entry) }
{
    match plain {
        Plain::WantModule => expect(is_word(token, Keyword::Module), Plain::WantTitle),
        Plain::WantPorts => expect(is_mark(token, Sign::OpenParen), Plain::WantPort),
        Plain::WantPort => port_stage(token),
        Plain::WantHigh(owner) => high_stage(owner, token),
        Plain::WantColon(owner, high) => expect(
            is_mark(token, Sign::Colon),
            Plain::WantZero(owner, high),
        ),
        Plain::WantZero(owner, high) => expect(is_zero(token), Plain::WantClose(owner, high)),
        Plain::WantClose(owner, high) => expect(
            is_mark(token, Sign::CloseBracket),
            Plain::WantName(owner, Some(high)),
        ),
        Plain::AfterPort => behind_port(token),
        Plain::AfterPorts => expect(is_mark(token, Sign::Semicolon), Plain::WantItem),
        Plain::WantFirst(range, name) => expect(
            is_zero(token),
            Plain::WantMemoryColon(range, name),
        ),
        Plain::WantMemoryColon(range, name) => expect(
            is_mark(token, Sign::Colon),
            Plain::WantLast(range, name),
        ),
        Plain::WantLast(range, name) => last_stage(range, name, token),
        Plain::WantMemoryClose(range, name, last) => expect(
            is_mark(token, Sign::CloseBracket),
            Plain::WantMemoryEnd(range, name, last),
        ),
        Plain::WantItem => item_stage(token),
        Plain::WantAssigned => assigned_stage(token),
        Plain::WantAt => expect(is_mark(token, Sign::At), Plain::WantEdge),
        Plain::WantEdge => expect(is_mark(token, Sign::OpenParen), Plain::WantPosedge),
        Plain::WantPosedge => expect(is_word(token, Keyword::Posedge), Plain::WantClock),
        Plain::WantClock => clock_stage(token),
        Plain::WantLow(name, high) => low_stage(name, high, token),
        Plain::WantTitle
        | Plain::Declaring(_)
        | Plain::WantName(_, _)
        | Plain::WantMemoryEnd(_, _, _)
        | Plain::WantEquals(_)
        | Plain::WantEdgeEnd(_)
        | Plain::WantStatement
        | Plain::AfterTarget(_)
        | Plain::WantTest(_)
        | Plain::WantOperand
        | Plain::AtIndex(_)
        | Plain::AtPlace(_, _)
        | Plain::AtPart(_, _, _)
        | Plain::Complete => None,
    }
}
