//! The limits: what each token counts for, told by the tokens before it.

ghost use Rattle.std.specs.Prelude.{◌≡◌, ◌≤◌, false};
ghost use Rattle.gl_verilog_faults.specs.Counts as counts;
ghost use Rattle.gl_verilog_faults.specs.Marks as marks;
ghost use Rattle.gl_verilog_tokens.specs.View.{keyword_of, sign_of, token_of};
ghost use Rattle.gl_verilog_grammar.specs.Counting.{place_of, turn_of, weight_of, depth_at, counts_of, IsWithin};

use gl_verilog_tokens::{Keyword, Sign, Token};

/// The most brackets and `begin` of an item that are open at once.
pub const MOST_BRACKETS: usize = 64;
/// The most operators of a whole expression.
pub const MOST_OPERATORS: usize = 1024;
/// The most `if` of an item.
pub const MOST_IFS: usize = 1024;

/// Where the reader stands, as far as the limits ask.
#[derive(Clone, Copy)]
pub enum Place {
    /// Up to the `;` behind the ports.
    Header,
    /// Before an item or a statement.
    Ground,
    /// In a declaration, or before the `=` of an assignment.
    Declares,
    /// In `@ ( posedge clk )`.
    Clocks,
    /// Behind `if`.
    Asks,
    /// Behind a statement's target.
    Aims,
    /// In a target's index, with this number of brackets open in it.
    Index(usize),
    /// In a condition, likewise.
    Test(usize),
    /// In what is assigned, up to its `;`.
    Value,
}

/// What a token does in an expression.
#[derive(Clone, Copy)]
pub enum Turn {
    /// It opens a bracket.
    Opening,
    /// It closes a bracket.
    Closing,
    /// It is an operator, or `?`.
    Operating,
    /// It is a `;`.
    Ending,
    /// It only goes on.
    Going,
}

/// What a token counts for.
#[derive(Clone, Copy)]
pub enum Weight {
    /// A bracket or `begin` opens.
    Opens,
    /// It closes.
    Closes,
    /// An operator.
    Operates,
    /// A whole expression begins behind it.
    Starts,
    /// A whole expression begins behind a bracket.
    OpensWhole,
    /// An `if`.
    Tests,
    /// An item begins, or the last one ends.
    Begins,
    /// Nothing.
    Plain,
}

fn sign_turn(sign: Sign) -> Turn
    ensures { turn_of result ≡ marks.sign_turn (sign_of sign) }
{
    match sign {
        Sign::OpenParen | Sign::OpenBracket | Sign::OpenBrace => Turn::Opening,
        Sign::CloseParen | Sign::CloseBracket | Sign::CloseBrace => Turn::Closing,
        Sign::Semicolon => Turn::Ending,
        Sign::Comma | Sign::Colon | Sign::At | Sign::Equals => Turn::Going,
        _ => Turn::Operating,
    }
}

fn turn_at(token: Token) -> Turn
    ensures { turn_of result ≡ marks.turn (token_of token.entry) }
{
    match token {
        Token::Mark(sign) => sign_turn(sign),
        _ => Turn::Going,
    }
}

fn turn_weight(turn: Turn) -> Weight
    ensures { weight_of result ≡ marks.turn_role (turn_of turn) }
{
    match turn {
        Turn::Opening => Weight::Opens,
        Turn::Closing => Weight::Closes,
        Turn::Operating => Weight::Operates,
        Turn::Ending | Turn::Going => Weight::Plain,
    }
}

fn word_weight(word: Keyword) -> Weight
    ensures { weight_of result ≡ marks.word_role (keyword_of word) }
{
    match word {
        Keyword::Wire | Keyword::Reg | Keyword::Assign | Keyword::Always | Keyword::EndModule =>
            Weight::Begins,
        Keyword::If => Weight::Tests,
        Keyword::Begin => Weight::Opens,
        Keyword::End => Weight::Closes,
        _ => Weight::Plain,
    }
}

fn word_next(word: Keyword) -> Place
    ensures { place_of result ≡ marks.word_next (keyword_of word) }
{
    match word {
        Keyword::Wire | Keyword::Reg | Keyword::Assign => Place::Declares,
        Keyword::Always => Place::Clocks,
        Keyword::If => Place::Asks,
        _ => Place::Ground,
    }
}

fn ground_weight(token: Token) -> Weight
    ensures { weight_of result ≡ marks.ground_role (token_of token.entry) }
{
    match token {
        Token::Reserved(word) => word_weight(word),
        _ => Weight::Plain,
    }
}

fn ground_next(token: Token) -> Place
    ensures { place_of result ≡ marks.ground_next (token_of token.entry) }
{
    match token {
        Token::Reserved(word) => word_next(word),
        Token::Name(_) => Place::Aims,
        _ => Place::Ground,
    }
}

fn aim_weight(token: Token) -> Weight
    ensures { weight_of result ≡ marks.aim_role (token_of token.entry) }
{
    match token {
        Token::Mark(Sign::OpenBracket) => Weight::OpensWhole,
        Token::Mark(Sign::LessEquals) => Weight::Starts,
        _ => Weight::Plain,
    }
}

fn aim_next(token: Token) -> Place
    ensures { place_of result ≡ marks.aim_next (token_of token.entry) }
{
    match token {
        Token::Mark(Sign::OpenBracket) => Place::Index(0),
        Token::Mark(Sign::LessEquals) => Place::Value,
        _ => Place::Ground,
    }
}

fn declare_weight(token: Token) -> Weight
    ensures { weight_of result ≡ marks.declare_role (token_of token.entry) }
{
    match token {
        Token::Mark(Sign::Equals) => Weight::Starts,
        _ => Weight::Plain,
    }
}

fn declare_next(token: Token) -> Place
    ensures { place_of result ≡ marks.declare_next (token_of token.entry) }
{
    match token {
        Token::Mark(Sign::Equals) => Place::Value,
        Token::Mark(Sign::Semicolon) => Place::Ground,
        _ => Place::Declares,
    }
}

fn clock_next(token: Token) -> Place
    ensures { place_of result ≡ marks.clock_next (token_of token.entry) }
{
    match token {
        Token::Mark(Sign::CloseParen) => Place::Ground,
        _ => Place::Clocks,
    }
}

fn header_next(token: Token) -> Place
    ensures { place_of result ≡ marks.header_next (token_of token.entry) }
{
    match token {
        Token::Mark(Sign::Semicolon) => Place::Ground,
        _ => Place::Header,
    }
}

// What a token counts for at a place.
fn weight_at(place: Place, token: Token) -> Weight
    ensures { weight_of result ≡ marks.role_at (place_of place) (token_of token.entry) }
{
    match place {
        Place::Header | Place::Clocks => Weight::Plain,
        Place::Ground => ground_weight(token),
        Place::Declares => declare_weight(token),
        Place::Asks => Weight::OpensWhole,
        Place::Aims => aim_weight(token),
        Place::Index(_) | Place::Test(_) | Place::Value => turn_weight(turn_at(token)),
    }
}

// The place behind a token of an index.
fn in_index(opened: usize, turn: Turn) -> Place
    requires { opened ≤ 64 }
    ensures { place_of result ≡ marks.inside marks.Index marks.Aims opened (turn_of turn) }
{
    match turn {
        Turn::Opening => Place::Index(opened + 1),
        Turn::Closing => {
            if opened == 0 {
                Place::Aims
            } else {
                Place::Index(opened - 1)
            }
        }
        Turn::Operating | Turn::Ending | Turn::Going => Place::Index(opened),
    }
}

// The place behind a token of a condition.
fn in_test(opened: usize, turn: Turn) -> Place
    requires { opened ≤ 64 }
    ensures { place_of result ≡ marks.inside marks.Test marks.Ground opened (turn_of turn) }
{
    match turn {
        Turn::Opening => Place::Test(opened + 1),
        Turn::Closing => {
            if opened == 0 {
                Place::Ground
            } else {
                Place::Test(opened - 1)
            }
        }
        Turn::Operating | Turn::Ending | Turn::Going => Place::Test(opened),
    }
}

fn in_value(turn: Turn) -> Place
    ensures { place_of result ≡ marks.in_value (turn_of turn) }
{
    match turn {
        Turn::Ending => Place::Ground,
        Turn::Opening | Turn::Closing | Turn::Operating | Turn::Going => Place::Value,
    }
}

// The place behind a token.
fn behind(place: Place, token: Token) -> Place
    requires { depth_at place ≤ 64 }
    ensures { place_of result ≡ marks.next (place_of place) (token_of token.entry) }
{
    match place {
        Place::Header => header_next(token),
        Place::Ground => ground_next(token),
        Place::Declares => declare_next(token),
        Place::Clocks => clock_next(token),
        Place::Asks => Place::Test(0),
        Place::Aims => aim_next(token),
        Place::Index(opened) => in_index(opened, turn_at(token)),
        Place::Test(opened) => in_test(opened, turn_at(token)),
        Place::Value => in_value(turn_at(token)),
    }
}

/// The counts behind the tokens that were read.
#[derive(Clone, Copy)]
pub struct Counter {
    place: Place,
    brackets: usize,
    operators: usize,
    ifs: usize,
}

impl Counter {
    pub(crate) fn new() -> Self
        ensures place { place_of result.place ≡ marks.Header }
        ensures counts { counts_of result ≡ counts.none_counted }
        ensures within { IsWithin result }
    {
        Counter {
            place: Place::Header,
            brackets: 0,
            operators: 0,
            ifs: 0,
        }
    }

    fn count(&mut self, weight: Weight)
        requires brackets { self.old.brackets ≤ 64 }
        requires operators { self.old.operators ≤ 1024 }
        requires ifs { self.old.ifs ≤ 1024 }
        ensures counts { counts_of self.new ≡ counts.after (counts_of self.old) (weight_of weight) }
        ensures place { self.new.place ≡ self.old.place }
    {
        match weight {
            Weight::Opens => self.brackets += 1,
            Weight::Closes => self.brackets = self.brackets.saturating_sub(1),
            Weight::Operates => self.operators += 1,
            Weight::Starts => self.operators = 0,
            Weight::OpensWhole => {
                self.brackets += 1;
                self.operators = 0;
            }
            Weight::Tests => self.ifs += 1,
            Weight::Begins => {
                self.brackets = 0;
                self.operators = 0;
                self.ifs = 0;
            }
            Weight::Plain => {}
        }
    }

    fn is_past(&self) -> bool
        ensures { result ≡ counts.is_past (counts_of self.now) }
    {
        self.brackets > MOST_BRACKETS || self.operators > MOST_OPERATORS || self.ifs > MOST_IFS
    }

    /// Takes a token, and says whether it passes a limit.
    pub(crate) fn passes(&mut self, token: Token) -> bool
        requires { IsWithin self.old }
        ensures is { result ≡ counts.is_past (counts_of self.new) }
        ensures place { place_of self.new.place
            ≡ marks.next (place_of self.old.place) (token_of token.entry) }
        ensures counts { counts_of self.new ≡ counts.after (counts_of self.old)
            (marks.role_at (place_of self.old.place) (token_of token.entry)) }
        ensures within { result ≡ false → IsWithin self.new }
    {
        let weight = weight_at(self.place, token);
        self.place = behind(self.place, token);
        self.count(weight);
        self.is_past()
    }
}
