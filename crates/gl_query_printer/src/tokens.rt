//! Tokens that are put one behind the other.

ghost use Rattle.std.specs.Prelude.{◌≡◌, ◌++◌, ◌∷◌, [], IfOk, OnOk, decimal};
ghost use Rattle.gl_schema.specs.SchemaText as kinds;
ghost use Rattle.gl_query_tokens.specs.declared.token.Token.TheVariants as token;
ghost use Rattle.gl_query_tokens.specs.declared.token.Plain.TheVariants as plain;
ghost use Rattle.gl_query_printer.specs.Canonical.{name_of, num_of};
ghost use Rattle.gl_query_printer.specs.Brackets.{opening, closing};

use gl_bits::Memory;
use gl_query::{Name, Num};
use gl_query_tokens::{Plain, Token};
use gl_schema::{NameText, kind_front, kind_size};
use gl_values::Kind;
use itoa::Buffer;
use std::alloc::Global;

/// Puts a token behind the others.
pub(crate) fn put(tokens: &mut Vec<Token>, token: Token) -> Result<(), Memory>
    ensures { OnOk result (tokens.new.items ≡ tokens.old.items ++ token ∷ []) }
{
    tokens.push(token)?;
    Ok(())
}

/// Puts a keyword or a sign.
pub(crate) fn put_plain(tokens: &mut Vec<Token>, plain: Plain) -> Result<(), Memory>
    ensures { OnOk result (tokens.new.items ≡ tokens.old.items ++ token.Plain plain ∷ []) }
{
    put(tokens, Token::Plain(plain))
}

/// Puts an opening bracket.
pub(crate) fn put_open(tokens: &mut Vec<Token>) -> Result<(), Memory>
    ensures { OnOk result (tokens.new.items ≡ tokens.old.items ++ token.Open 0 ∷ []) }
{
    put(tokens, Token::Open { at: 0 })
}

/// Puts a name.
pub(crate) fn put_name(alloc: Global, tokens: &mut Vec<Token>, name: &[u8]) -> Result<(), Memory>
    ensures { OnOk result (tokens.new.items ≡ tokens.old.items ++ token.Name (name_of name.now)
        ∷ []) }
{
    let text = NameText::from_vec(Vec::from_slice(alloc, name)?);
    put(tokens, Token::Name(Name { text, at: 0 }))
}

/// Puts a number.
pub(crate) fn put_number(tokens: &mut Vec<Token>, value: u128) -> Result<(), Memory>
    ensures { OnOk result (tokens.new.items ≡ tokens.old.items ++ token.Number (num_of value)
        ∷ []) }
{
    put(tokens, Token::Number(Num { value, at: 0 }))
}

// A word and a number behind it.
fn word_of(alloc: Global, word: &[u8], number: u8) -> Result<Vec<u8>, Memory>
    ensures { IfOk result (λ text. text.items ≡ word.now ++ decimal number) }
{
    let mut text = Vec::from_slice(alloc, word)?;
    let mut buffer = Buffer::new();
    match text.extend_from_slice(buffer.format(number).as_bytes()) {
        Ok(()) => Ok(text),
        Err(_) => Err(Memory),
    }
}

/// Puts the word that names a kind.
#[tactic(auto, unfolding(gl_schema::specs::SchemaText::kind_text))]
pub(crate) fn put_kind(alloc: Global, tokens: &mut Vec<Token>, kind: Kind) -> Result<(), Memory>
    ensures { OnOk result (tokens.new.items ≡ tokens.old.items
        ++ token.Name (name_of (kinds.kind_text kind)) ∷ []) }
{
    let word = word_of(alloc, kind_front(kind), kind_size(kind))?;
    put_name(alloc, tokens, &word)
}

/// Puts an opening bracket, unless what follows fits without.
pub(crate) fn open_unless(tokens: &mut Vec<Token>, fits: bool) -> Result<(), Memory>
    ensures { OnOk result (tokens.new.items ≡ tokens.old.items ++ opening fits) }
{
    if fits {
        return Ok(());
    }
    put_open(tokens)
}

/// Puts the closing bracket, unless what stands before fits without.
pub(crate) fn close_unless(tokens: &mut Vec<Token>, fits: bool) -> Result<(), Memory>
    ensures { OnOk result (tokens.new.items ≡ tokens.old.items ++ closing fits) }
{
    if fits {
        return Ok(());
    }
    put_plain(tokens, Plain::Close)
}
