//! The tokens between two `;`.

ghost use Rattle.std.specs.Prelude.{◌≡◌, ◌≤◌, ◌-◌, ◌∷◌, [], reverse, vec_len, IfOk, OnOk};
ghost use Rattle.gl_query_texts.specs.Pieces.{is_semicolon, piece, pieces_behind, pieces_left};

use gl_bits::Memory;
use gl_query_tokens::{Lexeme, Plain, Token};
use std::alloc::Global;

/// The tokens of a piece, and the place in the text where they end.
#[derive(Drop)]
pub struct Piece {
    /// The tokens in their order, each with its place in the whole text.
    pub tokens: Vec<Lexeme>,
    /// The byte of the whole text at which the piece ends.
    pub end: u64,
}

// Whether a token parts two pieces.
fn is_semicolon(token: &Token) -> bool
    ensures { result ≡ is_semicolon token.now }
{
    match token {
        Token::Plain(plain) => *plain == Plain::Semicolon,
        _ => false,
    }
}

/// Takes the first piece, and the `;` where it ends, off tokens that stand in reverse; all of them
/// end at this place.
#[tactic(auto, using(crate::proofs::Steps::piece_steps))]
pub fn take_piece(alloc: Global, left: &mut Vec<Lexeme>, end: u64) -> Result<Piece, Memory>
    ensures piece { IfOk result (λ p. pieces_behind [] (reverse left.old.items) end
        ≡ piece p.tokens.items p.end ∷ pieces_left (reverse left.new.items) end) }
    ensures shorter { OnOk result (vec_len left.new ≤ vec_len left.old - 1) }
{
    let mut tokens = Vec::new(alloc);
    while let Some(lexeme) = left.pop() {
        if is_semicolon(&lexeme.token) {
            let end = lexeme.at;
            return Ok(Piece { tokens, end });
        }
        tokens.push(lexeme)?;
    }
    Ok(Piece { tokens, end })
}
