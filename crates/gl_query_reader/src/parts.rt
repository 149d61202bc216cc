//! Small parts of the reader's steps.

ghost use Rattle.std.specs.Prelude.{◌≡◌, ◌∷◌, List, IfOk, Some, None, MatchOption};
ghost use Rattle.gl_query_tokens.specs.Sorts.{name_in};
ghost use Rattle.gl_query_reader.specs.States as states;
ghost use Rattle.gl_query_reader.specs.States.{expected};
ghost use Rattle.gl_query_reader.specs.Trees.{frame_of, frames_of, control_of, leads};

use crate::frames::Frame;
use crate::keeping::{Beside, keep_beside, put};
use crate::state::{Control, ExprControl, QueryControl};
use gl_query::{Name, TextBytes};
use gl_query_tokens::sorts::is_plain;
use gl_query_tokens::{Plain, Token};
use gl_schema::NameText;
use std::alloc::{AllocError, Global};

/// Lets go what was read: the token cannot stand there.
pub fn refuse<T: Drop>(parts: T) -> Option<Control>
    ensures { result ≡ None }
{
    drop(parts);
    None
}

/// The place that a keyword or a sign leads to.
pub fn expect(token: &Token, wanted: Plain, next: Control) -> Option<Control>
    ensures { (fs : List states.Frame) →
        leads result fs ≡ expected wanted (control_of next) fs token.now }
{
    if is_plain(token, wanted) {
        Some(next)
    } else {
        refuse(next)
    }
}

/// The place of an operand in one more frame.
#[tactic(auto, using(crate::proofs::Stack::reductions))]
pub fn operand_in(frames: &mut Vec<Frame>, frame: Frame) -> Result<Option<Control>, AllocError>
    ensures { IfOk result (λ o. leads o (frames_of frames.new.items)
        ≡ states.goes states.WantOperand (frame_of frame ∷ frames_of frames.old.items)) }
{
    put(frames, frame)?;
    Ok(Some(Control::Expr(ExprControl::WantOperand)))
}

/// The place of a term in one more frame.
#[tactic(auto, using(crate::proofs::Stack::reductions))]
pub fn term_in(frames: &mut Vec<Frame>, frame: Frame) -> Result<Option<Control>, AllocError>
    ensures { IfOk result (λ o. leads o (frames_of frames.new.items)
        ≡ states.goes states.WantTerm (frame_of frame ∷ frames_of frames.old.items)) }
{
    put(frames, frame)?;
    Ok(Some(Control::Query(QueryControl::WantTerm)))
}

/// A copy of a name.
pub fn cloned(alloc: Global, name: &Name) -> Result<Name, AllocError>
    ensures { IfOk result (λ copy. copy ≡ name.now) }
{
    let text = NameText::from_vec(Vec::from_slice(alloc, name.text.as_slice())?);
    Ok(Name { text, at: name.at })
}

/// A copy of the bytes of a text literal.
pub fn cloned_text(alloc: Global, text: &TextBytes) -> Result<TextBytes, AllocError>
    ensures { IfOk result (λ copy. copy ≡ text.now) }
{
    Ok(TextBytes::from_vec(Vec::from_slice(alloc, text.as_slice())?))
}

// The name that a token is.
fn name_of(alloc: Global, token: &Token) -> Result<Option<Name>, AllocError>
    ensures { IfOk result (λ o. o ≡ name_in token.now) }
{
    match token {
        Token::Name(name) => Ok(Some(cloned(alloc, name)?)),
        _ => Ok(None),
    }
}

/// The name that a token is, beside what its caller keeps; where it is none, that is let go.
pub fn keep_named<T: Drop>(
    alloc: Global,
    kept: T,
    token: &Token,
) -> Result<Option<Beside<T, Name>>, AllocError>
    ensures { IfOk result (λ o. MatchOption o (name_in token.now ≡ None)
        (λ b. (b.kept ≡ kept) × (name_in token.now ≡ Some b.made))) }
{
    let Beside { kept, made } = keep_beside(kept, name_of(alloc, token))?;
    match made {
        Some(made) => Ok(Some(Beside { kept, made })),
        None => {
            drop(kept);
            Ok(None)
        }
    }
}
