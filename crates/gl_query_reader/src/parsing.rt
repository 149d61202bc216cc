//! From tokens to a statement as it is written.

ghost use Rattle.std.specs.Prelude.{◌≡◌, ◌<◌, IfOk, option_map};
ghost use Rattle.gl_query_reader.specs.States as states;
ghost use Rattle.gl_query_reader.specs.Machine as machine;
ghost use Rattle.gl_query_reader.specs.Limits.{none_counted, is_past};
ghost use Rattle.gl_query_reader.specs.Trees.{statement_of, frames_of, control_of, state_of, leads};
ghost use Rattle.gl_query_reader.specs.Reading.{Gives, StepGives, run};
ghost use Rattle.gl_query_reader.specs.declared.parsing.ReadFault.TheVariants.{Memory};

use crate::aggregates::step_agg;
use crate::expressions::step_expr;
use crate::frames::Frame;
use crate::groups::step_groups;
use crate::items::step_item;
use crate::limits::Counts;
use crate::over_steps::step_over;
use crate::queries::step_query;
use crate::sources::step_source;
use crate::state::{Control, QueryControl};
use crate::windows::step_window;
use crate::written::WrittenStatement;
use gl_query_tokens::{Lexeme, Token};
use std::alloc::{AllocError, Global};

/// Why tokens are no statement, with the place of the token that shows it.
#[derive(Clone, Copy)]
pub enum ReadFault {
    /// The token cannot stand there, or more is wanted at the end of the text.
    Syntax(u64),
    /// With this token the text passes a limit on brackets, operators or joins.
    TooDeep(u64),
    /// Memory ran out.
    Memory,
}

impl From<AllocError> for ReadFault {
    ghost from_gives = { λ _ e. e ≡ Memory };

    fn from(_e: AllocError) -> ReadFault {
        ReadFault::Memory
    }
}

// The place behind a token that can stand there.
#[tactic(auto, unfolding(crate::specs::Machine::step))]
fn step(
    alloc: Global,
    control: Control,
    frames: &mut Vec<Frame>,
    token: &Token,
) -> Result<Option<Control>, AllocError>
    ensures { IfOk result (λ o. leads o (frames_of frames.new.items)
        ≡ machine.step (state_of control (frames_of frames.old.items)) token.now) }
{
    match control {
        Control::Expr(control) => step_expr(alloc, control, frames, token),
        Control::Item(control) => step_item(alloc, control, frames, token),
        Control::Agg(control) => step_agg(alloc, control, frames, token),
        Control::Over(control) => step_over(control, frames, token),
        Control::Source(control) => step_source(alloc, control, frames, token),
        Control::Window(control) => Ok(step_window(control, token)),
        Control::Groups(control) => step_groups(alloc, control, token),
        Control::Query(control) => step_query(alloc, control, frames, token),
    }
}

// The statement, where it may end here.
fn finish(control: Control) -> Option<WrittenStatement>
    ensures { option_map statement_of result ≡ machine.finish_at (control_of control) }
{
    match control {
        Control::Query(QueryControl::HaveName { query, name }) => Some(WrittenStatement {
            query,
            name,
            closed: false,
        }),
        Control::Query(QueryControl::WantEnd { query, name }) => Some(WrittenStatement {
            query,
            name,
            closed: true,
        }),
        other => {
            drop(other);
            None
        }
    }
}

// The place behind a token, where it can stand there and no limit is passed.
fn next_control(
    alloc: Global,
    control: Control,
    frames: &mut Vec<Frame>,
    lexeme: &Lexeme,
    counts: Counts,
) -> Result<Control, ReadFault>
    ensures { StepGives lexeme.now.at
        (machine.step (state_of control (frames_of frames.old.items)) lexeme.now.token)
        (is_past counts) (frames_of frames.new.items) result }
{
    match step(alloc, control, frames, &lexeme.token)? {
        Some(next) => {
            if counts.is_past() {
                drop(next);
                Err(ReadFault::TooDeep(lexeme.at))
            } else {
                Ok(next)
            }
        }
        None => Err(ReadFault::Syntax(lexeme.at)),
    }
}

/// The statement of the tokens as it is written, or the first fault from the left; where a text of
/// this length ends too soon, the fault is at its length.
#[tactic(auto, using(crate::proofs::Loop::loop_steps))]
pub fn parsed(alloc: Global, lexemes: Vec<Lexeme>, len: u64) -> Result<WrittenStatement, ReadFault>
    ensures { Gives result (run len none_counted states.start lexemes.items) }
{
    let mut left = lexemes;
    left.reverse();
    let mut control = Control::Query(QueryControl::WantTerm);
    let mut frames = Vec::new(alloc);
    let mut counts = Counts::new();
    while let Some(lexeme) = left.pop() {
        counts = counts.after(&lexeme.token);
        control = next_control(alloc, control, &mut frames, &lexeme, counts)?;
    }
    finish(control).ok_or(ReadFault::Syntax(len))
}
