//! What begins a query, and the end of a statement.

ghost use Rattle.std.specs.Prelude.{◌≡◌, ◌∷◌, List, IfOk};
ghost use Rattle.gl_query_reader.specs.States as states;
ghost use Rattle.gl_query_reader.specs.Machine as machine;
ghost use Rattle.gl_query_reader.specs.Begun.{BeginsWindow, begin_select, want_var, begin_arrival, by_behind, open_body, want_arrival, want_body};
ghost use Rattle.gl_query_reader.specs.Trees.{query_of, body_head_of, frame_of, query_control_of, frames_of, leads};

use crate::frames::{BodyHead, Frame, Head, WindowBy, WindowHead};
use crate::joins::Joining;
use crate::keeping::Beside;
use crate::parts::{expect, keep_named, refuse, term_in};
use crate::state::{Control, ItemControl, QueryControl, SourceControl, WindowControl};
use crate::terms::have_term;
use crate::written::{Over, WrittenItems, WrittenQuery};
use gl_query_tokens::sorts::{is_plain, open_in, word_in};
use gl_query_tokens::{Plain, Token, Word};
use std::alloc::{AllocError, Global};

fn begin_select(alloc: Global, plain: Plain) -> Option<Control>
    ensures { (fs : List states.Frame) → leads result fs ≡ begin_select fs plain }
{
    match plain {
        Plain::Select => {
            let items = WrittenItems::new(alloc);
            Some(Control::Item(ItemControl::WantItem { items }))
        }
        _ => None,
    }
}

// BY behind what joins this query with what follows.
fn by_behind(join: Joining, left: WrittenQuery, at: u64, by_at: u64) -> Option<Control>
    ensures { (fs : List states.Frame) → leads result fs
        ≡ by_behind fs join (query_of left) at by_at }
{
    match join {
        Joining::Union => Some(Control::Query(QueryControl::WantArrival { left, at, by_at })),
        _ => refuse(left),
    }
}

// BY, by the frame that it stands in.
fn begin_arrival_in(frame: Frame, by_at: u64) -> Option<Control>
    ensures { (fs : List states.Frame) → leads result fs
        ≡ begin_arrival (frame_of frame ∷ fs) by_at }
{
    match frame {
        Frame::JoinOf { left, join, at } => by_behind(join, left, at, by_at),
        other => refuse(other),
    }
}

// BY where a term is wanted.
#[tactic(auto, using(crate::proofs::Stack::reductions))]
fn begin_arrival(frames: &mut Vec<Frame>, by_at: u64) -> Option<Control>
    ensures { leads result (frames_of frames.new.items)
        ≡ begin_arrival (frames_of frames.old.items) by_at }
{
    match frames.pop() {
        Some(frame) => begin_arrival_in(frame, by_at),
        None => None,
    }
}

// ARRIVAL behind UNION BY.
fn want_arrival(
    frames: &mut Vec<Frame>,
    left: WrittenQuery,
    at: u64,
    by_at: u64,
    token: &Token,
) -> Result<Option<Control>, AllocError>
    ensures { IfOk result (λ o. leads o (frames_of frames.new.items)
        ≡ want_arrival (frames_of frames.old.items) (query_of left) at by_at token.now) }
{
    match word_in(token, Word::Arrival) {
        Some(word) => {
            let join = Joining::Arrival { by_at, word };
            term_in(frames, Frame::JoinOf { left, join, at })
        }
        None => Ok(refuse(left)),
    }
}

// A select, an EACH or a bracket; or BY behind UNION.
fn want_term(
    alloc: Global,
    frames: &mut Vec<Frame>,
    token: &Token,
) -> Result<Option<Control>, AllocError>
    ensures { IfOk result (λ o. leads o (frames_of frames.new.items)
        ≡ machine.want_term (frames_of frames.old.items) token.now) }
{
    match token {
        Token::Plain(plain) => Ok(begin_select(alloc, *plain)),
        Token::Each { at } => Ok(Some(Control::Query(QueryControl::WantVar { at: *at }))),
        Token::Open { at } => term_in(frames, Frame::InQuery { at: *at }),
        Token::By { at } => Ok(begin_arrival(frames, *at)),
        _ => Ok(None),
    }
}

// The name behind EACH.
fn want_var(alloc: Global, at: u64, token: &Token) -> Result<Option<Control>, AllocError>
    ensures { IfOk result (λ o. (fs : List states.Frame) → leads o fs
        ≡ want_var fs at token.now) }
{
    match keep_named(alloc, at, token)? {
        Some(
            Beside {
                kept: at,
                made: var,
            },
        ) => Ok(Some(Control::Query(QueryControl::WantIn { at, var }))),
        None => Ok(None),
    }
}

// `[` behind groups that have no window yet: what stands before the window, or else what was
// handed in.
#[tactic(auto, using(crate::proofs::Eaches::no_window))]
fn begin_window(head: BodyHead, token: &Token) -> Result<WindowHead, BodyHead>
    ensures { BeginsWindow head token.now result }
{
    if !is_plain(token, Plain::LeftSquare) {
        return Err(head);
    }
    let BodyHead {
        at,
        var,
        source,
        over,
    } = head;
    match over {
        Over::Groups(grouping, window) => match window {
            None => {
                let head = WindowBy::Groups { at, var, grouping };
                Ok(WindowHead { head, source })
            }
            Some(window) => Err(BodyHead {
                at,
                var,
                source,
                over: Over::Groups(grouping, Some(window)),
            }),
        },
        Over::Windows(window) => Err(BodyHead {
            at,
            var,
            source,
            over: Over::Windows(window),
        }),
    }
}

// `(` before a body.
fn open_body(
    frames: &mut Vec<Frame>,
    head: BodyHead,
    token: &Token,
) -> Result<Option<Control>, AllocError>
    ensures { IfOk result (λ o. leads o (frames_of frames.new.items)
        ≡ open_body (frames_of frames.old.items) (body_head_of head) token.now) }
{
    match open_in(token) {
        Some(open) => term_in(frames, Frame::InBody { head, open }),
        None => Ok(refuse(head)),
    }
}

// `[` before the windows of groups, or `(` before a body.
fn want_body(
    frames: &mut Vec<Frame>,
    head: BodyHead,
    token: &Token,
) -> Result<Option<Control>, AllocError>
    ensures { IfOk result (λ o. leads o (frames_of frames.new.items)
        ≡ want_body (frames_of frames.old.items) (body_head_of head) token.now) }
{
    match begin_window(head, token) {
        Ok(window) => Ok(Some(Control::Window(WindowControl::WantSize(window)))),
        Err(head) => open_body(frames, head, token),
    }
}

// The name behind INTO.
fn want_name(
    alloc: Global,
    query: WrittenQuery,
    token: &Token,
) -> Result<Option<Control>, AllocError>
    ensures { IfOk result (λ o. (fs : List states.Frame) → leads o fs
        ≡ machine.want_name fs (query_of query) token.now) }
{
    match keep_named(alloc, query, token)? {
        Some(
            Beside {
                kept: query,
                made: name,
            },
        ) => Ok(Some(Control::Query(QueryControl::HaveName { query, name }))),
        None => Ok(None),
    }
}

/// The place behind a token of a query.
pub fn step_query(
    alloc: Global,
    control: QueryControl,
    frames: &mut Vec<Frame>,
    token: &Token,
) -> Result<Option<Control>, AllocError>
    ensures { IfOk result (λ o. leads o (frames_of frames.new.items)
        ≡ machine.step_at (query_control_of control) (frames_of frames.old.items) token.now) }
{
    match control {
        QueryControl::WantTerm => want_term(alloc, frames, token),
        QueryControl::WantArrival { left, at, by_at } => {
            want_arrival(frames, left, at, by_at, token)
        }
        QueryControl::WantVar { at } => want_var(alloc, at, token),
        QueryControl::WantIn { at, var } => {
            let head = Head::Each { at, var };
            let next = Control::Source(SourceControl::WantSource { head });
            Ok(expect(token, Plain::In, next))
        }
        QueryControl::WantBody { head } => want_body(frames, head, token),
        QueryControl::HaveTerm { term } => have_term(alloc, frames, term, token),
        QueryControl::WantName { query } => want_name(alloc, query, token),
        QueryControl::HaveName { query, name } => {
            let next = Control::Query(QueryControl::WantEnd { query, name });
            Ok(expect(token, Plain::Semicolon, next))
        }
        QueryControl::WantEnd { query, name } => Ok(refuse((query, name))),
    }
}
