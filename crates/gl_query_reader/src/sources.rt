//! Sources, and what may stand behind them.

ghost use Rattle.std.specs.Prelude.{◌≡◌, List, IfOk};
ghost use Rattle.gl_query_reader.specs.Written.{Stream};
ghost use Rattle.gl_query_reader.specs.States as states;
ghost use Rattle.gl_query_reader.specs.Machine as machine;
ghost use Rattle.gl_query_reader.specs.Windowed as windowed;
ghost use Rattle.gl_query_reader.specs.Trees.{join_head_of, pick_of, query_of, head_of, source_control_of, frames_of, leads};

use crate::frames::{Frame, GroupsHead, Head, JoinBy, JoinHead, SelectFrom, WindowBy, WindowHead};
use crate::keeping::{Beside, keep_beside};
use crate::parts::{cloned, operand_in, refuse, term_in};
use crate::state::{Control, GroupsControl, SourceControl, WindowControl};
use crate::terms::{after_source, end_select};
use crate::written::{Window, WrittenQuery};
use gl_query::Name;
use gl_query_tokens::sorts::{by_in, is_plain, word_in};
use gl_query_tokens::{Plain, Spelling, Token, Word};
use std::alloc::{AllocError, Global};

// A name or `(`.
fn want_source(
    alloc: Global,
    frames: &mut Vec<Frame>,
    head: Head,
    token: &Token,
) -> Result<Option<Control>, AllocError>
    ensures { IfOk result (λ o. leads o (frames_of frames.new.items)
        ≡ machine.want_source (frames_of frames.old.items) (head_of head) token.now) }
{
    match token {
        Token::Name(name) => want_stream(alloc, head, name),
        Token::Open { at } => term_in(frames, Frame::InSource { head, at: *at }),
        _ => Ok(refuse(head)),
    }
}

// A stream as a source.
fn want_stream(alloc: Global, head: Head, name: &Name) -> Result<Option<Control>, AllocError>
    ensures { IfOk result (λ o. (fs : List states.Frame) → leads o fs
        ≡ states.goes (machine.after_source (head_of head) (Stream name.now)) fs) }
{
    let Beside {
        kept: head,
        made: name,
    } = keep_beside(head, cloned(alloc, name))?;
    Ok(Some(after_source(head, WrittenQuery::Stream(name))))
}

// A window stands at most once.
fn begin_window(from: SelectFrom) -> Option<Control>
    ensures { (fs : List states.Frame) → leads result fs
        ≡ windowed.begin_window fs (pick_of from.pick) (query_of from.source) from.window }
{
    let SelectFrom {
        pick,
        source,
        window,
    } = from;
    let head = WindowHead {
        head: WindowBy::Select(pick),
        source,
    };
    match window {
        Some(_) => refuse(head),
        None => Some(Control::Window(WindowControl::WantSize(head))),
    }
}

// Whether a source is an as-of join.
#[tactic(auto, using(crate::proofs::Eaches::eaches))]
fn is_joined(source: &WrittenQuery) -> bool
    ensures { result ≡ windowed.is_joined (query_of source.now) }
{
    matches!(source, WrittenQuery::AsOf { .. })
}

// Whether a source may be the left side of ASOF.
fn can_join(source: &WrittenQuery, window: &Option<Window>) -> bool
    ensures { result ≡ windowed.can_join (query_of source.now) window.now }
{
    match window {
        None => !is_joined(source),
        Some(_) => false,
    }
}

// How ASOF is spelled, where it may stand here.
fn join_word(can: bool, token: &Token) -> Option<Spelling>
    ensures { result ≡ windowed.join_word can token.now }
{
    if can {
        word_in(token, Word::AsOf)
    } else {
        None
    }
}

// ASOF behind the source of a select, or what ends the select.
fn join_or_end(
    alloc: Global,
    frames: &mut Vec<Frame>,
    from: SelectFrom,
    word: Option<Spelling>,
    token: &Token,
) -> Result<Option<Control>, AllocError>
    ensures { IfOk result (λ o. leads o (frames_of frames.new.items)
        ≡ machine.join_or_end (frames_of frames.old.items) (pick_of from.pick)
        (query_of from.source) from.window word token.now) }
{
    match word {
        Some(word) => {
            let SelectFrom { pick, source, .. } = from;
            let head = Head::Join(JoinHead {
                by: JoinBy::Select(pick),
                left: source,
                word,
            });
            Ok(Some(Control::Source(SourceControl::WantSource { head })))
        }
        None => end_select(alloc, frames, from, None, token),
    }
}

// What may stand behind the source of a select.
fn have_source(
    alloc: Global,
    frames: &mut Vec<Frame>,
    from: SelectFrom,
    token: &Token,
) -> Result<Option<Control>, AllocError>
    ensures { IfOk result (λ o. leads o (frames_of frames.new.items)
        ≡ machine.have_source (frames_of frames.old.items) (pick_of from.pick)
        (query_of from.source) from.window token.now) }
{
    if is_plain(token, Plain::LeftSquare) {
        return Ok(begin_window(from));
    }
    if is_plain(token, Plain::Where) {
        return operand_in(frames, Frame::InFilter(from));
    }
    if is_plain(token, Plain::Group) {
        let filter = None;
        return Ok(Some(Control::Groups(GroupsControl::WantBy { from, filter })));
    }
    let word = join_word(can_join(&from.source, &from.window), token);
    join_or_end(alloc, frames, from, word, token)
}

// ASOF or BY behind the source of an EACH.
fn join_or_by(
    at: u64,
    var: Name,
    source: WrittenQuery,
    word: Option<Spelling>,
    token: &Token,
) -> Option<Control>
    ensures { (fs : List states.Frame) → leads result fs
        ≡ windowed.join_or_by fs at var (query_of source) word token.now }
{
    if let Some(word) = word {
        let head = Head::Join(JoinHead {
            by: JoinBy::Each { at, var },
            left: source,
            word,
        });
        return Some(Control::Source(SourceControl::WantSource { head }));
    }
    let head = GroupsHead::Each { at, var, source };
    match by_in(token) {
        Some(at) => Some(Control::Groups(GroupsControl::WantKey { head, at })),
        None => refuse(head),
    }
}

// BY behind the right side of ASOF.
fn want_join_by(head: JoinHead, right: WrittenQuery, token: &Token) -> Option<Control>
    ensures { (fs : List states.Frame) → leads result fs
        ≡ windowed.want_join_by fs (join_head_of head) (query_of right) token.now }
{
    let head = GroupsHead::Join { head, right };
    match by_in(token) {
        Some(at) => Some(Control::Groups(GroupsControl::WantKey { head, at })),
        None => refuse(head),
    }
}

// `[`, ASOF or BY behind the source of an EACH.
fn have_each_source(at: u64, var: Name, source: WrittenQuery, token: &Token) -> Option<Control>
    ensures { (fs : List states.Frame) → leads result fs
        ≡ windowed.have_each_source fs at var (query_of source) token.now }
{
    if is_plain(token, Plain::LeftSquare) {
        let head = WindowBy::Each { at, var };
        let head = WindowHead { head, source };
        return Some(Control::Window(WindowControl::WantSize(head)));
    }
    let word = join_word(!is_joined(&source), token);
    join_or_by(at, var, source, word, token)
}

/// The place behind a token at a source.
pub fn step_source(
    alloc: Global,
    control: SourceControl,
    frames: &mut Vec<Frame>,
    token: &Token,
) -> Result<Option<Control>, AllocError>
    ensures { IfOk result (λ o. leads o (frames_of frames.new.items)
        ≡ machine.step_at (source_control_of control) (frames_of frames.old.items) token.now) }
{
    match control {
        SourceControl::WantSource { head } => want_source(alloc, frames, head, token),
        SourceControl::HaveSource(from) => have_source(alloc, frames, from, token),
        SourceControl::HaveEachSource { at, var, source } => {
            Ok(have_each_source(at, var, source, token))
        }
        SourceControl::WantJoinBy { head, right } => Ok(want_join_by(head, right, token)),
    }
}
