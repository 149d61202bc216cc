//! Terms and what joins them.

ghost use Rattle.std.specs.Prelude.{◌≡◌, ◌∷◌, List, IfOk, None};
ghost use Rattle.gl_query_reader.specs.Written.{InBrackets, Join', Select};
ghost use Rattle.gl_query_reader.specs.States as states;
ghost use Rattle.gl_query_reader.specs.Machine as machine;
ghost use Rattle.gl_query_reader.specs.Trees.{pick_of, query_of, filter_of, head_of, body_head_of, frame_of, frames_of, control_of, leads};

use crate::frames::{BodyHead, Frame, Head, SelectFrom};
use crate::joins::{Joining, joining_of};
use crate::keeping::{Beside, keep_beside};
use crate::parts::{refuse, term_in};
use crate::state::{Control, QueryControl, SourceControl};
use crate::written::{Grouping, WrittenEach, WrittenExpr, WrittenQuery, WrittenSelect};
use gl_bits::boxes::{OneBox, TwoBoxes, one_box, two_boxes};
use gl_query_tokens::{Plain, Token};
use std::alloc::{AllocError, Global};

fn is_join(frame: &Frame) -> bool
    ensures { result ≡ machine.is_join (frame_of frame.now) }
{
    matches!(frame, Frame::JoinOf { .. })
}

fn of_join(
    alloc: Global,
    join: Joining,
    at: u64,
    left: WrittenQuery,
    right: WrittenQuery,
) -> Result<WrittenQuery, AllocError>
    ensures { IfOk result (λ q. query_of q ≡ Join' join at (query_of left) (query_of right)) }
{
    let TwoBoxes {
        kept: at,
        first: left,
        second: right,
    } = two_boxes(alloc, at, left, right)?;
    Ok(WrittenQuery::Join {
        join,
        at,
        left,
        right,
    })
}

// A frame's query and the term behind it.
fn join_with(alloc: Global, frame: Frame, term: WrittenQuery) -> Result<WrittenQuery, AllocError>
    ensures { IfOk result (λ q. query_of q ≡ machine.join_with (frame_of frame) (query_of term)) }
{
    match frame {
        Frame::JoinOf { left, join, at } => of_join(alloc, join, at, left, term),
        other => {
            drop(other);
            Ok(term)
        }
    }
}

// Whether the innermost frame waits for the right side of a join.
fn last_joins(frames: &[Frame]) -> bool
    ensures { result ≡ machine.last_joins (frames_of frames.now) }
{
    match frames.last() {
        Some(frame) => is_join(frame),
        None => false,
    }
}

// A term joins what stands before it.
#[tactic(auto, using(crate::proofs::Stack::reductions))]
fn joined(
    alloc: Global,
    frames: &mut Vec<Frame>,
    term: WrittenQuery,
) -> Result<WrittenQuery, AllocError>
    ensures { IfOk result (λ q. machine.joined (frames_of frames.old.items) (query_of term)
        ≡ (frames_of frames.new.items, query_of q)) }
{
    if !last_joins(frames.as_slice()) {
        return Ok(term);
    }
    match frames.pop() {
        Some(frame) => join_with(alloc, frame, term),
        None => Ok(term),
    }
}

// An EACH with its body.
#[tactic(auto, using(crate::proofs::Eaches::bodies), unfolding(crate::specs::Trees::each_of))]
fn body_of(
    alloc: Global,
    head: BodyHead,
    open: u64,
    body: WrittenQuery,
) -> Result<WrittenQuery, AllocError>
    ensures { IfOk result (λ q. query_of q
        ≡ machine.body_of (body_head_of head) «open» (query_of body)) }
{
    let BodyHead {
        at,
        var,
        source,
        over,
    } = head;
    let each = WrittenEach {
        at,
        var,
        over,
        open,
    };
    let TwoBoxes {
        kept: each,
        first: source,
        second: body,
    } = two_boxes(alloc, each, source, body)?;
    Ok(WrittenQuery::Each { each, source, body })
}

/// A select as a term.
pub fn selected(
    alloc: Global,
    from: SelectFrom,
    filter: Option<WrittenExpr>,
    grouping: Option<Grouping>,
) -> Result<WrittenQuery, AllocError>
    ensures { IfOk result (λ q. query_of q
        ≡ Select (pick_of from.pick) (query_of from.source) from.window (filter_of filter)
        grouping) }
{
    let SelectFrom {
        pick,
        source,
        window,
    } = from;
    let select = WrittenSelect {
        pick,
        window,
        filter,
        grouping,
    };
    let OneBox {
        kept: select,
        boxed: source,
    } = one_box(alloc, select, source)?;
    Ok(WrittenQuery::Select { select, source })
}

/// What may stand behind a source.
pub fn after_source(head: Head, source: WrittenQuery) -> Control
    ensures { control_of result ≡ machine.after_source (head_of head) (query_of source) }
{
    match head {
        Head::Select(pick) => Control::Source(SourceControl::HaveSource(SelectFrom {
            pick,
            source,
            window: None,
        })),
        Head::Each { at, var } => Control::Source(SourceControl::HaveEachSource {
            at,
            var,
            source,
        }),
        Head::Join(head) => Control::Source(SourceControl::WantJoinBy {
            head,
            right: source,
        }),
    }
}

fn in_brackets(alloc: Global, at: u64, query: WrittenQuery) -> Result<WrittenQuery, AllocError>
    ensures { IfOk result (λ q. query_of q ≡ InBrackets at (query_of query)) }
{
    let OneBox {
        kept: at,
        boxed: inner,
    } = one_box(alloc, at, query)?;
    Ok(WrittenQuery::Brackets { at, inner })
}

// `)` behind a query.
#[tactic(auto, using(crate::proofs::Stack::reductions))]
fn close_query(
    alloc: Global,
    frames: &mut Vec<Frame>,
    query: WrittenQuery,
) -> Result<Option<Control>, AllocError>
    ensures { IfOk result (λ o. leads o (frames_of frames.new.items)
        ≡ machine.close_query (frames_of frames.old.items) (query_of query)) }
{
    match frames.pop() {
        Some(frame) => close_query_in(alloc, frame, query),
        None => Ok(refuse(query)),
    }
}

// `)` behind a query, by what it stands in.
fn close_query_in(
    alloc: Global,
    frame: Frame,
    query: WrittenQuery,
) -> Result<Option<Control>, AllocError>
    ensures { IfOk result (λ o. (fs : List states.Frame) → leads o fs
        ≡ machine.close_query (frame_of frame ∷ fs) (query_of query)) }
{
    match frame {
        Frame::InQuery { at } => have_brackets(alloc, at, query),
        Frame::InSource { head, at } => close_source(alloc, head, at, query),
        Frame::InBody { head, open } => have_body(alloc, head, open, query),
        other => Ok(refuse((other, query))),
    }
}

// `)` behind a query in brackets.
fn have_brackets(alloc: Global, at: u64, query: WrittenQuery) -> Result<Option<Control>, AllocError>
    ensures { IfOk result (λ o. (fs : List states.Frame) →
        leads o fs ≡ states.goes (states.HaveTerm (InBrackets at (query_of query))) fs) }
{
    let term = in_brackets(alloc, at, query)?;
    Ok(Some(Control::Query(QueryControl::HaveTerm { term })))
}

// `)` behind a body.
fn have_body(
    alloc: Global,
    head: BodyHead,
    open: u64,
    query: WrittenQuery,
) -> Result<Option<Control>, AllocError>
    ensures { IfOk result (λ o. (fs : List states.Frame) → leads o fs ≡ states.goes
        (states.HaveTerm (machine.body_of (body_head_of head) «open» (query_of query))) fs) }
{
    let term = body_of(alloc, head, open, query)?;
    Ok(Some(Control::Query(QueryControl::HaveTerm { term })))
}

// `)` behind a source.
fn close_source(
    alloc: Global,
    head: Head,
    at: u64,
    query: WrittenQuery,
) -> Result<Option<Control>, AllocError>
    ensures { IfOk result (λ o. (fs : List states.Frame) → leads o fs
        ≡ states.goes (machine.after_source (head_of head) (InBrackets at (query_of query))) fs) }
{
    let Beside {
        kept: head,
        made: source,
    } = keep_beside(head, in_brackets(alloc, at, query))?;
    Ok(Some(after_source(head, source)))
}

// INTO behind a query.
fn end_query(frames: &[Frame], query: WrittenQuery) -> Option<Control>
    ensures { leads result (frames_of frames.now)
        ≡ machine.end_query (frames_of frames.now) (query_of query) }
{
    if !frames.is_empty() {
        return refuse(query);
    }
    Some(Control::Query(QueryControl::WantName { query }))
}

fn after_whole(
    alloc: Global,
    frames: &mut Vec<Frame>,
    query: WrittenQuery,
    plain: Plain,
) -> Result<Option<Control>, AllocError>
    ensures { IfOk result (λ o. leads o (frames_of frames.new.items)
        ≡ machine.after_whole (frames_of frames.old.items) (query_of query) plain) }
{
    match plain {
        Plain::Close => close_query(alloc, frames, query),
        Plain::Into => Ok(end_query(frames.as_slice(), query)),
        _ => Ok(refuse(query)),
    }
}

// What stands behind a query.
fn after_query(
    alloc: Global,
    frames: &mut Vec<Frame>,
    query: WrittenQuery,
    token: &Token,
) -> Result<Option<Control>, AllocError>
    ensures { IfOk result (λ o. leads o (frames_of frames.new.items)
        ≡ machine.after_query (frames_of frames.old.items) (query_of query) token.now) }
{
    match token {
        Token::Join { join, at } => {
            let (join, at) = (joining_of(*join), *at);
            term_in(
                frames,
                Frame::JoinOf {
                    left: query,
                    join,
                    at,
                },
            )
        }
        Token::Plain(plain) => after_whole(alloc, frames, query, *plain),
        _ => Ok(refuse(query)),
    }
}

/// What stands behind a term.
pub fn have_term(
    alloc: Global,
    frames: &mut Vec<Frame>,
    term: WrittenQuery,
    token: &Token,
) -> Result<Option<Control>, AllocError>
    ensures { IfOk result (λ o. leads o (frames_of frames.new.items)
        ≡ machine.have_term (frames_of frames.old.items) (query_of term) token.now) }
{
    let query = joined(alloc, frames, term)?;
    after_query(alloc, frames, query, token)
}

/// What stands behind a select without groups.
pub fn end_select(
    alloc: Global,
    frames: &mut Vec<Frame>,
    from: SelectFrom,
    filter: Option<WrittenExpr>,
    token: &Token,
) -> Result<Option<Control>, AllocError>
    ensures { IfOk result (λ o. leads o (frames_of frames.new.items)
        ≡ machine.have_term (frames_of frames.old.items) (Select (pick_of from.pick)
        (query_of from.source) from.window (filter_of filter) None) token.now) }
{
    let term = selected(alloc, from, filter, None)?;
    have_term(alloc, frames, term, token)
}
