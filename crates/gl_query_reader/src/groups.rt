//! What makes groups behind a source.

ghost use Rattle.std.specs.Prelude.{◌≡◌, List, IfOk};
ghost use Rattle.gl_query_reader.specs.States as states;
ghost use Rattle.gl_query_reader.specs.Machine as machine;
ghost use Rattle.gl_query_reader.specs.Windowed as windowed;
ghost use Rattle.gl_query_reader.specs.Written.{AsOf'};
ghost use Rattle.gl_query_reader.specs.Trees.{join_head_of, pick_of, query_of, filter_of, groups_head_of, groups_control_of, leads};

use crate::frames::{BodyHead, GroupsHead, JoinBy, JoinHead, SelectFrom};
use crate::keeping::{Beside, keep_beside};
use crate::over_state::{OverControl, PartHead};
use crate::over_steps::rows_first;
use crate::parts::{expect, keep_named, refuse};
use crate::state::{Control, GroupsControl, QueryControl, SourceControl};
use crate::terms::selected;
use crate::written::{Grouping, Over, Part, WrittenExpr, WrittenQuery};
use gl_bits::boxes::{TwoBoxes, two_boxes};
use gl_query::Name;
use gl_query_tokens::sorts::{by_in, number_in};
use gl_query_tokens::{Plain, Spelling, Token};
use std::alloc::{AllocError, Global};

// BY behind GROUP.
fn want_by(from: SelectFrom, filter: Option<WrittenExpr>, token: &Token) -> Option<Control>
    ensures { (fs : List states.Frame) → leads result fs
        ≡ windowed.want_by fs (pick_of from.pick) (query_of from.source) from.window
        (filter_of filter) token.now }
{
    match by_in(token) {
        Some(at) => {
            let head = GroupsHead::Select { from, filter };
            Some(Control::Groups(GroupsControl::WantKey { head, at }))
        }
        None => refuse((from, filter)),
    }
}

// The name behind BY.
fn want_key(
    alloc: Global,
    head: GroupsHead,
    at: u64,
    token: &Token,
) -> Result<Option<Control>, AllocError>
    ensures { IfOk result (λ o. (fs : List states.Frame) → leads o fs
        ≡ windowed.want_key fs (groups_head_of head) at token.now) }
{
    match keep_named(alloc, head, token)? {
        Some(
            Beside {
                kept: head,
                made: key,
            },
        ) => Ok(Some(Control::Groups(GroupsControl::WantGroups { head, at, key }))),
        None => Ok(None),
    }
}

// An as-of join as a source.
fn of_sides(
    alloc: Global,
    word: Spelling,
    left: WrittenQuery,
    right: WrittenQuery,
    grouping: Grouping,
) -> Result<WrittenQuery, AllocError>
    ensures { IfOk result (λ q. query_of q ≡ AsOf' word (query_of left) (query_of right) grouping) }
{
    let TwoBoxes {
        kept: grouping,
        first: left,
        second: right,
    } = two_boxes(alloc, grouping, left, right)?;
    Ok(WrittenQuery::AsOf {
        word,
        grouping,
        left,
        right,
    })
}

// Behind both sides of ASOF, its key and its number.
fn after_join(
    alloc: Global,
    head: JoinHead,
    right: WrittenQuery,
    grouping: Grouping,
) -> Result<Option<Control>, AllocError>
    ensures { IfOk result (λ o. (fs : List states.Frame) → leads o fs
        ≡ states.goes (windowed.after_join (join_head_of head) (query_of right) grouping) fs) }
{
    let JoinHead { by, left, word } = head;
    let Beside {
        kept: by,
        made: source,
    } = keep_beside(by, of_sides(alloc, word, left, right, grouping))?;
    match by {
        JoinBy::Select(pick) => Ok(Some(Control::Source(SourceControl::HaveSource(SelectFrom {
            pick,
            source,
            window: None,
        })))),
        JoinBy::Each { at, var } => Ok(Some(Control::Source(SourceControl::HaveEachSource {
            at,
            var,
            source,
        }))),
    }
}

// Behind what makes groups.
fn after_groups(
    alloc: Global,
    head: GroupsHead,
    grouping: Grouping,
) -> Result<Option<Control>, AllocError>
    ensures { IfOk result (λ o. (fs : List states.Frame) → leads o fs
        ≡ states.goes (windowed.after_groups (groups_head_of head) grouping) fs) }
{
    match head {
        GroupsHead::Select { from, filter } => {
            let term = selected(alloc, from, filter, Some(grouping))?;
            Ok(Some(Control::Query(QueryControl::HaveTerm { term })))
        }
        GroupsHead::Each { at, var, source } => {
            let head = BodyHead {
                at,
                var,
                source,
                over: Over::Groups(grouping, None),
            };
            Ok(Some(Control::Query(QueryControl::WantBody { head })))
        }
        GroupsHead::Join { head, right } => after_join(alloc, head, right, grouping),
        GroupsHead::Over(head) => {
            let PartHead { over, open, word } = head;
            let rows = rows_first(&over.head);
            let part = Some(Part { word, grouping });
            Ok(Some(Control::Over(OverControl::InOver {
                head: over,
                open,
                part,
                rows,
            })))
        }
    }
}

// The number behind GROUPS.
fn want_groups_number(
    alloc: Global,
    head: GroupsHead,
    at: u64,
    key: Name,
    token: &Token,
) -> Result<Option<Control>, AllocError>
    ensures { IfOk result (λ o. (fs : List states.Frame) → leads o fs
        ≡ windowed.want_groups_number fs (groups_head_of head) at key token.now) }
{
    match number_in(token) {
        Some(groups) => after_groups(alloc, head, Grouping { at, key, groups }),
        None => Ok(refuse((head, key))),
    }
}

/// The place behind a token in what makes groups.
pub fn step_groups(
    alloc: Global,
    control: GroupsControl,
    token: &Token,
) -> Result<Option<Control>, AllocError>
    ensures { IfOk result (λ o. (fs : List states.Frame) → leads o fs
        ≡ machine.step_at (groups_control_of control) fs token.now) }
{
    match control {
        GroupsControl::WantBy { from, filter } => Ok(want_by(from, filter, token)),
        GroupsControl::WantKey { head, at } => want_key(alloc, head, at, token),
        GroupsControl::WantGroups { head, at, key } => {
            let next = Control::Groups(GroupsControl::WantGroupsNumber { head, at, key });
            Ok(expect(token, Plain::Groups, next))
        }
        GroupsControl::WantGroupsNumber { head, at, key } => {
            want_groups_number(alloc, head, at, key, token)
        }
    }
}
