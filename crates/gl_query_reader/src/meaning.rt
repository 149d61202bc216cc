//! What a statement that is written means.

ghost use Rattle.std.specs.Prelude.{◌≡◌, IfOk};
ghost use Rattle.gl_query_reader.specs.Meaning as meaning;
ghost use Rattle.gl_query.specs.Trees.{query_tree, statement_tree};
ghost use Rattle.gl_query_reader.specs.Trees.{each_tree, query_of, statement_of};

use crate::joins::Joining;
use crate::keeping::{Beside, Both, keep_beside, take_both};
use crate::mixed::spelled_at;
use crate::select_meaning::{each_over, select_meaning};
use crate::written::{Grouping, Over, RowWindow, WrittenEach, WrittenQuery, WrittenStatement};
use gl_bits::boxes::{TwoBoxes, two_boxes};
use gl_query::{Name, Query, Slots, Statement};
use gl_query_tokens::Spelling;
use std::alloc::{AllocError, Global};

// A body for each group, or for each window of each group.
fn group_meaning(
    grouping: Grouping,
    windows: Option<RowWindow>,
    var: Name,
    source: Box<Query>,
    body: Box<Query>,
    at: u64,
) -> Query
    ensures { query_tree result
        ≡ meaning.each_group var (query_tree source.value) grouping windows
        (query_tree body.value) at }
{
    match windows {
        None => Query::PerGroup {
            var,
            source,
            key: grouping.key,
            groups: grouping.groups,
            body,
            at,
        },
        Some(window) => Query::Partition {
            var,
            source,
            key: grouping.key,
            groups: grouping.groups,
            size: window.size,
            advance: window.advance,
            body,
            at,
        },
    }
}

// What an EACH means over its source, with its body.
#[tactic(auto, unfolding(crate::specs::Trees::each_tree))]
fn each_meaning(
    alloc: Global,
    each: WrittenEach,
    source: Query,
    body: Query,
) -> Result<Query, AllocError>
    ensures { IfOk result (λ q. query_tree q
        ≡ each_tree each (query_tree source) (query_tree body)) }
{
    let TwoBoxes {
        kept: each,
        first: source,
        second: body,
    } = two_boxes(alloc, each, source, body)?;
    let WrittenEach {
        at,
        var,
        over,
        open: _,
    } = each;
    match over {
        Over::Windows(window) => Ok(each_over(window, var, source, body, at)),
        Over::Groups(grouping, windows) => Ok(group_meaning(
            grouping, windows, var, source, body, at,
        )),
    }
}

fn join_meaning(
    alloc: Global,
    join: Joining,
    left: Query,
    right: Query,
    at: u64,
) -> Result<Query, AllocError>
    ensures { IfOk result (λ q. query_tree q
        ≡ meaning.join_meaning join (query_tree left) (query_tree right) at) }
{
    let TwoBoxes {
        kept: at,
        first: left,
        second: right,
    } = two_boxes(alloc, at, left, right)?;
    match join {
        Joining::Union => Ok(Query::Union { left, right, at }),
        Joining::Arrival { .. } => Ok(Query::ByArrival { left, right, at }),
        Joining::Concat => Ok(Query::Concat { left, right, at }),
    }
}

// Two sources joined by the key behind BY.
fn join_as_of(
    alloc: Global,
    word: Spelling,
    left: Query,
    right: Query,
    grouping: Grouping,
) -> Result<Query, AllocError>
    ensures { IfOk result (λ q. query_tree q
        ≡ meaning.join_as_of word (query_tree left) (query_tree right) grouping) }
{
    let TwoBoxes {
        kept: grouping,
        first: left,
        second: right,
    } = two_boxes(alloc, grouping, left, right)?;
    let Grouping { at: _, key, groups } = grouping;
    let at = spelled_at(word);
    let slots = Slots { key, groups };
    Ok(Query::AsOf {
        left,
        right,
        slots,
        at,
    })
}

#[tactic(auto, using(crate::proofs::Eaches::eaches))]
fn query_meaning(alloc: Global, written: WrittenQuery) -> Result<Query, AllocError>
    ensures { IfOk result (λ q. query_tree q ≡ meaning.query_meaning (query_of written)) }
{
    match written {
        WrittenQuery::Stream(name) => Ok(Query::Read(name)),
        WrittenQuery::Brackets { at: _, inner } => query_meaning(alloc, Box::into_inner(inner)),
        WrittenQuery::Select { select, source } => {
            let source = query_meaning(alloc, Box::into_inner(source));
            let Beside {
                kept: select,
                made: source,
            } = keep_beside(select, source)?;
            select_meaning(alloc, select, source)
        }
        WrittenQuery::Each { each, source, body } => {
            let source = query_meaning(alloc, Box::into_inner(source));
            let body = query_meaning(alloc, Box::into_inner(body));
            let Beside { kept: each, made } = keep_beside(each, take_both(source, body))?;
            each_meaning(alloc, each, made.first, made.second)
        }
        WrittenQuery::AsOf {
            word,
            grouping,
            left,
            right,
        } => {
            let left = query_meaning(alloc, Box::into_inner(left));
            let right = query_meaning(alloc, Box::into_inner(right));
            let Beside {
                kept: grouping,
                made,
            } = keep_beside(grouping, take_both(left, right))?;
            join_as_of(alloc, word, made.first, made.second, grouping)
        }
        WrittenQuery::Join {
            join,
            at,
            left,
            right,
        } => {
            let left = query_meaning(alloc, Box::into_inner(left));
            let right = query_meaning(alloc, Box::into_inner(right));
            let Both {
                first: left,
                second: right,
            } = take_both(left, right)?;
            join_meaning(alloc, join, left, right, at)
        }
    }
}

/// What a statement that is written means.
pub fn statement_meaning(alloc: Global, written: WrittenStatement) -> Result<Statement, AllocError>
    ensures { IfOk result (λ s. statement_tree s
        ≡ meaning.statement_meaning (statement_of written)) }
{
    let WrittenStatement {
        query,
        name,
        closed: _,
    } = written;
    let Beside {
        kept: name,
        made: query,
    } = keep_beside(name, query_meaning(alloc, query))?;
    Ok(Statement { query, name })
}
