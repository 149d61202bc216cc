//! Queries and statements to tokens.

ghost use Rattle.std.specs.Prelude.{◌≡◌, ◌++◌, ◌∷◌, [], Some, IfOk, OnOk, map, option_map};
ghost use Rattle.gl_query.specs.Shapes.{expr_shape, agg_item_shape, frame_item_shape, pick_shape, query_shape, slots_shape, statement_shape};
ghost use Rattle.gl_query_tokens.specs.declared.token.Token.TheVariants as token;
ghost use Rattle.gl_query_tokens.specs.declared.token.Join.TheVariants as join;
ghost use Rattle.gl_query_tokens.specs.declared.token.Plain.TheVariants as plain;
ghost use Rattle.gl_query_tokens.specs.declared.token.Word.TheVariants as words;
ghost use Rattle.gl_query_reader.specs.Written as written;
ghost use Rattle.gl_query_printer.specs.Brackets as brackets;
ghost use Rattle.gl_query_printer.specs.Brackets.{opening};
ghost use Rattle.gl_query_printer.specs.Canonical.{name_of, expr_of, agg_item_of, frame_item_of, partition_of, pick_of, window_of, query_of, canonical_tokens};

use crate::expressions::put_expr;
use crate::items::{put_aggs, put_grouping, put_pick};
use crate::over_items::put_frames;
use crate::tokens::{close_unless, open_unless, put, put_name, put_number, put_open, put_plain};
use gl_bits::Memory;
use gl_query::{AggItem, Expr, FrameItem, Measure, Name, Num, Pick, Query, Slots, Statement};
use gl_query_tokens::{Join, Plain, Token, Word};
use std::alloc::Global;

// A source that stands without brackets.
fn is_stream(query: &Query) -> bool
    ensures { result ≡ brackets.is_stream (query_of (query_shape query.now)) }
{
    match query {
        Query::Read(_) | Query::AsOf { .. } => true,
        _ => false,
    }
}

// A side of ASOF that stands without brackets.
fn is_side(query: &Query) -> bool
    ensures { result ≡ brackets.is_side (query_of (query_shape query.now)) }
{
    match query {
        Query::Read(_) => true,
        _ => false,
    }
}

// Puts ASOF, and the bracket of its right side.
fn put_as_of(tokens: &mut Vec<Token>, bare: bool) -> Result<(), Memory>
    ensures { OnOk result (tokens.new.items ≡ tokens.old.items ++ token.Word words.AsOf 0
        ∷ opening bare) }
{
    put(
        tokens,
        Token::Word {
            word: Word::AsOf,
            at: 0,
        },
    )?;
    open_unless(tokens, bare)
}

// A right side of a union or CONCAT that stands without brackets.
fn is_term(query: &Query) -> bool
    ensures { result ≡ brackets.is_term (query_of (query_shape query.now)) }
{
    match query {
        Query::Union { .. } | Query::ByArrival { .. } | Query::Concat { .. } => false,
        _ => true,
    }
}

// Puts what stands before the source of a select of plain items.
fn begin_rows(alloc: Global, tokens: &mut Vec<Token>, pick: &Pick, bare: bool) -> Result<(), Memory>
    ensures { OnOk result (tokens.new.items ≡ tokens.old.items ++ token.Plain plain.Select
        ∷ (written.spell_pick (pick_of (pick_shape pick.now)) ++ token.Plain plain.From
        ∷ opening bare)) }
{
    put_plain(tokens, Plain::Select)?;
    put_pick(alloc, tokens, pick)?;
    put_plain(tokens, Plain::From)?;
    open_unless(tokens, bare)
}

// Puts what stands before the source of a select of aggregates.
fn begin_total(
    alloc: Global,
    tokens: &mut Vec<Token>,
    aggs: &[AggItem],
    bare: bool,
) -> Result<(), Memory>
    ensures { OnOk result (tokens.new.items ≡ tokens.old.items ++ token.Plain plain.Select
        ∷ (written.spell_items (map agg_item_of (map agg_item_shape aggs.now))
        ++ token.Plain plain.From ∷ opening bare)) }
{
    put_plain(tokens, Plain::Select)?;
    put_aggs(alloc, tokens, aggs)?;
    put_plain(tokens, Plain::From)?;
    open_unless(tokens, bare)
}

// Puts what stands before the source of a select of frames.
fn begin_frames(
    alloc: Global,
    tokens: &mut Vec<Token>,
    items: &[FrameItem],
    slots: &Option<Slots>,
    bare: bool,
) -> Result<(), Memory>
    ensures { let part = partition_of (option_map slots_shape slots.now) in
        OnOk result (tokens.new.items ≡ tokens.old.items ++ token.Plain plain.Select
        ∷ (written.spell_items (map (frame_item_of part) (map frame_item_shape items.now))
        ++ token.Plain plain.From ∷ opening bare)) }
{
    put_plain(tokens, Plain::Select)?;
    put_frames(alloc, tokens, items, slots)?;
    put_plain(tokens, Plain::From)?;
    open_unless(tokens, bare)
}

// Puts WHERE and its condition, where there is one.
fn put_filter(alloc: Global, tokens: &mut Vec<Token>, filter: &Option<Expr>) -> Result<(), Memory>
    ensures { OnOk result (tokens.new.items ≡ tokens.old.items
        ++ written.spell_filter (option_map expr_of (option_map expr_shape filter.now))) }
{
    match filter {
        None => Ok(()),
        Some(expr) => {
            put_plain(tokens, Plain::Where)?;
            put_expr(alloc, tokens, expr)
        }
    }
}

// Puts what stands before the source of an EACH.
fn begin_each(alloc: Global, tokens: &mut Vec<Token>, var: &Name, bare: bool) -> Result<(), Memory>
    ensures { OnOk result (tokens.new.items ≡ tokens.old.items ++ token.Each 0
        ∷ token.Name (name_of var.now.text) ∷ token.Plain plain.In ∷ opening bare) }
{
    put(tokens, Token::Each { at: 0 })?;
    put_name(alloc, tokens, var.text.as_slice())?;
    put_plain(tokens, Plain::In)?;
    open_unless(tokens, bare)
}

// The word for what a window counts.
fn measure_word(measure: Measure) -> Plain
    ensures { result ≡ written.measure_word measure }
{
    match measure {
        Measure::Tuples => Plain::Tuples,
        Measure::Time => Plain::Time,
    }
}

// Puts a window, and the bracket of the body.
fn put_window(
    tokens: &mut Vec<Token>,
    measure: Measure,
    size: Num,
    advance: Num,
) -> Result<(), Memory>
    ensures { OnOk result (tokens.new.items ≡ tokens.old.items ++ written.spell_window
        (window_of measure size.value advance.value) ++ token.Open 0 ∷ []) }
{
    put_plain(tokens, Plain::LeftSquare)?;
    put(tokens, Token::Size { at: 0 })?;
    put_number(tokens, size.value)?;
    put_plain(tokens, Plain::Advance)?;
    put_number(tokens, advance.value)?;
    put_plain(tokens, measure_word(measure))?;
    put_plain(tokens, Plain::RightSquare)?;
    put_open(tokens)
}

// Puts UNION or CONCAT, and the bracket of its right side.
fn put_join(tokens: &mut Vec<Token>, join: Join, bare: bool) -> Result<(), Memory>
    ensures { OnOk result (tokens.new.items ≡ tokens.old.items ++ token.Join join 0
        ∷ opening bare) }
{
    put(tokens, Token::Join { join, at: 0 })?;
    open_unless(tokens, bare)
}

// Puts UNION BY ARRIVAL, and the bracket of its right side.
fn put_arrival(tokens: &mut Vec<Token>, bare: bool) -> Result<(), Memory>
    ensures { OnOk result (tokens.new.items ≡ tokens.old.items ++ token.Join join.Union 0
        ∷ token.By 0 ∷ token.Word words.Arrival 0 ∷ opening bare) }
{
    put(
        tokens,
        Token::Join {
            join: Join::Union,
            at: 0,
        },
    )?;
    put(tokens, Token::By { at: 0 })?;
    put(
        tokens,
        Token::Word {
            word: Word::Arrival,
            at: 0,
        },
    )?;
    open_unless(tokens, bare)
}

// Puts a query.
#[tactic(auto, using(crate::proofs::Operands::operands))]
fn put_query(alloc: Global, tokens: &mut Vec<Token>, query: &Query) -> Result<(), Memory>
    ensures { OnOk result (tokens.new.items ≡ tokens.old.items
        ++ written.spell_query (query_of (query_shape query.now))) }
{
    match query {
        Query::Read(name) => put_name(alloc, tokens, name.text.as_slice()),
        Query::Rows {
            pick,
            filter,
            source,
        } => {
            begin_rows(alloc, tokens, pick, is_stream(source))?;
            put_query(alloc, tokens, source)?;
            close_unless(tokens, is_stream(source))?;
            put_filter(alloc, tokens, filter)
        }
        Query::Total { aggs, source } => {
            begin_total(alloc, tokens, aggs.as_slice(), is_stream(source))?;
            put_query(alloc, tokens, source)?;
            close_unless(tokens, is_stream(source))
        }
        Query::Frames {
            items,
            filter,
            slots,
            source,
        } => {
            begin_frames(alloc, tokens, items.as_slice(), slots, is_stream(source))?;
            put_query(alloc, tokens, source)?;
            close_unless(tokens, is_stream(source))?;
            put_filter(alloc, tokens, filter)
        }
        Query::Each {
            var,
            source,
            size,
            advance,
            body,
            ..
        } => {
            begin_each(alloc, tokens, var, is_stream(source))?;
            put_query(alloc, tokens, source)?;
            close_unless(tokens, is_stream(source))?;
            put_window(tokens, Measure::Tuples, *size, *advance)?;
            put_query(alloc, tokens, body)?;
            put_plain(tokens, Plain::Close)
        }
        Query::EachTime {
            var,
            source,
            size,
            advance,
            body,
            ..
        } => {
            begin_each(alloc, tokens, var, is_stream(source))?;
            put_query(alloc, tokens, source)?;
            close_unless(tokens, is_stream(source))?;
            put_window(tokens, Measure::Time, *size, *advance)?;
            put_query(alloc, tokens, body)?;
            put_plain(tokens, Plain::Close)
        }
        Query::PerGroup {
            var,
            source,
            key,
            groups,
            body,
            ..
        } => {
            begin_each(alloc, tokens, var, is_stream(source))?;
            put_query(alloc, tokens, source)?;
            close_unless(tokens, is_stream(source))?;
            put_grouping(alloc, tokens, key, *groups)?;
            put_open(tokens)?;
            put_query(alloc, tokens, body)?;
            put_plain(tokens, Plain::Close)
        }
        Query::Partition {
            var,
            source,
            key,
            groups,
            size,
            advance,
            body,
            ..
        } => {
            begin_each(alloc, tokens, var, is_stream(source))?;
            put_query(alloc, tokens, source)?;
            close_unless(tokens, is_stream(source))?;
            put_grouping(alloc, tokens, key, *groups)?;
            put_window(tokens, Measure::Tuples, *size, *advance)?;
            put_query(alloc, tokens, body)?;
            put_plain(tokens, Plain::Close)
        }
        Query::Union { left, right, .. } => {
            put_query(alloc, tokens, left)?;
            put_join(tokens, Join::Union, is_term(right))?;
            put_query(alloc, tokens, right)?;
            close_unless(tokens, is_term(right))
        }
        Query::ByArrival { left, right, .. } => {
            put_query(alloc, tokens, left)?;
            put_arrival(tokens, is_term(right))?;
            put_query(alloc, tokens, right)?;
            close_unless(tokens, is_term(right))
        }
        Query::AsOf {
            left,
            right,
            slots,
            ..
        } => {
            open_unless(tokens, is_side(left))?;
            put_query(alloc, tokens, left)?;
            close_unless(tokens, is_side(left))?;
            put_as_of(tokens, is_side(right))?;
            put_query(alloc, tokens, right)?;
            close_unless(tokens, is_side(right))?;
            put_grouping(alloc, tokens, &slots.key, slots.groups)
        }
        Query::Concat { left, right, .. } => {
            put_query(alloc, tokens, left)?;
            put_join(tokens, Join::Concat, is_term(right))?;
            put_query(alloc, tokens, right)?;
            close_unless(tokens, is_term(right))
        }
    }
}

/// The tokens of a statement's canonical text.
pub(crate) fn canonical_tokens(alloc: Global, statement: &Statement) -> Result<Vec<Token>, Memory>
    ensures { IfOk result (λ tokens. tokens.items
        ≡ canonical_tokens (statement_shape statement.now)) }
{
    let mut tokens = Vec::new(alloc);
    put_query(alloc, &mut tokens, &statement.query)?;
    put_plain(&mut tokens, Plain::Into)?;
    put_name(alloc, &mut tokens, statement.name.text.as_slice())?;
    Ok(tokens)
}
