//! Items of a select of frames to tokens.

ghost use Rattle.std.specs.Prelude.{◌≡◌, ◌++◌, ◌∷◌, [], Some, OnOk, map, option_map};
ghost use Rattle.gl_query.specs.Shapes.{expr_shape, frame_agg_shape, frame_item_shape, slots_shape};
ghost use Rattle.gl_query_tokens.specs.declared.token.Token.TheVariants as token;
ghost use Rattle.gl_query_tokens.specs.declared.token.Plain.TheVariants as plain;
ghost use Rattle.gl_query_tokens.specs.declared.token.Word.TheVariants as words;
ghost use Rattle.gl_query_tokens.specs.declared.token.Spelling.TheVariants as spelling;
ghost use Rattle.gl_query_reader.specs.Written as written;
ghost use Rattle.gl_query_printer.specs.Canonical.{num_of, expr_of, over_agg_of, filtering_of, bound_of, rows_of, partition_of, frame_item_of};

use crate::expressions::put_expr;
use crate::items::{put_as, put_count, put_fold, put_grouping, put_named};
use crate::tokens::{put, put_name, put_number, put_open, put_plain};
use gl_bits::Memory;
use gl_query::{Expr, Frame, FrameAgg, FrameItem, Num, Slots};
use gl_query_tokens::words::word_text;
use gl_query_tokens::{Fold, Plain, Token, Word};
use std::alloc::Global;

// Puts a word in small letters, which is a name.
fn put_small(alloc: Global, tokens: &mut Vec<Token>, word: Word) -> Result<(), Memory>
    ensures { OnOk result (tokens.new.items ≡ tokens.old.items
        ++ written.spell_word word (spelling.Small 0) ∷ []) }
{
    put_name(alloc, tokens, word_text(word))
}

// Puts a word in capitals.
fn put_capital(tokens: &mut Vec<Token>, word: Word) -> Result<(), Memory>
    ensures { OnOk result (tokens.new.items ≡ tokens.old.items ++ token.Word word 0 ∷ []) }
{
    put(tokens, Token::Word { word, at: 0 })
}

fn put_last_value(alloc: Global, tokens: &mut Vec<Token>, arg: &Expr) -> Result<(), Memory>
    ensures { OnOk result (tokens.new.items ≡ tokens.old.items ++ written.spell_over_agg
        (written.LastOf (spelling.Small 0) 0 (expr_of (expr_shape arg.now)))) }
{
    put_small(alloc, tokens, Word::LastValue)?;
    put_open(tokens)?;
    put_expr(alloc, tokens, arg)?;
    put_plain(tokens, Plain::Close)
}

// Puts a function over the rows of a frame.
fn put_over_agg(alloc: Global, tokens: &mut Vec<Token>, agg: &FrameAgg) -> Result<(), Memory>
    ensures { OnOk result (tokens.new.items ≡ tokens.old.items
        ++ written.spell_over_agg (over_agg_of (frame_agg_shape agg.now))) }
{
    match agg {
        FrameAgg::Count => put_count(tokens),
        FrameAgg::Sum(arg) => put_fold(alloc, tokens, Fold::Sum, arg),
        FrameAgg::Min(arg) => put_fold(alloc, tokens, Fold::Min, arg),
        FrameAgg::Max(arg) => put_fold(alloc, tokens, Fold::Max, arg),
        FrameAgg::Avg(arg) => put_fold(alloc, tokens, Fold::Avg, arg),
        FrameAgg::LastValue(arg) => put_last_value(alloc, tokens, arg),
    }
}

// Puts FILTER and its condition, where there is one.
fn put_filtering(
    alloc: Global,
    tokens: &mut Vec<Token>,
    filter: &Option<Expr>,
) -> Result<(), Memory>
    ensures { OnOk result (tokens.new.items ≡ tokens.old.items
        ++ written.spell_filtering (filtering_of (option_map expr_shape filter.now))) }
{
    match filter {
        None => Ok(()),
        Some(expr) => {
            put_capital(tokens, Word::Filter)?;
            put_open(tokens)?;
            put_plain(tokens, Plain::Where)?;
            put_expr(alloc, tokens, expr)?;
            put_plain(tokens, Plain::Close)
        }
    }
}

// Puts a number of rows, or UNBOUNDED.
fn put_bound(tokens: &mut Vec<Token>, back: Option<Num>) -> Result<(), Memory>
    ensures { OnOk result (tokens.new.items ≡ tokens.old.items
        ++ written.spell_bound (bound_of (option_map (λ n. n.value) back)) ∷ []) }
{
    match back {
        None => put_capital(tokens, Word::Unbounded),
        Some(number) => put_number(tokens, number.value),
    }
}

// Puts PARTITION, where there is one.
fn put_part(alloc: Global, tokens: &mut Vec<Token>, slots: &Option<Slots>) -> Result<(), Memory>
    ensures { OnOk result (tokens.new.items ≡ tokens.old.items
        ++ written.spell_part (partition_of (option_map slots_shape slots.now))) }
{
    match slots {
        None => Ok(()),
        Some(slots) => {
            put_capital(tokens, Word::Partition)?;
            put_grouping(alloc, tokens, &slots.key, slots.groups)
        }
    }
}

// Puts OVER with PARTITION and the rows of its frame.
fn put_rows(
    alloc: Global,
    tokens: &mut Vec<Token>,
    slots: &Option<Slots>,
    back: Option<Num>,
) -> Result<(), Memory>
    ensures { let part = partition_of (option_map slots_shape slots.now) in
        OnOk result (tokens.new.items ≡ tokens.old.items ++ token.Word words.Over 0 ∷ token.Open 0
        ∷ (written.spell_part part
        ++ (written.spell_rows (Some (rows_of (option_map (λ n. n.value) back)))
        ++ token.Plain plain.Close ∷ []))) }
{
    put_capital(tokens, Word::Over)?;
    put_open(tokens)?;
    put_part(alloc, tokens, slots)?;
    put_capital(tokens, Word::Rows)?;
    put_bound(tokens, back)?;
    put_capital(tokens, Word::Preceding)?;
    put_plain(tokens, Plain::Close)
}

// Puts LAG.
fn put_lag(alloc: Global, tokens: &mut Vec<Token>, arg: &Expr, back: Num) -> Result<(), Memory>
    ensures { OnOk result (tokens.new.items ≡ tokens.old.items ++ written.spell_head
        (written.LagOf (spelling.Small 0) 0 (expr_of (expr_shape arg.now))
        (Some (num_of back.value)))) }
{
    put_small(alloc, tokens, Word::Lag)?;
    put_open(tokens)?;
    put_expr(alloc, tokens, arg)?;
    put_plain(tokens, Plain::Comma)?;
    put_number(tokens, back.value)?;
    put_plain(tokens, Plain::Close)
}

// Puts OVER with PARTITION alone.
fn put_over(alloc: Global, tokens: &mut Vec<Token>, slots: &Option<Slots>) -> Result<(), Memory>
    ensures { let part = partition_of (option_map slots_shape slots.now) in
        OnOk result (tokens.new.items ≡ tokens.old.items ++ token.Word words.Over 0 ∷ token.Open 0
        ∷ (written.spell_part part ++ token.Plain plain.Close ∷ [])) }
{
    put_capital(tokens, Word::Over)?;
    put_open(tokens)?;
    put_part(alloc, tokens, slots)?;
    put_plain(tokens, Plain::Close)
}

// Puts a function over rows with its FILTER.
fn put_ranged(
    alloc: Global,
    tokens: &mut Vec<Token>,
    agg: &FrameAgg,
    filter: &Option<Expr>,
) -> Result<(), Memory>
    ensures { OnOk result (tokens.new.items ≡ tokens.old.items ++ written.spell_head
        (written.Ranged (over_agg_of (frame_agg_shape agg.now))
        (filtering_of (option_map expr_shape filter.now)))) }
{
    put_over_agg(alloc, tokens, agg)?;
    put_filtering(alloc, tokens, filter)
}

// Puts a frame under its name.
fn put_frame(
    alloc: Global,
    tokens: &mut Vec<Token>,
    item: &FrameItem,
    slots: &Option<Slots>,
) -> Result<(), Memory>
    ensures { let part = partition_of (option_map slots_shape slots.now) in
        OnOk result (tokens.new.items ≡ tokens.old.items
        ++ written.spell_item (frame_item_of part (frame_item_shape item.now))) }
{
    match &item.frame {
        Frame::Own(expr) => put_named(alloc, tokens, expr, &item.name),
        Frame::Lag { arg, back, .. } => {
            put_lag(alloc, tokens, arg, *back)?;
            put_over(alloc, tokens, slots)?;
            put_as(alloc, tokens, &item.name)
        }
        Frame::Over {
            agg,
            filter,
            back,
            ..
        } => {
            put_ranged(alloc, tokens, agg, filter)?;
            put_rows(alloc, tokens, slots, *back)?;
            put_as(alloc, tokens, &item.name)
        }
    }
}

/// Puts frames with a comma between each two.
#[tactic(auto, using(crate::proofs::Loops::frame_steps))]
pub(crate) fn put_frames(
    alloc: Global,
    tokens: &mut Vec<Token>,
    items: &[FrameItem],
    slots: &Option<Slots>,
) -> Result<(), Memory>
    ensures { let part = partition_of (option_map slots_shape slots.now) in
        OnOk result (tokens.new.items ≡ tokens.old.items
        ++ written.spell_items (map (frame_item_of part) (map frame_item_shape items.now))) }
{
    let Some((first, rest)) = items.split_first() else {
        return Ok(());
    };
    put_frame(alloc, tokens, first, slots)?;
    for item in rest {
        put_plain(tokens, Plain::Comma)?;
        put_frame(alloc, tokens, item, slots)?;
    }
    Ok(())
}
