//! Windows behind a source.

ghost use Rattle.std.specs.Prelude.{◌≡◌, List};
ghost use Rattle.gl_query_reader.specs.States as states;
ghost use Rattle.gl_query_reader.specs.Machine as machine;
ghost use Rattle.gl_query_reader.specs.Windowed as windowed;
ghost use Rattle.gl_query_reader.specs.Trees.{query_of, window_head_of, window_control_of, control_of, leads};

use crate::frames::{BodyHead, SelectFrom, WindowBy, WindowHead};
use crate::parts::{expect, refuse};
use crate::state::{Control, QueryControl, SourceControl, WindowControl};
use crate::written::{Over, RowWindow, Window};
use gl_query::{Measure, Num};
use gl_query_tokens::sorts::{is_plain, number_in, size_in};
use gl_query_tokens::{Plain, Token};

// SIZE.
fn want_size(head: WindowHead, token: &Token) -> Option<Control>
    ensures { (fs : List states.Frame) → leads result fs
        ≡ windowed.want_size fs (window_head_of head.head) (query_of head.source) token.now }
{
    match size_in(token) {
        Some(at) => Some(Control::Window(WindowControl::WantSizeNumber { head, at })),
        None => refuse(head),
    }
}

// The number behind SIZE.
fn want_size_number(head: WindowHead, at: u64, token: &Token) -> Option<Control>
    ensures { (fs : List states.Frame) → leads result fs
        ≡ windowed.want_size_number fs (window_head_of head.head) (query_of head.source) at token.now }
{
    match number_in(token) {
        Some(size) => Some(Control::Window(WindowControl::WantAdvance { head, at, size })),
        None => refuse(head),
    }
}

// The number behind ADVANCE.
fn want_advance_number(head: WindowHead, at: u64, size: Num, token: &Token) -> Option<Control>
    ensures { (fs : List states.Frame) → leads result fs
        ≡ windowed.want_advance_number fs (window_head_of head.head) (query_of head.source) at size
        token.now }
{
    match number_in(token) {
        Some(advance) => Some(Control::Window(WindowControl::WantMeasure {
            head,
            at,
            size,
            advance,
        })),
        None => refuse(head),
    }
}

// What a window counts, by its word.
fn measure_in(token: &Token) -> Option<Measure>
    ensures { result ≡ states.measure_in token.now }
{
    match token {
        Token::Plain(Plain::Tuples) => Some(Measure::Tuples),
        Token::Plain(Plain::Time) => Some(Measure::Time),
        _ => None,
    }
}

// What a window of these may count.
fn measure_for(head: &WindowBy, token: &Token) -> Option<Measure>
    ensures { result ≡ states.measure_for (window_head_of head.now) token.now }
{
    match head {
        WindowBy::Groups { .. } => {
            if is_plain(token, Plain::Tuples) {
                Some(Measure::Tuples)
            } else {
                None
            }
        }
        _ => measure_in(token),
    }
}

// TUPLES or TIME.
fn want_measure(
    head: WindowHead,
    at: u64,
    size: Num,
    advance: Num,
    token: &Token,
) -> Option<Control>
    ensures { (fs : List states.Frame) → leads result fs
        ≡ windowed.want_measure fs (window_head_of head.head) (query_of head.source) at size advance
        token.now }
{
    match measure_for(&head.head, token) {
        Some(measure) => {
            let window = Window {
                at,
                size,
                advance,
                measure,
            };
            Some(Control::Window(WindowControl::WantWindowClose { head, window }))
        }
        None => refuse(head),
    }
}

// A window whose measure is known to be rows.
fn row_window(window: Window) -> RowWindow
    ensures { result ≡ states.row_window window }
{
    let Window {
        at,
        size,
        advance,
        ..
    } = window;
    RowWindow { at, size, advance }
}

// What may stand behind a window.
fn after_window(head: WindowHead, window: Window) -> Control
    ensures { control_of result
        ≡ states.after_window (window_head_of head.head) (query_of head.source) window }
{
    let WindowHead { head, source } = head;
    match head {
        WindowBy::Select(pick) => Control::Source(SourceControl::HaveSource(SelectFrom {
            pick,
            source,
            window: Some(window),
        })),
        WindowBy::Each { at, var } => Control::Query(QueryControl::WantBody {
            head: BodyHead {
                at,
                var,
                source,
                over: Over::Windows(window),
            },
        }),
        WindowBy::Groups { at, var, grouping } => Control::Query(QueryControl::WantBody {
            head: BodyHead {
                at,
                var,
                source,
                over: Over::Groups(grouping, Some(row_window(window))),
            },
        }),
    }
}

/// The place behind a token in a window.
pub fn step_window(control: WindowControl, token: &Token) -> Option<Control>
    ensures { (fs : List states.Frame) → leads result fs
        ≡ machine.step_at (window_control_of control) fs token.now }
{
    match control {
        WindowControl::WantSize(head) => want_size(head, token),
        WindowControl::WantSizeNumber { head, at } => want_size_number(head, at, token),
        WindowControl::WantAdvance { head, at, size } => {
            let next = Control::Window(WindowControl::WantAdvanceNumber { head, at, size });
            expect(token, Plain::Advance, next)
        }
        WindowControl::WantAdvanceNumber { head, at, size } => {
            want_advance_number(head, at, size, token)
        }
        WindowControl::WantMeasure {
            head,
            at,
            size,
            advance,
        } => want_measure(head, at, size, advance, token),
        WindowControl::WantWindowClose { head, window } => {
            expect(token, Plain::RightSquare, after_window(head, window))
        }
    }
}
