//! Reading a dump back.

ghost use Rattle.std.specs.Prelude.{◌≡◌, ◌-◌, ◌≤◌, IsOk, Ok, OnOk, false, length, unwrap_or};
ghost use Rattle.gl_outside.specs.States.{Wrote};
ghost use Rattle.gl_schema.specs.Seen.{lines_after};
ghost use Rattle.gl_vcd.specs.Dumped.{Undumps};
ghost use Rattle.gl_vcd.specs.Lexing.{token_of, tokens_behind};
ghost use Rattle.gl_vcd.specs.Reading as spec;
ghost use Rattle.gl_vcd.specs.Reading.{Reading, dump_from};
ghost use Rattle.gl_vcd.specs.Showings.{IsLike, IsShowing, ShowsAll, lines_left, names_shown, shown_from, steady, told_after};
ghost use Rattle.gl_vcd.specs.Signals.{Dump, show_none};
ghost use Rattle.gl_vcd.specs.Standing.{CanDeclare, Declared, Ended, GoesOn, IsBehind, IsIndexed, IsJudged, IsReady, Judged, Keeps, KeepsNext, Takes, declaring_of, signals_of, undump_of};

use crate::changing::Changing;
use crate::declaring::{Declaring, Stage};
use crate::fault::VcdFault;
use crate::outcome::Undump;
use crate::showing::Showing;
use crate::signals::Signals;
use crate::stop::Stop;
use crate::tokens::{Token, token_from};
use gl_outside::{Sink, WriteFault};
use std::alloc::Global;

fn stopped(stop: Stop) -> Undump
    ensures { result ≡ undump_of stop }
{
    match stop {
        Stop::Fault(fault) => Undump::Fault(fault),
        Stop::Memory => Undump::Memory,
    }
}

// Reads the declarations, and answers the place behind them.
fn declare<'a>(declaring: &mut Declaring<'a>, text: &'a [u8]) -> Result<usize, Stop>
    requires start { declaring_of declaring.old ≡ spec.start }
    requires can { CanDeclare declaring.old }
    ensures { Declared text.now declaring.new result }
{
    let mut at = 0;
    while !matches!(declaring.stage, Stage::Changes) {
        let Some((token, behind)) = token_from(text, at) else {
            return Err(Stop::Fault(VcdFault::Syntax {
                at: text.len() as u64,
            }));
        };
        declaring.take(token)?;
        at = behind;
    }
    Ok(at)
}

// Judges the changes from a place on.
fn judge_changes<'a>(
    changing: &mut Changing<'_, 'a>,
    text: &'a [u8],
    from: usize,
) -> Result<(), VcdFault>
    requires ready { IsReady changing.old }
    requires inside { from ≤ length text.now }
    ensures { (r : Reading) → Keeps r changing.old
        → Ended (dump_from (length text.now) (tokens_behind text.now from) r) result }
{
    let mut at = from;
    while let Some((token, behind)) = token_from(text, at) {
        changing.take(token)?;
        at = behind;
    }
    changing.end(text.len())
}

// Takes the memory for the changes, and judges them.
fn judge<'a>(alloc: Global, signals: &Signals<'a>, text: &'a [u8], from: usize) -> Result<(), Stop>
    requires indexed { IsIndexed signals.now }
    requires inside { from ≤ length text.now }
    ensures { (r : Reading) → IsBehind (signals_of signals.now) r
        → Judged (dump_from (length text.now) (tokens_behind text.now from) r) result }
{
    let Ok(mut changing) = Changing::new(alloc, signals) else {
        return Err(Stop::Memory);
    };
    match judge_changes(&mut changing, text, from) {
        Ok(()) => Ok(()),
        Err(fault) => Err(Stop::Fault(fault)),
    }
}

// Reads a token of changes that were judged, and writes the lines of the cycles that it ends.
fn show_token<'a, K: Sink>(
    showing: &mut Showing<'_, 'a>,
    changing: &mut Changing<'_, 'a>,
    token: Token<'a>,
    out: &mut K,
) -> Result<(), WriteFault>
    requires shows { IsShowing showing.old }
    requires ready { IsReady changing.old }
    requires same { showing.old.signals ≡ changing.old.signals }
    requires judged { Takes changing.old (token_of token) }
    ensures wrote { let signals = signals_of showing.old.signals.now in
        let from = unwrap_or changing.old.time 0 in
        let all = shown_from (steady signals changing.new.values.items) (names_shown signals)
        from (unwrap_or changing.new.time 0 - from) in
        Wrote (K.state out.old) (K.state out.new)
        (lines_after showing.old.told showing.old.columns.kinds.items all) result }
    ensures told { let signals = signals_of showing.old.signals.now in
        let from = unwrap_or changing.old.time 0 in
        let all = shown_from (steady signals changing.new.values.items) (names_shown signals)
        from (unwrap_or changing.new.time 0 - from) in
        OnOk result (showing.new.told ≡ told_after showing.old.told all) }
    ensures like { OnOk result (IsLike showing.old showing.new) }
    ensures reads { (r : Reading) → Keeps r changing.old
        → KeepsNext (spec.next r (token_of token.entry)) changing.new }
    ensures goes { GoesOn changing.old changing.new }
{
    let before = changing.now();
    if changing.take(token).is_err() {
        // The changes were judged.
        unreachable!();
    }
    let now = changing.now();
    showing.put(out, changing.values.as_slice(), before, now)
}

// Reads changes from a place on that were judged, and writes the lines that they show.
fn show_changes<'a, K: Sink>(
    showing: &mut Showing<'_, 'a>,
    changing: &mut Changing<'_, 'a>,
    text: &'a [u8],
    from: usize,
    out: &mut K,
) -> Result<(), WriteFault>
    requires shows { IsShowing showing.old }
    requires ready { IsReady changing.old }
    requires same { showing.old.signals ≡ changing.old.signals }
    requires inside { from ≤ length text.now }
    requires judged { IsJudged (length text.now) (tokens_behind text.now from) changing.old }
    ensures { (r : Reading) (dump : Dump) → Keeps r changing.old
        → dump_from (length text.now) (tokens_behind text.now from) r ≡ Ok dump
        → Wrote (K.state out.old) (K.state out.new) (lines_left showing.old.told dump r) result }
{
    let mut at = from;
    while let Some((token, behind)) = token_from(text, at) {
        show_token(showing, changing, token, out)?;
        at = behind;
    }
    Ok(())
}

// Takes the memory for the changes once more, and writes the lines that they show.
fn show<'a, K: Sink>(
    alloc: Global,
    signals: &Signals<'a>,
    text: &'a [u8],
    from: usize,
    out: &mut K,
) -> Undump
    requires indexed { IsIndexed signals.now }
    requires shows { show_none (signals_of signals.now) ≡ false }
    requires inside { from ≤ length text.now }
    requires judged { (r : Reading) → IsBehind (signals_of signals.now) r
        → IsOk (dump_from (length text.now) (tokens_behind text.now from) r) }
    ensures { (r : Reading) (dump : Dump) → IsBehind (signals_of signals.now) r
        → dump_from (length text.now) (tokens_behind text.now from) r ≡ Ok dump
        → ShowsAll dump (K.state out.old) (K.state out.new) result }
{
    let Ok(mut showing) = Showing::new(alloc, signals) else {
        return Undump::Memory;
    };
    let Ok(mut changing) = Changing::new(alloc, signals) else {
        return Undump::Memory;
    };
    match show_changes(&mut showing, &mut changing, text, from, out) {
        Ok(()) => Undump::Done,
        Err(_) => Undump::WriteFault,
    }
}

/// Reads a dump, and writes the lines of the result that it shows, values in decimal. Takes memory
/// for the declarations alone, all of it before the first line.
pub fn undump<K: Sink>(alloc: Global, text: &[u8], out: &mut K) -> Undump
    ensures { Undumps text.now (K.state out.old) (K.state out.new) result }
{
    let mut declaring = Declaring::new(alloc);
    let from = match declare(&mut declaring, text) {
        Ok(from) => from,
        Err(stop) => return stopped(stop),
    };
    if let Err(stop) = judge(alloc, &declaring.signals, text, from) {
        return stopped(stop);
    }
    show(alloc, &declaring.signals, text, from, out)
}
