//! What folds the rows of the open stream, and begins anew with the next one.

ghost use Rattle.std.specs.Prelude.{◌≡◌, ◌<◌, IfOk};
ghost use Rattle.gl_bits.specs.Words.{IsWidth, bit};
ghost use Rattle.gl_net.specs.Net.{IsAddressWidth, IsBit, IsBus, Net};
ghost use Rattle.gl_totals.specs.Folds.{BestFits, IsBetter, IsFold, IsNext, StepFits};
ghost use Rattle.gl_totals.specs.Open.{KeepFits, in_memory, in_register};
ghost use Rattle.gl_totals.specs.Slots.{IsNow, IsPassing};
ghost use Rattle.gl_totals.specs.declared.fold.Step.TheVariants.{Add, Keep, Set, Shift};

use crate::rows::{self, Rows};
use gl_bits::{Memory, Word};
use gl_divide::digit::shift;
use gl_net::{BinaryOp, Bit, Bus, NetBuilder};
use gl_rows::operation::put_operator;
use gl_values::{Kind, Op};
use gl_wire::{both, but_not, either, note_bus, same};
use gl_wire_lanes::put_memory;

/// An end of the order.
#[derive(Clone, Copy, PartialEq, Eq, Debug)]
pub enum Extreme {
    /// The least.
    Least,
    /// The greatest.
    Greatest,
}

/// A value that a state is compared with.
#[derive(Clone, Copy)]
pub struct Best {
    /// Which of them is kept.
    pub extreme: Extreme,
    /// The kind of both.
    pub kind: Kind,
    /// 1 where the state counts.
    pub some: Bit,
    /// The value.
    pub value: Bus,
}

/// What a state becomes with a row.
#[derive(Clone, Copy)]
pub enum Step {
    /// Its sum with a value, which wraps.
    Add(Bus),
    /// The better of it and a value; the value alone where the state does not count.
    Keep(Best),
    /// All bits one place higher.
    Shift,
    /// 1.
    Set,
}

/// A state of the open stream.
#[derive(Clone, Copy)]
pub struct Fold {
    /// Before this cycle's row.
    pub before: Bus,
    /// With it.
    pub now: Bus,
}

// The words of the slots, and which of them a cycle reads and writes.
#[derive(Clone, Copy)]
struct Slots {
    // 1 where this cycle's slot begins a stream.
    first: Bit,
    // 1 where the next cycle's does.
    begins: Bit,
    // The slot of this cycle.
    slot: Bus,
    // That of the next one.
    next: Bus,
}

// 1 for true.
fn bit_number(number: bool) -> u128
    ensures value { result ≡ bit number }
    ensures small { result < 2 }
{
    if number { 1 } else { 0 }
}

/// A word of 0 or 1.
pub fn small_word(number: bool, width: u8) -> Word
    requires { IsWidth width }
    ensures bits { result.bits ≡ bit number }
    ensures width { result.width ≡ width }
{
    Word::new(bit_number(number), width).unwrap()
}

/// Whether a value is better than a state.
pub fn put_better(net: &mut NetBuilder, state: Bus, best: Best) -> Result<Bus, Memory>
    requires state { IsBus net.old state }
    requires best { BestFits net.old state.width best }
    ensures { IfOk result (IsBetter net.old net.new state best) }
{
    match best.extreme {
        Extreme::Least => put_operator(net, Op::Lt, best.kind, best.value, state),
        Extreme::Greatest => put_operator(net, Op::Lt, best.kind, state, best.value),
    }
}

// The sum of a state and a value.
fn put_added(net: &mut NetBuilder, state: Bus, value: Bus) -> Result<Bus, Memory>
    requires state { IsBus net.old state }
    requires value { IsBus net.old value }
    requires same_width { value.width ≡ state.width }
    ensures { IfOk result (IsNext net.old net.new state (Add value)) }
{
    let out = net.binary(BinaryOp::Add, state, value)?;
    Ok(out)
}

// A state with all bits one place higher.
fn put_moved(net: &mut NetBuilder, state: Bus) -> Result<Bus, Memory>
    requires { IsBus net.old state }
    ensures { IfOk result (IsNext net.old net.new state Shift) }
{
    let low = net.constant(small_word(false, 1))?;
    let out = shift(net, state, low.bit())?;
    Ok(out)
}

// 1, as wide as a state.
fn put_one(net: &mut NetBuilder, state: Bus) -> Result<Bus, Memory>
    requires { IsBus net.old state }
    ensures { IfOk result (IsNext net.old net.new state Set) }
{
    let out = net.constant(small_word(true, state.width))?;
    Ok(out)
}

// What a word becomes where a row comes, and the word itself where none does.
fn put_stepped(net: &mut NetBuilder, valid: Bit, word: Bus, next: Bus) -> Result<Fold, Memory>
    requires valid { IsBit net.old valid }
    requires word { IsBus net.old word }
    requires next { IsBus net.old next }
    requires same_width { next.width ≡ word.width }
    ensures { (start : Net) (step : Step) → IsNext start net.old word step next
        → IfOk result (IsNow start net.new valid word step) }
{
    let now = net.choose(valid, next, word)?;
    Ok(Fold { before: word, now })
}

// The better of a word and a value where a row comes; the value alone where the word does not count. The comparison is the last choice, so
// that nothing stands behind it.
fn put_best(net: &mut NetBuilder, valid: Bit, word: Bus, best: Best) -> Result<Fold, Memory>
    requires valid { IsBit net.old valid }
    requires word { IsBus net.old word }
    requires best { BestFits net.old word.width best }
    ensures { IfOk result (IsNow net.old net.new valid word (Keep best)) }
{
    let better = put_better(net, word, best)?;
    let taken = net.choose(valid, best.value, word)?;
    let alone = but_not(net, valid, best.some)?;
    let begun = net.choose(alone, best.value, word)?;
    let now = net.choose(better.bit(), taken, begun)?;
    Ok(Fold { before: word, now })
}

// A word as a state, and what that is with this cycle's row.
fn put_now(net: &mut NetBuilder, valid: Bit, word: Bus, step: Step) -> Result<Fold, Memory>
    requires valid { IsBit net.old valid }
    requires word { IsBus net.old word }
    requires step { StepFits net.old word.width step }
    ensures { IfOk result (IsNow net.old net.new valid word step) }
{
    match step {
        Step::Add(value) => {
            let next = put_added(net, word, value)?;
            put_stepped(net, valid, word, next)
        }
        Step::Keep(best) => put_best(net, valid, word, best),
        Step::Shift => {
            let next = put_moved(net, word)?;
            put_stepped(net, valid, word, next)
        }
        Step::Set => {
            let next = put_one(net, word)?;
            put_stepped(net, valid, word, next)
        }
    }
}

// A fold in a register, which begins anew behind each end.
fn put_register(
    net: &mut NetBuilder,
    valid: Bit,
    eos: Bit,
    first: Word,
    step: Step,
) -> Result<Fold, Memory>
    requires valid { IsBit net.old valid }
    requires eos { IsBit net.old eos }
    requires step { StepFits net.old first.width step }
    ensures { IfOk result
        (IsFold net.old net.new first.width first.bits step (in_register valid eos)) }
{
    let before = net.register(first.width(), Some(first))?;
    let fold = put_now(net, valid, before, step)?;
    let again = net.constant(first)?;
    let next = net.choose(eos, again, fold.now)?;
    net.drive(before, next)?;
    Ok(fold)
}

// The words of the slots, written where a row comes or a stream begins, and the word of the slot that comes next. What is written at once
// is passed on.
fn put_passing(
    net: &mut NetBuilder,
    valid: Bit,
    first: Bit,
    slot: Bus,
    next: Bus,
    now: Bus,
) -> Result<Bus, Memory>
    requires valid { IsBit net.old valid }
    requires first { IsBit net.old first }
    requires slot { IsBus net.old slot }
    requires next { IsBus net.old next }
    requires bits { IsAddressWidth slot.width }
    requires same_width { next.width ≡ slot.width }
    requires now { IsBus net.old now }
    ensures { IfOk result (IsPassing net.old net.new valid first slot next now) }
{
    let write = either(net, valid, first)?;
    let meets = same(net, slot, next)?;
    let passes = both(net, meets, write)?;
    let read = put_memory(net, slot.width, write, slot, next, now)?;
    // Named, since a goal speaks of the value.
    let out = net.choose(passes, now, read)?;
    Ok(out)
}

// The same in a memory with a word for each slot. A register holds the word of this cycle's slot, or the first state where its stream begins, so
// that the memory may answer a cycle late and nothing stands between the register and the step.
fn put_slots(
    net: &mut NetBuilder,
    valid: Bit,
    slots: Slots,
    initial: Word,
    step: Step,
) -> Result<Fold, Memory>
    requires valid { IsBit net.old valid }
    requires first { IsBit net.old slots.first }
    requires begins { IsBit net.old slots.begins }
    requires slot { IsBus net.old slots.slot }
    requires next { IsBus net.old slots.next }
    requires bits { IsAddressWidth slots.slot.width }
    requires same_width { slots.next.width ≡ slots.slot.width }
    requires step { StepFits net.old initial.width step }
    ensures { (eos : Bit) → IfOk result (IsFold net.old net.new initial.width initial.bits step
        (in_memory valid eos slots.first slots.begins slots.slot slots.next)) }
{
    let word = net.register(initial.width(), None)?;
    let fold = put_now(net, valid, word, step)?;
    let ahead = put_passing(net, valid, slots.first, slots.slot, slots.next, fold.now)?;
    let again = net.constant(initial)?;
    let state = net.choose(slots.begins, again, ahead)?;
    net.drive(word, state)?;
    Ok(fold)
}

/// The fold of the open stream's rows from a first state on, where these say that it is kept.
pub fn put_fold(net: &mut NetBuilder, rows: Rows, first: Word, step: Step) -> Result<Fold, Memory>
    requires valid { IsBit net.old rows.valid }
    requires eos { IsBit net.old rows.eos }
    requires keep { KeepFits net.old rows.keep }
    requires step { StepFits net.old first.width step }
    ensures { IfOk result (IsFold net.old net.new first.width first.bits step rows) }
{
    match rows.keep {
        rows::Keep::Register => put_register(net, rows.valid, rows.eos, first, step),
        rows::Keep::Slots {
            first: opens,
            begins,
            slot,
            next,
        } => {
            let slots = Slots {
                first: opens,
                begins,
                slot,
                next,
            };
            put_slots(net, rows.valid, slots, first, step)
        }
    }
}

/// The same, whose state is told by this word.
pub fn put_state(
    net: &mut NetBuilder,
    rows: Rows,
    first: Word,
    step: Step,
    word: &'static [u8],
) -> Result<Fold, Memory>
    requires valid { IsBit net.old rows.valid }
    requires eos { IsBit net.old rows.eos }
    requires keep { KeepFits net.old rows.keep }
    requires step { StepFits net.old first.width step }
    ensures { IfOk result (IsFold net.old net.new first.width first.bits step rows) }
{
    let fold = put_fold(net, rows, first, step)?;
    note_bus(net, word, fold.before)?;
    Ok(fold)
}
