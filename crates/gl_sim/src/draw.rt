//! Contents drawn from a seed.

ghost use Rattle.std.specs.Prelude.{◌≡◌, ◌+◌, ◌*◌, ◌%◌, ◌^◌, ◌≤◌, ◌<◌, ℕ, length, slice_index, slice_get, map, replicate, Some};
ghost use Rattle.gl_verilog.specs.View.{module_of};
ghost use Rattle.gl_verilog.specs.Evaluate.{IsStore, nets_of, memories_of};
ghost use Rattle.gl_verilog.specs.Runnable.{IsRunnable, SameState};
ghost use Rattle.gl_sim.specs.Starts.{next_draw, draw as draw_of, word_drawn, DrawsOne, register_at, word_at, zero_bank};
ghost use Rattle.gl_verilog.specs.declared.start.Start.TheVariants.{Drawn};
ghost use Rattle.gl_verilog.specs.Module.{Declaration as Declared};

use gl_verilog::{Bank, Kind, Module, Start, mask};

// The next number of the sequence.
fn draw(state: &mut u64) -> u64
    ensures state { state.new ≡ next_draw state.old }
    ensures value { result ≡ next_draw state.old }
{
    *state = state
        .wrapping_mul(6_364_136_223_846_793_005)
        .wrapping_add(1_442_695_040_888_963_407);
    *state
}

// A word of two numbers, cut to its width.
fn draw_word(state: &mut u64, width: u8) -> u128
    requires { width ≤ 128 }
    ensures state { state.new ≡ next_draw (next_draw state.old) }
    ensures value { result ≡ (next_draw state.old * 2 ^ 64 + next_draw (next_draw state.old)) % 2 ^
        width }
{
    let high = draw(state);
    let low = draw(state);
    ((u128::from(high) << 64) + u128::from(low)) & mask(width)
}

// Draws each word of a bank, by rising address.
fn draw_bank(state: &mut u64, width: u8, bank: &mut Bank)
    requires { width ≤ 128 }
    ensures state { state.new ≡ draw_of state.old (2 * length bank.old) }
    ensures size { length bank.new ≡ length bank.old }
    ensures words { (at : ℕ) → at < length bank.old → slice_index bank.new at
        ≡ word_drawn state.old (2 * at) width }
{
    for at in 0..bank.len() {
        let word = draw_word(state, width);
        bank.set(at, word);
    }
}

// Draws what a declaration takes.
fn draw_one(
    design: &Module,
    n: usize,
    state: &mut u64,
    values: &mut Vec<u128>,
    banks: &mut Vec<Bank>,
)
    requires runnable { IsRunnable (module_of design.now) }
    requires store { IsStore (module_of design.now).declarations values.old.items banks.old.items }
    requires within { n < length design.now.declarations }
    ensures { (d : Declared) → slice_get (module_of design.now).declarations n ≡ Some d
        → DrawsOne (module_of design.now).declarations n d state.old state.new values.old.items
        values.new.items banks.old.items banks.new.items }
{
    let declaration = &design.declarations.as_slice()[n];
    match declaration.kind {
        Kind::OutputRegister => values[n] = draw_word(state, declaration.width),
        Kind::Register => values[n] = draw_word(state, declaration.width),
        Kind::Memory { .. } => {
            let bank = &mut banks[n];
            draw_bank(state, declaration.width, bank);
        }
        Kind::Input => {}
        Kind::OutputWire => {}
        Kind::Wire => {}
    }
}

/// Draws all registers and words from a seed, in the order of their declarations.
pub fn draw_all(design: &Module, seed: u64, values: &mut Vec<u128>, banks: &mut Vec<Bank>)
    requires runnable { IsRunnable (module_of design.now) }
    requires store { IsStore (module_of design.now).declarations values.old.items banks.old.items }
    ensures store { IsStore (module_of design.now).declarations values.new.items banks.new.items }
    ensures drawn { SameState (module_of design.now).declarations
        (register_at (Drawn seed) (module_of design.now).declarations)
        (word_at (Drawn seed) (module_of design.now).declarations) (nets_of values.new.items)
        (memories_of banks.new.items) }
{
    let mut state = seed;
    for n in 0..design.declarations.len() {
        draw_one(design, n, &mut state, values, banks);
    }
}

/// Gives zeroed registers and words their start.
pub fn begin(design: &Module, start: Start, values: &mut Vec<u128>, banks: &mut Vec<Bank>)
    requires runnable { IsRunnable (module_of design.now) }
    requires zero_values { values.old.items ≡ replicate (length (module_of design.now).declarations)
        0 }
    requires zero_words { banks.old.items ≡ map zero_bank (module_of design.now).declarations }
    ensures store { IsStore (module_of design.now).declarations values.new.items banks.new.items }
    ensures started { SameState (module_of design.now).declarations
        (register_at start (module_of design.now).declarations)
        (word_at start (module_of design.now).declarations) (nets_of values.new.items)
        (memories_of banks.new.items) }
{
    match start {
        Start::Zero => {}
        Start::Drawn(seed) => draw_all(design, seed, values, banks),
    }
}
