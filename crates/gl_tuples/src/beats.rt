//! Beats: the cycles in which tuples come, ticks of the clock, and the end; and the words of the
//! parameters.

ghost use Rattle.std.specs.Prelude.{◌≡◌, ◌+◌, ◌^◌, ◌≤◌, ◌↔◌, ◌&&◌, ◌||◌, Some, length, map, nat_lt, option_map, slice_get, IfOk, IsOk, OnOk, MatchResult};
ghost use Rattle.gl_values.specs.Kinds.{width_of};
ghost use Rattle.gl_schema.specs.Beats.{row_in};
ghost use Rattle.gl_gaps.specs.Keeps.{KeepsGaps};
ghost use Rattle.gl_schema.specs.Schemas.{IsSchema};
ghost use Rattle.gl_tuples.specs.Flat.{beats_in, close_head};
ghost use Rattle.gl_tuples.specs.Gaps.{close_answer, first_close, plain_beat, plain_beats};
ghost use Rattle.gl_tuples.specs.Growing.{Fit, columns_of, grown_by, no_beats};

use crate::fault::TupleFault;
use crate::flat::{Columns, push_rows, row_of};
use gl_bits::{Listed, Memory, Row};
use gl_gaps::Gaps;
use gl_schema::{Column, Schema, Stream};
use std::alloc::Global;
use std::marker::Model;

/// The rows of a beat: one entry for each stream.
pub type StreamRows = Listed<Option<Row>>;

/// A cycle in which a tuple of some stream comes, a tick, or the end.
#[derive(Drop, Debug)]
pub struct Beat {
    /// The cycle of the file.
    pub cycle: u32,
    /// The number of the first record of this cycle; 0 for the one beat of an empty file.
    pub number: u64,
    /// The row of each stream that has one.
    pub rows: StreamRows,
    /// A tick comes in this cycle, before its tuples.
    pub tick: bool,
    /// The end of all streams comes in this cycle.
    pub end: bool,
}

/// What a beat has beside its rows.
#[derive(Clone, Copy, Debug)]
struct Head {
    cycle: u32,
    number: u32,
    // The place of the first number of its rows.
    first: u32,
    // Bit k is 1 where stream k has a row.
    present: u8,
    tick: bool,
    end: bool,
}

/// Beats in order, in two flat lists: 16 bytes for each, and 8 for each word of a row. And the word
/// of each parameter of the schema.
#[derive(Drop, Debug)]
pub struct Beats {
    // The bits of the columns of each stream, the same for all beats.
    shape: Listed<Columns>,
    heads: Vec<Head>,
    numbers: Vec<u64>,
    sets: Vec<u64>,
}

impl Model for Beats {
    ghost use Rattle.std.specs.List.{AllByRecursion};
    ghost use Rattle.gl_tuples.specs.Flat.{BeatList, IsInside, beats_in};

    ghost Value = { BeatList };

    ghost view = { λ b.
        record { list = beats_in b.shape b.numbers.items b.heads.items; sets = b.sets.items } };

    ghost invariant = { λ b. AllByRecursion (IsInside b.shape b.numbers.items) b.heads.items };
}

/// Beats that more are added to.
#[derive(Drop, Debug)]
pub struct GrowingBeats {
    shape: Listed<Columns>,
    heads: Vec<Head>,
    numbers: Vec<u64>,
}

impl Model for GrowingBeats {
    ghost use Rattle.std.specs.Prelude.{◌≤◌, length};
    ghost use Rattle.std.specs.List.{AllByRecursion};
    ghost use Rattle.gl_tuples.specs.Flat.{IsInside, beats_in};
    ghost use Rattle.gl_tuples.specs.Growing.{AreNarrow, Grown};

    ghost Value = { Grown };

    ghost view = { λ b.
        record { columns = b.shape; beats = beats_in b.shape b.numbers.items b.heads.items } };

    ghost invariant = { λ b. (length b.shape ≤ 8) × AreNarrow b.shape
        × AllByRecursion (IsInside b.shape b.numbers.items) b.heads.items };
}

impl GrowingBeats {
    /// No beats yet, with the columns of this schema.
    #[tactic(auto, using(crate::proofs::Narrow::columns_narrow))]
    pub fn new(alloc: Global, schema: &Schema) -> Result<GrowingBeats, Memory>
        requires { IsSchema schema.now }
        ensures { IfOk result (λ beats. beats ≡ no_beats schema.now) }
    {
        Ok(GrowingBeats {
            shape: shape_of(alloc, schema.streams.as_slice())?,
            heads: Vec::new(alloc),
            numbers: Vec::new(alloc),
        })
    }

    /// Adds a beat at the end, unless memory runs out. That is also the answer where the lists are
    /// full: they have room for 2^32 words, and records up to that number.
    pub fn push(&mut self, beat: &Beat) -> Result<(), Memory>
        requires { Fit self.old.columns beat.now.rows }
        ensures { OnOk result (self.new ≡ grown_by self.old beat.now) }
    {
        let first = short_of(self.numbers.len() as u64)?;
        let number = short_of(beat.number)?;
        let rows = beat.rows.as_slice();
        let present = push_rows(self.shape.as_slice(), rows, &mut self.numbers)?;
        self.heads.push(Head {
            cycle: beat.cycle,
            number,
            first,
            present,
            tick: beat.tick,
            end: beat.end,
        })?;
        Ok(())
    }

    /// The beats, to which no more are added, and the words of the parameters.
    pub fn done(self, sets: Vec<u64>) -> Beats
        ensures { result ≡ record { list = self.beats; sets = sets.items } }
    {
        Beats {
            shape: self.shape,
            heads: self.heads,
            numbers: self.numbers,
            sets,
        }
    }
}

impl Beats {
    /// The number of beats.
    pub fn len(&self) -> usize
        ensures { result ≡ length self.now.list }
    {
        self.heads.len()
    }

    /// The word of each parameter, in the order of the schema.
    pub fn sets(&self) -> &[u64]
        ensures { result.now ≡ self.now.sets }
    {
        self.sets.as_slice()
    }

    /// The beat at a place; None exactly where the place is not below the length.
    pub fn get(&self, at: usize) -> Option<BeatView<'_>>
        ensures { result ≡ slice_get self.now.list at }
    {
        let head = *self.heads.get(at)?;
        let (_, numbers) = self.numbers.as_slice().split_at(head.first as usize);
        Some(BeatView {
            shape: self.shape.as_slice(),
            head,
            numbers,
        })
    }

    /// Whether beats are so far apart; else `TooClose` with the number of the first that is not.
    /// Takes no memory.
    pub fn keep(&self, gaps: Gaps) -> Result<(), TupleFault>
        ensures exact { result ≡ close_answer (first_close gaps 0 0 self.now.list) }
        ensures keeps { IsOk result ↔ KeepsGaps gaps (plain_beats self.now) }
    {
        kept(self.heads.as_slice(), gaps)
    }
}

/// A beat among beats.
#[derive(Drop, Debug)]
pub struct BeatView<'a> {
    shape: &'a [Columns],
    head: Head,
    // From its own first one on.
    numbers: &'a [u64],
}

impl<'a> Model for BeatView<'a> {
    ghost use Rattle.std.specs.Prelude.{◌≤◌, length};
    ghost use Rattle.gl_tuples.specs.declared.beats.Beat.{Beat};
    ghost use Rattle.gl_tuples.specs.Flat.{beat_in, rows_size};

    ghost Value = { Beat };

    ghost view = { λ b. beat_in b.shape.now b.numbers.now b.head };

    ghost invariant = { λ b. rows_size b.shape.now b.head.present ≤ length b.numbers.now };
}

impl<'a> BeatView<'a> {
    /// The cycle of the file.
    pub fn cycle(&self) -> u32
        ensures { result ≡ self.now.cycle }
    {
        self.head.cycle
    }

    /// The number of the first record of this cycle.
    pub fn number(&self) -> u32
        ensures { result ≡ self.now.number }
    {
        self.head.number
    }

    /// Whether a tick comes.
    pub fn ticks(&self) -> bool
        ensures { result ≡ self.now.tick }
    {
        self.head.tick
    }

    /// Whether the end comes.
    pub fn ends(&self) -> bool
        ensures { result ≡ self.now.end }
    {
        self.head.end
    }

    /// The numbers of the row of a stream, where it has one.
    pub fn row(&self, stream: usize) -> Option<&[u64]>
        ensures { option_map (λ r. r.now) result ≡ row_in stream (plain_beat self.now) }
    {
        row_of(self.shape, self.head.present, self.numbers, stream)
    }
}

// The bits of the columns of each stream.
fn shape_of(alloc: Global, streams: &[Stream]) -> Result<Listed<Columns>, Memory>
    ensures { IfOk result (λ shape. shape ≡ map columns_of streams.now) }
{
    let mut shape = Listed::new(alloc);
    for stream in streams {
        shape.push(widths_of(alloc, stream.columns.as_slice())?)?;
    }
    Ok(shape)
}

// The bits of the columns of a stream.
fn widths_of(alloc: Global, columns: &[Column]) -> Result<Columns, Memory>
    ensures { IfOk result (λ widths. widths ≡ map (λ c. width_of c.kind) columns.now) }
{
    let mut widths = Listed::new(alloc);
    for column in columns {
        widths.push(column.kind.bits())?;
    }
    Ok(widths)
}

// A number as the lists have it: they have room for 2^32.
fn short_of(number: u64) -> Result<u32, Memory>
    ensures { MatchResult result (λ short. short ≡ number) (λ _. 2 ^ 32 ≤ number) }
{
    match u32::try_from(number) {
        Ok(short) => Ok(short),
        Err(_) => Err(Memory),
    }
}

// Whether they are so far apart.
fn kept(beats: &[Head], gaps: Gaps) -> Result<(), TupleFault>
    ensures { result ≡ close_answer (close_head gaps 0 0 beats.now) }
{
    let mut next = 0u64;
    let mut tick = 0u64;
    for beat in beats {
        if is_close(beat, next, tick) {
            return too_close(beat);
        }
        next = cycles_on(beat, gaps.of_beats);
        if beat.tick {
            tick = cycles_on(beat, gaps.of_ticks);
        }
    }
    Ok(())
}

// Whether a beat comes before the first of these cycles, or with a tick or the end before the second.
fn is_close(beat: &Head, next: u64, tick: u64) -> bool
    ensures { let b = beat.now in
        result ≡ (nat_lt b.cycle next || ((b.tick || b.end) && nat_lt b.cycle tick)) }
{
    let cycle = u64::from(beat.cycle);
    cycle < next || ((beat.tick || beat.end) && cycle < tick)
}

// The cycle that comes so many behind a beat.
fn cycles_on(beat: &Head, gap: u32) -> u64
    ensures { result ≡ beat.now.cycle + gap }
{
    u64::from(beat.cycle) + u64::from(gap)
}

// The answer at a beat that is too close.
fn too_close(beat: &Head) -> Result<(), TupleFault>
    ensures { result ≡ close_answer (Some beat.now.number) }
{
    Err(TupleFault::TooClose {
        number: u64::from(beat.number),
    })
}
