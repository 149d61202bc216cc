//! Records with a cycle, one after another, made into beats.

ghost use Rattle.std.specs.Prelude.{◌≡◌, ◌+◌, ◌<◌, ◌^◌, length, replicate, unwrap_or, None, Ok, IfOk};
ghost use Rattle.gl_schema.specs.Schemas.{IsSchema};
ghost use Rattle.gl_tuples.specs.Growing.{shape_of};
ghost use Rattle.gl_tuple_reader.specs.Entries.{Gives};
ghost use Rattle.gl_tuple_reader.specs.Filing as spec;
ghost use Rattle.csv.specs.Records.{fields_of};

use crate::entry::Entry;
use crate::record::{check_text, cycle_of, entry_of};
use csv::ByteRecord;
use gl_bits::Memory;
use gl_schema::Schema;
use gl_tuples::{Beat, Beats, GrowingBeats, StreamRows, TupleFault};
use std::alloc::Global;

/// The beats of the records so far: those that are whole, and that of the last record.
#[derive(Drop, Debug)]
pub struct Filing {
    /// The beats of cycles before the last record's.
    pub whole: GrowingBeats,
    /// The beat of the last record's cycle; none before the first record with a cycle.
    pub current: Option<Beat>,
    /// How many records were read.
    pub records: u64,
}

impl Filing {
    /// Before the first record.
    pub fn new(alloc: Global, schema: &Schema) -> Result<Filing, Memory>
        requires { IsSchema schema.now }
        ensures { IfOk result (λ filing. filing ≡ spec.no_records schema.now) }
    {
        Ok(Filing {
            whole: GrowingBeats::new(alloc, schema)?,
            current: None,
            records: 0,
        })
    }

    /// Adds a record, or answers the first rule that it breaks.
    #[tactic(auto, using(crate::proofs::Fields::fails_then), unfolding(crate::specs::Filing::next_filing))]
    pub fn take(
        self,
        alloc: Global,
        schema: &Schema,
        fields: &ByteRecord,
    ) -> Result<Filing, TupleFault>
        requires schema { IsSchema schema.now }
        requires counted { self.records + 1 < 2 ^ 64 }
        requires columns { self.whole.columns ≡ shape_of schema.now }
        requires rows { spec.CurrentFit self.whole.columns self.current }
        ensures { Gives result (spec.next_filing schema.now self (fields_of fields.now)) }
    {
        let number = self.records + 1;
        check_text(fields, number)?;
        check_open(&self.current, number)?;
        let cycle = cycle_of(fields, number)?;
        check_cycle(&self.current, cycle, number)?;
        let entry = entry_of(alloc, schema, fields, number)?;
        self.add(alloc, schema.streams.len(), cycle, number, entry)
    }

    fn add(
        self,
        alloc: Global,
        streams: usize,
        cycle: u32,
        number: u64,
        entry: Entry,
    ) -> Result<Filing, TupleFault>
        requires many { streams ≡ length self.whole.columns }
        requires rows { spec.CurrentFit self.whole.columns self.current }
        requires stream { spec.IsEntry streams entry }
        ensures { Gives result (spec.added streams self number cycle entry) }
    {
        let Filing {
            whole,
            current,
            records: _,
        } = self;
        let (whole, beat) = turned(alloc, streams, whole, current, cycle, number)?;
        let beat = beat_with(beat, entry, number)?;
        Ok(Filing {
            whole,
            current: Some(beat),
            records: number,
        })
    }

    /// The beats of all records, of which the last one has the end, with these values of the
    /// parameters.
    pub fn end(self, alloc: Global, streams: usize, values: Vec<u64>) -> Result<Beats, TupleFault>
        requires many { streams ≡ length self.whole.columns }
        requires rows { spec.CurrentFit self.whole.columns self.current }
        ensures { Gives result
            (Ok (record { list = spec.ended streams self; sets = values.items })) }
    {
        let Filing {
            mut whole,
            current,
            records: _,
        } = self;
        let mut last = last_beat(alloc, streams, current)?;
        last.end = true;
        whole.push(&last)?;
        Ok(whole.done(values))
    }
}

/// The beat of the last record, or that of cycle 0 where there is none.
fn last_beat(alloc: Global, streams: usize, current: Option<Beat>) -> Result<Beat, TupleFault>
    ensures { Gives result (Ok (unwrap_or current (spec.empty_beat streams 0 0))) }
{
    match current {
        Some(beat) => Ok(beat),
        None => empty_beat(alloc, streams, 0, 0),
    }
}

/// No end came before.
fn check_open(current: &Option<Beat>, number: u64) -> Result<(), TupleFault>
    ensures { result ≡ spec.open_checked number current.now }
{
    match current {
        Some(beat) if beat.end => Err(TupleFault::AfterEnd { number }),
        _ => Ok(()),
    }
}

/// The cycle is not below the one before.
fn check_cycle(current: &Option<Beat>, cycle: u32, number: u64) -> Result<(), TupleFault>
    ensures { result ≡ spec.cycle_checked number cycle current.now }
{
    match current {
        Some(beat) if cycle < beat.cycle => Err(TupleFault::CycleFalls { number }),
        _ => Ok(()),
    }
}

/// The whole beats in front of a cycle, and the beat of the cycle.
fn turned(
    alloc: Global,
    streams: usize,
    whole: GrowingBeats,
    current: Option<Beat>,
    cycle: u32,
    number: u64,
) -> Result<(GrowingBeats, Beat), TupleFault>
    requires { spec.CurrentFit whole.columns current }
    ensures { Gives result (Ok (
      spec.grown_before cycle whole current,
      spec.beat_of streams cycle
          number current,
    )) }
{
    let mut whole = whole;
    match current {
        Some(beat) => {
            if beat.cycle == cycle {
                return Ok((whole, beat));
            }
            whole.push(&beat)?;
        }
        None => {}
    }
    Ok((whole, empty_beat(alloc, streams, cycle, number)?))
}

/// A beat without rows and without a tick.
fn empty_beat(alloc: Global, streams: usize, cycle: u32, number: u64) -> Result<Beat, TupleFault>
    ensures { Gives result (Ok (spec.empty_beat streams cycle number)) }
{
    Ok(Beat {
        cycle,
        number,
        rows: no_rows(alloc, streams)?,
        tick: false,
        end: false,
    })
}

fn no_rows(alloc: Global, streams: usize) -> Result<StreamRows, TupleFault>
    ensures { Gives result (Ok (replicate streams None)) }
{
    let mut rows = StreamRows::new(alloc);
    for _ in 0..streams {
        rows.push(None)?;
    }
    Ok(rows)
}

/// A beat with what the record of this number brings.
fn beat_with(beat: Beat, entry: Entry, number: u64) -> Result<Beat, TupleFault>
    requires { spec.IsEntry (length beat.rows) entry }
    ensures { result ≡ spec.beat_with number beat entry }
{
    let mut beat = beat;
    match entry {
        Entry::End => beat.end = true,
        Entry::Tick => {
            if beat.tick {
                return Err(TupleFault::TickTwice { number });
            }
            beat.tick = true;
        }
        Entry::Tuple(stream, row) => {
            let mut rows = beat.rows.into_vec();
            if rows[stream].is_some() {
                return Err(TupleFault::StreamTwice { number });
            }
            rows[stream] = Some(row);
            beat.rows = StreamRows::from_vec(rows);
        }
    }
    Ok(beat)
}
