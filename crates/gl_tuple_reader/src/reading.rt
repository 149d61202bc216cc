//! Beats from the text of a tuple file.

ghost use Rattle.std.specs.Prelude.{◌≡◌, ◌↔◌, ◌⊎◌, ℕ, List, IfOk};
ghost use Rattle.gl_schema.specs.declared.schema.Schema as schemas;
ghost use Rattle.gl_schema.specs.Schemas.{IsSchema};
ghost use Rattle.gl_tuples.specs.Flat.{BeatList};
ghost use Rattle.gl_tuples.specs.Gaps.{AreFileBeats};
ghost use Rattle.gl_tuples.specs.declared.fault.TupleFault.{TupleFault};
ghost use Rattle.gl_tuples.specs.declared.fault.TupleFault.TheVariants.{Memory, TooClose};
ghost use Rattle.gl_tuple_reader.specs.FileBeats.{AreBeatsOf};
ghost use Rattle.gl_tuple_reader.specs.Entries.{Gives};
ghost use Rattle.gl_tuple_reader.specs.Filing.{records_of};
ghost use Rattle.gl_tuple_reader.specs.Settings.{IsFirstFault, beats_of, no_progress};

use crate::progress::Progress;
use csv::ReaderBuilder;
use gl_schema::Schema;
use gl_tuples::{Beats, TupleFault};
use std::alloc::Global;

/// The beats of a tuple file: records of comma-separated values without a header. In front stands
/// `set,name,value` for each parameter of the schema. Each other record is `cycle,stream,v1,..`,
/// `cycle,tick` or, as the last, `cycle,end`. Else the first rule that a record breaks.
pub fn read_tuples(alloc: Global, schema: &Schema, text: &[u8]) -> Result<Beats, TupleFault>
    requires { IsSchema schema.now }
    // The records keep the rules, each parameter has the value that one of them gives, and there
    // is a beat for each cycle of one, with the records' rows and ticks.
    ensures found { IfOk result (AreBeatsOf schema.now (records_of text.now)) }
    // They are beats of the schema, with a word for each parameter.
    ensures fine { IfOk result (AreFileBeats schema.now) }
    // A file that has beats is read, unless memory runs out.
    ensures only { (beats : BeatList)
        → AreBeatsOf schema.now (records_of text.now) beats → Gives result (Ok beats) }
    // Which rule is the first that is broken, and by which record.
    ensures exact { Gives result (beats_of schema.now (records_of text.now)) }
{
    let progress = Progress::new(alloc, schema)?;
    read(alloc, schema, progress, text)
}

fn read(
    alloc: Global,
    schema: &Schema,
    progress: Progress,
    text: &[u8],
) -> Result<Beats, TupleFault>
    requires schema { IsSchema schema.now }
    requires empty { progress ≡ no_progress schema.now }
    ensures { Gives result (beats_of schema.now (records_of text.now)) }
{
    let reader = ReaderBuilder::new()
        .has_headers(false)
        .flexible(true)
        .from_reader(alloc, text);
    let mut progress = progress;
    for fields in reader.into_byte_records() {
        let Ok(fields) = fields else {
            return Err(TupleFault::Memory);
        };
        progress = progress.take(alloc, schema, &fields)?;
    }
    progress.end(alloc, schema)
}

/// Records have exactly one reading: beats, or the first rule that one of them breaks, which is
/// neither want of memory nor a gap.
pub fn one_reading()
    ensures beats { (schema : schemas.Schema) (rs : List (List (List ℕ))) (beats : BeatList)
        → (beats_of schema rs ≡ Ok beats) ↔ AreBeatsOf schema rs beats }
    ensures one { (schema : schemas.Schema) (rs : List (List (List ℕ))) (a b : BeatList)
        → AreBeatsOf schema rs a → AreBeatsOf schema rs b → a ≡ b }
    ensures either { (schema : schemas.Schema) (rs : List (List (List ℕ)))
        → ((beats : BeatList) × AreBeatsOf schema rs beats)
        ⊎ ((e : TupleFault) × IsFirstFault schema rs e) }
    ensures never_both { (schema : schemas.Schema) (rs : List (List (List ℕ)))
        (beats : BeatList)
        (e : TupleFault) → AreBeatsOf schema rs beats → IsFirstFault schema rs e → ⊥ }
    ensures of_the_file { (schema : schemas.Schema) (rs : List (List (List ℕ)))
        → IsFirstFault schema rs Memory → ⊥ }
    ensures no_gap { (schema : schemas.Schema) (rs : List (List (List ℕ))) (number : ℕ)
        → IsFirstFault schema rs (TooClose number) → ⊥ }
{}
