//! The records of a whole file, one after another: those that set parameters, then those with a
//! cycle.

ghost use Rattle.std.specs.Prelude.{◌≡◌, ◌+◌, ◌<◌, ◌^◌, length, is_some, IfOk};
ghost use Rattle.gl_schema.specs.Schemas.{IsSchema};
ghost use Rattle.gl_tuples.specs.Growing.{shape_of};
ghost use Rattle.gl_tuple_reader.specs.Entries.{Gives};
ghost use Rattle.gl_tuple_reader.specs.Filing.{CurrentFit, next_filing};
ghost use Rattle.gl_tuple_reader.specs.Settings as spec;
ghost use Rattle.csv.specs.Records.{fields_of};

use crate::filing::Filing;
use crate::record::{check_text, cycle_of};
use crate::setting::{Sets, check_sets, no_sets, says_set, set_with, setting_of, values_of};
use csv::ByteRecord;
use gl_bits::Memory;
use gl_schema::Schema;
use gl_tuples::{Beat, Beats, TupleFault};
use std::alloc::Global;

/// How far a file was read.
#[derive(Drop, Debug)]
pub struct Progress {
    /// The values of the parameters so far.
    pub sets: Sets,
    /// The beats of the records so far.
    pub filing: Filing,
}

impl Progress {
    /// Before the first record.
    pub fn new(alloc: Global, schema: &Schema) -> Result<Progress, Memory>
        requires { IsSchema schema.now }
        ensures { IfOk result (λ progress. progress ≡ spec.no_progress schema.now) }
    {
        Ok(Progress {
            sets: no_sets(alloc, schema.parameters.len())?,
            filing: Filing::new(alloc, schema)?,
        })
    }

    /// Adds a record, or answers the first rule that it breaks.
    #[tactic(auto, using(crate::proofs::Fields::fails_then), unfolding(crate::specs::Settings::next_progress))]
    pub fn take(
        self,
        alloc: Global,
        schema: &Schema,
        fields: &ByteRecord,
    ) -> Result<Progress, TupleFault>
        requires schema { IsSchema schema.now }
        requires counted { self.filing.records + 1 < 2 ^ 64 }
        requires columns { self.filing.whole.columns ≡ shape_of schema.now }
        requires rows { CurrentFit self.filing.whole.columns self.filing.current }
        requires sets { length self.sets ≡ length schema.now.parameters }
        ensures { Gives result (spec.next_progress schema.now self (fields_of fields.now)) }
    {
        if has_begun(&self.filing.current) {
            return self.file(alloc, schema, fields);
        }
        let number = self.filing.records + 1;
        check_text(fields, number)?;
        if says_set(fields) {
            return self.set(schema, fields, number);
        }
        cycle_of(fields, number)?;
        check_sets(self.sets.as_slice(), number)?;
        self.file(alloc, schema, fields)
    }

    /// Adds a record that sets a parameter.
    #[tactic(auto, using(crate::proofs::Fields::fails_then))]
    fn set(self, schema: &Schema, fields: &ByteRecord, number: u64) -> Result<Progress, TupleFault>
        requires schema { IsSchema schema.now }
        requires number { number ≡ self.filing.records + 1 }
        requires sets { length self.sets ≡ length schema.now.parameters }
        ensures { Gives result (spec.set_added schema.now self (fields_of fields.now)) }
    {
        let Progress { sets, mut filing } = self;
        let setting = setting_of(schema, fields, number)?;
        let sets = set_with(sets, setting, number)?;
        filing.records = number;
        Ok(Progress { sets, filing })
    }

    /// Adds a record with a cycle.
    #[tactic(auto, using(crate::proofs::Fields::fails_then))]
    fn file(
        self,
        alloc: Global,
        schema: &Schema,
        fields: &ByteRecord,
    ) -> Result<Progress, TupleFault>
        requires schema { IsSchema schema.now }
        requires counted { self.filing.records + 1 < 2 ^ 64 }
        requires columns { self.filing.whole.columns ≡ shape_of schema.now }
        requires rows { CurrentFit self.filing.whole.columns self.filing.current }
        ensures { Gives result
            (spec.filed self (next_filing schema.now self.filing (fields_of fields.now))) }
    {
        let Progress { sets, filing } = self;
        let filing = filing.take(alloc, schema, fields)?;
        Ok(Progress { sets, filing })
    }

    /// The beats of all records, and the values of the parameters.
    #[tactic(auto, using(crate::proofs::Fields::fails_then))]
    pub fn end(self, alloc: Global, schema: &Schema) -> Result<Beats, TupleFault>
        requires counted { self.filing.records + 1 < 2 ^ 64 }
        requires many { length schema.now.streams ≡ length self.filing.whole.columns }
        requires rows { CurrentFit self.filing.whole.columns self.filing.current }
        ensures { Gives result (spec.finished schema.now self) }
    {
        let Progress { sets, filing } = self;
        check_sets(sets.as_slice(), filing.records + 1)?;
        let values = values_of(alloc, sets.as_slice())?;
        filing.end(alloc, schema.streams.len(), values)
    }
}

/// Whether a record with a cycle came.
fn has_begun(current: &Option<Beat>) -> bool
    ensures { result ≡ is_some current.now }
{
    current.is_some()
}
