//! The records in front of a file, which set the parameters.

ghost use Rattle.std.specs.Prelude.{◌≡◌, ◌<◌, length, replicate, slice_get, unwrap_or, None, Some, IfOk, IfSome};
ghost use Rattle.gl_schema.specs.Schemas.{IsColumn, IsSchema};
ghost use Rattle.gl_tuple_reader.specs.Settings as spec;
ghost use Rattle.csv.specs.Records.{fields_of};

use crate::record::{field, word_at};
use csv::ByteRecord;
use gl_bits::{Listed, Memory};
use gl_schema::{Column, Schema};
use gl_tuples::TupleFault;
use gl_tuples::line::small;
use std::alloc::Global;

/// The value of each parameter that has one.
pub type Sets = Listed<Option<u64>>;

/// A parameter, by its number in the schema, and its value.
#[derive(Clone, Copy, Debug)]
pub struct Setting {
    /// The number of the parameter.
    pub parameter: usize,
    /// Its word as a number.
    pub value: u64,
}

/// Whether the first field of a record says that it sets a parameter.
#[tactic(auto, unfolding(crate::specs::Settings::says_set))]
pub fn says_set(fields: &ByteRecord) -> bool
    ensures { result ≡ spec.says_set (fields_of fields.now) }
{
    match field(fields, 0) {
        Some(first) => first == b"set".as_slice(),
        None => false,
    }
}

/// What a record sets.
#[tactic(auto, unfolding(crate::specs::Settings::setting_of))]
pub fn setting_of(schema: &Schema, fields: &ByteRecord, number: u64) -> Result<Setting, TupleFault>
    requires { IsSchema schema.now }
    ensures setting { result ≡ spec.setting_of number schema.now (fields_of fields.now) }
    ensures place { IfOk result (λ s. s.parameter < length schema.now.parameters) }
{
    if fields.len() != 3 {
        return Err(TupleFault::FieldCount { number });
    }
    let Some(name) = field(fields, 1) else {
        return Err(TupleFault::FieldCount { number });
    };
    setting_at(schema, fields, name, number)
}

/// What a record sets, whose second field is this name.
fn setting_at(
    schema: &Schema,
    fields: &ByteRecord,
    name: &[u8],
    number: u64,
) -> Result<Setting, TupleFault>
    requires { IsSchema schema.now }
    ensures setting { result ≡ spec.setting_at number schema.now (fields_of fields.now)
        (spec.parameter_named schema.now name.now) }
    ensures place { IfOk result (λ s. s.parameter < length schema.now.parameters) }
{
    let Some(parameter) = parameter_named(schema, name) else {
        return Err(TupleFault::UnknownParameter { number });
    };
    let Some(value) = value_at(fields, parameter_at(schema, parameter)) else {
        return Err(TupleFault::BadValue { number });
    };
    Ok(Setting { parameter, value })
}

#[tactic(auto, unfolding(crate::specs::Settings::parameter_named))]
fn parameter_named(schema: &Schema, name: &[u8]) -> Option<usize>
    ensures place { result ≡ spec.parameter_named schema.now name.now }
    ensures below { IfSome result (λ k. k < length schema.now.parameters) }
{
    schema
        .parameters
        .as_slice()
        .iter()
        .position(|parameter| parameter.name.as_slice() == name)
}

/// A parameter by its number.
#[tactic(auto, using(crate::proofs::Settings::parameter_is))]
fn parameter_at(schema: &Schema, at: usize) -> &Column
    requires is { IsSchema schema.now }
    requires place { at < length schema.now.parameters }
    ensures value { slice_get schema.now.parameters at ≡ Some result.now }
    ensures column { IsColumn result.now }
{
    &schema.parameters.as_slice()[at]
}

/// The value of the third field in a parameter.
fn value_at(fields: &ByteRecord, parameter: &Column) -> Option<u64>
    requires { IsColumn parameter.now }
    ensures { result ≡ spec.value_at (fields_of fields.now) parameter.now }
{
    match word_at(fields, 2, parameter) {
        Some(word) => Some(small(word)),
        None => None,
    }
}

/// The values with one more, of a parameter that has none.
pub fn set_with(sets: Sets, setting: Setting, number: u64) -> Result<Sets, TupleFault>
    requires { setting.parameter < length sets }
    ensures { result ≡ spec.set_with number sets setting }
{
    let mut sets = sets.into_vec();
    if sets[setting.parameter].is_some() {
        return Err(TupleFault::SetTwice { number });
    }
    sets[setting.parameter] = Some(setting.value);
    Ok(Sets::from_vec(sets))
}

/// Each parameter has a value.
#[tactic(auto, unfolding(crate::specs::Settings::sets_checked))]
pub fn check_sets(sets: &[Option<u64>], number: u64) -> Result<(), TupleFault>
    ensures { result ≡ spec.sets_checked number sets.now }
{
    if are_all_set(sets) {
        Ok(())
    } else {
        Err(TupleFault::NotSet { number })
    }
}

#[tactic(auto, unfolding(crate::specs::Settings::all_set))]
fn are_all_set(sets: &[Option<u64>]) -> bool
    ensures { result ≡ spec.all_set sets.now }
{
    sets.iter().all(|set| set.is_some())
}

/// No value yet, for this many parameters.
pub fn no_sets(alloc: Global, parameters: usize) -> Result<Sets, Memory>
    ensures { IfOk result (λ sets. sets ≡ replicate parameters None) }
{
    let mut sets = Sets::new(alloc);
    for _ in 0..parameters {
        sets.push(None)?;
    }
    Ok(sets)
}

/// The values, 0 in place of one that is missing.
pub fn values_of(alloc: Global, sets: &[Option<u64>]) -> Result<Vec<u64>, Memory>
    ensures { IfOk result (λ values. values.items ≡ spec.values_in sets.now) }
{
    let mut values = Vec::new(alloc);
    for set in sets {
        values.push(value_or_zero(set))?;
    }
    Ok(values)
}

fn value_or_zero(set: &Option<u64>) -> u64
    ensures { result ≡ unwrap_or set.now 0 }
{
    match set {
        Some(value) => *value,
        None => 0,
    }
}
