//! The lines of `figures` and `manyfigures`.

ghost use Rattle.std.specs.Prelude.{◌≡◌, ◌++◌, map, IfOk, OnOk};
ghost use Rattle.std.specs.List.{flat_map};
ghost use Rattle.gl_plan.specs.Together.{statements_of};
ghost use Rattle.gl_many.specs.Compiles.{statements_in};
ghost use Rattle.gl_many.specs.Meets.{own_latency};
ghost use Rattle.gl_top_inputs.specs.Figuring as spec;
ghost use Rattle.gl_top_inputs.specs.Passing.{AreCompiledTogether};

use gl_bits::Memory;
use gl_compiler::Compiled;
use gl_many::Many;
use gl_query_check::Checked;
use gl_schema::Schema;
use itoa::Buffer;
use std::alloc::Global;

// Appends bytes.
fn put(text: &mut Vec<u8>, bytes: &[u8]) -> Result<(), Memory>
    ensures { OnOk result (text.new.items ≡ text.old.items ++ bytes.now) }
{
    match text.extend_from_slice(bytes) {
        Ok(()) => Ok(()),
        Err(_) => Err(Memory),
    }
}

// Appends a line of a name and a number.
#[tactic(auto, unfolding(crate::specs::Figuring::figure_line))]
fn put_line(text: &mut Vec<u8>, name: &[u8], number: u128) -> Result<(), Memory>
    ensures { OnOk result (text.new.items
        ≡ text.old.items ++ spec.figure_line name.now number) }
{
    put(text, name)?;
    let mut buffer = Buffer::new();
    put(text, buffer.format(number).as_bytes())?;
    put(text, b"\n")
}

// Appends the line of the ticks' gap, where it is another one.
fn put_ticks(text: &mut Vec<u8>, ticks: Option<u32>) -> Result<(), Memory>
    ensures { OnOk result (text.new.items ≡ text.old.items ++ spec.ticks_line ticks) }
{
    let Some(ticks) = ticks else {
        return Ok(());
    };
    put_line(text, b"ticks ", u128::from(ticks))
}

/// The lines of a compiled query: latency and gaps in cycles, copies, and bits of registers and memories.
pub fn figures_text(alloc: Global, compiled: &Compiled) -> Result<Vec<u8>, Memory>
    ensures { IfOk result (λ v. v.items
        ≡ spec.figure_lines compiled.now.printed compiled.now.cost) }
{
    let printed = compiled.printed();
    let cost = compiled.cost();
    let mut text = Vec::new(alloc);
    put_line(&mut text, b"latency ", u128::from(printed.latency))?;
    put_line(&mut text, b"gap ", u128::from(printed.gap))?;
    put_ticks(&mut text, printed.ticks)?;
    put_line(&mut text, b"copies ", u128::from(printed.copies))?;
    put_line(&mut text, b"registers ", cost.registers)?;
    put_line(&mut text, b"memories ", cost.memories)?;
    Ok(text)
}

// Appends the latency of each statement behind its name. Of the schema clauses alone speak.
fn put_latencies(
    text: &mut Vec<u8>,
    schema: &Schema,
    statements: &[Checked],
    latencies: &[u64],
) -> Result<(), Memory>
    requires { latencies.now ≡ map (own_latency schema.now) (statements_of statements.now) }
    ensures { OnOk result (text.new.items ≡ text.old.items
        ++ flat_map (spec.latency_line schema.now) (statements_of statements.now)) }
{
    let Some((checked, others)) = statements.split_first() else {
        return Ok(());
    };
    let Some((latency, rest)) = latencies.split_first() else {
        unreachable!();
    };
    put(text, checked.statement.name.text.as_slice())?;
    put_line(text, b" latency ", u128::from(*latency))?;
    put_latencies(text, schema, others, rest)
}

/// The lines of several compiled queries: the latency of each behind its name, in order, and the gaps of all, in cycles.
pub fn many_figures_text(alloc: Global, many: &Many) -> Result<Vec<u8>, Memory>
    requires { AreCompiledTogether many.now }
    ensures { IfOk result (λ v. v.items
        ≡ spec.figure_lines_of_all many.now.schema (statements_in many.now)) }
{
    let planned = many.planned();
    let mut text = Vec::new(alloc);
    put_latencies(
        &mut text,
        many.schema(),
        many.statements(),
        &planned.latencies,
    )?;
    put_line(&mut text, b"gap ", u128::from(planned.gap))?;
    put_ticks(&mut text, planned.ticks)?;
    Ok(text)
}
