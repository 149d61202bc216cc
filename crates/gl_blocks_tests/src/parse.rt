//! What stands in a row: two kinds, a block, and beats.
//!
//! A kind is `u1` to `u64`, `s2` to `s64`, `text1` to `text8`; for the divider the widths go to `u128`. A block is `compute OP..`, `select` (by
//! the first column), `project OPERAND..`, `totals AGGREGATE..`, `table AGGREGATE..` (for the slots of a lane, see `table_of`), `pad CYCLES` or
//! `divide`. An operand is the column `a` or `b`, or a literal `KIND#VALUE`, whose value may have a minus sign; an operation `add:a,b`,
//! `cast:a,u16`, `not:a`; an aggregate `count`, `sum:a`, `wsum:a,1,2,4`. A beat is a row `200,'ab'`, a row with the end `200,'ab'!`, columns
//! without their row `?200,'ab'` or `?200,'ab'!`, the end alone `!`, or nothing `-`.

use crate::beats::Beat;
use crate::circuit::{Circuit, circuit_of, divider_of, padded_of, table_of};
use crate::fits::{aggs_fit, is_kind, operands_fit, ops_fit};
use crate::kinds::{kind_of, value_of};
use gl_algebra::columns::{kind_of_agg, kind_of_op, kind_of_operand};
use gl_algebra::{ColOp, Operand, PlanAgg};
use gl_bits::{Listed, Memory, Word};
use gl_rows::{ComputeRow, ProjectRow, SelectRow};
use gl_totals::{Table, Totals};
use gl_values::{Kind, Op};
use std::alloc::Global;

// No column, which fits nothing.
const NONE: Operand = Operand::Column(u16::MAX);

/// Two kinds.
pub(crate) fn kinds_of(text: &str) -> [Kind; 2] {
    let (first, second) = text.trim().split_once(' ').unwrap_or((text, ""));
    [kind_of(first), kind_of(second)]
}

// A literal; no column where it does not fit its kind.
fn literal_of(kind: Kind, number: u128) -> Operand {
    if !is_kind(kind) {
        return NONE;
    }
    match Word::new(number, kind.width()) {
        Some(word) => Operand::Literal(word, kind),
        None => NONE,
    }
}

// An operand.
fn operand_of(text: &str) -> Operand {
    match text {
        "a" => Operand::Column(0),
        "b" => Operand::Column(1),
        _ => {
            let (kind, value) = text.split_once('#').unwrap_or(("", ""));
            let kind = kind_of(kind);
            literal_of(kind, value_of(kind, value))
        }
    }
}

// An operator.
fn operator_of(text: &str) -> Option<Op> {
    match text {
        "add" => Some(Op::Add),
        "sub" => Some(Op::Sub),
        "mul" => Some(Op::Mul),
        "band" => Some(Op::BitAnd),
        "bor" => Some(Op::BitOr),
        "bxor" => Some(Op::BitXor),
        "shl" => Some(Op::ShiftLeft),
        "shr" => Some(Op::ShiftRight),
        "eq" => Some(Op::Eq),
        "ne" => Some(Op::Ne),
        "lt" => Some(Op::Lt),
        "le" => Some(Op::Le),
        "gt" => Some(Op::Gt),
        "ge" => Some(Op::Ge),
        "and" => Some(Op::And),
        "or" => Some(Op::Or),
        _ => None,
    }
}

// An operation; one of no column where the text names none.
fn op_of(text: &str) -> ColOp {
    let (name, args) = text.split_once(':').unwrap_or((text, ""));
    let (first, second) = args.split_once(',').unwrap_or((args, ""));
    let operand = operand_of(first);
    match operator_of(name) {
        Some(op) => ColOp::Binary(op, operand, operand_of(second)),
        None if name == "not" => ColOp::Not(operand),
        None if name == "flip" => ColOp::Flip(operand),
        None if name == "cast" => ColOp::Cast(operand, kind_of(second)),
        None => ColOp::Not(NONE),
    }
}

// The numbers in a text, whatever stands between them.
fn numbers_of(alloc: Global, text: &str) -> Result<Vec<u128>, Memory> {
    let mut numbers = Vec::new(alloc);
    let mut open: Option<u128> = None;
    for byte in text.bytes() {
        if byte.is_ascii_digit() {
            let digit = byte.wrapping_sub(b'0') as u128;
            open = Some(open.unwrap_or(0).wrapping_mul(10).wrapping_add(digit));
        } else if let Some(number) = open {
            numbers.push(number)?;
            open = None;
        }
    }
    if let Some(number) = open {
        numbers.push(number)?;
    }
    Ok(numbers)
}

// Those of the numbers in a text that are words of a kind.
fn words_of(alloc: Global, kind: Kind, text: &str) -> Result<Vec<Word>, Memory> {
    let mut words = Vec::new(alloc);
    if !is_kind(kind) {
        return Ok(words);
    }
    for number in numbers_of(alloc, text)? {
        if let Some(word) = Word::new(number, kind.width()) {
            words.push(word)?;
        }
    }
    Ok(words)
}

// An aggregate, of columns of these kinds; one of no column where the text names none.
fn agg_of(alloc: Global, kinds: &[Kind], text: &str) -> Result<PlanAgg, Memory> {
    let (name, args) = text.split_once(':').unwrap_or((text, ""));
    let (first, others) = args.split_once(',').unwrap_or((args, ""));
    let operand = operand_of(first);
    match name {
        "count" => Ok(PlanAgg::Count),
        "sum" => Ok(PlanAgg::Sum(operand)),
        "min" => Ok(PlanAgg::Min(operand)),
        "max" => Ok(PlanAgg::Max(operand)),
        "avg" => Ok(PlanAgg::Avg(operand)),
        "wsum" => {
            let words = words_of(alloc, kind_of_operand(kinds, &operand), others)?;
            Ok(PlanAgg::Wsum(operand, Listed::from_vec(words)))
        }
        _ => Ok(PlanAgg::Sum(NONE)),
    }
}

// Columns with one more for each operation.
fn computed(alloc: Global, kinds: [Kind; 2], text: &str) -> Result<Option<Circuit>, Memory> {
    let mut ops = Vec::new(alloc);
    for word in text.split_whitespace() {
        ops.push(op_of(word))?;
    }
    let [first, second] = kinds;
    if !is_kind(first) || !is_kind(second) || !ops_fit(&kinds, ops.as_slice()) {
        return Ok(None);
    }
    let compute = ComputeRow {
        kinds: &kinds,
        words: &[],
        ops: ops.as_slice(),
    };
    let circuit = circuit_of(alloc, first, second, &compute)?;
    Ok(Some(circuit))
}

// The rows whose first column is 1.
fn kept(alloc: Global, kinds: [Kind; 2]) -> Result<Option<Circuit>, Memory> {
    let [first, second] = kinds;
    if !is_kind(first) || !is_kind(second) || first.width() != 1 {
        return Ok(None);
    }
    let circuit = circuit_of(alloc, first, second, &SelectRow { column: 0 })?;
    Ok(Some(circuit))
}

// Of each row these values.
fn picked(alloc: Global, kinds: [Kind; 2], text: &str) -> Result<Option<Circuit>, Memory> {
    let mut items = Vec::new(alloc);
    for word in text.split_whitespace() {
        items.push(operand_of(word))?;
    }
    let [first, second] = kinds;
    if !is_kind(first) || !is_kind(second) || !operands_fit(&kinds, items.as_slice()) {
        return Ok(None);
    }
    let project = ProjectRow {
        kinds: &kinds,
        words: &[],
        items: items.as_slice(),
    };
    let circuit = circuit_of(alloc, first, second, &project)?;
    Ok(Some(circuit))
}

// Aggregates of the streams of slots.
fn tabled(alloc: Global, kinds: [Kind; 2], text: &str) -> Result<Option<Circuit>, Memory> {
    let mut aggs = Vec::new(alloc);
    for word in text.split_whitespace() {
        let agg = agg_of(alloc, &kinds, word)?;
        aggs.push(agg)?;
    }
    let [first, second] = kinds;
    if !is_kind(first) || !is_kind(second) || !aggs_fit(&kinds, aggs.as_slice()) {
        return Ok(None);
    }
    if first.width() != 3 || aggs.is_empty() {
        return Ok(None);
    }
    let table = Table {
        kinds: &kinds,
        words: &[],
        aggs: aggs.as_slice(),
    };
    let circuit = table_of(alloc, first, second, &table)?;
    Ok(Some(circuit))
}

// Aggregates.
fn totalled(alloc: Global, kinds: [Kind; 2], text: &str) -> Result<Option<Circuit>, Memory> {
    let mut aggs = Vec::new(alloc);
    for word in text.split_whitespace() {
        let agg = agg_of(alloc, &kinds, word)?;
        aggs.push(agg)?;
    }
    let [first, second] = kinds;
    if !is_kind(first) || !is_kind(second) || !aggs_fit(&kinds, aggs.as_slice()) {
        return Ok(None);
    }
    let totals = Totals {
        kinds: &kinds,
        words: &[],
        aggs: aggs.as_slice(),
    };
    let circuit = circuit_of(alloc, first, second, &totals)?;
    Ok(Some(circuit))
}

// The columns, as many cycles later as the text says.
fn padded(alloc: Global, kinds: [Kind; 2], text: &str) -> Result<Option<Circuit>, Memory> {
    let [first, second] = kinds;
    if !is_kind(first) || !is_kind(second) {
        return Ok(None);
    }
    let cycles = u32::from(text.parse::<u8>().unwrap_or(0));
    let circuit = padded_of(alloc, first.width(), second.width(), cycles)?;
    Ok(Some(circuit))
}

// The first column by the second.
fn divided(alloc: Global, kinds: [Kind; 2]) -> Result<Option<Circuit>, Memory> {
    let [Kind::Unsigned(first), Kind::Unsigned(second)] = kinds else {
        return Ok(None);
    };
    if first == 0 || first > 128 || second == 0 || second > 128 {
        return Ok(None);
    }
    let circuit = divider_of(alloc, first, second)?;
    Ok(Some(circuit))
}

/// A block behind columns of these kinds; None where it is none, or does not fit them.
pub(crate) fn block_of(
    alloc: Global,
    kinds: [Kind; 2],
    text: &str,
) -> Result<Option<Circuit>, Memory> {
    let text = text.trim();
    let (name, items) = text.split_once(' ').unwrap_or((text, ""));
    match name {
        "compute" => computed(alloc, kinds, items),
        "select" => kept(alloc, kinds),
        "project" => picked(alloc, kinds, items),
        "totals" => totalled(alloc, kinds, items),
        "table" => tabled(alloc, kinds, items),
        "pad" => padded(alloc, kinds, items),
        "divide" => divided(alloc, kinds),
        _ => Ok(None),
    }
}

// The kind of the column that a word of a block puts out.
fn kind_behind(alloc: Global, kinds: &[Kind], name: &str, word: &str) -> Result<Kind, Memory> {
    let kind = match name {
        "compute" => kind_of_op(kinds, &op_of(word)),
        "project" => kind_of_operand(kinds, &operand_of(word)),
        _ => kind_of_agg(kinds, &agg_of(alloc, kinds, word)?),
    };
    Ok(kind)
}

/// The kinds of the columns that a block puts out; of a quotient none.
pub(crate) fn kinds_behind(
    alloc: Global,
    kinds: [Kind; 2],
    text: &str,
) -> Result<Vec<Kind>, Memory> {
    let text = text.trim();
    let (name, items) = text.split_once(' ').unwrap_or((text, ""));
    let mut out = Vec::new(alloc);
    if name == "compute" || name == "select" || name == "pad" {
        out.extend_from_slice(&kinds)?;
    }
    if name == "pad" {
        return Ok(out);
    }
    for word in items.split_whitespace() {
        let kind = kind_behind(alloc, &kinds, name, word)?;
        out.push(kind)?;
    }
    if name == "table" {
        out.push(Kind::Unsigned(2))?;
    }
    Ok(out)
}

// A beat of columns of these kinds.
fn beat_of(kinds: [Kind; 2], text: &str) -> Beat {
    let bare = text.strip_prefix("?");
    let row = bare.unwrap_or(text).trim_end_matches('!');
    let (first, second) = row.split_once(',').unwrap_or(("1", "1"));
    let [a, b] = kinds;
    Beat {
        valid: bare.is_none() && row.contains(','),
        end: text.ends_with('!'),
        row: [value_of(a, first), value_of(b, second)],
    }
}

/// Beats of columns of these kinds.
pub(crate) fn beats_of(alloc: Global, kinds: [Kind; 2], text: &str) -> Result<Vec<Beat>, Memory> {
    let mut beats = Vec::new(alloc);
    for word in text.split_whitespace() {
        beats.push(beat_of(kinds, word))?;
    }
    Ok(beats)
}
