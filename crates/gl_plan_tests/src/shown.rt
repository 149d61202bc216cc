//! A plan as text: a line for each node, with its words and its figures.

use gl_algebra::{ColOp, Figures, Operand, Plan, PlanAgg, PlanFrame, PlanFrameAgg, PlanNode};
use gl_bits::Word;
use gl_schema::Schema;
use gl_values::Kind;
use std::alloc::{AllocError, Global};

// Adds the bytes of a name.
fn push_name(out: &mut String, name: &[u8]) -> Result<(), AllocError> {
    for byte in name {
        out.push(char::from(*byte))?;
    }
    Ok(())
}

// Adds a literal: of a text its letters.
fn push_literal(out: &mut String, word: Word, kind: Kind) -> Result<(), AllocError> {
    match kind {
        Kind::Unsigned(_) | Kind::Signed(_) => write!(out, " #{}", word.bits()),
        Kind::Text(_) => {
            out.push_str(" '")?;
            for byte in word.bits().to_be_bytes() {
                if byte != 0 {
                    out.push(char::from(byte))?;
                }
            }
            out.push_str("'")
        }
    }
}

// Adds a kind.
fn push_kind(out: &mut String, kind: Kind) -> Result<(), AllocError> {
    match kind {
        Kind::Unsigned(width) => write!(out, " u{width}"),
        Kind::Signed(width) => write!(out, " s{width}"),
        Kind::Text(bytes) => write!(out, " text{bytes}"),
    }
}

fn push_operand(out: &mut String, operand: &Operand) -> Result<(), AllocError> {
    match operand {
        Operand::Column(column) => write!(out, " c{}", *column)?,
        Operand::Literal(word, kind) => push_literal(out, *word, *kind)?,
        Operand::Parameter(number, _) => write!(out, " ${}", *number)?,
    }
    Ok(())
}

fn push_op(out: &mut String, op: &ColOp) -> Result<(), AllocError> {
    match op {
        ColOp::Not(x) => {
            out.push_str(" not")?;
            push_operand(out, x)
        }
        ColOp::Flip(x) => {
            out.push_str(" flip")?;
            push_operand(out, x)
        }
        ColOp::Cast(x, kind) => {
            push_kind(out, *kind)?;
            push_operand(out, x)
        }
        ColOp::Binary(op, x, y) => {
            write!(out, " {op:?}")?;
            push_operand(out, x)?;
            push_operand(out, y)
        }
    }
}

fn push_agg(out: &mut String, agg: &PlanAgg) -> Result<(), AllocError> {
    match agg {
        PlanAgg::Count => Ok(out.push_str(" count")?),
        PlanAgg::Sum(x) => {
            out.push_str(" sum")?;
            push_operand(out, x)
        }
        PlanAgg::Min(x) => {
            out.push_str(" min")?;
            push_operand(out, x)
        }
        PlanAgg::Max(x) => {
            out.push_str(" max")?;
            push_operand(out, x)
        }
        PlanAgg::Avg(x) => {
            out.push_str(" avg")?;
            push_operand(out, x)
        }
        PlanAgg::Wsum(x, weights) => {
            out.push_str(" wsum")?;
            push_operand(out, x)?;
            for weight in weights.as_slice() {
                write!(out, " {}", weight.bits())?;
            }
            Ok(())
        }
    }
}

fn push_frame_agg(out: &mut String, agg: &PlanFrameAgg) -> Result<(), AllocError> {
    match agg {
        PlanFrameAgg::Count => Ok(out.push_str(" count")?),
        PlanFrameAgg::Sum(x) => {
            out.push_str(" sum")?;
            push_operand(out, x)
        }
        PlanFrameAgg::Min(x) => {
            out.push_str(" min")?;
            push_operand(out, x)
        }
        PlanFrameAgg::Max(x) => {
            out.push_str(" max")?;
            push_operand(out, x)
        }
        PlanFrameAgg::Avg(x) => {
            out.push_str(" avg")?;
            push_operand(out, x)
        }
        PlanFrameAgg::LastValue(x) => {
            out.push_str(" last_value")?;
            push_operand(out, x)
        }
    }
}

fn push_frame(out: &mut String, item: &PlanFrame) -> Result<(), AllocError> {
    match item {
        PlanFrame::Own(x) => push_operand(out, x),
        PlanFrame::Lag(x, back) => {
            out.push_str(" lag")?;
            push_operand(out, x)?;
            write!(out, " {}", *back)
        }
        PlanFrame::Over { agg, filter, back } => {
            push_frame_agg(out, agg)?;
            match filter {
                Some(column) => write!(out, " where c{}", *column)?,
                None => {}
            }
            match back {
                Some(rows) => write!(out, " {}", *rows),
                None => Ok(()),
            }
        }
    }
}

fn push_node(out: &mut String, schema: &Schema, node: &PlanNode) -> Result<(), AllocError> {
    match node {
        PlanNode::Stream(number, _) => {
            out.push_str("input ")?;
            match schema.streams.as_slice().get(*number as usize) {
                Some(stream) => push_name(out, stream.name.as_slice())?,
                None => {}
            }
        }
        PlanNode::Body(_) => out.push_str("input body")?,
        PlanNode::Compute { child, ops } => {
            write!(out, "compute p{}", child.number())?;
            for op in ops.as_slice() {
                push_op(out, op)?;
            }
        }
        PlanNode::Select { child, column } => {
            write!(out, "select p{} c{}", child.number(), *column)?
        }
        PlanNode::Project { child, items } => {
            write!(out, "project p{}", child.number())?;
            for item in items.as_slice() {
                push_operand(out, item)?;
            }
        }
        PlanNode::Frames { child, by, items } => {
            write!(out, "frames p{}", child.number())?;
            match by {
                Some(by) => write!(out, " by c{} {}", by.key, by.groups)?,
                None => {}
            }
            for item in items.as_slice() {
                push_frame(out, item)?;
            }
        }
        PlanNode::Aggregate { child, aggs } => {
            write!(out, "aggregate p{}", child.number())?;
            for agg in aggs.as_slice() {
                push_agg(out, agg)?;
            }
        }
        PlanNode::Union { left, right } => {
            write!(out, "union p{} p{}", left.number(), right.number())?
        }
        PlanNode::Merge { left, right } => {
            write!(out, "merge p{} p{}", left.number(), right.number())?
        }
        PlanNode::Beside { left, right } => {
            write!(out, "beside p{} p{}", left.number(), right.number())?
        }
        PlanNode::Window {
            source,
            body,
            size,
            advance,
        } => {
            write!(out, "window p{} p{}", source.number(), body.number())?;
            write!(out, " {} {}", *size, *advance)?;
        }
        PlanNode::TimeWindow {
            source,
            body,
            size,
            advance,
        } => {
            write!(out, "times p{} p{}", source.number(), body.number())?;
            write!(out, " {} {}", *size, *advance)?;
        }
        PlanNode::Group {
            source,
            body,
            key,
            groups,
        } => {
            write!(out, "group p{} p{}", source.number(), body.number())?;
            write!(out, " c{} {}", *key, *groups)?;
        }
        PlanNode::Partition {
            source,
            body,
            key,
            groups,
            size,
            advance,
        } => {
            write!(out, "partition p{} p{}", source.number(), body.number())?;
            write!(out, " c{} {}", *key, *groups)?;
            write!(out, " {} {}", *size, *advance)?;
        }
    }
    Ok(())
}

fn push_figures(out: &mut String, f: &Figures) -> Result<(), AllocError> {
    write!(out, " : {} {} {}", f.a, f.lt, f.le)?;
    write!(out, " {} {}", f.nt, f.ne)?;
    write!(out, " {} {}", f.gt, f.ge)?;
    Ok(())
}

/// The lines of a plan's nodes, each with the figures at its place.
pub(crate) fn shown(
    alloc: Global,
    schema: &Schema,
    plan: &Plan,
    figures: &[Figures],
) -> Result<String, AllocError> {
    let mut out = String::new(alloc);
    for number in 0..plan.len() {
        if number > 0 {
            out.push_str("\n")?;
        }
        write!(out, "p{number} ")?;
        push_node(&mut out, schema, plan.node(plan.id(number)))?;
        match figures.get(number) {
            Some(own) => push_figures(&mut out, own)?,
            None => {}
        }
    }
    Ok(out)
}
