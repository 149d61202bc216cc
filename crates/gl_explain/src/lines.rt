//! The lines of a plan.

ghost use Rattle.std.specs.Prelude.{◌≡◌, ◌++◌, ◌<◌, length, OnErr, OnOk};
ghost use Rattle.gl_algebra.specs.Small.{AreFigures};
ghost use Rattle.gl_explain.specs.Lines.{HasLine};
ghost use Rattle.gl_explain.specs.Lines as spec;

use gl_algebra::{
    Figures, Operand, Plan, PlanAgg, PlanFrame, PlanFrameAgg, PlanId, PlanKey, PlanNode, Spare,
};
use gl_bits::Memory;
use gl_root_gaps::TickGaps;
use gl_schema::Schema;
use itoa::Buffer;

/// Appends bytes. On want of memory nothing is appended.
pub fn put(text: &mut Vec<u8>, bytes: &[u8]) -> Result<(), Memory>
    ensures ok { OnOk result (text.new.items ≡ text.old.items ++ bytes.now) }
    ensures err { OnErr result (text.new.items ≡ text.old.items) }
{
    match text.extend_from_slice(bytes) {
        Ok(()) => Ok(()),
        Err(_) => Err(Memory),
    }
}

/// Appends a number in decimal behind these bytes.
#[tactic(auto, unfolding(crate::specs::Lines::numbered))]
pub fn put_number(text: &mut Vec<u8>, front: &[u8], number: u128) -> Result<(), Memory>
    ensures { OnOk result (text.new.items ≡ text.old.items ++ spec.numbered front.now number) }
{
    put(text, front)?;
    let mut buffer = Buffer::new();
    put(text, buffer.format(number).as_bytes())
}

// Appends a node's name.
fn put_id(text: &mut Vec<u8>, id: PlanId) -> Result<(), Memory>
    ensures { OnOk result (text.new.items ≡ text.old.items ++ spec.node_text id) }
{
    put_number(text, b" p", id.number() as u128)
}

// Appends a column's name.
fn put_column(text: &mut Vec<u8>, number: u128) -> Result<(), Memory>
    ensures { OnOk result (text.new.items ≡ text.old.items ++ spec.column_text number) }
{
    put_number(text, b" c", number)
}

// Appends an operand.
fn put_operand(text: &mut Vec<u8>, operand: &Operand) -> Result<(), Memory>
    ensures { OnOk result (text.new.items ≡ text.old.items ++ spec.operand_text operand.now) }
{
    match operand {
        Operand::Column(number) => put_column(text, u128::from(*number)),
        Operand::Literal(word, _) => put_number(text, b" #", word.bits()),
        Operand::Parameter(number, _) => put_number(text, b" $", u128::from(*number)),
    }
}

// Appends operands.
fn put_operands(text: &mut Vec<u8>, operands: &[Operand]) -> Result<(), Memory>
    ensures { OnOk result (text.new.items ≡ text.old.items ++ spec.operands_text operands.now) }
{
    let Some((first, rest)) = operands.split_first() else {
        return Ok(());
    };
    put_operand(text, first)?;
    put_operands(text, rest)
}

#[tactic(auto, unfolding(crate::specs::Lines::agg_text))]
fn agg_text(agg: &PlanAgg) -> &'static [u8]
    ensures { result.now ≡ spec.agg_text agg.now }
{
    match agg {
        PlanAgg::Count => b" count",
        PlanAgg::Sum(_) => b" sum",
        PlanAgg::Min(_) => b" min",
        PlanAgg::Max(_) => b" max",
        PlanAgg::Avg(_) => b" avg",
        PlanAgg::Wsum(_, _) => b" wsum",
    }
}

// Appends the names of aggregates.
fn put_aggs(text: &mut Vec<u8>, aggs: &[PlanAgg]) -> Result<(), Memory>
    ensures { OnOk result (text.new.items ≡ text.old.items ++ spec.aggs_text aggs.now) }
{
    let Some((first, rest)) = aggs.split_first() else {
        return Ok(());
    };
    put(text, agg_text(first))?;
    put_aggs(text, rest)
}

#[tactic(auto, unfolding(crate::specs::Lines::frame_agg_text))]
fn frame_agg_text(agg: &PlanFrameAgg) -> &'static [u8]
    ensures { result.now ≡ spec.frame_agg_text agg.now }
{
    match agg {
        PlanFrameAgg::Count => b" count",
        PlanFrameAgg::Sum(_) => b" sum",
        PlanFrameAgg::Min(_) => b" min",
        PlanFrameAgg::Max(_) => b" max",
        PlanFrameAgg::Avg(_) => b" avg",
        PlanFrameAgg::LastValue(_) => b" last_value",
    }
}

// Appends how many rows before its own a frame has, where it has not all.
fn put_back(text: &mut Vec<u8>, back: Option<u32>) -> Result<(), Memory>
    ensures { OnOk result (text.new.items ≡ text.old.items ++ spec.back_text back) }
{
    match back {
        Some(back) => put_number(text, b" ", u128::from(back)),
        None => Ok(()),
    }
}

// Appends an item of a node of frames.
#[tactic(auto, unfolding(crate::specs::Lines::frame_text))]
fn put_frame(text: &mut Vec<u8>, item: &PlanFrame) -> Result<(), Memory>
    ensures { OnOk result (text.new.items ≡ text.old.items ++ spec.frame_text item.now) }
{
    match item {
        PlanFrame::Own(operand) => put_operand(text, operand),
        PlanFrame::Lag(_, back) => {
            put(text, b" lag")?;
            put_number(text, b" ", u128::from(*back))
        }
        PlanFrame::Over { agg, back, .. } => {
            put(text, frame_agg_text(agg))?;
            put_back(text, *back)
        }
    }
}

// Appends items of a node of frames.
fn put_frames(text: &mut Vec<u8>, items: &[PlanFrame]) -> Result<(), Memory>
    ensures { OnOk result (text.new.items ≡ text.old.items ++ spec.frames_text items.now) }
{
    let Some((first, rest)) = items.split_first() else {
        return Ok(());
    };
    put_frame(text, first)?;
    put_frames(text, rest)
}

// Appends the key of a node of frames, where it has one.
#[tactic(auto, unfolding(crate::specs::Lines::key_text))]
fn put_key(text: &mut Vec<u8>, by: Option<PlanKey>) -> Result<(), Memory>
    ensures { OnOk result (text.new.items ≡ text.old.items ++ spec.key_text by) }
{
    let Some(by) = by else {
        return Ok(());
    };
    put(text, b" by")?;
    put_column(text, u128::from(by.key))?;
    put_number(text, b" ", u128::from(by.groups))
}

// Appends the words of the leaf of a stream.
#[tactic(auto, unfolding(crate::specs::Lines::stream_text))]
fn put_stream(text: &mut Vec<u8>, schema: &Schema, number: u8) -> Result<(), Memory>
    ensures { OnOk result (text.new.items ≡ text.old.items ++ spec.stream_text schema.now number) }
{
    put(text, b"input ")?;
    match schema.streams.as_slice().get(number as usize) {
        Some(stream) => put(text, stream.name.as_slice()),
        None => Ok(()),
    }
}

// Appends a word and the names of two nodes.
fn put_two(text: &mut Vec<u8>, word: &[u8], first: PlanId, second: PlanId) -> Result<(), Memory>
    ensures { OnOk result
        (text.new.items
        ≡ text.old.items ++ word.now ++ spec.node_text first ++ spec.node_text second) }
{
    put(text, word)?;
    put_id(text, first)?;
    put_id(text, second)
}

// Appends a word and the name of a node.
fn put_one(text: &mut Vec<u8>, word: &[u8], id: PlanId) -> Result<(), Memory>
    ensures { OnOk result (text.new.items ≡ text.old.items ++ word.now ++ spec.node_text id) }
{
    put(text, word)?;
    put_id(text, id)
}

/// Appends the words of a node.
#[tactic(auto, unfolding(crate::specs::Lines::words_of))]
pub fn put_words(text: &mut Vec<u8>, schema: &Schema, node: &PlanNode) -> Result<(), Memory>
    ensures { OnOk result (text.new.items ≡ text.old.items ++ spec.words_of schema.now node.now) }
{
    match node {
        PlanNode::Stream(number, _) => put_stream(text, schema, *number),
        PlanNode::Body(_) => put(text, b"input body"),
        PlanNode::Compute { child, ops } => {
            put_one(text, b"compute", *child)?;
            put_number(text, b" ", ops.len() as u128)
        }
        PlanNode::Select { child, column } => {
            put_one(text, b"select", *child)?;
            put_column(text, u128::from(*column))
        }
        PlanNode::Project { child, items } => {
            put_one(text, b"project", *child)?;
            put_operands(text, items.as_slice())
        }
        PlanNode::Frames { child, by, items } => {
            put_one(text, b"frames", *child)?;
            put_key(text, *by)?;
            put_frames(text, items.as_slice())
        }
        PlanNode::Aggregate { child, aggs } => {
            put_one(text, b"aggregate", *child)?;
            put_aggs(text, aggs.as_slice())
        }
        PlanNode::Union { left, right } => put_two(text, b"union", *left, *right),
        PlanNode::Merge { left, right } => put_two(text, b"merge", *left, *right),
        PlanNode::Beside { left, right } => put_two(text, b"beside", *left, *right),
        PlanNode::Window {
            source,
            body,
            size,
            advance,
        } => {
            put_two(text, b"window", *source, *body)?;
            put_number(text, b" ", u128::from(*size))?;
            put_number(text, b" ", u128::from(*advance))
        }
        PlanNode::TimeWindow {
            source,
            body,
            size,
            advance,
        } => {
            put_two(text, b"times", *source, *body)?;
            put_number(text, b" ", u128::from(*size))?;
            put_number(text, b" ", u128::from(*advance))
        }
        PlanNode::Group {
            source,
            body,
            key,
            groups,
        } => {
            put_two(text, b"group", *source, *body)?;
            put_column(text, u128::from(*key))?;
            put_number(text, b" ", u128::from(*groups))
        }
        PlanNode::Partition {
            source,
            body,
            key,
            groups,
            size,
            advance,
        } => {
            put_two(text, b"partition", *source, *body)?;
            put_column(text, u128::from(*key))?;
            put_number(text, b" ", u128::from(*groups))?;
            put_number(text, b" ", u128::from(*size))?;
            put_number(text, b" ", u128::from(*advance))
        }
    }
}

// Appends the seven figures.
#[tactic(auto, unfolding(crate::specs::Lines::figures_text))]
fn put_figures(text: &mut Vec<u8>, f: &Figures) -> Result<(), Memory>
    ensures { OnOk result (text.new.items ≡ text.old.items ++ spec.figures_text f.now) }
{
    put_number(text, b" ", u128::from(f.a))?;
    put_number(text, b" ", u128::from(f.lt))?;
    put_number(text, b" ", u128::from(f.le))?;
    put_number(text, b" ", u128::from(f.nt))?;
    put_number(text, b" ", u128::from(f.ne))?;
    put_number(text, b" ", u128::from(f.gt))?;
    put_number(text, b" ", u128::from(f.ge))
}

/// Appends the line of a node.
#[tactic(auto, unfolding(crate::specs::Lines::line_of))]
pub fn put_line(
    text: &mut Vec<u8>,
    schema: &Schema,
    number: usize,
    node: &PlanNode,
    f: &Figures,
) -> Result<(), Memory>
    ensures { OnOk result
        (text.new.items ≡ text.old.items ++ spec.line_of schema.now number node.now f.now) }
{
    put_number(text, b"p", number as u128)?;
    put(text, b" ")?;
    put_words(text, schema, node)?;
    put(text, b" :")?;
    put_figures(text, f)?;
    put(text, b"\n")
}

// Appends the line of the node of a number.
fn put_line_at(
    text: &mut Vec<u8>,
    schema: &Schema,
    plan: &Plan,
    figures: &[Figures],
    number: usize,
) -> Result<(), Memory>
    requires figures { AreFigures plan.now figures.now }
    requires within { number < length plan.now }
    ensures { OnOk result (HasLine schema.now plan.now number text.old.items text.new.items) }
{
    let node = plan.node(plan.id(number));
    put_line(text, schema, number, node, &figures[number])
}

/// Appends the lines of a plan's nodes, whose figures these are.
pub(crate) fn put_lines(
    text: &mut Vec<u8>,
    schema: &Schema,
    plan: &Plan,
    figures: &[Figures],
) -> Result<(), Memory>
    requires { AreFigures plan.now figures.now }
    ensures { OnOk result (text.new.items ≡ text.old.items ++ spec.lines_of schema.now plan.now) }
{
    for number in 0..plan.len() {
        put_line_at(text, schema, plan, figures, number)?;
    }
    Ok(())
}

/// Appends the line of the root.
#[tactic(auto, unfolding(crate::specs::Lines::root_text))]
pub fn put_root(text: &mut Vec<u8>, root: PlanId) -> Result<(), Memory>
    ensures { OnOk result (text.new.items ≡ text.old.items ++ spec.root_text root) }
{
    put_one(text, b"root", root)?;
    put(text, b"\n")
}

/// Appends the line of a root's spare copies, where it has some.
#[tactic(auto, unfolding(crate::specs::Lines::spare_text))]
pub fn put_spare(text: &mut Vec<u8>, spare: Option<Spare>) -> Result<(), Memory>
    ensures { OnOk result (text.new.items ≡ text.old.items ++ spec.spare_text spare) }
{
    let Some(it) = spare else {
        return Ok(());
    };
    put(text, b"spare")?;
    put_number(text, b" ", u128::from(it.copies))?;
    put_number(text, b" ", u128::from(it.gap))?;
    put_number(text, b" ", u128::from(it.shift))?;
    put(text, b"\n")
}

/// Appends the line of a root's ticks, where they are farther apart than tuples.
#[tactic(auto, unfolding(crate::specs::Lines::ticks_text))]
pub fn put_ticks(text: &mut Vec<u8>, ticks: Option<TickGaps>) -> Result<(), Memory>
    ensures { OnOk result (text.new.items ≡ text.old.items ++ spec.ticks_text ticks) }
{
    let Some(it) = ticks else {
        return Ok(());
    };
    put(text, b"ticks")?;
    put_number(text, b" ", u128::from(it.ticks))?;
    put_number(text, b" ", u128::from(it.gap))?;
    put(text, b"\n")
}
