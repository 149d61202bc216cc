//! The sum of the values of the open stream by their weights.

ghost use Rattle.std.specs.Prelude.{◌≡◌, ◌+◌, ◌*◌, ◌≤◌, All, IfOk, length};
ghost use Rattle.gl_values.specs.Totals.{weighted_sum};
ghost use Rattle.gl_bits.specs.Words.{IsWidth, bits_of};
ghost use Rattle.gl_net.specs.Net.{IsBit, IsBus};
ghost use Rattle.gl_totals.specs.Costs.{cost_of_weighted};
ghost use Rattle.gl_totals.specs.Open.{KeepFits};
ghost use Rattle.gl_totals.specs.Totals.{IsTotalOf};
ghost use Rattle.gl_rows.specs.Multiples.{TermsFit, nodes_of_terms, number_of};
ghost use Rattle.gl_totals.specs.Weighing.{HasWidth, IsChosen, IsPart, IsPicked, IsWeighed, is_among, is_told};

use crate::fold::{Step, put_state, small_word};
use crate::rows::Rows;
use gl_bits::{Memory, Word};
use gl_net::{BinaryOp, Bus, NetBuilder};
use gl_rows::multiple::{Terms, put_multiple, terms_of};

// The weight at the place of the bit that is 1, where the first weight is that of this bit; 0 where none is.
fn put_picked(
    net: &mut NetBuilder,
    weights: &[Word],
    place: Bus,
    from: u8,
    width: u8,
) -> Result<Bus, Memory>
    requires place { IsBus net.old place }
    requires places { from + length weights.now ≤ place.width }
    requires width { IsWidth width }
    requires weights { All (HasWidth width) weights.now }
    ensures { IfOk result (IsPicked net.old net.new (bits_of weights.now) width place from) }
{
    let Some((first, others)) = weights.split_first() else {
        let none = net.constant(small_word(false, width))?;
        return Ok(none);
    };
    let behind = put_picked(net, others, place, from + 1, width)?;
    let here = net.cut(place, from, from)?;
    let weight = net.constant(*first)?;
    // Named, since a goal speaks of the value.
    let out = net.choose(here.bit(), weight, behind)?;
    Ok(out)
}

// Whether a number is that of a word among these.
fn is_among(number: u128, words: &[Word]) -> bool
    ensures { result ≡ is_among number (bits_of words.now) }
{
    let Some((first, others)) = words.split_first() else {
        return false;
    };
    number == first.bits() || is_among(number, others)
}

// Whether a weight needs no choice of its own: 0 does not, nor one that comes again.
fn is_told(weight: u128, others: &[Word]) -> bool
    ensures { result ≡ is_told weight (bits_of others.now) }
{
    weight == 0 || is_among(weight, others)
}

// Terms of a weight that take no more nodes than these: the weight itself where its own take more.
fn terms_within(terms: &Terms, weight: Word, nodes: u32) -> Terms
    requires fits { TermsFit weight.width terms.now }
    requires number { number_of weight.width terms.now ≡ weight.bits }
    requires some { 2 ≤ nodes }
    ensures fits { TermsFit weight.width result }
    ensures number { number_of weight.width result ≡ weight.bits }
    ensures nodes { nodes_of_terms result ≤ nodes }
{
    if terms.nodes() <= nodes {
        return *terms;
    }
    Terms::Many(weight)
}

// The nodes that are set aside for the product by a weight, of these at most: two do for any.
fn nodes_for(weight: Word, most: u32) -> u32
    requires { 2 ≤ most }
    ensures few { 2 ≤ result }
    ensures within { result ≤ most }
{
    let nodes = terms_of(weight).nodes();
    if 2 <= nodes && nodes <= most {
        nodes
    } else {
        2
    }
}

// Whether the products by all weights are shifts, or sums or differences of two, where there are so many nodes for them.
fn are_lean(weights: &[Word], nodes: u32) -> bool
    requires { 5 * length weights.now ≤ nodes }
{
    let Some((first, others)) = weights.split_first() else {
        return true;
    };
    if is_told(first.bits(), others) {
        return are_lean(others, nodes);
    }
    let most = nodes - 5 * others.len() as u32 - 3;
    let own = nodes_for(*first, most);
    terms_of(*first).is_lean()
        && terms_of(*first).nodes() <= own
        && are_lean(others, nodes - 3 - own)
}

// The product of the value and a weight where that is picked, and else what stands behind.
fn put_choice(
    net: &mut NetBuilder,
    picked: Bus,
    value: Bus,
    weight: Word,
    nodes: u32,
    behind: Bus,
) -> Result<Bus, Memory>
    requires picked { IsBus net.old picked }
    requires value { IsBus net.old value }
    requires behind { IsBus net.old behind }
    requires picked_width { picked.width ≡ value.width }
    requires behind_width { behind.width ≡ value.width }
    requires weight_width { weight.width ≡ value.width }
    requires some { 2 ≤ nodes }
    ensures { IfOk result (IsChosen net.old net.new nodes picked value weight.bits behind) }
{
    let number = net.constant(weight)?;
    let is_it = net.binary(BinaryOp::Eq, picked, number)?;
    let terms = terms_of(weight);
    let multiple = put_multiple(net, value, terms_within(&terms, weight, nodes))?;
    let out = net.choose(is_it.bit(), multiple, behind)?;
    Ok(out)
}

// The product of the value and the picked weight: one product for each weight, and a choice among them.
fn put_multiples(
    net: &mut NetBuilder,
    weights: &[Word],
    picked: Bus,
    value: Bus,
    nodes: u32,
) -> Result<Bus, Memory>
    requires picked { IsBus net.old picked }
    requires value { IsBus net.old value }
    requires picked_width { picked.width ≡ value.width }
    requires weights { All (HasWidth value.width) weights.now }
    requires nodes { 5 * length weights.now ≤ nodes }
    ensures { IfOk result
        (IsWeighed net.old net.new nodes (bits_of weights.now) picked value) }
{
    let Some((first, others)) = weights.split_first() else {
        let none = net.constant(small_word(false, value.width))?;
        return Ok(none);
    };
    if is_told(first.bits(), others) {
        return put_multiples(net, others, picked, value, nodes);
    }
    let own = nodes_for(*first, nodes - 5 * others.len() as u32 - 3);
    let behind = put_multiples(net, others, picked, value, nodes - 3 - own)?;
    let out = put_choice(net, picked, value, *first, own, behind)?;
    Ok(out)
}

// The product of the value and the weight at the place, without a multiplier where the weights are lean.
fn put_part(net: &mut NetBuilder, weights: &[Word], place: Bus, value: Bus) -> Result<Bus, Memory>
    requires place { IsBus net.old place }
    requires value { IsBus net.old value }
    requires places { length weights.now ≤ place.width }
    requires weights { All (HasWidth value.width) weights.now }
    ensures { IfOk result (IsPart net.old net.new (bits_of weights.now) place value) }
{
    let weight = put_picked(net, weights, place, 0, value.width)?;
    let nodes = 5 * weights.len() as u32 + 2;
    if are_lean(weights, nodes) {
        let part = put_multiples(net, weights, weight, value, nodes)?;
        return Ok(part);
    }
    let part = net.binary(BinaryOp::Mul, weight, value)?;
    Ok(part)
}

/// The sum of the values by their weights, the first weight with the first value, which wraps in their width. Values past the last weight
/// count 0.
pub fn put_weighted(
    net: &mut NetBuilder,
    rows: Rows,
    weights: &[Word],
    value: Bus,
) -> Result<Bus, Memory>
    requires valid { IsBit net.old rows.valid }
    requires eos { IsBit net.old rows.eos }
    requires keep { KeepFits net.old rows.keep }
    requires value { IsBus net.old value }
    requires many { length weights.now ≤ 128 }
    requires weights { All (HasWidth value.width) weights.now }
    ensures { IfOk result (IsTotalOf net.old net.new
        (cost_of_weighted rows.keep value.width (length weights.now)) value.width 0
        rows value (weighted_sum value.width (bits_of weights.now))) }
{
    if weights.is_empty() {
        let none = net.constant(small_word(false, value.width))?;
        return Ok(none);
    }
    let first = small_word(true, weights.len() as u8);
    let place = put_state(net, rows, first, Step::Shift, b"place")?;
    let part = put_part(net, weights, place.before, value)?;
    let sum = put_state(
        net,
        rows,
        small_word(false, value.width),
        Step::Add(part),
        b"state",
    )?;
    Ok(sum.now)
}
