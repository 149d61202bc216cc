//! What the nets of nodes are called.

ghost use Rattle.std.specs.Prelude.{◌≡◌, ◌++◌, OnOk, IfOk};
ghost use Rattle.std.specs.List.{list_all};
ghost use Rattle.gl_verilog_writer.specs.Labelled.{begins_port, family_of, is_name_byte, kept_byte, room_left, clean, label_name, name_at, above_at, scheme_of};
ghost use Rattle.gl_verilog_writer.specs.Texts.{name_text, above_text, scheme_in};

use crate::comments::put_heading;
use crate::label::Labels;
use crate::pieces::{put, put_family, put_name, put_number};
use gl_bits::Memory;
use gl_net::{Netlist, Port};

/// How the nets of nodes are called.
#[derive(Clone, Copy)]
pub(crate) enum Names<'a> {
    /// By a family that keeps them apart from the ports' names, and the node's number.
    Family(usize),
    /// After labels, and with the node's number.
    Labelled(&'a Labels),
}

// Letters, digits and _.
fn is_name_byte(byte: u8) -> bool
    ensures { result ≡ is_name_byte byte }
{
    (65 <= byte && byte <= 90)
        || (97 <= byte && byte <= 122)
        || byte == 95
        || (48 <= byte && byte <= 57)
}

// One byte of a label where there is room; gives the room behind it.
fn put_name_byte(out: &mut Vec<u8>, room: usize, byte: u8) -> Result<usize, Memory>
    ensures text { OnOk result (out.new.items ≡ out.old.items ++ kept_byte room byte) }
    ensures room { IfOk result (λ left. left ≡ room_left room byte) }
{
    if room > 0 && is_name_byte(byte) {
        put(out, &[byte])?;
        return Ok(room - 1);
    }
    Ok(room)
}

// Whether all bytes are letters, digits and _.
fn are_name_bytes(bytes: &[u8]) -> bool
    ensures { result ≡ list_all is_name_byte bytes.now }
{
    match bytes.split_first() {
        Some((byte, rest)) => is_name_byte(*byte) && are_name_bytes(rest),
        None => true,
    }
}

// The letters, digits and _ of a label, at most 64 of them. Most labels are no longer and have no
// other byte, so they are put whole.
#[tactic(auto, using(crate::proofs::Loops::loop_steps))]
fn put_clean(out: &mut Vec<u8>, label: &[u8]) -> Result<(), Memory>
    ensures { OnOk result (out.new.items ≡ out.old.items ++ clean 64 label.now) }
{
    if label.len() <= 64 && are_name_bytes(label) {
        return put(out, label);
    }
    let mut room = 64;
    for &byte in label {
        room = put_name_byte(out, room, byte)?;
    }
    Ok(())
}

// What a label calls a node.
#[tactic(auto, unfolding(crate::specs::Labelled::label_name))]
fn put_label(out: &mut Vec<u8>, label: &[u8], node: usize) -> Result<(), Memory>
    ensures { OnOk result (out.new.items ≡ out.old.items ++ label_name label.now node) }
{
    put(out, b"p")?;
    put_clean(out, label)?;
    put(out, b"_n")?;
    put_number(out, node as u128)
}

// What a node's label calls it, or nothing.
fn name_at(labels: &Labels, node: usize) -> &[u8]
    ensures { result.now ≡ name_at labels.now node }
{
    match labels.nodes.get(node) {
        Some(label) => &label.name,
        None => b"",
    }
}

// The heading above a node, or nothing.
fn above_at(labels: &Labels, node: usize) -> &[u8]
    ensures { result.now ≡ above_at labels.now node }
{
    match labels.nodes.get(node) {
        Some(label) => &label.above,
        None => b"",
    }
}

/// Appends the name of a node's net.
pub(crate) fn put_net(out: &mut Vec<u8>, names: &Names<'_>, node: usize) -> Result<(), Memory>
    ensures { OnOk result (out.new.items ≡ out.old.items ++ name_text names.now node) }
{
    match *names {
        Names::Family(family) => put_name(out, family, node),
        Names::Labelled(labels) => put_label(out, name_at(labels, node), node),
    }
}

/// Appends the heading above a node, where it has one.
#[tactic(auto, unfolding(crate::specs::Comments::heading_text))]
pub(crate) fn put_above(out: &mut Vec<u8>, names: &Names<'_>, node: usize) -> Result<(), Memory>
    ensures { OnOk result (out.new.items ≡ out.old.items ++ above_text names.now node) }
{
    match *names {
        Names::Family(_) => Ok(()),
        Names::Labelled(labels) => put_heading(out, above_at(labels, node)),
    }
}

// Whether some port's name begins so.
fn begins_port(ports: &[Port], front: &[u8]) -> bool
    ensures { result ≡ begins_port ports.now front.now }
{
    match ports.split_first() {
        Some((port, rest)) => port.name.as_slice().starts_with(front) || begins_port(rest, front),
        None => false,
    }
}

// The first family whose names are no ports' names.
#[tactic(auto, using(crate::proofs::Loops::loop_steps), unfolding(crate::specs::Labelled::family_of))]
fn free_family(scratch: &mut Vec<u8>, ports: &[Port]) -> Result<usize, Memory>
    ensures { IfOk result (λ family. family ≡ family_of ports.now) }
{
    for family in 0..ports.len() {
        scratch.clear();
        put_family(scratch, family)?;
        if !begins_port(ports, scratch) {
            return Ok(family);
        }
    }
    Ok(ports.len())
}

/// The names of a netlist's nets; the bytes of `scratch` are lost.
pub(crate) fn names_of<'a>(
    scratch: &mut Vec<u8>,
    labels: &'a Labels,
    net: &Netlist,
) -> Result<Names<'a>, Memory>
    ensures { IfOk result (λ names. scheme_in names ≡ scheme_of labels.now net.now) }
{
    if !begins_port(net.ports(), b"p") && net.nodes().len() <= 65_536 {
        return Ok(Names::Labelled(labels));
    }
    Ok(Names::Family(free_family(scratch, net.ports())?))
}
