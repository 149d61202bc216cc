//! Comments, whatever bytes they are of.

ghost use Rattle.std.specs.Prelude.{◌≡◌, ◌++◌, OnOk, IfOk, take};
ghost use Rattle.gl_verilog_writer.specs.Comments.{shown_byte, break_text, ends_at, byte_text, room_behind, wrapped, comment_text, heading_text, title_text, last_text, header_text};
ghost use Rattle.gl_verilog_writer.specs.Labelled.{head_lines};

use crate::label::Labels;
use crate::pieces::put;
use gl_bits::Memory;

// A byte as it is shown.
fn shown_byte(byte: u8) -> u8
    ensures { result ≡ shown_byte byte }
{
    if 32 <= byte && byte <= 126 { byte } else { 63 }
}

// Whether a line ends in place of a byte: of a blank with at most 40 bytes of room.
fn ends_at(room: usize, byte: u8) -> bool
    ensures { result ≡ ends_at room byte }
{
    byte == b' ' && room <= 40
}

// The end of a line, and the begin of the next one.
fn put_break(out: &mut Vec<u8>, front: &[u8]) -> Result<(), Memory>
    ensures { OnOk result (out.new.items ≡ out.old.items ++ break_text front.now) }
{
    put(out, b"\n")?;
    put(out, front)?;
    put(out, b"//|     ")
}

// One byte of a comment, on the next line where this one has no room; gives the room behind it.
fn put_shown(out: &mut Vec<u8>, front: &[u8], room: usize, byte: u8) -> Result<usize, Memory>
    ensures text { OnOk result (out.new.items ≡ out.old.items ++ byte_text front.now room byte) }
    ensures room { IfOk result (λ left. left ≡ room_behind room byte) }
{
    if ends_at(room, byte) {
        put_break(out, front)?;
        return Ok(111);
    }
    if room == 0 {
        put_break(out, front)?;
        put(out, &[shown_byte(byte)])?;
        return Ok(110);
    }
    put(out, &[shown_byte(byte)])?;
    Ok(room - 1)
}

// The bytes of a comment and the end of its last line.
#[tactic(auto, using(crate::proofs::Loops::loop_steps))]
fn put_wrapped(out: &mut Vec<u8>, front: &[u8], text: &[u8]) -> Result<(), Memory>
    ensures { OnOk result (out.new.items ≡ out.old.items ++ wrapped front.now 115 text.now) }
{
    let mut room = 115;
    for &byte in text {
        room = put_shown(out, front, room, byte)?;
    }
    put(out, b"\n")
}

// A comment, whose further lines stand behind the same blanks.
fn put_comment(out: &mut Vec<u8>, front: &[u8], text: &[u8]) -> Result<(), Memory>
    ensures { OnOk result (out.new.items ≡ out.old.items ++ comment_text front.now text.now) }
{
    put(out, b"//| ")?;
    put_wrapped(out, front, text)
}

// The first `most` bytes of a text, or all where it has fewer.
fn front_of(text: &[u8], most: usize) -> &[u8]
    ensures { result.now ≡ take most text.now }
{
    &text[..most.min(text.len())]
}

/// Appends the heading of a section behind an empty line; nothing where it is empty.
#[tactic(auto, unfolding(crate::specs::Comments::heading_text))]
pub(crate) fn put_heading(out: &mut Vec<u8>, heading: &[u8]) -> Result<(), Memory>
    ensures { OnOk result (out.new.items ≡ out.old.items ++ heading_text heading.now) }
{
    if heading.is_empty() {
        return Ok(());
    }
    put(out, b"\n    ")?;
    put_comment(out, b"    ", front_of(heading, 200))
}

/// Appends the title of a part of a module.
#[tactic(auto, unfolding(crate::specs::Comments::title_text))]
pub(crate) fn put_title(out: &mut Vec<u8>, title: &[u8]) -> Result<(), Memory>
    ensures { OnOk result (out.new.items ≡ out.old.items ++ title_text title.now) }
{
    put(out, b"\n    //| ")?;
    put(out, title)?;
    put(out, b"\n")
}

// The last of a header that is too long.
fn put_cut(out: &mut Vec<u8>, room: usize, line: &[u8]) -> Result<(), Memory>
    ensures { OnOk result (out.new.items ≡ out.old.items ++ last_text room line.now) }
{
    put_comment(out, b"", front_of(line, room))?;
    put(
        out,
        b"//| The header ends here: it has at most 65,536 bytes.\n",
    )
}

/// Appends the lines in front of a module.
#[tactic(auto, using(crate::proofs::Loops::loop_steps), unfolding(crate::specs::Comments::header_text))]
pub(crate) fn put_header(out: &mut Vec<u8>, labels: &Labels) -> Result<(), Memory>
    ensures { OnOk result (out.new.items ≡ out.old.items ++ header_text (head_lines labels.now)) }
{
    let mut room = 65_536;
    for line in &labels.head {
        if room < 5 || line.len() > room - 5 {
            return put_cut(out, room, line);
        }
        put_comment(out, b"", line)?;
        room = room - 5 - line.len();
    }
    Ok(())
}
