//! Small pieces of a module's text.

ghost use Rattle.std.specs.Prelude.{◌≡◌, ◌++◌, OnOk, decimal};
ghost use Rattle.gl_verilog_writer.specs.Pieces.{family_text, net_name};
ghost use Rattle.gl_verilog_writer.specs.Printed.{range_text, expr_text};
ghost use Rattle.gl_verilog_writer.specs.Design.{range_of, literal};

use gl_bits::Memory;
use itoa::Buffer;

/// Appends bytes.
pub(crate) fn put(out: &mut Vec<u8>, piece: &[u8]) -> Result<(), Memory>
    ensures { OnOk result (out.new.items ≡ out.old.items ++ piece.now) }
{
    out.extend_from_slice(piece)?;
    Ok(())
}

/// Appends a number in decimal.
pub(crate) fn put_number(out: &mut Vec<u8>, n: u128) -> Result<(), Memory>
    ensures { OnOk result (out.new.items ≡ out.old.items ++ decimal n) }
{
    let mut buffer = Buffer::new();
    put(out, buffer.format(n).as_bytes())
}

/// Appends what the names of a family begin with, `nFAMILY_`.
#[tactic(auto, unfolding(crate::specs::Pieces::family_text))]
pub(crate) fn put_family(out: &mut Vec<u8>, family: usize) -> Result<(), Memory>
    ensures { OnOk result (out.new.items ≡ out.old.items ++ family_text family) }
{
    put(out, b"n")?;
    put_number(out, family as u128)?;
    put(out, b"_")
}

/// Appends the name of a node's net, `nFAMILY_NODE`. The family keeps it apart from the ports'
/// names.
#[tactic(auto, unfolding(crate::specs::Pieces::net_name))]
pub(crate) fn put_name(out: &mut Vec<u8>, family: usize, node: usize) -> Result<(), Memory>
    ensures { OnOk result (out.new.items ≡ out.old.items ++ net_name family node) }
{
    put_family(out, family)?;
    put_number(out, node as u128)
}

/// Appends the range of a vector and a space; one bit has none.
pub(crate) fn put_range(out: &mut Vec<u8>, width: u16) -> Result<(), Memory>
    ensures { OnOk result (out.new.items ≡ out.old.items ++ range_text (range_of width)) }
{
    if width == 1 {
        return Ok(());
    }
    put(out, b"[")?;
    put_number(out, u128::from(width.saturating_sub(1)))?;
    put(out, b":0] ")
}

/// Appends a literal of this width, in base d.
pub(crate) fn put_literal(out: &mut Vec<u8>, value: u128, width: u8) -> Result<(), Memory>
    ensures { OnOk result (out.new.items ≡ out.old.items ++ expr_text (literal value width)) }
{
    put_number(out, u128::from(width))?;
    put(out, b"'d")?;
    put_number(out, value)
}
