//! Notes for readers about the parts of fronts.

ghost use Rattle.std.specs.Prelude.{◌≡◌};

use crate::parts::{Flush, Opening, Tail, Trigger};
use crate::turns::OpenCopies;
use gl_bits::Memory;
use gl_net::{Bit, Bus, NetBuilder};
use gl_wire::{note_bit, note_bits, note_bus};

/// Tells when a copy opens.
pub(crate) fn note_opening(net: &mut NetBuilder, opening: Opening) -> Result<(), Memory>
    ensures { net.new ≡ net.old }
{
    note_bus(net, b"until", opening.until)?;
    note_bit(net, b"opens", opening.opens)
}

/// Tells the flush after an end.
pub(crate) fn note_flush(net: &mut NetBuilder, flush: Flush) -> Result<(), Memory>
    ensures { net.new ≡ net.old }
{
    note_bit(net, b"flush", flush.flush)?;
    note_bit(net, b"idle", flush.idle)?;
    note_bus(net, b"wait", flush.wait)?;
    note_bit(net, b"due", flush.due)
}

/// Tells when the oldest copy ends.
pub(crate) fn note_trigger(net: &mut NetBuilder, trigger: Trigger) -> Result<(), Memory>
    ensures { net.new ≡ net.old }
{
    note_bus(net, b"left", trigger.left)?;
    note_bit(net, b"last", trigger.last)?;
    note_bit(net, b"trigger", trigger.trigger)
}

/// Tells whether a copy that ends takes the row that came last.
pub(crate) fn note_tail(net: &mut NetBuilder, tail: Tail) -> Result<(), Memory>
    ensures { net.new ≡ net.old }
{
    note_bit(net, b"held", tail.held)?;
    note_bit(net, b"tail", tail.tail)
}

/// Tells which copies are open, and which opens and ends next.
pub(crate) fn note_open(
    net: &mut NetBuilder,
    opened: Bus,
    copies: &OpenCopies,
) -> Result<(), Memory>
    ensures { net.new ≡ net.old }
{
    note_bus(net, b"opened", opened)?;
    note_bits(net, b"open", copies.flags.as_slice())?;
    note_bus(net, b"oldest", copies.oldest)?;
    note_bits(net, b"begun", copies.mids.as_slice())?;
    note_bits(net, b"ends", copies.ends.as_slice())
}

/// Tells what ticks and tuples do to windows of time.
pub(crate) fn note_ticks(
    net: &mut NetBuilder,
    reopens: Bit,
    brings: Bit,
    busy: Bit,
    tail: Bit,
) -> Result<(), Memory>
    ensures { net.new ≡ net.old }
{
    note_bit(net, b"reopens", reopens)?;
    note_bit(net, b"brings", brings)?;
    note_bit(net, b"busy", busy)?;
    note_bit(net, b"tail", tail)
}
