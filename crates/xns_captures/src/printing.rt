//! Prints what the packets of a capture say.
ghost use Rattle.std.specs.Prelude.{[], IfErr, IfSome, OnOk};
ghost use Rattle.xns_lines.specs.Printouts.{Prints};
ghost use Rattle.xns_captures.specs.Printing.{TakesAll, TakesSome, packets_printout};

use crate::by_packet::ByPacket;
use crate::file_fault::{FileFault, FileResult};
use crate::packet_printer::PacketPrinter;
use crate::taking::take_packets;
use std::alloc::Global;
use std::io::{Read, Write};
use xns_lines::{Pages, ThingPrinter};

/// Reads a capture to its end, and prints what its packets say, in order, and what is said at its end. The result is
/// whether a packet, or something at the end, was refused.
///
/// # Errors
/// Those of `take_packets`; `Write` where a write fails or takes no byte; `NoMemory` where a growth is refused. The text of
/// all packets before the fault is written first, but for a write that fails. Nothing is said at the end after a fault of
/// the capture, of reading, or of memory at a packet.
pub fn print_packets<R: Read, W: Write, P: PacketPrinter + Drop>(
    alloc: Global,
    reader: &mut R,
    writer: &mut W,
    printer: P,
) -> FileResult
    requires { P.prints printer [] 0 }

    // Without a fault the text of the whole file is written, which holds no fault. After a fault the text of the packets before
    // it is written; one of the capture comes behind all its packets.
    ensures { Prints (packets_printout P.packets_text P.refuses P.packet_ends) result
        (R.remaining reader.old) (R.remaining reader.new) (W.contents writer.old) (W.contents writer.new) }
{
    P::nothing_is_said();
    let mut pages = Pages::new(alloc, ByPacket { printer });
    let taken = take_all(alloc, reader, &mut pages, writer);
    match pages.page.flush(writer) {
        Ok(()) => {}
        Err(fault) => return Err(FileFault::Run(fault)),
    }
    match taken {
        Ok(()) => Ok(pages.page.is_refused),
        Err(fault) => Err(fault),
    }
}

/// Prints the packets of the capture, and its end.
fn take_all<R: Read, W: Write, P: PacketPrinter>(
    alloc: Global,
    reader: &mut R,
    pages: &mut Pages<ByPacket<P>>,
    writer: &mut W,
) -> Result<(), FileFault>
    ensures ok { OnOk result (IfSome (R.remaining reader.old)
        (TakesAll ⟦<ByPacket<P> as ThingPrinter>⟧.output pages.old pages.new (W.contents writer.old) (W.contents writer.new))) }
    ensures err { IfErr result (λ fault. IfSome (R.remaining reader.old)
        (TakesSome ⟦<ByPacket<P> as ThingPrinter>⟧.output fault pages.old pages.new (W.contents writer.old) (W.contents writer.new))) }
{
    match take_packets(alloc, reader, pages, writer) {
        Ok(()) => {}
        Err(fault) => return Err(fault),
    }
    match pages.finish(writer) {
        Ok(()) => Ok(()),
        Err(fault) => Err(FileFault::Run(fault)),
    }
}
