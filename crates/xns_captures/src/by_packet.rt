//! Prints packets on pages.
ghost use Rattle.std.specs.Prelude.{◌≡◌, ◌≤◌, ◌<◌, [], length};
ghost use Rattle.xns_captures.specs.Captures.{NumberedPacket};
ghost use Rattle.xns_captures.specs.Reading.{most_frames};
ghost use Rattle.xns_lines.specs.Printing.{HasFailed, Stands, WantsAtLine};
ghost use Rattle.xns_lines.specs.Report.{whole};

use crate::packet_printer::PacketPrinter;
use crate::stamp::Stamp;
use crate::taker::PacketTaker;
use std::alloc::AllocError;
use std::io::Write;
use xns_lines::{Page, Pages, RunFault, ThingPrinter};

/// Prints the packets of a capture, each of which stands in a frame with a stamp.
#[derive(Drop)]
pub(crate) struct ByPacket<P> {
    /// Prints each packet.
    pub(crate) printer: P,
}

impl<P: PacketPrinter> ThingPrinter for ByPacket<P> {
    type Place = Stamp;

    ghost Thing = { NumberedPacket };

    ghost output = { record { has_printed = λ by. P.prints by.printer; text_of = P.packets_text; has_refused = P.refuses; end_count = P.packet_ends } };

    ghost thing = { λ stamp packet. (stamp, packet) };

    ghost may_stand = { λ stamp. stamp.number ≤ most_frames };

    ghost comes_behind = { λ stamp packets. length packets < stamp.number };

    ghost wants = { λ by. P.packet_wants by.printer };

    fn print_thing(
        &mut self,
        page: &mut Page,
        stamp: Stamp,
        packet: &[u8],
    ) -> Result<(), AllocError> {
        self.printer.print_packet(page, stamp, packet)
    }

    fn count_parts(&self) -> usize {
        self.printer.count_packet_ends()
    }

    fn print_part(&mut self, page: &mut Page, part: usize) -> Result<(), AllocError> {
        self.printer.print_packet_end(page, part)
    }
}

impl<P: PacketPrinter> PacketTaker for Pages<ByPacket<P>> {
    ghost stands = { Stands ⟦<ByPacket<P> as ThingPrinter>⟧.output 0 };

    ghost fails = { HasFailed ⟦<ByPacket<P> as ThingPrinter>⟧.output 0 };

    ghost wants = { WantsAtLine ⟦<ByPacket<P> as ThingPrinter>⟧.wants };

    ghost rests = { λ pages. whole pages.page.text ≡ [] };

    fn take_packet<W: Write>(
        &mut self,
        stamp: Stamp,
        packet: &[u8],
        writer: &mut W,
    ) -> Result<(), RunFault> {
        self.take(stamp, packet, writer)
    }

    fn pause<W: Write>(&mut self, writer: &mut W) -> Result<(), RunFault> {
        self.flush(writer)
    }
}
