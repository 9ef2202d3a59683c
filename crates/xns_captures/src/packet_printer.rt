//! What prints the packets of a capture.
use crate::stamp::Stamp;
use std::alloc::AllocError;
use xns_lines::Page;

/// Says what each packet of a capture says, one after the other, as `print_packets` hands them on, and then what is to be
/// said at the end of the file, part by part: as `xns_lines::LinePrinter` does of lines.
///
/// An `impl` names what holds of it once it has printed some packets and so many parts of the end, what their text is,
/// whether one of them is refused, and when memory may be refused for a packet.
pub trait PacketPrinter {
    ghost use Rattle.std.specs.Prelude.{◌≡◌, ◌≤◌, ◌<◌, length, ℕ, Bool, List, [], false, OnErr, OnOk};
    ghost use Rattle.xns_lines.specs.Printing.{IsBegun, IsEndPrinted, IsPrinted};
    ghost use Rattle.xns_captures.specs.Captures.{NumberedPacket};
    ghost use Rattle.xns_captures.specs.Reading.{most_frames};
    ghost use Rattle.xns_lines.specs.declared.page.Page.{Page};

    // The printer has printed these packets, and so many parts of the end of the file behind them.
    ghost prints: { Self → List NumberedPacket → ℕ → Type 0 };

    // The text of packets, and of so many parts of the end behind them.
    ghost packets_text: { List NumberedPacket → ℕ → List ℕ };

    // Whether one of the packets, or one of so many parts of the end behind them, is refused.
    ghost refuses: { List NumberedPacket → ℕ → Bool };

    // How many parts the end of the file has behind these packets.
    ghost packet_ends: { List NumberedPacket → ℕ };

    // Memory may be refused for this packet, whose text goes to that page.
    ghost packet_wants: { Self → Page → NumberedPacket → Type 0 };

    /// Appends what the packet in the frame of that stamp says to the page's latest line, and sets `is_refused` where it is
    /// refused.
    ///
    /// The only error is want of memory. What there is of the packet is then dropped, and no more packets come.
    fn print_packet(
        &mut self,
        page: &mut Page,
        stamp: Stamp,
        packet: &[u8],
    ) -> Result<(), AllocError>
        requires few { stamp.number ≤ most_frames }
        ensures front { page.new.text.front ≡ page.old.text.front }
        ensures ok { OnOk result ((packets : List NumberedPacket) → length packets < stamp.number → IsBegun (λ xs. refuses xs 0) page.old packets
            → prints self.old packets 0
            → IsPrinted (λ xs. prints self.new xs 0) (λ xs. packets_text xs 0) (λ xs. refuses xs 0) page.new packets (stamp, packet.now)) }
        ensures memory { OnErr result (packet_wants self.old page.old (stamp, packet.now)) };

    /// How many parts the end of the file has, behind the packets that were printed.
    fn count_packet_ends(&self) -> usize
        ensures { (packets : List NumberedPacket) → prints self.now packets 0 → result ≡ packet_ends packets };

    /// Appends what a part of the end of the file says to the page's latest line, and sets `is_refused` where it is refused.
    /// Parts count from 0, and come in order.
    ///
    /// The only error is want of memory. What there is of the part is then dropped, and no more parts come.
    fn print_packet_end(&mut self, page: &mut Page, part: usize) -> Result<(), AllocError>
        ensures front { page.new.text.front ≡ page.old.text.front }
        ensures ok { OnOk result ((packets : List NumberedPacket) → part < packet_ends packets
            → IsBegun (λ xs. refuses xs part) page.old packets → prints self.old packets part
            → IsEndPrinted (prints self.new packets) (packets_text packets) (refuses packets) page.new part) };

    /// A law, as a function that does nothing: no packets have no text, and none of them is refused.
    fn nothing_is_said()
        ensures nothing { packets_text [] 0 ≡ [] }
        ensures unrefused { refuses [] 0 ≡ false };
}
