//! What `dump` makes of the packets of a capture.
ghost use Rattle.std.specs.List.{list_any};
ghost use Rattle.xns_dump.specs.Dump.Capture.{is_packet_refused, items_among, packet_end_count, packets_text_with_end};
ghost use Rattle.xns_dump.specs.Flows.Numbers.{NumbersStandFor};

use crate::layers::packets::append_packet;
use crate::printer::DumpPrinter;
use std::alloc::AllocError;
use xns_captures::{PacketPrinter, Stamp};
use xns_lines::Page;

impl PacketPrinter for DumpPrinter {
    ghost prints = { λ printer packets part. NumbersStandFor printer.numbers.last (items_among packets) };

    ghost packets_text = { packets_text_with_end };

    ghost refuses = { λ packets part. list_any is_packet_refused packets };

    ghost packet_ends = { packet_end_count };

    // Each packet has text, which takes memory.
    ghost packet_wants = { λ printer page packet. Unit {0} };

    fn print_packet(
        &mut self,
        page: &mut Page,
        stamp: Stamp,
        packet: &[u8],
    ) -> Result<(), AllocError> {
        let said = append_packet(
            self.appender.alloc,
            &mut page.text,
            stamp.number,
            packet,
            &self.numbers,
        )?;
        self.numbers.note_item(said.item)?;
        page.is_refused |= said.is_refused;
        Ok(())
    }

    fn count_packet_ends(&self) -> usize {
        0
    }

    fn print_packet_end(&mut self, _page: &mut Page, _part: usize) -> Result<(), AllocError> {
        Ok(())
    }

    fn nothing_is_said() {}
}
