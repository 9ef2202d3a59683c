//! What `calls` makes of the packets of a capture.
ghost use Rattle.std.specs.Prelude.{◌≡◌, [], false, true, IfOk};
ghost use Rattle.xns_calls.specs.Calls.{wants_bytes};
ghost use Rattle.xns_calls.specs.Capture.{IsPlaced, known};
ghost use Rattle.xns_calls.specs.Files.{HasPrintedPackets, packet_end_count, packets_refused, packets_text_with_end};

use crate::described::Described;
use crate::origin::Origin;
use crate::packet_lines::take_packet_in;
use crate::printer::CallsPrinter;
use crate::time_style::TimeStyle;
use courier_programs::Program;
use std::alloc::{AllocError, Global};
use std::marker::PhantomData;
use xns_captures::{PacketPrinter, Stamp};
use xns_lines::Page;

/// Says what was called in a capture and what came back, with times of one style, and with calls named by the programs of its
/// type.
#[derive(Drop)]
pub(crate) struct CapturePrinter<'a, S, D> {
    /// What was said.
    printer: CallsPrinter<'a>,
    /// Which times are printed.
    style: S,
    /// Which programs name calls.
    described: PhantomData<D>,
}

impl<'a, S: TimeStyle, D: Described> CapturePrinter<'a, S, D> {
    /// A printer that has printed nothing. The only error is want of memory.
    pub(crate) fn new(
        alloc: Global,
        programs: Option<&'a [Program]>,
        style: S,
    ) -> Result<CapturePrinter<'a, S, D>, AllocError>
        requires { programs ≡ D.programs }
        ensures { IfOk result (λ printer. HasPrintedPackets D.programs S.style printer.printer [] 0) }
    {
        let printer = CallsPrinter::new(alloc, programs)?;
        Ok(CapturePrinter {
            printer,
            style,
            described: PhantomData,
        })
    }
}

impl<S: TimeStyle, D: Described> PacketPrinter for CapturePrinter<'_, S, D> {
    ghost prints = { λ printer packets part. HasPrintedPackets D.programs S.style printer.printer packets part };

    ghost packets_text = { packets_text_with_end D.programs S.style };

    ghost refuses = { packets_refused D.programs S.style };

    ghost packet_ends = { packet_end_count D.programs S.style };

    ghost packet_wants = { λ printer page packet. IsPlaced printer.printer.capture
        → wants_bytes packet.1 (known printer.printer.capture.connections.items printer.printer.capture.count page) ≡ true };

    fn print_packet(
        &mut self,
        page: &mut Page,
        stamp: Stamp,
        packet: &[u8],
    ) -> Result<(), AllocError> {
        let origin = Origin::of_frame(self.printer.programs, self.style.times(), stamp);
        take_packet_in(&mut self.printer.capture, page, &origin, packet)?;
        self.printer.last = origin;
        Ok(())
    }

    fn count_packet_ends(&self) -> usize {
        self.printer.capture.connection_count()
    }

    fn print_packet_end(&mut self, page: &mut Page, part: usize) -> Result<(), AllocError> {
        let last = self.printer.last;
        self.printer.capture.take_end(page, &last, part)
    }

    fn nothing_is_said()
        ensures nothing { packets_text_with_end D.programs S.style [] 0 ≡ [] }
        ensures unrefused { packets_refused D.programs S.style [] 0 ≡ false }
    {}
}
