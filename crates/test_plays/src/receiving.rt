//! What an end makes of a packet, field by field.
use crate::draft::{
    ACKNOWLEDGE, ALLOCATION, CONTROL, SEQUENCE, SOURCE, STREAM, TARGET, has_header, packet_of,
    put_byte, put_number, read_body, read_hex,
};
use crate::lines::Lines;
use crate::telling::{add_packet, dropped_text};
use item_world::{Setup, Side};
use std::alloc::{AllocError, Global};
use test_setting::item;
use xns_spp::{Bytes, Endpoint, Received};

/// The numbers that each field is given.
const NUMBERS: [u16; 5] = [0, 1, 32_767, 32_768, 65_535];

/// The fields other than the control byte.
const FIELDS: [(usize, &str); 6] = [
    (STREAM, "stream"),
    (SOURCE, "source"),
    (TARGET, "target"),
    (SEQUENCE, "sequence"),
    (ACKNOWLEDGE, "acknowledge"),
    (ALLOCATION, "allocation"),
];

/// Changes the field in this place of a header. A field of one byte gets the number modulo 256.
fn change(header: &mut [u8], place: usize, number: u16) {
    if place < SOURCE {
        let [_, low] = number.to_be_bytes();
        put_byte(header, place, low);
    } else {
        put_number(header, place, number);
    }
}

/// An end that is brought to a state again and again, and the body of the packet that it then receives.
#[derive(Drop)]
struct Trial<'a> {
    setup: Setup,
    side: Side,
    steps: &'a str,
    body: Vec<u8>,
}

impl Trial<'_> {
    /// The packet with this number in the field in this place.
    fn packet(&self, alloc: Global, place: usize, number: u16) -> Result<Bytes, AllocError> {
        let mut body = self.body.as_slice().to_vec(alloc)?;
        change(&mut body, place, number);
        packet_of(alloc, &body)
    }

    /// Ends a line with what a new end makes of the packet with this number in the field in this place, and what it would then send again.
    fn put_answer(
        &self,
        alloc: Global,
        lines: &mut Lines,
        place: usize,
        number: u16,
    ) -> Result<(), AllocError> {
        if !self.setup.is_good() {
            lines.put("no such end");
            return Ok(());
        }
        let mut end = self.setup.end(alloc, self.side)?;
        self.put_answer_of(alloc, lines, &mut end, place, number)
    }

    /// Ends a line with what this new end makes of the packet.
    fn put_answer_of(
        &self,
        alloc: Global,
        lines: &mut Lines,
        end: &mut Endpoint,
        place: usize,
        number: u16,
    ) -> Result<(), AllocError> {
        take_steps(alloc, end, self.steps)?;
        add_received(alloc, lines, end, self.packet(alloc, place, number)?)?;
        add_sent(lines, end.tick(alloc)?);
        lines.end();
        Ok(())
    }

    /// What an end makes of the packet with each control byte, of which the upper half counts.
    fn put_controls(&self, alloc: Global, lines: &mut Lines) -> Result<(), AllocError> {
        for control in 0..=255_u8 {
            add_control(lines, control);
            self.put_answer(alloc, lines, CONTROL, u16::from(control))?;
        }
        Ok(())
    }

    /// What an end makes of the packet with each number in the field of this name.
    fn put_field(
        &self,
        alloc: Global,
        lines: &mut Lines,
        place: usize,
        name: &str,
    ) -> Result<(), AllocError> {
        for number in &NUMBERS {
            lines.add(name);
            lines.add_number(" ", usize::from(*number));
            lines.add(": ");
            self.put_answer(alloc, lines, place, *number)?;
        }
        Ok(())
    }

    /// What an end makes of the packet with each control byte, and with each other field changed.
    fn put_all(&self, alloc: Global, lines: &mut Lines) -> Result<(), AllocError> {
        if !has_header(&self.body) {
            lines.put("no such packet");
            return Ok(());
        }
        self.put_controls(alloc, lines)?;
        for (place, name) in &FIELDS {
            self.put_field(alloc, lines, *place, name)?;
        }
        Ok(())
    }
}

/// Adds the control bytes with this upper half.
fn add_control(lines: &mut Lines, control: u8) {
    lines.add("control ");
    lines.add_hex(&[control & 0xf0]);
    lines.add(" to ");
    lines.add_hex(&[control | 15]);
    lines.add(": ");
}

/// Accepts an item and sends what may go out.
fn send(alloc: Global, end: &mut Endpoint, digits: &str) -> Result<(), AllocError> {
    let item = item(alloc, &read_hex(alloc, digits)?)?;
    let _ = end.send(item);
    forget(end.flush(alloc))
}

/// Lets packets go that were sent.
fn forget(packets: Result<Vec<Bytes>, AllocError>) -> Result<(), AllocError> {
    packets?;
    Ok(())
}

/// Receives the packet with the body that words spell.
fn get(alloc: Global, end: &mut Endpoint, words: &str) -> Result<(), AllocError> {
    let body = read_body(alloc, words)?;
    if has_header(&body) {
        get_body(alloc, end, &body)?;
    }
    Ok(())
}

fn get_body(alloc: Global, end: &mut Endpoint, body: &[u8]) -> Result<(), AllocError> {
    let packet = packet_of(alloc, body)?;
    end.receive(alloc, packet.as_slice())?;
    Ok(())
}

fn take_step(alloc: Global, end: &mut Endpoint, step: &str) -> Result<(), AllocError> {
    match step.split_once(" ").unwrap_or((step, "")) {
        ("send", digits) => send(alloc, end, digits),
        ("get", words) => get(alloc, end, words),
        ("take", _) => {
            let _ = end.take();
            Ok(())
        }
        ("tick", _) => forget(end.tick(alloc)),
        _ => Ok(()),
    }
}

fn take_steps(alloc: Global, end: &mut Endpoint, steps: &str) -> Result<(), AllocError> {
    for step in steps.split(", ") {
        take_step(alloc, end, step)?;
    }
    Ok(())
}

/// Adds what the end makes of a packet: how many items were taken, why the packet's was dropped, how many wait, and the reply.
fn add_received(
    alloc: Global,
    lines: &mut Lines,
    end: &mut Endpoint,
    packet: Bytes,
) -> Result<(), AllocError> {
    let received = end.receive(alloc, packet.as_slice())?;
    add_outcome(lines, &received, end.waiting());
    Ok(())
}

fn add_outcome(lines: &mut Lines, received: &Received, waiting: usize) {
    lines.add_number("took ", received.took);
    lines.add(" dropped ");
    lines.add(dropped_text(&received.dropped));
    lines.add_number(" waiting ", waiting);
    if let Some(reply) = &received.reply {
        add_named(lines, "; reply ", reply);
    }
}

/// Adds what the end then sends as time passes.
fn add_sent(lines: &mut Lines, packets: Vec<Bytes>) {
    for packet in packets.as_slice() {
        add_named(lines, "; then ", packet);
    }
}

fn add_named(lines: &mut Lines, what: &str, packet: &Bytes) {
    lines.add(what);
    add_packet(lines, Side::B, packet.as_slice());
}

/// The ends with one in the other's place: an initiator then stands at the responder's address.
pub fn turned(setup: Setup) -> Setup {
    Setup {
        a: setup.b,
        b: setup.a,
        a_id: setup.b_id,
        b_id: setup.a_id,
        ..setup
    }
}

/// Tells what an end at that side that these steps bring to a state makes of the packet with each control byte, and with each other field
/// changed.
pub fn play(
    alloc: Global,
    lines: &mut Lines,
    setup: Setup,
    side: Side,
    steps: &str,
) -> Result<(), AllocError> {
    let (packet, steps) = steps.split_once(", ").unwrap_or((steps, ""));
    let trial = Trial {
        setup,
        side,
        steps,
        body: read_body(alloc, packet)?,
    };
    trial.put_all(alloc, lines)
}
