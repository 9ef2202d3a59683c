//! The two ends of a connection.
ghost use Rattle.std.specs.Prelude.{◌<◌, ◌≤◌};
ghost use Rattle.xns_spp.specs.Ends.{most_pending};

use crate::sent::Sent;
use crate::text::{first_word, put, read_bytes};
use crate::{reading, small, writing};
use std::alloc::{AllocError, Global};
use std::fmt::Write;
use test_setting::{CALLER, CALLER_ID, SERVER, SERVER_ID, caller, server};
use xns_spp::{Bytes, Endpoint, Item, Received};

/// How many items may be unacknowledged at an end.
const BACKLOG: usize = 16;

/// The identifier of a second server.
const OTHER_ID: u16 = 0x9abc;

/// The place of the control byte in a packet.
const CONTROL: usize = 30;

/// A caller and a server, and the packets that they sent last.
#[derive(Drop)]
pub struct Ends {
    caller: Endpoint,
    server: Endpoint,
    sent: Sent,
}

impl Ends {
    /// New ends with this window, of which the server has this identifier.
    pub fn new(alloc: Global, window: usize, id: u16) -> Result<Ends, AllocError>
        requires window { (1 ≤ window) × (window ≤ most_pending) }
        requires id { 0 < id }
    {
        let caller = caller(alloc, window, BACKLOG)?;
        let server = Endpoint::responder(alloc, SERVER, id, CALLER, CALLER_ID, window, BACKLOG)?;
        Ok(Ends {
            caller,
            server,
            sent: Sent::new(alloc),
        })
    }

    /// The ends that words say: a window, and perhaps another identifier of the server.
    fn read(alloc: Global, words: &str) -> Result<Ends, AllocError> {
        match words {
            "1" => Ends::new(alloc, 1, SERVER_ID),
            "2" => Ends::new(alloc, 2, SERVER_ID),
            "4 another" => Ends::new(alloc, 4, OTHER_ID),
            _ => Ends::new(alloc, 4, SERVER_ID),
        }
    }

    /// Takes the steps, and leaves the result of the last one.
    pub fn take_steps(
        &mut self,
        alloc: Global,
        steps: &str,
        text: &mut String,
    ) -> Result<(), AllocError> {
        for step in steps.split("; ") {
            text.clear();
            self.take_step(alloc, step, text)?;
        }
        Ok(())
    }

    fn take_step(
        &mut self,
        alloc: Global,
        step: &str,
        text: &mut String,
    ) -> Result<(), AllocError> {
        let (word, words) = first_word(step);
        match word {
            "caller" => act(alloc, &mut self.caller, &mut self.sent, words, text),
            "server" => act(alloc, &mut self.server, &mut self.sent, words, text),
            "ends" => self.replace(alloc, words),
            _ => self.tell(alloc, word, words, text),
        }
    }

    /// Takes a step that changes neither end.
    fn tell(
        &self,
        alloc: Global,
        word: &str,
        words: &str,
        text: &mut String,
    ) -> Result<(), AllocError> {
        match word {
            "write" => writing::tell(alloc, words, text),
            "at" => small::tell(alloc, words, text),
            "controls" => controls(alloc, words, text),
            "nearest" => reading::near(words, text),
            _ => self.sent.tell(alloc, word, words, text),
        }
    }

    /// Goes on with new ends.
    fn replace(&mut self, alloc: Global, words: &str) -> Result<(), AllocError> {
        *self = Ends::read(alloc, words)?;
        Ok(())
    }
}

/// Has an end do something, and tells what came of it.
fn act(
    alloc: Global,
    end: &mut Endpoint,
    sent: &mut Sent,
    step: &str,
    text: &mut String,
) -> Result<(), AllocError> {
    let (word, words) = first_word(step);
    match word {
        "send" => send(alloc, end, words, text),
        "take" => take(end, text),
        "flush" => flush(alloc, end, sent, text),
        "tick" => tick(alloc, end, sent, text),
        "receive" => receive(alloc, end, sent, words, text),
        _ => ask(alloc, end, sent, step, text),
    }
}

/// What an end is asked.
fn ask(
    alloc: Global,
    end: &Endpoint,
    sent: &Sent,
    step: &str,
    text: &mut String,
) -> Result<(), AllocError> {
    let (word, words) = first_word(step);
    match word {
        "full" => put(text, &end.is_full()),
        "open" => put(text, &end.is_open()),
        "waiting" => put(text, &end.waiting()),
        _ => put_owner(alloc, end, sent, words, text),
    }
}

/// Whether the bytes that words stand for are a packet of the connection.
fn put_owner(
    alloc: Global,
    end: &Endpoint,
    sent: &Sent,
    words: &str,
    text: &mut String,
) -> Result<(), AllocError> {
    let bytes = sent.bytes(alloc, words)?;
    put(text, &end.is_ours(&bytes))
}

/// Sends the item that words say.
fn send(
    alloc: Global,
    end: &mut Endpoint,
    words: &str,
    text: &mut String,
) -> Result<(), AllocError> {
    put(text, &end.send(read_item(alloc, words)?))
}

/// Hands up the item that came next.
fn take(end: &mut Endpoint, text: &mut String) -> Result<(), AllocError> {
    put(text, &end.take())
}

/// Has an end send what it has, and tells how many packets that takes.
fn flush(
    alloc: Global,
    end: &mut Endpoint,
    sent: &mut Sent,
    text: &mut String,
) -> Result<(), AllocError> {
    let packets = end.flush(alloc)?;
    put(text, &sent.keep_packets(packets))
}

/// Has an end send again what may be lost, and tells how many packets that takes.
fn tick(
    alloc: Global,
    end: &mut Endpoint,
    sent: &mut Sent,
    text: &mut String,
) -> Result<(), AllocError> {
    let packets = end.tick(alloc)?;
    put(text, &sent.keep_packets(packets))
}

/// The item that words say, which ends a message.
fn read_item(alloc: Global, words: &str) -> Result<Item, AllocError> {
    let (attention, words) = match words.strip_prefix("attention ") {
        Some(words) => (true, words),
        None => (false, words),
    };
    let body = Bytes::new(read_bytes(alloc, words)?);
    Ok(Item {
        stream: 0,
        attention,
        last: true,
        body,
    })
}

/// Gives an end the packet that words stand for.
fn receive(
    alloc: Global,
    end: &mut Endpoint,
    sent: &mut Sent,
    words: &str,
    text: &mut String,
) -> Result<(), AllocError> {
    let packet = sent.bytes(alloc, words)?;
    let received = end.receive(alloc, &packet)?;
    put_outcome(text, &received)?;
    sent.keep_reply(received.reply);
    Ok(())
}

/// What an end made of a packet.
fn put_outcome(text: &mut String, received: &Received) -> Result<(), AllocError> {
    let answered = match received.reply {
        Some(_) => "answered",
        None => "not answered",
    };
    write!(
        text,
        "{} taken, {answered}, dropped {:?}",
        received.took, received.dropped
    )
}

/// What a new server makes of a packet.
fn received(alloc: Global, packet: &[u8]) -> Result<Received, AllocError> {
    let mut server = server(alloc, 4, BACKLOG)?;
    server.receive(alloc, packet)
}

/// What a new server makes of the packet with this control.
fn put_control(
    alloc: Global,
    packet: &mut [u8],
    control: u8,
    text: &mut String,
) -> Result<(), AllocError> {
    if let Some(place) = packet.get_mut(CONTROL) {
        *place = control;
    }
    put_outcome(text, &received(alloc, packet)?)
}

/// Whether a new server makes this of the packet with this control.
fn comes_to(
    alloc: Global,
    packet: &mut [u8],
    control: u8,
    outcome: &str,
) -> Result<bool, AllocError> {
    let mut text = String::new(alloc);
    put_control(alloc, packet, control, &mut text)?;
    Ok(text.as_str() == outcome)
}

/// The last control from the first on with which the packet comes to the same.
fn last_alike(
    alloc: Global,
    packet: &mut [u8],
    first: u8,
    outcome: &str,
) -> Result<u8, AllocError> {
    let mut last = first;
    for control in first..=255 {
        if !comes_to(alloc, packet, control, outcome)? {
            break;
        }
        last = control;
    }
    Ok(last)
}

/// What new servers make of a packet with each control from its own on, while they come to the same.
fn controls(alloc: Global, words: &str, text: &mut String) -> Result<(), AllocError> {
    let mut packet = read_bytes(alloc, words)?;
    put_controls(alloc, &mut packet, text)
}

fn put_controls(alloc: Global, packet: &mut [u8], text: &mut String) -> Result<(), AllocError> {
    let first = packet.get(CONTROL).copied().unwrap_or(0);
    let mut outcome = String::new(alloc);
    put_control(alloc, packet, first, &mut outcome)?;
    put_alike(alloc, packet, first, outcome.as_str(), text)
}

/// The controls from this one on with which the packet comes to the same, and to what.
fn put_alike(
    alloc: Global,
    packet: &mut [u8],
    first: u8,
    outcome: &str,
    text: &mut String,
) -> Result<(), AllocError> {
    let last = last_alike(alloc, packet, first, outcome)?;
    write!(text, "{first} to {last}: {outcome}")
}
