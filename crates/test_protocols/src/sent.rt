//! The packets that ends sent last.
use crate::reading;
use crate::text::read_bytes;
use std::alloc::{AllocError, Global};
use xns_idp::decode;
use xns_spp::Bytes;

/// The packets that ends sent last.
#[derive(Drop)]
pub struct Sent {
    /// The packets of the last `flush` or `tick`.
    packets: Vec<Bytes>,
    /// The reply to the packet that was received last.
    reply: Option<Bytes>,
}

impl Sent {
    pub fn new(alloc: Global) -> Sent {
        Sent {
            packets: Vec::new(alloc),
            reply: None,
        }
    }

    /// Keeps the packets, and returns how many there are.
    pub fn keep_packets(&mut self, packets: Vec<Bytes>) -> usize {
        self.packets = packets;
        self.packets.len()
    }

    pub fn keep_reply(&mut self, reply: Option<Bytes>) {
        self.reply = reply;
    }

    /// The packet that words name, if they name one that there is.
    fn packet(&self, words: &str) -> Option<&Bytes> {
        if words == "reply" {
            return self.reply.as_ref();
        }
        let number = words.strip_prefix("packet ")?.parse::<u16>().ok()?;
        self.packets.get(usize::from(number))
    }

    /// The bytes that words stand for.
    pub fn bytes(&self, alloc: Global, words: &str) -> Result<Vec<u8>, AllocError> {
        if let Some(words) = words.strip_prefix("in ") {
            return carried(self.packet(words)).to_vec(alloc);
        }
        match self.packet(words) {
            Some(packet) => packet.as_slice().to_vec(alloc),
            None => read_bytes(alloc, words),
        }
    }

    /// What the function of this name makes of the bytes that words stand for.
    pub fn tell(
        &self,
        alloc: Global,
        name: &str,
        words: &str,
        text: &mut String,
    ) -> Result<(), AllocError> {
        reading::tell(alloc, name, &self.bytes(alloc, words)?, text)
    }
}

/// What an internet packet carries; nothing where there is no packet.
fn carried(packet: Option<&Bytes>) -> &[u8] {
    let Some(bytes) = packet else {
        return &[];
    };
    match decode(bytes.as_slice()) {
        Ok((packet, _)) => packet.body,
        Err(_) => &[],
    }
}
