use std::alloc::{AllocError, Global};

/// An end of a connection from which packets went out.
#[derive(Clone, Copy)]
struct End {
    /// The end's place and identifier.
    name: [u8; 14],
    /// The number of the next item that goes out for the first time.
    next: u16,
}

/// The ends from which packets went out, by which an item or an opening packet that goes out again is known.
#[derive(Drop)]
pub struct Sent {
    ends: Vec<End>,
    again: usize,
}

/// The 16 bits at this place; 0 where there are none.
fn word(bytes: &[u8], place: usize) -> u16 {
    match bytes.get(place..place.saturating_add(2)) {
        Some([high, low]) => u16::from_be_bytes([*high, *low]),
        _ => 0,
    }
}

/// Place and identifier of the end that sends a sequenced packet.
fn sender(bytes: &[u8]) -> [u8; 14] {
    let mut name = [0; 14];
    for (place, byte) in name.iter_mut().enumerate() {
        let at = if place < 12 { 18 } else { 20 };
        *byte = match bytes.get(place.saturating_add(at)) {
            Some(byte) => *byte,
            None => 0,
        };
    }
    name
}

impl Sent {
    pub fn new(alloc: Global) -> Sent {
        Sent {
            ends: Vec::new(alloc),
            again: 0,
        }
    }

    /// How many items and opening packets went out again.
    pub fn again(&self) -> usize {
        self.again
    }

    /// Notes a sequenced packet that goes out.
    pub fn note(&mut self, bytes: &[u8]) -> Result<(), AllocError> {
        let opens = word(bytes, 34) == 0;
        let is_system = bytes.get(30).is_some_and(|control| *control >= 128);
        if is_system && !opens {
            return Ok(());
        }
        let name = sender(bytes);
        let number = word(bytes, 36);
        let next = number.wrapping_add(if opens { 0 } else { 1 });
        match self.ends.iter().position(|end| end.name == name) {
            None => self.ends.push(End { name, next })?,
            Some(place) => self.note_at(place, next, opens),
        }
        Ok(())
    }

    /// Notes an item behind which this number is next, or an opening packet, of an end that has sent something.
    fn note_at(&mut self, place: usize, next: u16, opens: bool) {
        if let Some(end) = self.ends.get_mut(place) {
            let ahead = next.wrapping_sub(end.next);
            if opens || ahead == 0 || ahead >= 32_768 {
                self.again = self.again.saturating_add(1);
            } else {
                end.next = next;
            }
        }
    }
}
