//! Packets in which a field or a byte is wrong.
use crate::draft::{SOURCE, number_at, packet_of, put_byte, put_number};
use crate::generator::Generator;
use std::alloc::{AllocError, Global};
use xns_spp::Bytes;

/// The packet with this body, of which one field or byte was changed at random.
pub fn damaged(
    alloc: Global,
    generator: &mut Generator,
    mut body: Vec<u8>,
) -> Result<Bytes, AllocError> {
    let kind = generator.below(11);
    change_body(generator, &mut body, kind)?;
    let mut bytes = packet_of(alloc, body.as_slice())?.into_vec();
    change_packet(generator, &mut bytes, kind);
    Ok(Bytes::new(bytes))
}

/// Changes a field, or the length. Fields of one byte are the first two, and those of two bytes follow them.
fn change_body(generator: &mut Generator, body: &mut Vec<u8>, kind: u16) -> Result<(), AllocError> {
    match kind {
        0..=1 => put_byte(body, usize::from(kind), generator.byte()),
        2..=6 => {
            let place = SOURCE + 2 * usize::from(kind - 2);
            let number = generator.number_near(number_at(body, place));
            put_number(body, place, number);
        }
        7 => body.truncate(body.len().saturating_sub(2)),
        8 => {
            let byte = generator.byte();
            body.extend_from_slice(&[byte, byte])?;
        }
        _ => {}
    }
    Ok(())
}

/// Cuts the packet short, or changes a byte.
fn change_packet(generator: &mut Generator, bytes: &mut Vec<u8>, kind: u16) {
    let place = match kind {
        9..=10 => usize::from(generator.below(64)),
        _ => return,
    };
    if kind == 9 {
        bytes.truncate(place);
    } else {
        put_byte(bytes, place, generator.byte());
    }
}
