//! A number that stands for many bytes.
use xns_spp::Bytes;

/// Takes more bytes into a digest, which other bytes are unlikely to have: the bytes as digits of a number to base 31, of which the lowest
/// 32 bits are kept. The digest of no bytes is 0.
pub fn with_bytes(digest: u32, bytes: &[u8]) -> u32 {
    let mut digest = digest;
    for byte in bytes {
        digest = digest.wrapping_mul(31).wrapping_add(u32::from(*byte));
    }
    digest
}

/// The digest of the bytes of all these packets.
pub fn digest_of(packets: &[Bytes]) -> u32 {
    let mut digest = 0;
    for packet in packets {
        digest = with_bytes(digest, packet.as_slice());
    }
    digest
}
