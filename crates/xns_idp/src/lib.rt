//! Packets of the Internet Datagram Protocol (XSIS 028112): the header, the cycle checksum, and the bytes of a packet.
//!
//! [`decode`] reads the packet at the front of some bytes and lends its body from them; [`encode`] appends the bytes of a
//! packet, and [`encode_parts`] of one whose data lie in two places. All numbers in packets are big-endian. Nothing here opens a socket or
//! keeps a state.
#![tactic(auto)]

mod address;
mod checksum;
mod decoding;
mod encoding;
mod encoding_into;
mod fault;
pub mod known;
pub mod laws;
mod packet;
pub mod packet_type;
pub mod places;

pub use address::Address;
pub use checksum::cycle_sum;
pub use decoding::decode;
pub use encoding::{encode, encode_parts};
pub use encoding_into::encode_into;
pub use fault::IdpFault;
pub use packet::{HEADER_BYTES, MOST_DATA, MOST_PACKET, Packet};
