//! Packets of the Internet Datagram Protocol, and of Echo, Error and Packet Exchange.

use std::alloc::{AllocError, Global};
use test_setting::{CALLER, ECHO_REQUEST, ECHO_SERVER};
use xns_idp::{Packet, packet_type};
use xns_small::{Requester, answer_echo, complain};

/// The packet whose bytes `ECHO_REQUEST` are.
pub const REQUEST: Packet<'static> = Packet {
    summed: true,
    control: 0,
    kind: packet_type::ECHO,
    target: ECHO_SERVER,
    source: CALLER,
    body: &[0, 1, 0x48, 0x69],
};

/// Whether there is a result, and it has so many bytes.
fn has_size(answer: &Option<Vec<u8>>, size: usize) -> bool {
    match answer {
        Some(bytes) => bytes.len() == size,
        None => false,
    }
}

pub fn answers(alloc: Global) -> Result<bool, AllocError> {
    Ok(has_size(&answer_echo(alloc, ECHO_SERVER, &REQUEST)?, 34))
}

pub fn complains(alloc: Global) -> Result<bool, AllocError> {
    Ok(has_size(&complain(alloc, ECHO_SERVER, 1, 0, &ECHO_REQUEST)?, 68))
}

pub fn requests(alloc: Global) -> Result<bool, AllocError> {
    let requester = Requester::request(alloc, CALLER, ECHO_SERVER, 7, 3, &[1, 2])?;
    Ok(requester.try_again().len() == 38)
}
