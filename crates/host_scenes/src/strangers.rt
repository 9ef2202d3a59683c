use crate::player::{SERVER, address_of};
use crate::station::Station;
use std::alloc::{AllocError, Global};
use xns_idp::Address;
use xns_spp::Endpoint;

/// The `via` of the packets of strangers: nobody is there.
const NOWHERE: u64 = 1_000_000;

/// The packet with which a stranger opens a connection comes to the server.
pub fn come(
    alloc: Global,
    now: u64,
    number: usize,
    server: &mut Station,
) -> Result<(), AllocError> {
    let own = Address {
        network: 1,
        host: address_of(2, number),
        socket: 3_000,
    };
    let mut stranger = Endpoint::initiator(alloc, own, 1, SERVER, 1, 1)?;
    for packet in &stranger.tick(alloc)? {
        server.receive(now, NOWHERE, packet.as_slice());
    }
    Ok(())
}
