use xns_spp::Bytes;

/// A packet that is to go out, and its route.
#[derive(Drop)]
pub struct Outgoing {
    /// The program's number for the route of the packet: that of its connection, or that of the packet that it answers.
    pub via: u64,
    pub packet: Bytes,
}
