use crate::address::XnsAddress;

/// An internet packet but for its data, of which it says where they stand.
#[repr(C)]
#[derive(Clone, Copy)]
pub struct XnsPacket {
    /// Whether it has a checksum: 0 for no.
    pub summed: u8,
    /// The transport control byte.
    pub control: u8,
    /// The packet type.
    pub kind: u8,
    /// The destination.
    pub target: XnsAddress,
    /// The source.
    pub source: XnsAddress,
    /// Where the data begin.
    pub body_at: usize,
    /// How many bytes of data there are.
    pub body_length: usize,
    /// How many bytes the packet takes, with the garbage byte.
    pub taken: usize,
}
