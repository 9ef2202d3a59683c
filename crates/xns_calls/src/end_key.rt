//! One end of a flow as numbers.

/// One end of a flow as numbers, which are quicker to compare than bytes.
#[derive(Clone, Copy, PartialEq, Eq, PartialOrd, Ord)]
pub struct EndKey {
    /// The host number, and behind it the socket number.
    pub host_and_socket: u64,
    /// The connection identifier.
    pub identifier: u16,
}
