//! Bytes as lines of hex, which `xns dump` reads.

use std::io;

/// Prints the bytes as one line.
pub fn print_hex(rt: &HostRuntime, bytes: &[u8]) -> io::Result<()> {
    for byte in bytes {
        print!(rt; "{byte:02x}")?;
    }
    println!(rt; "")
}
