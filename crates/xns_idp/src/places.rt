//! Numbers and addresses at a place in bytes, the first byte being the highest.

ghost use Rattle.std.specs.Prelude.{◌≡◌, ◌+◌, ◌≤◌, length, slice_range};
ghost use Rattle.xns_idp.specs.Reading.{word_at, long_at, address_at};

use crate::address::Address;

/// The number of the two bytes at a place.
#[inline(always)]
pub fn read_word(bytes: &[u8], at: usize) -> u16
    requires { at + 2 ≤ length bytes.now }
    ensures { result ≡ word_at bytes.now at }
{
    u16::from_be_bytes([bytes[at], bytes[at + 1]])
}

/// The number of the four bytes at a place.
#[inline(always)]
pub fn read_long(bytes: &[u8], at: usize) -> u32
    requires { at + 4 ≤ length bytes.now }
    ensures { result ≡ long_at bytes.now at }
{
    u32::from_be_bytes([bytes[at], bytes[at + 1], bytes[at + 2], bytes[at + 3]])
}

/// The host of the six bytes at a place.
#[inline(always)]
pub fn read_host(bytes: &[u8], at: usize) -> [u8; 6]
    requires { at + 6 ≤ length bytes.now }
    ensures { result ≡ slice_range bytes.now at (at + 6) }
{
    let mut host = [0; 6];
    host.copy_from_slice(&bytes[at..at + 6]);
    host
}

/// The address of the twelve bytes at a place.
#[tactic(auto, unfolding(crate::specs::Reading::address_at))]
#[inline(always)]
pub fn read_address(bytes: &[u8], at: usize) -> Address
    requires { at + 12 ≤ length bytes.now }
    ensures { result ≡ address_at bytes.now at }
{
    Address {
        network: read_long(bytes, at),
        host: read_host(bytes, at + 4),
        socket: read_word(bytes, at + 10),
    }
}
