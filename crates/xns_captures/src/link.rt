//! The internet packet that a frame carries.
ghost use Rattle.std.specs.Prelude.{◌≡◌, ◌+◌, ◌≤◌, drop, length, option_map, slice_index, take};
ghost use Rattle.xns_captures.specs.Links.{behind_llc, behind_number, behind_protocol, is_snap as is_snap_of, is_tag as is_tag_of};
ghost use Rattle.xns_captures.specs.Links.{is_link_read, of_cooked, of_cooked_2, of_ethernet, of_old_ethernet, packet_of_frame};

use crate::byte_order::ByteOrder;
use crate::places::{behind, byte_at, read_word};

/// Ethernet.
const ETHERNET: u16 = 1;
/// The 3 Mb/s Ethernet.
const OLD_ETHERNET: u16 = 2;
/// Linux cooked captures, of version 1 and 2.
const COOKED: u16 = 113;

const COOKED_2: u16 = 276;

/// The type of frames that carry internet packets.
const XNS: u16 = 0x0600;
/// The types of VLAN tags.
const TAG: u16 = 0x8100;

const SERVICE_TAG: u16 = 0x88a8;

const OLD_SERVICE_TAG: u16 = 0x9100;
/// A larger number is a type, and no length.
const MOST_LENGTH: u16 = 1500;

/// The access point of internet packets.
const ACCESS_POINT: u8 = 0x80;
/// The protocol of LLC in a Linux cooked header.
const LLC: u16 = 4;

/// Whether frames of this link type are read.
pub fn is_link_read(link: u16) -> bool
    ensures { result ≡ is_link_read link }
{
    link == ETHERNET || link == OLD_ETHERNET || link == COOKED || link == COOKED_2
}

/// The internet packet that a frame of this link type carries, if it carries one, with all bytes behind it.
///
/// Ethernet carries it in frames of type 0600, behind any number of VLAN tags, and in frames of IEEE 802.3 behind LLC to
/// access point 80 or SNAP with type 0600; so do Linux cooked captures. The 3 Mb/s Ethernet carries it in frames of type
/// 0600. No other link type is known.
#[tactic(auto, unfolding(crate::specs::Links::packet_of_frame))]
#[inline(always)]
pub fn packet_in(link: u16, frame: &[u8]) -> Option<&[u8]>
    ensures { option_map (λ packet. packet.now) result ≡ packet_of_frame link frame.now }
{
    match link {
        ETHERNET => in_ethernet(frame),
        OLD_ETHERNET => in_old_ethernet(frame),
        COOKED => in_cooked(frame),
        COOKED_2 => in_cooked_2(frame),
        _ => None,
    }
}

/// Of a frame of Ethernet.
#[inline(always)]
fn in_ethernet(frame: &[u8]) -> Option<&[u8]>
    ensures { option_map (λ packet. packet.now) result ≡ of_ethernet frame.now }
{
    if frame.len() < 14 {
        return None;
    }
    in_number(read_word(ByteOrder::Big, frame, 12), &frame[14..])
}

/// Of a frame of the 3 Mb/s Ethernet.
fn in_old_ethernet(frame: &[u8]) -> Option<&[u8]>
    ensures { option_map (λ packet. packet.now) result ≡ of_old_ethernet frame.now }
{
    if frame.len() < 4 {
        return None;
    }
    if read_word(ByteOrder::Big, frame, 2) == XNS {
        Some(&frame[4..])
    } else {
        None
    }
}

/// Of a frame of a Linux cooked capture.
fn in_cooked(frame: &[u8]) -> Option<&[u8]>
    ensures { option_map (λ packet. packet.now) result ≡ of_cooked frame.now }
{
    if frame.len() < 16 {
        return None;
    }
    in_protocol(read_word(ByteOrder::Big, frame, 14), &frame[16..])
}

/// Of a frame of a Linux cooked capture of version 2.
fn in_cooked_2(frame: &[u8]) -> Option<&[u8]>
    ensures { option_map (λ packet. packet.now) result ≡ of_cooked_2 frame.now }
{
    if frame.len() < 20 {
        return None;
    }
    in_protocol(read_word(ByteOrder::Big, frame, 0), &frame[20..])
}

/// Behind the protocol of a Linux cooked header.
#[tactic(auto, unfolding(crate::specs::Links::behind_protocol))]
fn in_protocol(protocol: u16, bytes: &[u8]) -> Option<&[u8]>
    ensures { option_map (λ packet. packet.now) result ≡ behind_protocol protocol bytes.now }
{
    if protocol == LLC {
        return in_llc(bytes);
    }
    if protocol > MOST_LENGTH {
        in_number(protocol, bytes)
    } else {
        None
    }
}

/// Behind a type or a length.
#[inline(always)]
fn in_number(number: u16, bytes: &[u8]) -> Option<&[u8]>
    ensures { option_map (λ packet. packet.now) result ≡ behind_number number bytes.now }
{
    let mut kind = number;
    let mut rest = bytes;
    while is_tag(kind) {
        if rest.len() < 4 {
            return None;
        }
        kind = read_word(ByteOrder::Big, rest, 2);
        rest = &rest[4..];
    }
    if kind == XNS {
        return Some(rest);
    }
    if kind > MOST_LENGTH {
        return None;
    }
    in_llc(front(rest, usize::from(kind)))
}

/// At most so many bytes.
fn front(bytes: &[u8], most: usize) -> &[u8]
    ensures { result.now ≡ take most bytes.now }
{
    if bytes.len() <= most {
        bytes
    } else {
        &bytes[..most]
    }
}

fn is_tag(number: u16) -> bool
    ensures { result ≡ is_tag_of number }
{
    number == TAG || number == SERVICE_TAG || number == OLD_SERVICE_TAG
}

/// Behind a header of LLC or SNAP.
fn in_llc(bytes: &[u8]) -> Option<&[u8]>
    ensures { option_map (λ packet. packet.now) result ≡ behind_llc bytes.now }
{
    if byte_at(bytes, 0) == ACCESS_POINT {
        let count = if byte_at(bytes, 2) % 4 == 3 { 3 } else { 4 };
        return Some(behind(bytes, count));
    }
    if is_snap(bytes) {
        Some(behind(bytes, 8))
    } else {
        None
    }
}

/// Whether a header of SNAP has the type.
fn is_snap(bytes: &[u8]) -> bool
    ensures { result ≡ is_snap_of bytes.now }
{
    if bytes.len() < 8 {
        return false;
    }
    let organization = read_word(ByteOrder::Big, bytes, 4);
    read_word(ByteOrder::Big, bytes, 0) == 0xaaaa
        && read_word(ByteOrder::Big, bytes, 2) == 0x0300
        && (organization == 0x0000 || organization == 0x00f8)
        && read_word(ByteOrder::Big, bytes, 6) == XNS
}
