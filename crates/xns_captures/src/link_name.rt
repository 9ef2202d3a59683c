//! Names of links.

/// What stands behind the number of a link type that is not read: its name in brackets, if it is one that captures of these
/// days have, as the list of link types of libpcap says it.
pub(crate) fn behind_link(link: u16) -> &'static str {
    match link {
        0 => " (BSD loopback)",
        6 => " (Token Ring)",
        9 => " (PPP)",
        10 => " (FDDI)",
        12 | 14 | 101 => " (raw IP)",
        105 => " (802.11)",
        108 => " (OpenBSD loopback)",
        127 => " (802.11 behind radiotap)",
        228 => " (raw IPv4)",
        229 => " (raw IPv6)",
        _ => "",
    }
}
