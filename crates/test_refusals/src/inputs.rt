//! Inputs in memory of `dump`, `calls` and `sim`, and their texts.

/// A packet that brings a call, with a blank behind its checksum.
pub const PACKET: &[u8] =
    b"ffff 00380005000000010000aa0001020005000000010000aa00030404005000123456780001000000030000000100000007000200010005";

/// The text that `dump` prints of the packet.
pub const REPORT: &[u8] =
    b"1 idp length 56 sum none control 0 type 5 to 00000001.0000aa000102.0005 from 00000001.0000aa000304.0400
1 spp control 50 stream 0 source 1234 target 5678 seq 1 ack 0 alloc 3
1 item 1
1 call 1 program 7 version 2 procedure 1 args 0005
";

/// The versions, and a call of two items, of which the second comes first.
pub const CAPTURE: &[u8] =
    b"cf2a002e0005000000010000aa0001020005000000010000aa000304040050001234567800000000000300030003
ffff002e0005000000010000aa0001020005000000010000aa000304040050001234567800020000000300010005
ffff00340005000000010000aa0001020005000000010000aa000304040040001234567800010000000300000001000000070002
";

/// The text that `calls` prints of the capture.
pub const CALLS: &[u8] =
    b"1 1a flow to 00000001.0000aa000102.0005 id 5678 from 00000001.0000aa000304.0400 id 1234
3 1a call 1 program 7 version 2 procedure 1 args 0005
";

/// A call whose answer comes before the server's versions.
pub const SCRIPT: &[u8] =
    b"call add 5\ntick a\ndeliver 0\ndeliver 1\ndeliver 4\ndeliver 3\ndeliver 2\ndeliver 7\n";

/// The text that `sim` prints of the script.
pub const PLAY: &[u8] = b"calls 1\ncarried 1\n1 returned 5\ntotal 5\npackets 10\n";
