//! What the definitions imply, each as the contract of a function that does nothing.

ghost use Rattle.xns_idp.specs.Laws.{ChecksumIsAddedAndRotated, AnotherWordShows, AnExchangeShows, WrittenPacketIsReadAgain};
ghost use Rattle.xns_idp.specs.Laws.{PacketAtFrontIsItsSpelling};

/// The checksum is what the standard describes: each word is added with end-around carry and the sum rotated left by one,
/// from 0 on, and a final 65535 becomes 0.
pub fn checksum_is_added_and_rotated()
    ensures { ChecksumIsAddedAndRotated }
{}

/// The checksum changes with any one word, unless 0 stands in the place of 65535 or the other way round.
pub fn another_word_shows()
    ensures { AnotherWordShows }
{}

/// The checksum changes where two neighbouring words change places, unless they are equal, or 0 and 65535.
pub fn an_exchange_shows()
    ensures { AnExchangeShows }
{}

/// The bytes that are written for a packet spell it, and are read again as that packet, whatever follows them.
pub fn written_packet_is_read_again()
    ensures { WrittenPacketIsReadAgain }
{}

/// The packet that is computed from the places of its fields is the one that a prefix of the bytes spells. Where there is
/// a fault, no prefix of them spells a packet.
pub fn packet_at_front_is_its_spelling()
    ensures { PacketAtFrontIsItsSpelling }
{}
