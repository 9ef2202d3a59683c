//! Laws of the definitions, as functions that do nothing.
ghost use Rattle.xns_dump.specs.Laws.{CapturesSayWhatLinesSay, FlowsAreToldApart, JoinedTextsSayRefused, OnlyRefusalsSayRefused, PlacesAreOrderedByNumbers};
ghost use Rattle.xns_dump.specs.Laws.{RefusedLinesSaySo};

/// The text of a line has the word `refused` exactly where the line is refused, whatever its number and those of items.
pub fn refused_lines_say_so()
    ensures { RefusedLinesSaySo }
{}

/// The word `refused` stands in the lines of refusals, and neither stands nor begins in numbers, words, addresses and the
/// names of procedures.
pub fn only_refusals_say_refused()
    ensures { OnlyRefusalsSayRefused }
{}

/// Where the word `refused` begins in neither of two texts, it does not begin in both joined. A text that has the word
/// keeps it behind a text in which it does not begin, and before any text.
pub fn joined_texts_say_refused()
    ensures { JoinedTextsSayRefused }
{}

/// The order of flows holds two flows for equal exactly where their hosts, sockets and identifiers are equal, and both are then the same
/// value.
pub fn flows_are_told_apart()
    ensures { FlowsAreToldApart }
{}

/// Places are ordered by host and socket as one number, and then by their identifiers.
pub fn places_are_ordered_by_numbers()
    ensures { PlacesAreOrderedByNumbers }
{}

/// Of a capture `dump` says what it says of lines of hex that spell the packets of the capture, each packet in the line of
/// its frame's number. The lines of other numbers are no hex, and each of them prints one line, which says why it is
/// refused. Without these lines the texts are the same. The last line spells the last packet.
pub fn captures_say_what_lines_say()
    ensures { CapturesSayWhatLinesSay }
{}
