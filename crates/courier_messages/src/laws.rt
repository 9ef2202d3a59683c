//! Laws on messages, over the definitions alone, as functions that do nothing.

ghost use Rattle.courier_messages.specs.Laws.{MessageIsSpelled, WholeValueIsSpelled, TextIsItsPieces, ConversationIsReadSignBySign};
ghost use Rattle.courier_messages.specs.Laws.{WhatIsKeptIsBounded, MessageItemsCanBeSent, WhatIsHeardHasNumbers, CutsDoNotMatter};
ghost use Rattle.courier_messages.specs.Laws.{WhatIsSentIsHeard, AConversationOnlyGrows, SignsRunOn, OneItemMore, AServerHearsOneItemMore};
ghost use Rattle.courier_messages.specs.Laws.{MoreCallsGoOut, AFrontIsHeard, CallsAreHeard, APartSaysLess};

use courier_types::laws::words_are_read_whole;

/// Bytes whose words say a message are read as that message; the contract of `read_message` says the converse. A
/// message that is read has at most 131,072 bytes.
pub fn message_is_spelled()
    ensures { MessageIsSpelled }
{}

/// A value is read whole exactly where all the words spell it.
#[tactic(auto, using(crate::proofs::Wholes::whole_is_spelled))]
pub fn whole_value_is_spelled()
    ensures { WholeValueIsSpelled }
{
    words_are_read_whole();
}

/// A text without items of other datastreams is its pieces, each with its mark, and the bytes behind the last mark.
pub fn text_is_its_pieces()
    ensures { TextIsItsPieces }
{}

/// The messages of a conversation are those that its signs end, taken one by one; the phase at its end is the one to which the signs lead.
pub fn conversation_is_read_sign_by_sign()
    ensures { ConversationIsReadSignBySign }
{}

/// A session keeps of its items at most one message, or less than a version range.
#[tactic(auto, using(crate::proofs::Bounds::ending_bound))]
pub fn what_is_kept_is_bounded()
    ensures { WhatIsKeptIsBounded }
{}

/// The items of a message can go out: they are of datastream 0, of bytes, and have at most 534, without attention. So
/// can the versions. The items of a message of at most 131,072 bytes have no more bytes.
pub fn message_items_can_be_sent()
    ensures { MessageItemsCanBeSent }
{}

/// The messages that items of bytes say have numbers within their types' bounds.
#[tactic(auto, using(crate::proofs::Numbers::conversation_numbers))]
pub fn what_is_heard_has_numbers()
    ensures { WhatIsHeardHasNumbers }
{}

/// Items with equal bytes and marks have equal conversations, however they are cut.
pub fn cuts_do_not_matter()
    ensures { CutsDoNotMatter }
{}

/// The versions and messages, each cut, are heard as those messages, with no fault and nothing left over.
pub fn what_is_sent_is_heard()
    ensures { WhatIsSentIsHeard }
{}

/// The messages that are heard first stay, whatever comes later.
pub fn a_conversation_only_grows()
    ensures { AConversationOnlyGrows }
{}

/// The signs of two texts, one behind the other: the second lead on from where the first lead, and end their messages behind those of the
/// first.
pub fn signs_run_on()
    ensures { SignsRunOn }
{}

/// What one item more makes of a conversation: it ends at most one message, and none where it brings a fault.
pub fn one_item_more()
    ensures { OneItemMore }
{}

/// What one item more makes of a conversation in which a message that is not a call is a fault: the first fault stays,
/// and no call comes with it or behind it.
pub fn a_server_hears_one_item_more()
    ensures { AServerHearsOneItemMore }
{}

/// The items of more calls begin with those of fewer, and one call more puts its message behind them, cut.
pub fn more_calls_go_out()
    ensures { MoreCallsGoOut }
{}

/// Of a prefix of the items that were sent a prefix of the messages is heard, without a fault.
pub fn a_front_is_heard()
    ensures { AFrontIsHeard }
{}

/// Of a prefix of the items that a caller puts out its first calls are heard, each with its transaction, without a fault.
pub fn calls_are_heard()
    ensures { CallsAreHeard }
{}

/// A shorter prefix of the items of messages says fewer messages than all the items, since the last item of each message ends it. So
/// once all messages were heard, all items were.
pub fn a_part_says_less()
    ensures { APartSaysLess }
{}
