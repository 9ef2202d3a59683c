//! Laws of the definitions, as functions that do nothing.
ghost use Rattle.xns_calls.specs.Held.{FewItemsAreKept, NextItemsAreNotHeldLonger};
ghost use Rattle.xns_calls.specs.InOrder.{KeptItemsAreReadInTurn};
ghost use Rattle.xns_calls.specs.Laws.{AcknowledgementsWait, AnItemIsAnEvent, CapturesSayWhatLinesSay, ConnectionsHaveNumbers, HeardMessagesArePrinted, InputsTellTheirConversations};
ghost use Rattle.xns_calls.specs.Laws.{LivingConnectionsAreKept, MissingItemsAreBeforeCapturedOnes, NothingIsMissing};
ghost use Rattle.xns_calls.specs.Laws.{NumbersAreReadBack, OneKeyServesBothDirections, OtherConnectionsStay, PacketsAreEvents};
ghost use Rattle.xns_calls.specs.Laws.{RepeatsAreToldOnce, RepeatsSayNothing, TheAnswerSaysRefused, WhatIsHeardIsTheConversation};
ghost use Rattle.xns_calls.specs.Laws.{WholeFlowsSayTheirConversation};

use courier_messages::laws::{conversation_is_read_sign_by_sign, one_item_more, signs_run_on};
use xns_dump::laws::{
    flows_are_told_apart, joined_texts_say_refused, only_refusals_say_refused,
    places_are_ordered_by_numbers,
};

/// What is heard of a flow from its version range on begins with the messages of the conversation of its items, and there
/// is no more of it where the conversation has no fault.
pub fn what_is_heard_is_the_conversation()
    ensures { WhatIsHeardIsTheConversation }
{
    conversation_is_read_sign_by_sign();
    signs_run_on();
    one_item_more();
}

/// What is printed of items of datastream 0, said in order, are the lines of the messages that are heard of them, as long
/// as no fault is heard.
pub fn heard_messages_are_printed()
    ensures { HeardMessagesArePrinted }
{}

/// The answer of `calls` is true exactly where its text has the word `refused`: of lines, and of a capture, with times or
/// without.
pub fn the_answer_says_refused()
    ensures { TheAnswerSaysRefused }
{
    joined_texts_say_refused();
    only_refusals_say_refused();
}

/// What a data packet does to its flow is the event of its item, with the number that its field stands for.
pub fn an_item_is_an_event()
    ensures { AnItemIsAnEvent }
{}

/// What a packet does to a flow are its events: to its own flow and to the flow behind. Of the flow behind it changes
/// nothing else but its call without an answer. Where nothing takes effect of that flow it says nothing of it: an acknowledgement
/// alone never makes an item missing.
pub fn packets_are_events()
    ensures { PacketsAreEvents }
{}

/// What a packet acknowledges ahead of the items takes effect with the 64th packet of its connection behind it, neither before nor
/// later. So at most 64 numbers of a flow are kept.
pub fn acknowledgements_wait()
    ensures { AcknowledgementsWait }
{}

/// An item that is kept has its turn only where it comes next, and where the items of the other flow that its packet acknowledges were read or
/// are waited for no longer. That holds of both flows of a connection. Of two that can have their turn, one of each flow, the one that was
/// captured first has it. What is still kept behind a packet can't have its turn, of neither flow, and nothing is still kept behind the end of
/// the input. Items are read without a turn where a gap is given up: for an item that lies too far past it, for an acknowledgement that takes
/// effect, and at the end of the input.
pub fn kept_items_are_read_in_turn()
    ensures { KeptItemsAreReadInTurn }
{}

/// A flow keeps 64 items at most, whatever lines come. Each of them has a number of its own, which is that of the next item to be read or
/// up to 63 above it.
pub fn few_items_are_kept()
    ensures { FewItemsAreKept }
{
    flows_are_told_apart();
}

/// What a packet acknowledges of the flow behind is waited for up to the 64th packet of its connection after it, and no longer. No packet
/// takes a flow back. So an item that comes next of its flow is read with the 64th packet of its connection after its own at the latest,
/// whatever packets come. In an input the packets of a connection are those that the lines bring of it, from the packet on with which the
/// connection began, each with its header, its content and its line. An item behind a gap may be kept longer.
pub fn next_items_are_not_held_longer()
    ensures { NextItemsAreNotHeldLonger }
{}

/// The field of an item is read as the item's number, where that is at most 32,768 below the next one and at most 32,767
/// above it.
pub fn numbers_are_read_back()
    ensures { NumbersAreReadBack }
{
    xns_spp::laws::nearest_number_is_read_back();
}

/// Where each item of a flow is captured within 63 numbers of its place, and before what acknowledges it takes effect, no item is
/// said to be missing.
pub fn nothing_is_missing()
    ensures { NothingIsMissing }
{}

/// An item that was captured before changes nothing of its flow and says nothing of it.
pub fn repeats_say_nothing()
    ensures { RepeatsSayNothing }
{}

/// The line that tells of a flow's repeats is printed with the first item that ends 64 repeats in a row, and with no other.
pub fn repeats_are_told_once()
    ensures { RepeatsAreToldOnce }
{}

/// Items are said to be missing only where a later one was captured.
pub fn missing_items_are_before_captured_ones()
    ensures { MissingItemsAreBeforeCapturedOnes }
{}

/// Of a flow from item 0 on whose items are captured, all of them, in whatever order within 63 numbers and before what acknowledges
/// them takes effect, the lines of the messages of its conversation are printed, in order, up to the first fault. Each is at the line or frame
/// of the event with which its last item is read, and tells of the calls that have no answer then. Without a fault nothing else is printed of
/// it, but the line with which it begins.
pub fn whole_flows_say_their_conversation()
    ensures { WholeFlowsSayTheirConversation }
{
    conversation_is_read_sign_by_sign();
    signs_run_on();
    one_item_more();
}

/// A whole flow's conversation is in the text of a whole input, whatever other lines and flows it has. The text is made of parts, each of one flow
/// or of a line that was refused. Those of such a flow say that it begins, and then the messages of its conversation, in
/// order, up to the first fault. Without a fault nothing else is said of it but that 64 repeats came in a row, so no item is called missing.
/// Each message is at a line of the input, the messages in the order of these lines, and under the flow's name. The law leaves open which line
/// of the input that is, and of which call and with which names a message's line tells: those are in the text, which `calls` gives exactly.
pub fn inputs_tell_their_conversations()
    ensures { InputsTellTheirConversations }
{
    flows_are_told_apart();
    conversation_is_read_sign_by_sign();
    signs_run_on();
    one_item_more();
}

/// A packet changes no connection but that of its flow.
pub fn other_connections_stay()
    ensures { OtherConnectionsStay }
{}

/// The connections that are kept have numbers of their own, up to the number of those that have begun. A number that was given is never given
/// again: whatever lines come, a connection that has it then was there, at the same place and of the same ends. So the name of a flow in the
/// text says which connection it is of.
pub fn connections_have_numbers()
    ensures { ConnectionsHaveNumbers }
{}

/// A connection of which no flow has an item of datastream 255, EndReply, keeps its place and its number, whatever comes. So it
/// never begins anew.
pub fn living_connections_are_kept()
    ensures { LivingConnectionsAreKept }
{}

/// Two flows have one key exactly where one is the other, or the flow behind it. So a connection is found by one key, whoever
/// of the two sends.
pub fn one_key_serves_both_directions()
    ensures { OneKeyServesBothDirections }
{
    flows_are_told_apart();
    places_are_ordered_by_numbers();
}

/// Of a capture `calls` says what it says of lines of hex that spell the packets of the capture, each packet in the line of
/// its frame's number. The lines of other numbers spell packets of another type than 5, of which nothing is printed, and
/// the last line spells the last packet.
pub fn captures_say_what_lines_say()
    ensures { CapturesSayWhatLinesSay }
{}
