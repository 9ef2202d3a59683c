//! What the definitions imply, each as the contract of a function that does nothing.

ghost use Rattle.item_world.specs.EndLaws.{EndLaws};
ghost use Rattle.item_world.specs.Laws.{EachStepKeepsTheOrder, ItemsComeInOrder, ForeignBytesChangeNothing, ARestDeliversWhatNeverWas};
ghost use Rattle.item_world.specs.Laws.{TheBagNeverShrinks, NetworkLaws, EachStepIsAMove, MovesKeepTheOrder, NoWorldIsStuck};

use xns_spp::laws::{
    a_packet_that_is_heard_counts, a_tick_asks_until_all_is_acknowledged, accepted_items_go_out,
    an_end_learns_where_a_packet_comes_from, an_end_only_grows, bounds_hold_after_each_step,
    items_are_accepted_or_change_nothing, items_are_taken_from_the_next_number_on,
    nearest_number_is_read_back, new_ends_are_fresh, open_ends_learn_nothing,
    other_steps_accept_and_hand_up_nothing, other_steps_hear_nothing, own_packets_are_packets,
    own_packets_say_what_is_meant, packets_acknowledge_what_they_say, packets_of_the_peer_are_ours,
    room_is_near_what_was_taken, the_first_item_goes_out_again, the_next_item_is_handed_up,
    what_goes_out_changes_what_was_sent_alone, written_packet_is_read_again,
};

/// The laws of an end that the proofs stand on.
pub fn end_laws_are_given()
    ensures { EndLaws }
{
    nearest_number_is_read_back();
    written_packet_is_read_again();
    own_packets_are_packets();
    own_packets_say_what_is_meant();
    room_is_near_what_was_taken();
    new_ends_are_fresh();
    bounds_hold_after_each_step();
    an_end_only_grows();
    other_steps_accept_and_hand_up_nothing();
    other_steps_hear_nothing();
    items_are_accepted_or_change_nothing();
    the_next_item_is_handed_up();
    accepted_items_go_out();
    items_are_taken_from_the_next_number_on();
    packets_acknowledge_what_they_say();
    xns_spp::laws::foreign_bytes_change_nothing();
    the_first_item_goes_out_again();
    packets_of_the_peer_are_ours();
    a_packet_that_is_heard_counts();
    a_tick_asks_until_all_is_acknowledged();
    what_goes_out_changes_what_was_sent_alone();
    an_end_learns_where_a_packet_comes_from();
    open_ends_learn_nothing();
}

/// `Holds` is true of a world at the start, and each small step of an end, and each packet that comes, keeps it, in
/// whatever order they are taken. Where it is true, what either end has handed up begins what the other sent, and a
/// packet that still lives is read as the numbers that its fields were made of.
pub fn each_step_keeps_the_order()
    ensures { EachStepKeepsTheOrder }
{
    end_laws_are_given();
}

/// Each small step is one move of the channel: nothing is accepted or handed up, or one end accepts one item, or hands up the next of
/// what the other accepted. So small steps from the start, in whatever order they are taken, give a history of the channel.
pub fn each_step_is_a_move()
    ensures { EachStepIsAMove }
{
    end_laws_are_given();
    each_step_keeps_the_order();
}

/// In every history of a channel what either side has handed up begins what the other accepted.
pub fn moves_keep_the_order()
    ensures { MovesKeepTheOrder }
{}

/// Over every list of deliveries, losses, repeats and reorderings, what either end has handed up begins what the other
/// sent. No packet is delivered once an end has taken more than 30,000 further items since the packet was sent.
///
/// At every moment, within an event too, each packet ever sent is sound: its fields were made of numbers within 64 of what the
/// end that they count had taken then; a data packet carries the item of its number, which went out by now, and no packet
/// acknowledges or allows more than its sender does now. What an end has taken begins what went out at the other, and holds what
/// is acknowledged there; each of its early items is the item of its number there, which went out.
pub fn items_come_in_order()
    ensures { ItemsComeInOrder }
{
    each_step_keeps_the_order();
}

/// Bytes from elsewhere change nothing: bytes of the connection are passed over, and all others are dropped.
pub fn foreign_bytes_change_nothing()
    ensures { ForeignBytesChangeNothing }
{
    end_laws_are_given();
}

/// A rest delivers in turn each packet that was never delivered and is there as it begins.
pub fn a_rest_delivers_what_never_was()
    ensures { ARestDeliversWhatNeverWas }
{}

/// A packet that was sent stays in the bag, in its place.
pub fn the_bag_never_shrinks()
    ensures { TheBagNeverShrinks }
{
    end_laws_are_given();
}

/// The laws of the network, for a play that does more at its ends than hand items up.
///
/// An end that flushes or receives keeps what it accepted and handed up. Only an end that is given an item accepts one, and only an
/// end that hands an item up does so; the other end stays as it is. A world goes on with each move: its ends take no
/// less, and its bag keeps what was sent. An end that sends and takes nothing leaves the network as it was. A packet
/// that lands is received. A packet lands exactly where there is an end that it comes to. A packet that lands nowhere
/// as a rest begins never lands again, so a rest may leave it out.
pub fn network_laws_are_given()
    ensures { NetworkLaws }
{
    end_laws_are_given();
    each_step_is_a_move();
}

/// From every world that small steps lead to, some further ticks, arrivals of packets sent from then on, and takes lead
/// to a world in which each item that either end had accepted is handed up at the other.
pub fn no_world_is_stuck()
    ensures { NoWorldIsStuck }
{
    end_laws_are_given();
    each_step_keeps_the_order();
}
