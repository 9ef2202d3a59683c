//! What the definitions imply, each as the contract of a function that does nothing.

ghost use Rattle.std.specs.Prelude.{◌≡◌, ◌≤◌, ℕ, Bool, List, All, length, Some};
ghost use Rattle.courier_messages.specs.declared.message.Message.{Message};
ghost use Rattle.courier_messages.specs.Head.{words_in};
ghost use Rattle.xns_c.specs.Heads.{head_given, message_given};
ghost use Rattle.xns_idp.specs.Packet.{AreBytes, most_packet};
ghost use Rattle.xns_spp.specs.Receiving.{receive_answer};
ghost use Rattle.xns_spp.specs.Sending.{flush_answer, tick_answer};
ghost use Rattle.xns_spp.specs.State.{State, IsState};
ghost use Rattle.xns_spp.specs.Telling.{told_answer, resend_answer};

/// A packet that an end makes has at most [`xns_idp::MOST_PACKET`] bytes, and a reply has 42: buffers of these lengths always serve.
pub fn packets_have_their_sizes()
    ensures flush { (s : State) → IsState s → All (λ p. length p ≤ most_packet) (flush_answer s) }
    ensures tick { (s : State) → IsState s → All (λ p. length p ≤ most_packet) (tick_answer s) }
    ensures reply { (s : State) (b r : List ℕ) → IsState s → AreBytes b → (receive_answer s b).reply ≡ Some r → length r ≡ 42 }
    ensures told { (s : State) (asks : Bool) (p : List ℕ) → IsState s → told_answer s asks ≡ Some p → length p ≡ 42 }
    ensures resend { (s : State) (p : List ℕ) → IsState s → resend_answer s ≡ Some p → length p ≤ most_packet }
{
    xns_spp::laws::written_packet_is_read_again();
    xns_spp::laws::own_packets_are_packets();
    xns_spp::laws::own_packets_say_what_is_meant();
    xns_spp::laws::accepted_items_go_out();
    xns_spp::laws::bounds_hold_after_each_step();
}

/// What C is told of a message is that message, where it is written again.
pub fn a_message_that_is_given_is_written_again()
    ensures { (m : Message) → message_given (head_given m) (words_in m) ≡ Some m }
{}
