//! What the definitions imply, each as the contract of a function that does nothing.

ghost use Rattle.std.specs.Prelude.{◌≡◌, ◌⊎◌, ◌∷◌, ◌++◌, [], ℕ, List, Option, Some, None, Ok, false};
ghost use Rattle.courier_sessions.specs.Answering.{Answering, is_busy, fed as call_fed};
ghost use Rattle.courier_sessions.specs.Talk.{Talk, fed as answer_fed};
ghost use Rattle.courier_sessions.specs.declared.program.Program.{Program};
ghost use Rattle.xns_spp.specs.Receiving.{after_receive};
ghost use Rattle.xns_spp.specs.State.{State};
ghost use Rattle.xns_spp.specs.Growth.{Begins};
ghost use Rattle.xns_spp.specs.declared.item.Item.{Item};
ghost use Rattle.xns_connection.specs.Acting.{Acts, IsTold};
ghost use Rattle.xns_connection.specs.Agreeing.{handed_up, HasCalled, HasServed, ArePeers, IsClosing, Agree};
ghost use Rattle.xns_connection.specs.Closed.{AGoodCloseLosesNothing};
ghost use Rattle.xns_connection.specs.Closing.{drains};
ghost use Rattle.xns_connection.specs.Ends.{AConnectionKeepsItsEnd};
ghost use Rattle.xns_connection.specs.Living.{Deeds, no_deeds, Lives, IsLived, ProgramsAgree};
ghost use Rattle.xns_connection.specs.Step.{AClosingConnectionDoesNotWaitForEver, AConnectionGivesWhatItMade, AMessageIsHandedAsByAStep, AStepHasOneEnd, AStepKeepsItsPromises, TheDeadAreSilent};
ghost use Rattle.xns_connection.specs.Story.{Story, ProgramDoesNothing, new_story};
ghost use Rattle.xns_connection.specs.Telling.{Tells};
ghost use Rattle.xns_connection.specs.declared.conversation.Conversation.{Conversation};
ghost use Rattle.xns_connection.specs.declared.side.Side.TheVariants.{Calls, Answers};

/// A connection that calls has put out the versions and its calls, in order; the answers that the program was handed are the messages
/// that the peer's items say, in order, each once, and the k-th is to the k-th call. One that is called has taken the calls that the
/// peer's items say, in order, each once; the program was handed the listed ones, and the k-th answer that was put out is to the k-th
/// call. Each has put out its closing items behind all that.
pub fn a_connection_is_its_conversation()
    ensures calls { (c : Conversation) (h : Story) (t : Talk) → Tells c h → c.side ≡ Calls t → HasCalled c.closing h }
    ensures answers { (c : Conversation) (h : Story) (a : Answering) → Tells c h → c.side ≡ Answers a
        → HasServed a.programs c.closing h }
{
    courier_messages::laws::a_conversation_only_grows();
}

/// Two connections that are peers, where what the end of each handed up begins what the other's accepted: the calls that the one was
/// handed are those that the other made and that are listed, in order, as far as they came; and the k-th answer that the caller was
/// handed is the one that was put out to its k-th call. Closing items change nothing of that.
pub fn connections_agree()
    ensures { (c d : Conversation) (h g : Story) (t : Talk) (a : Answering) → Tells c h → Tells d g → c.side ≡ Calls t
        → d.side ≡ Answers a → ArePeers h g → Agree a.programs h g }
{
    courier_messages::laws::one_item_more();
    courier_messages::laws::a_conversation_only_grows();
    courier_sessions::laws::sessions_agree();
}

/// A connection has a story at every moment, whatever steps led to it, in any order: `Tells`, from which the laws above say what it has
/// done. Its end came from a new one by an end's steps and by packets alone. The calls made and the messages handed in it are those of the
/// program's own steps, and the answers that the program gave are those to the listed calls. Each function of `Connection` is such a step:
/// `calling` and `answering` by `tells`, `act` and `not_served` by `goes`, and the others by `a_step_keeps_its_promises`,
/// `a_message_is_handed_as_by_a_step` and `a_connection_gives_what_it_made`. A call that is refused and `take_why` leave the conversation as
/// it was.
pub fn a_connection_always_has_a_story()
    ensures { (programs : Option (List Program)) (start : State) (c : Conversation) (l : Deeds) → Lives programs start c l
        → IsLived programs start c l }
{}

/// One story of a connection can be followed from the new connection on. Where a connection has a story, in which the program did all that
/// it did, it still has after a step: the story that the step's clause names, which goes on from where the program had done something
/// more, or a packet had come.
pub fn one_story_goes_on()
    ensures opens { (programs : Option (List Program)) (start : State) (c : Conversation) → Tells c (new_story programs start)
        → IsTold programs start c no_deeds (new_story programs start) }
    ensures acts { (programs : Option (List Program)) (start : State) (c d : Conversation) (l r : Deeds) (h b m : Story)
        → IsTold programs start c l h → Acts c h l b r → Tells d m → ProgramDoesNothing b m → IsTold programs start d r m }
    ensures hears { (programs : Option (List Program)) (start : State) (c d : Conversation) (l : Deeds) (h m : Story) (bytes : List ℕ)
        → IsTold programs start c l h → Tells d m → ProgramDoesNothing (record h { state = after_receive h.state bytes }) m
        → IsTold programs start d l m }
{}

/// Two programs whose connections are peers, where what the end of each handed up begins what the other's accepted: the one that is
/// called was handed the listed calls that the other made, in order, as far as they came. The one that calls was handed the answers that
/// the other gave to them, in order, as far as they came, and a reject for each call that is not listed.
pub fn two_programs_agree()
    ensures { (s v : State) (c d : Conversation) (l r : Deeds) (programs : List Program) (here : IsLived None s c l)
        (there : IsLived (Some programs) v d r) → ArePeers here.story there.story → ProgramsAgree programs l r }
{
    courier_messages::laws::one_item_more();
    courier_messages::laws::a_conversation_only_grows();
    courier_sessions::laws::sessions_agree();
}

/// What a connection had done goes on by each step, as the program or the peer had it do: no item can move then, and nothing is to be said
/// or read of closing, unless memory was refused or the step closed it. A connection reads on, unless its side refused an item, the step closed
/// it, or End was put out, where it was due, at a side that is called.
pub fn a_step_keeps_its_promises()
    ensures { AStepKeepsItsPromises }
{
    xns_spp::laws::the_next_item_is_handed_up();
    xns_spp::laws::items_are_accepted_or_change_nothing();
    xns_spp::laws::an_end_only_grows();
    xns_spp::laws::other_steps_accept_and_hand_up_nothing();
    courier_sessions::laws::a_session_is_its_conversation();
    courier_sessions::laws::a_server_session_is_its_conversation();
}

/// A message that is handed where nothing can move then is handed as by a step: what that promises is promised here too.
pub fn a_message_is_handed_as_by_a_step()
    ensures { AMessageIsHandedAsByAStep }
{
    a_step_keeps_its_promises();
    xns_spp::laws::the_next_item_is_handed_up();
    xns_spp::laws::an_end_only_grows();
    xns_spp::laws::other_steps_accept_and_hand_up_nothing();
    courier_sessions::laws::a_session_is_its_conversation();
    courier_sessions::laws::a_server_session_is_its_conversation();
}

/// A connection that is asked for a packet goes on by itself, and gives the first of those that waited and of those that it made. Where it
/// gives none, nothing is owed, and of a connection that is not dead no packet waits, and no item is left that may go out for the first time.
pub fn a_connection_gives_what_it_made()
    ensures { AConnectionGivesWhatItMade }
{
    a_step_keeps_its_promises();
    xns_spp::laws::other_steps_accept_and_hand_up_nothing();
    xns_spp::laws::other_steps_hear_nothing();
}

/// Nothing goes out of a dead connection, which is one that silence closed, or a refusal, or an Error packet. What comes changes nothing
/// that it has to tell, and whatever is done it stays dead.
pub fn the_dead_are_silent()
    ensures { TheDeadAreSilent }
{}

/// A connection that closes does not wait for ever for its peer, nor does one whose call wants its answer: until it is closed something is
/// due at a time, also where the pace never asks an idle peer. A silent peer is given up then, by `a_silent_peer_is_given_up` of `xns_agenda`.
pub fn a_closing_connection_does_not_wait_for_ever()
    ensures { AClosingConnectionDoesNotWaitForEver }
{
    xns_agenda::laws::a_call_does_not_wait_for_ever();
}

/// A connection that is given up counts as closed by the exchange only where the peer acknowledged all that its side said, and its End.
pub fn a_good_close_loses_nothing()
    ensures { AGoodCloseLosesNothing }
{}

/// Whatever is done, a connection keeps its end: an open connection has the same end, and one that is not open has at most learned its peer.
/// So its own address and identifier stay, and so does who opened it.
pub fn a_connection_keeps_its_end()
    ensures { AConnectionKeepsItsEnd }
{}

/// Where memory was not refused a step has one end only, whether items moved until none could or the side refused one.
pub fn a_step_has_one_end()
    ensures { AStepHasOneEnd }
{}

/// Neither of two connections that are peers refuses an item of the other's: the next one that waits is of the closing exchange, or the
/// session takes it, where that is not busy.
pub fn peers_refuse_nothing()
    ensures calls { (c d : Conversation) (h g : Story) (t : Talk) (a : Answering) (x : Item) → Tells c h → Tells d g
        → c.side ≡ Calls t → d.side ≡ Answers a → ArePeers h g → drains c.side c.closing ≡ false
        → Begins (handed_up h ++ x ∷ []) g.state.accepted → IsClosing x ⊎ ((n : Talk) × (answer_fed t x ≡ Ok n)) }
    ensures answers { (c d : Conversation) (h g : Story) (t : Talk) (a : Answering) (x : Item) → Tells c h → Tells d g
        → c.side ≡ Calls t → d.side ≡ Answers a → drains d.side d.closing ≡ false → is_busy a ≡ false
        → Begins (handed_up g ++ x ∷ []) h.state.accepted → IsClosing x ⊎ ((n : Answering) × (call_fed a x ≡ Ok n)) }
{
    courier_messages::laws::one_item_more();
    courier_messages::laws::a_conversation_only_grows();
    courier_messages::laws::message_items_can_be_sent();
    courier_sessions::laws::sessions_agree();
}
