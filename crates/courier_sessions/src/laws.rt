//! What the definitions imply, each as the contract of a function that does nothing.

ghost use Rattle.std.specs.Prelude.{◌≡◌, ◌≤◌, ℕ, List, [], ◌∷◌, ◌++◌, length, false, Some, None, Ok, Err};
ghost use Rattle.courier_messages.specs.declared.fault.SessionFault.{SessionFault};
ghost use Rattle.courier_messages.specs.declared.message.Message.{Message};
ghost use Rattle.courier_messages.specs.Head.{words_in};
ghost use Rattle.courier_messages.specs.Message.{message_of};
ghost use Rattle.courier_messages.specs.RawCalls.{RawCall, most_call_words};
ghost use Rattle.courier_messages.specs.Called.{server_ending};
ghost use Rattle.courier_sessions.specs.declared.answer.Answer.{Answer};
ghost use Rattle.courier_sessions.specs.declared.answer.Answer.TheVariants.{Reject};
ghost use Rattle.courier_sessions.specs.declared.program.Program.{Program};
ghost use Rattle.courier_sessions.specs.declared.unlisted.Unlisted.{Unlisted};
ghost use Rattle.courier_sessions.specs.Answering.{Answering, new_answering, is_busy, after_item as after_heard, transaction_in};
ghost use Rattle.courier_sessions.specs.Answering.{after_call, why_unlisted, reject_message, after_reject, answer_message, answer_refusal};
ghost use Rattle.courier_sessions.specs.Answering.{with_answer_out};
ghost use Rattle.courier_sessions.specs.Answerings.{HasAnswered};
ghost use Rattle.courier_sessions.specs.Room.{MessageHasRoom};
ghost use Rattle.courier_sessions.specs.Talk.{Talk, new_talk, called, call_refusal, after_item};
ghost use Rattle.courier_sessions.specs.Talks.{HasDone, StopsTalk, made_messages};
ghost use Rattle.std.specs.Option.{option_to_list};
ghost use Rattle.xns_spp.specs.Growth.{Begins};
ghost use Rattle.xns_spp.specs.declared.item.Item.{Item};

/// What a session that calls has done, as long as it goes on. The versions and the items of its calls were given, in
/// order, or are still out. Each message that the peer's items say was handed, in order, as the answer to the call of
/// its number, or is there to be handed. An item without attention that is not too long stops the session exactly where
/// the conversation stops or a message is no answer.
pub fn a_session_is_its_conversation()
    ensures start { HasDone [] [] [] [] new_talk }
    ensures call { (made : List RawCall) (fed given : List Item) (handed : List Message) (t : Talk) (c : RawCall)
        → HasDone made fed given handed t → call_refusal t c ≡ None → HasDone (made ++ c ∷ []) fed given handed (called t c) }
    ensures give { (made : List RawCall) (fed given : List Item) (handed : List Message) (t : Talk) (x : Item) (xs : List Item)
        → HasDone made fed given handed t → t.out ≡ x ∷ xs → HasDone made fed (given ++ x ∷ []) handed (record t { out = xs }) }
    ensures feed { (made : List RawCall) (fed given : List Item) (handed : List Message) (t n : Talk) (x : Item)
        → HasDone made fed given handed t → after_item t x ≡ Ok n → HasDone made (fed ++ x ∷ []) given handed n }
    ensures hand { (made : List RawCall) (fed given : List Item) (handed : List Message) (t : Talk) (m : Message)
        → HasDone made fed given handed t → t.outcome ≡ Some m → HasDone made fed given (handed ++ m ∷ []) (record t { outcome = None }) }
    ensures fault { (made : List RawCall) (fed given : List Item) (handed : List Message) (t : Talk) (x : Item) (e : SessionFault)
        → HasDone made fed given handed t → after_item t x ≡ Err e → StopsTalk fed t x e }
{
    courier_messages::laws::more_calls_go_out();
    courier_messages::laws::one_item_more();
}

/// What a session that is called has done, as long as it goes on. The items that it gave, and those that are out, are
/// the versions and the answers made, each cut; the k-th answer has the transaction of the k-th call. The calls that it
/// took, with the one that waits, are the peer's messages, in order, each once. The listed ones of the calls that it
/// took were handed, or were rejected before they were handed. An item without attention that is not too long stops the
/// session exactly where the conversation stops or a message is no call.
pub fn a_server_session_is_its_conversation()
    ensures start { (programs : List Program) → HasAnswered programs [] [] [] [] [] (new_answering programs) }
    ensures feed { (programs : List Program) (fed given : List Item) (taken handed answers : List Message) (a n : Answering) (x : Item)
        → HasAnswered programs fed given taken handed answers a → is_busy a ≡ false → after_heard a x ≡ Ok n
        → HasAnswered programs (fed ++ x ∷ []) given taken handed answers n }
    ensures hand { (programs : List Program) (fed given : List Item) (taken handed answers : List Message) (a : Answering) (m : Message)
        → HasAnswered programs fed given taken handed answers a → a.call ≡ Some m → why_unlisted a.programs m ≡ None
        → HasAnswered programs fed given (taken ++ m ∷ []) (handed ++ m ∷ []) answers (after_call a m) }
    ensures reject { (programs : List Program) (fed given : List Item) (taken handed answers : List Message) (a : Answering) (m : Message)
        (u : Unlisted) → HasAnswered programs fed given taken handed answers a → a.call ≡ Some m → why_unlisted a.programs m ≡ Some u
        → HasAnswered programs fed given (taken ++ m ∷ []) handed (answers ++ reject_message (transaction_in m) u ∷ [])
        (after_reject a m u) }
    ensures answer { (programs : List Program) (fed given : List Item) (taken handed answers : List Message) (a : Answering)
        (answer : Answer) (k : ℕ) (words : List ℕ) → HasAnswered programs fed given taken handed answers a → a.asked ≡ Some k
        → answer_refusal a.asked answer words ≡ None → HasAnswered programs fed given taken handed
        (answers ++ answer_message answer k words ∷ []) (with_answer_out a (answer_message answer k words)) }
    ensures refuse { (programs : List Program) (fed given : List Item) (taken handed answers : List Message) (a : Answering) (reason : ℕ)
        (words : List ℕ) (m : Message) → HasAnswered programs fed given taken handed answers a → a.call ≡ Some m
        → why_unlisted a.programs m ≡ None → answer_refusal (Some (transaction_in m)) (Reject reason) words ≡ None
        → HasAnswered programs fed given (taken ++ m ∷ []) (handed ++ m ∷ [])
        (answers ++ answer_message (Reject reason) (transaction_in m) words ∷ [])
        (with_answer_out a (answer_message (Reject reason) (transaction_in m) words)) }
    ensures give { (programs : List Program) (fed given : List Item) (taken handed answers : List Message) (a : Answering) (x : Item)
        (xs : List Item) → HasAnswered programs fed given taken handed answers a → a.out ≡ x ∷ xs
        → HasAnswered programs fed (given ++ x ∷ []) taken handed answers (record a { out = xs }) }
    ensures fault { (programs : List Program) (fed given : List Item) (taken handed answers : List Message) (a : Answering) (x : Item)
        (e : SessionFault) → HasAnswered programs fed given taken handed answers a → after_heard a x ≡ Err e
        → server_ending (fed ++ x ∷ []) ≡ Err e }
{
    courier_messages::laws::one_item_more();
    courier_messages::laws::a_server_hears_one_item_more();
}

/// A session that calls and a session that is called face each other, and each was fed a prefix of what the other gave.
/// Neither stops at the next item. The calls that the one took, with the call that waits, begin those that the other
/// made, in order. The answers that the caller has, handed or not, begin those that were made.
pub fn sessions_agree()
    ensures server { (made : List RawCall) (back given : List Item) (got : List Message) (t : Talk) (programs : List Program)
        (fed sent : List Item) (taken handed answers : List Message) (a : Answering) (x : Item) → HasDone made back given got t
        → HasAnswered programs fed sent taken handed answers a → Begins (fed ++ x ∷ []) given → (n : Answering)
        × (after_heard a x ≡ Ok n) }
    ensures caller { (made : List RawCall) (back given : List Item) (got : List Message) (t : Talk) (programs : List Program)
        (fed sent : List Item) (taken handed answers : List Message) (a : Answering) (x : Item) → HasDone made back given got t
        → HasAnswered programs fed sent taken handed answers a → Begins fed given → Begins (back ++ x ∷ []) sent → (n : Talk)
        × (after_item t x ≡ Ok n) }
    ensures calls { (made : List RawCall) (back given : List Item) (got : List Message) (t : Talk) (programs : List Program)
        (fed sent : List Item) (taken handed answers : List Message) (a : Answering) → HasDone made back given got t
        → HasAnswered programs fed sent taken handed answers a → Begins fed given
        → Begins (taken ++ option_to_list a.call) (made_messages 1 made) }
    ensures answers { (made : List RawCall) (back given : List Item) (got : List Message) (t : Talk) (programs : List Program)
        (fed sent : List Item) (taken handed answers : List Message) (a : Answering) → HasDone made back given got t
        → HasAnswered programs fed sent taken handed answers a → Begins back sent → Begins (got ++ option_to_list t.outcome) answers }
{
    courier_messages::laws::calls_are_heard();
    courier_messages::laws::a_front_is_heard();
    courier_messages::laws::one_item_more();
    courier_messages::laws::a_server_hears_one_item_more();
}

/// How many words of its own a message has at most: a call that waits has at most 65,530, and any message that was read
/// at most 65,534. Room for so many words always serves.
pub fn words_have_their_room()
    ensures read { (bytes : List ℕ) (m : Message) → message_of bytes ≡ Ok m → MessageHasRoom m }
    ensures call { (programs : List Program) (fed given : List Item) (taken handed answers : List Message) (a : Answering) (m : Message)
        → HasAnswered programs fed given taken handed answers a → a.call ≡ Some m → length (words_in m) ≤ most_call_words }
    ensures outcome { (made : List RawCall) (fed given : List Item) (handed : List Message) (t : Talk) (m : Message)
        → HasDone made fed given handed t → t.outcome ≡ Some m → MessageHasRoom m }
{
    courier_messages::laws::message_is_spelled();
}
