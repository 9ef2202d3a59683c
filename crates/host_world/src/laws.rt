//! What the definitions imply, each as the contract of a function that does nothing.

ghost use Rattle.std.specs.Prelude.{◌≡◌, ◌≢◌, ◌⊎◌, ◌≤◌, ◌∷◌, ◌++◌, [], ℕ, Bool, List, Option, Result, Some, None, Ok, Contains, length, slice_get, true, false};
ghost use Rattle.courier_sessions.specs.declared.program.Program.{Program};
ghost use Rattle.item_world.specs.Side.{other};
ghost use Rattle.item_world.specs.World.{lifetime};
ghost use Rattle.item_world.specs.declared.side.Side.{Side};
ghost use Rattle.item_world.specs.declared.side.Side.TheVariants.{A, B};
ghost use Rattle.host_world.specs.Awaiting.{CannotOpen, HasNewConnection, HasOpened, HostAwaits, IsSentFrom};
ghost use Rattle.host_world.specs.Dialogue.{Course, Dialogue, Happened, Happening, IsAnsweredInOrder, IsNewlyConnected, IsOpening, IsUnheard, View, WasTold};
ghost use Rattle.host_world.specs.Dialogue.{announces, closes, free, goes, held, is_going, is_news, tells};
ghost use Rattle.host_world.specs.Following.{EachFollowed, ProgramHasDone, HasGiven, HostsStandFor, IsFollowed, MayTake, StandsOn, gave_none, over_none};
ghost use Rattle.host_world.specs.Going.{CanFinish};
ghost use Rattle.host_world.specs.Guests.{WhatAHostDoesIsAStepOfTheMeeting};
ghost use Rattle.host_world.specs.Meeting.{Meeting, at};
ghost use Rattle.host_world.specs.MeetingLaws.{MeetingLaws};
ghost use Rattle.host_world.specs.Meets.{Meets, IsMet};
ghost use Rattle.host_world.specs.Pairing.{MayCome, WasMade, with_no_more};
ghost use Rattle.host_world.specs.Seen.{NumberHasHistory, HasLived};
ghost use Rattle.host_world.specs.Station.{IsStation};
ghost use Rattle.host_world.specs.declared.station.Station.{Station};
ghost use Rattle.xns_connection.specs.Living.{Deeds};
ghost use Rattle.xns_connection.specs.declared.conversation.Conversation.{Conversation};
ghost use Rattle.xns_idp.specs.declared.address.Address.{Address};
ghost use Rattle.xns_spp.specs.Packet.{SppPacketModel, spp_packet_of};
ghost use Rattle.xns_host.specs.Hosting.{address_in};
ghost use Rattle.xns_host.specs.Ours.{IsOpener};
ghost use Rattle.xns_host.specs.Turn.{Abandons, ConnectsTo, GivesOut, TakesIn, places_of, whole_of};
ghost use Rattle.xns_host.specs.declared.guest.Guest.{Guest};
ghost use Rattle.xns_host.specs.declared.host.Host.{Host};
ghost use Rattle.xns_host.specs.declared.host_fault.HostFault.{HostFault};
ghost use Rattle.xns_host.specs.declared.outgoing.Outgoing.{Outgoing};
ghost use Rattle.xns_connection.specs.declared.why.Why.{Why};

/// The laws of the crates below that the laws here stand on.
fn meeting_laws_are_given()
    ensures { MeetingLaws }
{
    item_world::laws::end_laws_are_given();
    item_world::laws::each_step_keeps_the_order();
    item_world::laws::no_world_is_stuck();
    xns_connection::laws::one_story_goes_on();
    xns_connection::laws::two_programs_agree();
}

/// Two connections over a network that loses, repeats and reorders packets, where packets that come to one were made by the other, or are
/// no packets of the connection, and none comes once either end has taken more than 30,000 further items since it was made: what each end
/// hands up begins what the other's accepted, and the two programs agree. Each packet that a connection gives was made by its end.
///
/// The functions of a [`crate::Pair`] are these steps, by the clauses of `Connection`: `new` begins; `receive` takes in what comes;
/// `next_packet` moves what can move, which is an act, and gives a packet or none; all other functions are acts.
pub fn two_connections_over_a_network_agree()
    ensures { (a b : Station) (programs : List Program) (m : Meeting) → IsStation a → IsStation b → Meets a b programs m
        → IsMet programs m }
{
    meeting_laws_are_given();
}

/// As long as neither end has taken more than 30,000 items, each packet that a connection gave may come to the other, now or later, once or
/// again.
pub fn a_given_packet_may_come()
    ensures { (a b : Station) (programs : List Program) (m : Meeting) (side : Side) (bytes : List ℕ) → IsStation a → IsStation b
        → Meets a b programs m → ((s : Side) → length (at m s).story.state.taken ≤ lifetime) → Contains (at m side).given bytes
        → MayCome m (other side) bytes }
{
    meeting_laws_are_given();
}

/// Each packet that a connection gave was made at a moment that the world keeps with it. It may come to the other connection, now or in any
/// meeting that the packet is kept in, once or again, as long as neither end has taken more than 30,000 further items since that moment,
/// however many it took before.
pub fn a_given_packet_may_come_while_it_lives()
    ensures { (a b : Station) (programs : List Program) (m : Meeting) (side : Side) (bytes : List ℕ) → IsStation a → IsStation b
        → Meets a b programs m → Contains (at m side).given bytes → WasMade m side bytes }
{
    meeting_laws_are_given();
}

/// What a host does at a connection of a meeting leads on, in few steps, to a meeting that has the connection as it is then. At most one step
/// leads on where the host puts out a call (`calls`) or an answer (`answers`), closes, hands a message (`hands`), does what is due (`acts`),
/// hears an Error packet about a packet of the connection (`not_served`), or takes in bytes that may come (`hears`). No step is needed where
/// the host tells why the connection is closed (`tells`) or that it is open (`announces`). At most two steps lead on where a packet or none
/// is given (`gives`): what can move moves, and then the packet goes out.
pub fn what_a_host_does_is_a_step_of_the_meeting()
    ensures { WhatAHostDoesIsAStepOfTheMeeting }
{
    xns_connection::laws::a_step_keeps_its_promises();
}

/// Whatever is called of a host, it goes on with the meetings that its connections are in: by what the program does (`done`), by a packet
/// that goes out, which one of them gave or none (`gives`), and by bytes that come, where they may come to the connection (`hears`). At
/// each number at most one step of the meeting leads the connection on, and it is in its place then; or the host forgot it behind that step,
/// and it is gone from its place. Where a packet goes out, the steps are at most three: what is due is done, however often, what can move
/// moves, and the packet goes out. A host forgets a connection only if the function tells the program that it is closed, or the program abandons it by
/// the function or was told before, or a peer opened it, it is not closed, and the program was handed no call of it. Where the program
/// abandons one, each other one stays, without a step (`abandons`).
pub fn a_host_goes_on_with_its_meetings()
    ensures done { (h j : Host) (did : ℕ → Deeds → Deeds) (over : ℕ → Bool) → ProgramHasDone h j did over
        → EachFollowed 1 (MayTake None) did gave_none over h j }
    ensures abandons { (number : ℕ) (h j : Host) → Abandons number (Ok tt) h j → (k : ℕ) → k ≢ number
        → IsFollowed 0 (MayTake None) with_no_more [] false (slice_get h.guests.items k) (slice_get j.guests.items k) }
    ensures gives { (now : ℕ) (result : Result (Option Outgoing) HostFault) (h j : Host) → GivesOut now result h j
        → (gave : ℕ → List (List ℕ)) × HasGiven h result gave × EachFollowed 3 (MayTake None) (λ k. with_no_more) gave over_none h j }
    ensures hears { (now way : ℕ) (bytes : List ℕ) (result : Bool) (h j : Host) → TakesIn now way bytes result h j
        → EachFollowed 1 (MayTake (Some bytes)) (λ k. with_no_more) gave_none over_none h j }
{
    xns_connection::laws::a_step_keeps_its_promises();
    xns_connection::laws::a_connection_keeps_its_end();
}

/// Two hosts of which each has a connection of one meeting at a number. Their programs agree, and what each end handed up begins what the
/// other's accepted (`agree`). Whatever is called of the host that calls (`calls`), or of the one that is called (`called`), the hosts stand for
/// a meeting to which that led, in as few steps as [`a_host_goes_on_with_its_meetings`] says: so their programs still agree. Or the host
/// forgot the connection, as that law says it may, behind as few steps, which led to such a meeting.
pub fn two_hosts_agree()
    ensures agree { (h k : Host) (here there : ℕ) (a b : Station) (programs : List Program) (m : Meeting)
        → HostsStandFor h k here there a b programs m → IsMet programs m }
    ensures calls { (h j k : Host) (here there : ℕ) (a b : Station) (programs : List Program) (most : ℕ) (m : Meeting)
        (taken : Option (List ℕ)) (did : ℕ → Deeds → Deeds) (gave : ℕ → List (List ℕ)) (over : ℕ → Bool)
        → HostsStandFor h k here there a b programs m → EachFollowed most (MayTake taken) did gave over h j → MayTake taken m A
        → StandsOn a b programs most m A (did here) (gave here) (over here) (slice_get h.guests.items here) (slice_get j.guests.items here)
        (HostsStandFor j k here there a b programs) }
    ensures called { (h j k : Host) (here there : ℕ) (a b : Station) (programs : List Program) (most : ℕ) (m : Meeting)
        (taken : Option (List ℕ)) (did : ℕ → Deeds → Deeds) (gave : ℕ → List (List ℕ)) (over : ℕ → Bool)
        → HostsStandFor h k here there a b programs m → EachFollowed most (MayTake taken) did gave over k j → MayTake taken m B
        → StandsOn a b programs most m B (did there) (gave there) (over there) (slice_get k.guests.items there) (slice_get j.guests.items there)
        (HostsStandFor h j here there a b programs) }
{
    two_connections_over_a_network_agree();
}

/// Two hosts come to a meeting by the first connection's packet. A host that connects awaits its peer's connection, whichever that will be
/// (`connects`), and still awaits it, whatever is called of the host, until it forgets its own connection (`goes_on`). Each packet that
/// this connection gave names it as the sender (`names`). Where another host takes in a packet that names that sender and opens a
/// connection, the host makes the connection and the packet comes to it; if the packet may come, the two hosts stand for a meeting. Or the
/// host has no room, no identifier or no memory, and its connections stay as they were (`opens`). Where a place that was free has a
/// connection afterwards, the packet made it in this way (`fills`).
///
/// Which connection the peer makes is known only once the packet comes. So what is said before holds of each that it can be, at the address
/// that the host connected to.
pub fn two_hosts_come_to_a_meeting()
    ensures connects { (now way socket here : ℕ) (peer : Address) (h j : Host) → ConnectsTo now way socket peer (Ok here) h j
        → HasNewConnection j here (address_in h.network h.host socket) peer }
    ensures goes_on { (h j : Host) (here : ℕ) (a b : Station) (programs : List Program) (d : Conversation) (most : ℕ) (m : Meeting)
        (taken : Option (List ℕ)) (did : ℕ → Deeds → Deeds) (gave : ℕ → List (List ℕ)) (over : ℕ → Bool)
        → HostAwaits h here a b programs d m → EachFollowed most (MayTake taken) did gave over h j → MayTake taken m A
        → StandsOn a b programs most m A (did here) (gave here) (over here) (slice_get h.guests.items here) (slice_get j.guests.items here)
        (HostAwaits j here a b programs d) }
    ensures names { (h : Host) (here : ℕ) (a b : Station) (programs : List Program) (d : Conversation) (m : Meeting) (bytes : List ℕ)
        → HostAwaits h here a b programs d m → Contains (at m A).given bytes → IsSentFrom a bytes }
    ensures opens { (now way : ℕ) (bytes : List ℕ) (result : Bool) (k l : Host) (p : SppPacketModel) (a : Station)
        → TakesIn now way bytes result k l → spp_packet_of bytes ≡ Ok p → IsOpener (whole_of k) p → IsSentFrom a bytes
        → ((there : ℕ) × HasOpened k l there bytes a) ⊎ ((places_of l ≡ places_of k) × CannotOpen k l) }
    ensures fills { (now way there : ℕ) (bytes : List ℕ) (result : Bool) (k l : Host) (g : Guest) (a : Station)
        → TakesIn now way bytes result k l → slice_get k.guests.items there ≡ Some None → slice_get l.guests.items there ≡ Some (Some g)
        → IsSentFrom a bytes → HasOpened k l there bytes a }
{
    meeting_laws_are_given();
    xns_connection::laws::a_step_keeps_its_promises();
}

/// From every meeting, whatever was lost, repeated and reordered, some further steps of the world that it goes through lead to one in which
/// each item that either connection's end had accepted is handed up at the other and acknowledged. The steps are ticks and flushes of the
/// two ends, packets sent from then on that come, and items handed up: at most twelve for each item that is pending, and twelve more.
///
/// The steps are of the ends, and no clause says that a host takes them. A connection never ticks its end, but has it send its first item
/// again, or a system packet, when that is due. An item is handed up to the connection's session alone, once that has nothing out and is not
/// busy.
pub fn the_ends_of_a_meeting_are_not_stuck()
    ensures { (a b : Station) (programs : List Program) (m : Meeting) → IsStation a → IsStation b → Meets a b programs m → CanFinish m }
{
    meeting_laws_are_given();
}

/// What every history of one number of a host comes to. The k-th answer is to the k-th call, and at most one call is not answered
/// (`order`). The reason that the program is told is the one for which the connection was closed (`reason`), and nothing more of that
/// connection is told behind the reason (`last`). The program is told that a connection is open only of one that it opened, once, before all
/// else of that connection (`opening`). The number becomes free once the program was told the reason, or where a peer opened the connection
/// and the program was told nothing of it (`gone`), or where the program abandons the connection.
pub fn a_number_keeps_its_order()
    ensures order { (xs : List Happening) (d : Dialogue) → Course free xs (held d) → IsAnsweredInOrder d }
    ensures reason { (xs : List Happening) (why : Why) (ys : List Happening) (v : View) → Course free (xs ++ tells why ∷ ys) v
        → Happened (closes why) is_going xs }
    ensures last { (xs : List Happening) (why : Why) (ys : List Happening) (x : Happening) (zs : List Happening) (v : View)
        → Course free (xs ++ tells why ∷ (ys ++ x ∷ zs)) v → is_news x ≡ true
        → (g : Happening) × Contains ys g × (is_going g ≡ true) }
    ensures opening { (xs ys : List Happening) (v : View) → Course free (xs ++ announces ∷ ys) v → IsNewlyConnected xs }
    ensures gone { (xs ys : List Happening) (v : View) → Course free (xs ++ goes ∷ ys) v → WasTold xs ⊎ IsUnheard xs }
{}

/// What happens at a free number of a host is that a connection gets it, the first time (`first`) and after the number became free (`again`).
/// So the program is told nothing more of a connection that it abandoned.
pub fn a_free_number_gets_a_connection()
    ensures first { (x : Happening) (xs : List Happening) (v : View) → Course free (x ∷ xs) v → IsOpening x }
    ensures again { (v : View) (xs : List Happening) (g x : Happening) (ys : List Happening) (w : View)
        → Course v (xs ++ g ∷ (x ∷ ys)) w → is_going g ≡ true → IsOpening x }
{}

/// Each number of a host has a history, whatever functions of the host are called from a new one on, in whatever order. What happened at it
/// leads from the free number to what the number is now, and what the program said and was told there is what is said in it. So what
/// [`a_number_keeps_its_order`] and [`a_free_number_gets_a_connection`] say of histories holds of what a program sees.
///
/// What the program does not see is the host's own, read off the place with the number before and behind each function. A peer opened a
/// connection where one is in the place that was not there before and that a peer opened. A connection was closed where the one in the place
/// is closed and was not before. The number became free where the connection that was in the place is not there any longer, and the program
/// did not abandon it by this function.
pub fn each_number_of_a_host_has_a_history()
    ensures { (h : Host) (said happened : ℕ → List Happening) → HasLived h said happened → (k : ℕ)
        → NumberHasHistory (slice_get h.guests.items k) (said k) (happened k) }
{
    xns_connection::laws::a_connection_keeps_its_end();
}
