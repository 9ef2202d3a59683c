//! What the definitions imply, each as the contract of a function that does nothing.

ghost use Rattle.std.specs.Prelude.{◌≡◌, ◌≢◌, ◌≤◌, ◌∷◌, ◌++◌, [], ℕ, Any, List};
ghost use Rattle.xns_host.specs.Following.{AConnectionHearsItsPackets, AHostKnowsWhereItCalledFrom, ASilentHostHasNothingToTell};
ghost use Rattle.xns_host.specs.Following.{AStarvedHostRests, AnIdleHostHasNoPacket, NoNetworkDecides, OfWhatNobodyHearsItComplains};
ghost use Rattle.xns_host.specs.Following.{WhoIsQuotedIsNotServed};
ghost use Rattle.xns_host.specs.Identifiers.{IsOrder, Ids, IdentifierTurn, Given, HadTurn, most_id};

/// Before an identifier is given again, each other one is given, or is in use when one is given, whoever has which one in between.
pub fn an_identifier_comes_again_behind_all_others()
    ensures { (start now : Ids) (before since later : List IdentifierTurn) (once again : IdentifierTurn) (id : ℕ) → IsOrder start.ahead
        → Given start (before ++ once ∷ since ++ again ∷ later) now → again.given ≡ once.given → 1 ≤ id → id ≤ most_id
        → id ≢ once.given → Any (HadTurn id) (since ++ again ∷ []) }
{}

/// Where a host tells no event, no connection has anything to tell; where it gives no packet, none of a connection may be to go out. Where
/// memory was refused for one, packets of connections are asked for again the first wait later.
pub fn nothing_is_left()
    ensures event { ASilentHostHasNothingToTell }
    ensures packet { AnIdleHostHasNoPacket }
    ensures rests { AStarvedHostRests }
{}

/// Each connection hears the packets that are its own. An Error packet that quotes what the connection sent lately, and whose number says
/// that nobody hears it, closes it as not served, unless it is closed already. Both are the host's. Which packets are the host's is not
/// decided by its network.
pub fn packets_come_to_their_connections()
    ensures sequenced { AConnectionHearsItsPackets }
    ensures error { WhoIsQuotedIsNotServed }
    ensures network { NoNetworkDecides }
{}

/// Of a sequenced packet of one host to a socket that this host has, which is no packet of the host's, it complains. It has each socket from
/// which it made a connection.
pub fn a_host_complains_at_its_sockets()
    ensures complains { OfWhatNobodyHearsItComplains }
    ensures called { AHostKnowsWhereItCalledFrom }
{}
