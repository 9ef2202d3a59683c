//! What a host does with a packet that came.

ghost use Rattle.std.specs.Prelude.{◌≡◌, ◌≢◌, ◌<◌, ◌≤◌, ◌⊎◌, ℕ, List, Option, length, true, false, Some, None, Ok, Err, slice_get};
ghost use Rattle.std.specs.BTreeMap.{get};
ghost use Rattle.xns_idp.specs.Packet.{IsPacket, most_data, packet_model};
ghost use Rattle.xns_idp.specs.Reading.{packet_of};
ghost use Rattle.xns_idp.specs.declared.packet_type.TheConstants.{ERROR, SEQUENCED_PACKET};
ghost use Rattle.xns_spp.specs.Ends.{is_ours_at};
ghost use Rattle.xns_spp.specs.Held.{StandsFor};
ghost use Rattle.xns_spp.specs.Packet.{IsSppPacket, opener_of, spp_packet_of};
ghost use Rattle.xns_spp.specs.State.{State};
ghost use Rattle.xns_small.specs.Echo.{echo_reply};
ghost use Rattle.xns_small.specs.declared.error_number.TheConstants.{NO_SUCH_SOCKET};

use crate::guest::Guest;
use crate::host::Host;
use crate::peer::Peer;
use crate::quote::{Quote, quoted_packet};
use crate::refusing::ECHO_SOCKET;
use crate::slots::{note, put_in};
use courier_sessions::Program;
use std::alloc::AllocError;
use xns_connection::Connection;
use xns_connection::laws::{a_connection_keeps_its_end, a_step_keeps_its_promises};
use xns_idp::packet_type::{ECHO, ERROR, SEQUENCED_PACKET};
use xns_idp::{Address, Packet, decode};
use xns_small::error_number::{NO_RESOURCES, NO_SUCH_SOCKET};
use xns_spp::{SppPacket, carried_packet};

impl Host {
    ghost use Rattle.xns_host.specs.Coming.{Comes, Opens, Seats};
    ghost use Rattle.xns_host.specs.Hosting.{HasNoRoom, IsAllInUse, IsThere, address_in};
    ghost use Rattle.xns_host.specs.Identifiers.{StaysInOrder};
    ghost use Rattle.xns_host.specs.Ours.{AsksEcho, HasSocket, IsOfGuest, IsSentBy, IsToSocket, QuotesOurs};
    ghost use Rattle.xns_host.specs.Places.{PlaceTurns};
    ghost use Rattle.xns_host.specs.Quotes.{is_sent_by};
    ghost use Rattle.xns_host.specs.Register.{number_by, peer_at, peer_cmp};
    ghost use Rattle.xns_host.specs.Services.{programs_at};
    ghost use Rattle.xns_host.specs.Standing.{StaysSetUp};
    ghost use Rattle.xns_host.specs.Strays.{HasComplained, MayHaveStray, echo_socket, stray_of};
    ghost use Rattle.xns_host.specs.Turn.{TakesIn, places_of, whole_of};
    ghost use Rattle.xns_host.specs.Went.{GuestHears, GuestUnserved};
    ghost use Rattle.xns_host.specs.declared.guest.Guest.{Guest};

    /// Takes a packet in that came by this `via`, and says whether it was for the host. One that was not changes nothing but the host's time:
    /// it is the program's to use.
    pub fn receive(&mut self, now: u64, via: u64, bytes: &[u8]) -> bool
        ensures takes { TakesIn now via bytes.now result self.old self.new }
    {
        let now = self.clock.tell(now);
        let Ok((packet, _)) = decode(bytes) else {
            return false;
        };
        if self.take(now, via, &packet, bytes) {
            return true;
        }
        self.complain(via, &packet, bytes)
    }

    /// Takes in a packet that is for the host: one that belongs to a connection or opens one, an Echo request, or an Error packet about a
    /// packet of a connection; whether it is for the host.
    fn take(&mut self, now: u64, via: u64, packet: &Packet<'_>, bytes: &[u8]) -> bool
        requires fits { IsPacket (packet_model packet.now) }
        requires size { length packet.now.body.now ≤ most_data }
        ensures comes { (taken : ℕ) → packet_of bytes.now ≡ Ok (packet_model packet.now, taken)
            → Comes now via bytes.now (whole_of self.old) result (whole_of self.new) }
        ensures clock { self.new.clock ≡ self.old.clock }
    {
        match packet.kind {
            ECHO => self.echo(via, packet),
            ERROR => self.refused(now, packet),
            SEQUENCED_PACKET => self.sequenced(now, via, packet, bytes),
            _ => false,
        }
    }

    /// Whether the host has a socket: it is served, or a connection was made from it.
    #[tactic(auto, using(crate::proofs::Complaints::of_service, crate::proofs::Complaints::of_caller, crate::proofs::Complaints::of_neither))]
    fn has_socket(&self, socket: u16) -> bool
        ensures yes { result ≡ true → HasSocket self.now.services socket }
        ensures no { result ≡ false → HasSocket self.now.services socket → ⊥ }
    {
        match self.services.at(socket) {
            Some(_) => true,
            None => self.services.has_called(socket),
        }
    }

    /// Whether a packet is a sequenced one of one host, to a socket that this host has.
    #[tactic(auto, using(crate::proofs::Complaints::to_socket, crate::proofs::Complaints::of_every_host))]
    fn is_to_socket(&self, packet: &Packet<'_>) -> bool
        ensures yes { result ≡ true → IsToSocket (whole_of self.now) (packet_model packet.now) }
        ensures no { result ≡ false → IsToSocket (whole_of self.now) (packet_model packet.now) → ⊥ }
    {
        if packet.kind != SEQUENCED_PACKET {
            return false;
        }
        if packet.target.host != self.host {
            return false;
        }
        if packet.source.is_broadcast() {
            return false;
        }
        self.has_socket(packet.target.socket)
    }

    /// Answers a sequenced packet to a socket that the host has by an Error packet: nobody hears it there. Whether the packet is such a one.
    fn complain(&mut self, via: u64, packet: &Packet<'_>, bytes: &[u8]) -> bool
        ensures served { result ≡ true → IsToSocket (whole_of self.old) (packet_model packet.now) }
        ensures unserved { result ≡ false → IsToSocket (whole_of self.old) (packet_model packet.now) → ⊥ }
        ensures waits { result ≡ true → HasComplained (address_in self.old.network self.old.host packet.now.target.socket) NO_SUCH_SOCKET via
            bytes.now self.old.strays self.new.strays }
        ensures unchanged { result ≡ false → self.new.strays ≡ self.old.strays }
        ensures rest { whole_of self.new ≡ record (whole_of self.old) { strays = self.new.strays } }
        ensures clock { self.new.clock ≡ self.old.clock }
    {
        if !self.is_to_socket(packet) {
            return false;
        }
        let own = self.address(packet.target.socket);
        self.strays
            .complain(self.alloc, own, NO_SUCH_SOCKET, via, bytes);
        true
    }

    /// Answers an Echo request, if the settings say so; whether the packet is one that is answered. A request from the broadcast host is
    /// not. Where there is no room or no memory for the answer, it is as if lost.
    #[tactic(auto, using(crate::proofs::Echoes::asks_echo, crate::proofs::Echoes::quiet, crate::proofs::Echoes::every_host, crate::proofs::Echoes::no_request))]
    fn echo(&mut self, via: u64, packet: &Packet<'_>) -> bool
        requires { length packet.now.body.now ≤ most_data }
        ensures asked { result ≡ true → AsksEcho (whole_of self.old) (packet_model packet.now) }
        ensures foreign { result ≡ false → AsksEcho (whole_of self.old) (packet_model packet.now) → ⊥ }
        ensures waits { result ≡ true → MayHaveStray self.old.strays self.new.strays (stray_of via
            (echo_reply (address_in self.old.network self.old.host echo_socket) (packet_model packet.now))) }
        ensures unchanged { result ≡ false → self.new.strays ≡ self.old.strays }
        ensures rest { whole_of self.new ≡ record (whole_of self.old) { strays = self.new.strays } }
        ensures clock { self.new.clock ≡ self.old.clock }
    {
        if !self.settings.answers_echo {
            return false;
        }
        if packet.source.is_broadcast() {
            return false;
        }
        let own = self.address(ECHO_SOCKET);
        match self.strays.echo(self.alloc, own, via, packet) {
            Ok(answered) => answered,
            Err(_) => true,
        }
    }

    /// Closes the connection of which an Error packet quotes a packet that went out lately; whether there is such a connection.
    fn refused(&mut self, now: u64, packet: &Packet<'_>) -> bool
        ensures refuses { packet.now.kind ≡ ERROR → result ≡ true → (quotes : QuotesOurs (whole_of self.old) (packet_model packet.now))
            × PlaceTurns (GuestUnserved now quotes.quote.error) quotes.number (places_of self.old) (places_of self.new) }
        ensures foreign { result ≡ false → QuotesOurs (whole_of self.old) (packet_model packet.now) → ⊥ }
        ensures rest { result ≡ false → places_of self.new ≡ places_of self.old }
        ensures register { self.new.register ≡ self.old.register }
        ensures strays { self.new.strays ≡ self.old.strays }
        ensures set_up { StaysSetUp self.old self.new }
    {
        if packet.target.host != self.host {
            return false;
        }
        let Some(quote) = quoted_packet(packet.body) else {
            return false;
        };
        let Some(number) = self.register.owner(quote.source_id) else {
            return false;
        };
        self.not_served(now, usize::from(number), &quote)
    }

    /// Closes the connection with this number, if the quoted packet went from it to its peer lately.
    #[tactic(auto, using(crate::proofs::Noting::put_back, crate::proofs::Turns::put_registered, crate::proofs::Turns::put_undone, crate::proofs::Placed::no_place, crate::proofs::Placed::other_place))]
    fn not_served(&mut self, now: u64, number: usize, quote: &Quote) -> bool
        ensures turn { result ≡ true → IsThere (IsSentBy quote.now) (slice_get self.old.guests.items number)
            × PlaceTurns (GuestUnserved now quote.now.error) number (places_of self.old) (places_of self.new) }
        ensures foreign { result ≡ false → (g : Guest) (s : State) → slice_get self.old.guests.items number ≡ Some (Some g)
            → StandsFor g.connection.conversation.endpoint s → is_sent_by g s quote.now ≡ false }
        ensures rest { result ≡ false → places_of self.new ≡ places_of self.old }
        ensures register { self.new.register ≡ self.old.register }
        ensures strays { self.new.strays ≡ self.old.strays }
        ensures set_up { StaysSetUp self.old self.new }
    {
        a_connection_keeps_its_end();
        if number >= self.guests.len() {
            return false;
        }
        let Some(guest) = &mut self.guests[number] else {
            return false;
        };
        if !guest.is_sent_by(quote) {
            return false;
        }
        guest.not_served(now, quote.error);
        note(self.guests.as_slice(), &mut self.agenda, number);
        true
    }

    /// Takes in a sequenced packet; whether it is for the host. A packet from the broadcast host opens no connection.
    fn sequenced(&mut self, now: u64, via: u64, carrier: &Packet<'_>, bytes: &[u8]) -> bool
        requires fits { IsPacket (packet_model carrier.now) }
        requires size { length carrier.now.body.now ≤ most_data }
        requires kind { carrier.now.kind ≡ SEQUENCED_PACKET }
        ensures comes { (taken : ℕ) → packet_of bytes.now ≡ Ok (packet_model carrier.now, taken)
            → Comes now via bytes.now (whole_of self.old) result (whole_of self.new) }
        ensures clock { self.new.clock ≡ self.old.clock }
    {
        let Ok(packet) = carried_packet(carrier) else {
            return false;
        };
        if packet.target.host != self.host {
            return false;
        }
        let id = packet.header.target_id;
        let peer = Peer::at(
            &packet.source,
            packet.header.source_id,
            packet.target.socket,
        );
        if let Some(number) = self.register.find(id, &peer) {
            return self.hear(now, usize::from(number), id != 0, &packet);
        }
        if packet.source.is_broadcast() {
            return false;
        }
        self.opening(now, via, peer, &packet, bytes)
    }

    /// Takes in a packet that names connection `number`, if the packet belongs to that connection; whether it does.
    #[tactic(auto, using(crate::proofs::Noting::put_back, crate::proofs::Turns::put_registered, crate::proofs::Turns::put_undone, crate::proofs::Placed::no_place, crate::proofs::Placed::other_place))]
    fn hear(&mut self, now: u64, number: usize, confirms: bool, packet: &SppPacket) -> bool
        requires { IsSppPacket packet.now }
        ensures turn { result ≡ true → IsThere (IsOfGuest packet.now) (slice_get self.old.guests.items number)
            × ((b : List ℕ) → spp_packet_of b ≡ Ok packet.now
            → PlaceTurns (GuestHears now b confirms) number (places_of self.old) (places_of self.new)) }
        ensures foreign { result ≡ false → (g : Guest) (s : State) → slice_get self.old.guests.items number ≡ Some (Some g)
            → StandsFor g.connection.conversation.endpoint s → is_ours_at s.ends packet.now ≡ false }
        ensures rest { result ≡ false → places_of self.new ≡ places_of self.old }
        ensures register { self.new.register ≡ self.old.register }
        ensures strays { self.new.strays ≡ self.old.strays }
        ensures set_up { StaysSetUp self.old self.new }
    {
        a_step_keeps_its_promises();
        a_connection_keeps_its_end();
        xns_spp::laws::written_packet_is_read_again();
        if number >= self.guests.len() {
            return false;
        }
        let Some(guest) = &mut self.guests[number] else {
            return false;
        };
        if !guest.receive(self.alloc, now, confirms, packet) {
            return false;
        }
        note(self.guests.as_slice(), &mut self.agenda, number);
        true
    }

    /// Takes in a packet that names no connection, if it opens one at a socket that is served; whether it does. Where there is no room or no
    /// identifier, the host complains; where memory is refused, that is noted, and the packet is as if lost.
    fn opening(
        &mut self,
        now: u64,
        via: u64,
        opener: Peer,
        packet: &SppPacket,
        bytes: &[u8],
    ) -> bool
        requires packet { IsSppPacket packet.now }
        requires here { packet.now.target.host ≡ self.old.host }
        requires opener { opener ≡ peer_at packet.now.source packet.now.header.source_id packet.now.target.socket }
        requires unknown { number_by self.old.register.identifiers self.old.register.peers packet.now.header.target_id opener ≡ None }
        ensures opens { spp_packet_of bytes.now ≡ Ok packet.now → result ≡ true
            → Opens now via bytes.now packet.now (whole_of self.old) self.new.register self.new.strays (places_of self.new) }
        ensures opener { result ≡ true → (opener_of packet.now ≢ None)
            × (programs_at self.old.services.programs packet.now.target.socket ≢ None) }
        ensures answer { opener_of packet.now ≢ None → programs_at self.old.services.programs packet.now.target.socket ≢ None
            → result ≡ true }
        ensures rest { result ≡ false → whole_of self.new ≡ whole_of self.old }
        ensures set_up { StaysSetUp self.old self.new }
    {
        let Some((peer, peer_id)) = packet.opener() else {
            return false;
        };
        let socket = packet.target.socket;
        let Some(programs) = self.services.at(socket) else {
            return false;
        };
        let Ok(programs) = Vec::from_slice(self.alloc, programs.as_slice()) else {
            self.strays.lose();
            return true;
        };
        let Ok(place) = self.open(now, via, socket, opener, peer, peer_id, programs) else {
            self.strays.lose();
            return true;
        };
        let Some(number) = place else {
            let own = self.address(socket);
            self.strays
                .complain(self.alloc, own, NO_RESOURCES, via, bytes);
            return true;
        };
        self.hear(now, number, false, packet);
        true
    }

    /// Opens a connection for this peer; its number. `None` where no place is free and no connection gives way, or each identifier is in
    /// use. The only error is want of memory. There is no new connection then either.
    fn open(
        &mut self,
        now: u64,
        via: u64,
        socket: u16,
        opener: Peer,
        peer: Address,
        peer_id: u16,
        programs: Vec<Program>,
    ) -> Result<Option<usize>, AllocError>
        requires known { 0 < peer_id }
        requires unknown { get peer_cmp self.old.register.peers opener ≡ None }
        requires opener { opener ≡ peer_at peer peer_id socket }
        ensures opened { (n : ℕ) → result ≡ Ok (Some n)
            → Seats now via (whole_of self.old) socket peer peer_id programs.items n self.new.register (places_of self.new) }
        ensures full { result ≡ Ok None → HasNoRoom self.old.guests.items ⊎ IsAllInUse self.old.register.identifiers }
        ensures unopened { ((n : ℕ) → result ≢ Ok (Some n)) → (places_of self.new ≡ places_of self.old)
            × StaysInOrder self.old.register.identifiers self.new.register.identifiers }
        ensures strays { self.new.strays ≡ self.old.strays }
        ensures set_up { StaysSetUp self.old self.new }
    {
        let Some(number) = self.agenda.place() else {
            return Ok(None);
        };
        let Some(id) = self.register.next() else {
            return Ok(None);
        };
        let own = self.address(socket);
        let terms = self.settings.terms();
        let made = Connection::answering(self.alloc, &terms, own, id, peer, peer_id, programs, now);
        let Ok(connection) = made else {
            return Err(AllocError);
        };
        if self.register.enter(opener, number as u16).is_err() {
            return Err(AllocError);
        }
        let _ = self.register.take(number as u16);
        put_in(
            &mut self.register,
            &mut self.guests,
            &mut self.agenda,
            number,
            Guest::new(connection, via, peer, false),
        );
        Ok(Some(number))
    }
}
