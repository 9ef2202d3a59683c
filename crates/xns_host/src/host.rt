//! Many connections behind one address.

ghost use Rattle.std.specs.Prelude.{◌≡◌, ◌≤◌, ◌⊎◌, Option, length, false, IfOk, OnErr, Some, None, Ok, Err, count_by, slice_get};
ghost use Rattle.std.specs.Option.{is_some};
ghost use Rattle.xns_connection.specs.Calls.{raw_of_call};
ghost use Rattle.xns_connection.specs.Deeds.{asked, gave, made};
ghost use Rattle.xns_host.specs.Hosting.{HasNoRoom, HasNoneDone, IsAllInUse, IsAllNoted, IsFirstWant, address_in, has_guest};
ghost use Rattle.xns_host.specs.Numbers.{IsNumberFrom};
ghost use Rattle.xns_connection.specs.Reasons.{answer_fault_of, call_fault_of};
ghost use Rattle.xns_host.specs.Refusing.{TellsRefusal, wrong_ends};
ghost use Rattle.xns_host.specs.Registered.{IsAllRegistered};
ghost use Rattle.xns_host.specs.Requests.{deed_of, request_fault_of};
ghost use Rattle.xns_host.specs.Settings.{IsFit, most_connections, wrong_setting};
ghost use Rattle.xns_host.specs.declared.guest.Guest.{Guest};
ghost use Rattle.xns_host.specs.declared.host_fault.HostFault.{HostFault};
ghost use Rattle.xns_host.specs.declared.host_fault.HostFault.TheVariants.{NoConnection, NoMemory, NoRoom, OutOfRange};
ghost use Rattle.xns_host.specs.declared.request.Request.TheVariants.{Close};
ghost use Rattle.xns_host.specs.declared.setting.Setting.{Setting};

mod fetching;
mod receiving;
mod tagging;

use crate::guest::Guest;
use crate::host_fault::HostFault;
use crate::numbers::number_from;
use crate::refusing::wrong_ends;
use crate::register::Register;
use crate::request::Request;
use crate::services::Services;
use crate::settings::Settings;
use crate::slots::{count, forget_in, no_guests, note, put_in};
use crate::strays::Strays;
use courier_sessions::{Answer, Program};
use std::alloc::{AllocError, Global};
use xns_agenda::{Agenda, Clock};
use xns_connection::laws::{a_connection_keeps_its_end, a_step_keeps_its_promises};
use xns_connection::{Call, Connection};
use xns_idp::Address;

/// Many Courier conversations behind one address. The program hands the host the packets that came, and the time. The host hands the
/// program the packets that are to go out, the calls and the answers of peers, and the time at which it wants to be asked again. A host has
/// no socket, no clock and no thread of its own.
///
/// Times are in milliseconds of any clock. A host goes by the steps forward: one back counts as none, and one of more than a day as a day.
#[derive(Drop)]
pub struct Host {
    alloc: Global,
    network: u32,
    host: [u8; 6],
    settings: Settings,
    clock: Clock,
    services: Services,
    register: Register,
    /// The connections by their numbers.
    guests: Vec<Option<Guest>>,
    agenda: Agenda,
    strays: Strays,
    ghost fit: { IsFit settings },
    ghost sized: { length guests.items ≡ length agenda.dues },
    ghost few: { length guests.items ≤ most_connections },
    ghost settled: { length guests.items ≡ settings.connections },
    // The agenda says what is to be done of each connection, and of nothing else.
    ghost noted: { IsAllNoted agenda guests.items },
    // The register leads each name of a connection to that connection, and nothing else anywhere.
    ghost registered: { IsAllRegistered register guests.items },
    // Each connection that may be forgotten is forgotten.
    ghost not_done: { HasNoneDone guests.items },
}

impl Host {
    ghost use Rattle.xns_host.specs.Standing.{IsNewHost};
    ghost use Rattle.xns_host.specs.Turn.{Abandons, ConnectsTo, MovesTo, ServesAt, ServesNot, Turn, WakesAt};

    /// A host at this address, without services and connections. The identifiers of its connections come in an order that the secret
    /// gives.
    ///
    /// An `Err` is [`HostFault::OutOfRange`] with the first setting that is out of its range, or [`HostFault::NoMemory`].
    pub fn new(
        alloc: Global,
        network: u32,
        host: [u8; 6],
        settings: Settings,
        secret: [u8; 32],
    ) -> Result<Host, HostFault>
        ensures made { IfOk result (IsNewHost network host settings secret) }
        ensures room { IfOk result (λ h. length h.guests.items ≡ settings.connections) }
        ensures settings { (s : Setting) → wrong_setting settings ≡ Some s → result ≡ Err (OutOfRange s) }
        ensures fault { OnErr result (wrong_setting settings ≡ None → result ≡ Err NoMemory) }
    {
        settings.check()?;
        match Host::made(alloc, network, host, settings, secret) {
            Ok(host) => Ok(host),
            Err(_) => Err(HostFault::NoMemory),
        }
    }

    fn made(
        alloc: Global,
        network: u32,
        host: [u8; 6],
        settings: Settings,
        secret: [u8; 32],
    ) -> Result<Host, AllocError>
        requires { IsFit settings }
        ensures made { IfOk result (IsNewHost network host settings secret) }
        ensures room { IfOk result (λ h. length h.guests.items ≡ settings.connections) }
    {
        Ok(Host {
            alloc,
            network,
            host,
            settings,
            clock: Clock::new(),
            services: Services::new(alloc)?,
            register: Register::new(alloc, secret)?,
            guests: no_guests(alloc, settings.connections)?,
            agenda: Agenda::new(alloc, settings.connections)?,
            strays: Strays::new(alloc, settings.strays)?,
        })
    }

    /// The address of a socket of ours.
    fn address(&self, socket: u16) -> Address
        ensures { result ≡ address_in self.now.network self.now.host socket }
    {
        Address {
            network: self.network,
            host: self.host,
            socket,
        }
    }

    /// The host is at this network from now on: new connections and Echo replies have its number. Those that are there keep theirs. Which
    /// packets are the host's is not decided by networks.
    pub fn set_network(&mut self, network: u32)
        ensures moves { MovesTo network self.old self.new }
    {
        self.network = network;
    }

    /// From now on connections that peers open to this socket are answered, for these programs; where there are none, each call is
    /// handed. If the socket is served already, its list is replaced for new connections.
    ///
    /// An `Err`, which leaves all as it was, is [`HostFault::EchoSocket`] for socket 2, [`HostFault::NoVersion`] where the lowest version of
    /// a program is above its highest, [`HostFault::TooManyServices`] where 16 other sockets are served, or [`HostFault::NoMemory`] where
    /// memory is refused for a program, or for a socket that was not served.
    pub fn serve(&mut self, socket: u16, programs: &[Program]) -> Result<(), HostFault>
        ensures serves { ServesAt socket programs.now result self.old self.new }
        ensures refused { ServesNot self.old socket programs.now result }
    {
        self.services.serve(self.alloc, socket, programs)
    }

    /// Opens a connection from this socket of ours to the peer, whose side calls; its number. Its packets go out by this `via`. From then on
    /// the host complains of sequenced packets to the socket that are of no connection.
    ///
    /// An `Err`, which changes nothing but the host's time, is [`HostFault::EveryHost`] to or from the broadcast host, [`HostFault::NoSocket`] to or from socket
    /// 0, [`HostFault::NoRoom`] where there is no room and none gives way or each identifier is in use, or [`HostFault::NoMemory`].
    pub fn connect(
        &mut self,
        now: u64,
        via: u64,
        socket: u16,
        peer: Address,
    ) -> Result<usize, HostFault>
        ensures wrong { (f : HostFault) → wrong_ends (address_in self.old.network self.old.host socket) peer ≡ Some f → result ≡ Err f }
        ensures full { wrong_ends (address_in self.old.network self.old.host socket) peer ≡ None
            → HasNoRoom self.old.guests.items → result ≡ Err NoRoom }
        ensures used { wrong_ends (address_in self.old.network self.old.host socket) peer ≡ None
            → IsAllInUse self.old.register.identifiers → result ≡ Err NoRoom }
        ensures room { wrong_ends (address_in self.old.network self.old.host socket) peer ≡ None → result ≡ Err NoRoom
            → HasNoRoom self.old.guests.items ⊎ IsAllInUse self.old.register.identifiers }
        ensures fault { OnErr result (wrong_ends (address_in self.old.network self.old.host socket) peer ≡ None
            → (result ≡ Err NoRoom) ⊎ (result ≡ Err NoMemory)) }
        ensures connects { ConnectsTo now via socket peer result self.old self.new }
    {
        let now = self.clock.tell(now);
        let own = self.address(socket);
        if let Some(fault) = wrong_ends(&own, &peer) {
            return Err(fault);
        }
        let Some(number) = self.agenda.place() else {
            return Err(HostFault::NoRoom);
        };
        let Some(id) = self.register.next() else {
            return Err(HostFault::NoRoom);
        };
        let terms = self.settings.terms();
        let Ok(connection) = Connection::calling(self.alloc, &terms, own, id, peer, now) else {
            return Err(HostFault::NoMemory);
        };
        let _ = self.register.take(number as u16);
        self.services.note_caller(socket);
        put_in(
            &mut self.register,
            &mut self.guests,
            &mut self.agenda,
            number,
            Guest::new(connection, via, peer, self.settings.tells_opened),
        );
        Ok(number)
    }

    /// Does at the connection with this number what the program asks, and notes what is to be done of it then.
    #[tactic(auto, using(crate::proofs::Noting::put_back))]
    fn turn(&mut self, now: u64, number: usize, request: Request<'_>) -> Result<(), HostFault>
        ensures none { has_guest (slice_get self.old.guests.items number) ≡ false → result ≡ Err (NoConnection number) }
        ensures refused { (g : Guest) → slice_get self.old.guests.items number ≡ Some (Some g)
            → TellsRefusal (request_fault_of g.connection.conversation request.entry) result }
        ensures closes { (g : Guest) → slice_get self.old.guests.items number ≡ Some (Some g) → request.entry ≡ Close → result ≡ Ok tt }
        ensures turn { Turn now number (deed_of request.entry) result self.old self.new }
    {
        a_step_keeps_its_promises();
        a_connection_keeps_its_end();
        let now = self.clock.tell(now);
        if number >= self.guests.len() {
            return Err(HostFault::NoConnection { number });
        }
        let Some(guest) = &mut self.guests[number] else {
            return Err(HostFault::NoConnection { number });
        };
        guest.turn(self.alloc, now, request)?;
        note(self.guests.as_slice(), &mut self.agenda, number);
        Ok(())
    }

    /// Puts out a call on a connection that was opened by [`connect`](Host::connect).
    ///
    /// An `Err`, which changes nothing but the host's time, is the first of these: [`HostFault::NoConnection`];
    /// [`HostFault::Closing`] where the connection is closed, was asked to close, or its peer closes it; [`HostFault::PeerCalls`] where the
    /// peer opened it; [`HostFault::Busy`] while a call waits or its answer was not fetched; [`HostFault::TooLong`] over 65,530 words;
    /// [`HostFault::NoMemory`].
    pub fn call(&mut self, now: u64, number: usize, call: &Call<'_>) -> Result<(), HostFault>
        ensures none { has_guest (slice_get self.old.guests.items number) ≡ false → result ≡ Err (NoConnection number) }
        ensures refused { (g : Guest) → slice_get self.old.guests.items number ≡ Some (Some g)
            → TellsRefusal (call_fault_of g.connection.conversation (raw_of_call call.now)) result }
        ensures turn { Turn now number (made (raw_of_call call.now)) result self.old self.new }
    {
        self.turn(now, number, Request::Call(call))
    }

    /// Answers the call that was handed of this connection.
    ///
    /// An `Err`, which changes nothing but the host's time, is the first of these: [`HostFault::NoConnection`];
    /// [`HostFault::Closing`] where the connection is closed; [`HostFault::NoCall`] where no call was handed that is not answered;
    /// [`HostFault::TooLong`] over 131,072 bytes; [`HostFault::NoMemory`].
    pub fn answer(
        &mut self,
        now: u64,
        number: usize,
        answer: Answer,
        words: &[u16],
    ) -> Result<(), HostFault>
        ensures none { has_guest (slice_get self.old.guests.items number) ≡ false → result ≡ Err (NoConnection number) }
        ensures refused { (g : Guest) → slice_get self.old.guests.items number ≡ Some (Some g)
            → TellsRefusal (answer_fault_of g.connection.conversation answer words.now) result }
        ensures turn { Turn now number (gave answer words.now) result self.old self.new }
    {
        self.turn(now, number, Request::Answer(answer, words))
    }

    /// Closes a connection once all that it has to say is said. An `Err`, which changes nothing but the host's time, is
    /// [`HostFault::NoConnection`].
    pub fn close(&mut self, now: u64, number: usize) -> Result<(), HostFault>
        ensures none { has_guest (slice_get self.old.guests.items number) ≡ false → result ≡ Err (NoConnection number) }
        ensures some { (g : Guest) → slice_get self.old.guests.items number ≡ Some (Some g) → result ≡ Ok tt }
        ensures turn { Turn now number asked result self.old self.new }
    {
        self.turn(now, number, Request::Close)
    }

    /// Whether there is a connection with this number.
    fn has(&self, number: usize) -> bool
        ensures { result ≡ has_guest (slice_get self.now.guests.items number) }
    {
        match self.guests.get(number) {
            Some(Some(_)) => true,
            _ => false,
        }
    }

    /// Abandons a connection: it is gone at once, nothing of it goes out any longer, its closing is not told, and its number is free. What
    /// still comes for it is as of a connection that is not there. An `Err`, which changes nothing, is [`HostFault::NoConnection`].
    pub fn abandon(&mut self, number: usize) -> Result<(), HostFault>
        ensures none { has_guest (slice_get self.old.guests.items number) ≡ false → result ≡ Err (NoConnection number) }
        ensures some { (g : Guest) → slice_get self.old.guests.items number ≡ Some (Some g) → result ≡ Ok tt }
        ensures gone { Abandons number result self.old self.new }
    {
        if !self.has(number) {
            return Err(HostFault::NoConnection { number });
        }
        forget_in(
            &mut self.register,
            &mut self.guests,
            &mut self.agenda,
            number,
        );
        Ok(())
    }

    /// When the host wants to be asked at the latest, by its own time; 0 is at once. `None`: never, until something is done.
    fn first_want(&self) -> Option<u64>
        ensures { IsFirstWant self.now.strays.waiting self.now.guests.items self.now.agenda.short result }
    {
        if !self.strays.is_empty() {
            return Some(0);
        }
        self.agenda.wake()
    }

    /// When the host wants to be asked at the latest, by the clock that it was told last: [`next_event`](Host::next_event) until it tells
    /// nothing, and then [`next_packet`](Host::next_packet). 0, which is at once, where something may be to be told or to go out. Where
    /// memory was refused for a packet and nothing was done since, packets of connections want it the first wait later. `None`: never,
    /// until something is done.
    pub fn wake(&self) -> Option<u64>
        ensures { WakesAt self.now result }
    {
        self.clock.when_told(self.first_want())
    }

    /// How many connections there are: at most as many as the settings say.
    pub fn connections(&self) -> usize
        ensures count { result ≡ count_by is_some self.now.guests.items }
        ensures bound { result ≤ self.now.settings.connections }
    {
        count(self.guests.as_slice())
    }

    /// Whom the connection with this number was opened to, or who opened it. `None`: there is no such connection.
    pub fn peer(&self, number: usize) -> Option<Address>
        ensures some { (g : Guest) → slice_get self.now.guests.items number ≡ Some (Some g) → result ≡ Some g.peer }
        ensures none { has_guest (slice_get self.now.guests.items number) ≡ false → result ≡ None }
    {
        match self.guests.get(number) {
            Some(Some(guest)) => Some(guest.peer),
            _ => None,
        }
    }

    /// The first number from this one on that a connection has: with [`connections`](Host::connections) a walk over all. `None`: no
    /// connection has one.
    pub fn number_from(&self, from: usize) -> Option<usize>
        ensures { IsNumberFrom self.now.guests.items from result }
    {
        number_from(self.guests.as_slice(), from)
    }
}
