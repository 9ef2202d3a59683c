//! A connection in its place at a host.

ghost use Rattle.std.specs.Prelude.{◌≡◌, ◌≢◌, ◌<◌, ℕ, List, OnErr, OnOk, Ok, None, Some, false, true};
ghost use Rattle.xns_agenda.specs.Waiting.{IsDueAfter, last_time};
ghost use Rattle.xns_host.specs.Events.{event_for, is_newly_open};
ghost use Rattle.xns_host.specs.Hosting.{IsNotDone, facts_of, forgotten_at, may_go, stranger_heard_at};
ghost use Rattle.xns_host.specs.Knowing.{id_of, who_opened};
ghost use Rattle.xns_spp.specs.Ends.{is_ours_at};
ghost use Rattle.xns_spp.specs.Held.{StandsFor};
ghost use Rattle.xns_spp.specs.Packet.{IsSppPacket, spp_packet_of};
ghost use Rattle.xns_spp.specs.State.{State};
ghost use Rattle.xns_host.specs.Quotes.{is_sent_by};
ghost use Rattle.xns_host.specs.Refusing.{TellsRefusal};
ghost use Rattle.xns_host.specs.Requests.{deed_of, request_fault_of};
ghost use Rattle.xns_host.specs.Seating.{new_guest};
ghost use Rattle.xns_connection.specs.Telling.{Goes};
ghost use Rattle.xns_host.specs.Went.{GuestActs, GuestGives, GuestHears, GuestReports, GuestStep, GuestTagged, GuestUnserved};
ghost use Rattle.xns_host.specs.declared.request.Request.TheVariants.{Close};

use crate::event::{Event, event_of};
use crate::host_fault::{HostFault, told};
use crate::outgoing::Outgoing;
use crate::peer::Peer;
use crate::quote::Quote;
use crate::request::Request;
use std::alloc::Global;
use xns_agenda::Facts;
use xns_connection::Connection;
use xns_idp::Address;
use xns_spp::SppPacket;

/// A connection, and what a host knows of it.
#[derive(Drop)]
pub struct Guest {
    pub connection: Connection,
    /// The program's number for the route of its packets.
    pub via: u64,
    /// Whom we opened the connection to, or who opened it.
    pub peer: Address,
    /// Whether a packet of the connection with our identifier came.
    pub confirmed: bool,
    /// Whether the program was handed a message of the connection: a call, where the peer opened it.
    pub heard_of: bool,
    /// Whether the program is still to be told that the connection is open, once it is confirmed: nothing of the connection was told yet.
    pub opening_untold: bool,
    /// The program's own number for the connection, which its events have. 0: none was set.
    pub tag: u64,
}

impl Guest {
    /// A connection that was just made, of which no packet came and nothing was told; whether the program is to be told when it is open.
    pub fn new(connection: Connection, via: u64, peer: Address, opening_untold: bool) -> Guest
        ensures { result ≡ new_guest connection via peer opening_untold }
    {
        Guest {
            connection,
            via,
            peer,
            confirmed: false,
            heard_of: false,
            opening_untold,
            tag: 0,
        }
    }

    /// Our own identifier of the connection.
    #[inline(always)]
    pub fn id(&self) -> u16
        ensures { result ≡ id_of self.now }
    {
        let (_, id) = self.connection.own();
        id
    }

    /// Who opened the connection, and at which socket of ours. `None`: we did.
    pub fn opener(&self) -> Option<Peer>
        ensures { result ≡ who_opened self.now }
    {
        let (peer, id) = self.connection.opener()?;
        let (own, _) = self.connection.own();
        Some(Peer::at(&peer, id, own.socket))
    }

    /// Takes in a packet that was read from bytes, at this time, if the packet belongs to the connection; whether it does. The caller says
    /// whether the packet confirms the connection. Where memory is refused it is as if the packet were lost.
    pub fn receive(&mut self, alloc: Global, now: u64, confirms: bool, packet: &SppPacket) -> bool
        requires { IsSppPacket packet.now }
        ensures ours { (s : State) → StandsFor self.old.connection.conversation.endpoint s → result ≡ is_ours_at s.ends packet.now }
        ensures hears { result ≡ true → (b : List ℕ) → spp_packet_of b ≡ Ok packet.now → GuestHears now b confirms self.old self.new }
        ensures foreign { result ≡ false → self.new ≡ self.old }
    {
        let Ok(ours) = self.connection.receive(alloc, now, packet) else {
            return true;
        };
        if !ours {
            return false;
        }
        if !confirms {
            return true;
        }
        self.confirmed = true;
        true
    }

    /// Does what the program asks.
    pub fn turn(&mut self, alloc: Global, now: u64, request: Request<'_>) -> Result<(), HostFault>
        ensures refused { TellsRefusal (request_fault_of self.old.connection.conversation request.entry) result }
        ensures closes { request.entry ≡ Close → result ≡ Ok tt }
        ensures step { OnOk result (GuestStep now (deed_of request.entry) self.old self.new) }
        ensures unchanged { OnErr result (self.new ≡ self.old) }
    {
        match request {
            Request::Call(call) => told(self.connection.call(alloc, now, call)),
            Request::Answer(answer, words) => {
                told(self.connection.answer(alloc, now, answer, words))
            }
            Request::Close => {
                self.connection.close(alloc, now);
                Ok(())
            }
        }
    }

    /// Gives the connection a tag.
    pub fn set_tag(&mut self, tag: u64)
        ensures { GuestTagged tag self.old self.new }
    {
        self.tag = tag;
    }

    /// Closes the connection, unless it is closed: an Error packet of this number says that nobody hears its packets.
    pub fn not_served(&mut self, now: u64, error: u16)
        ensures unserved { GuestUnserved now error self.old self.new }
        ensures goes { Goes self.old.connection.conversation self.new.connection.conversation }
        ensures not_done { IsNotDone self.old.connection → IsNotDone self.new.connection }
    {
        self.connection.not_served(now, error);
    }

    /// Does what is due of the connection.
    pub fn act(&mut self, now: u64)
        ensures acts { GuestActs now self.old self.new }
        ensures goes { Goes self.old.connection.conversation self.new.connection.conversation }
        ensures later { now < last_time → IsDueAfter now self.new.connection.wait.due }
    {
        self.connection.act(now);
    }

    /// Whether the program is to be told that the connection is open.
    #[inline(always)]
    fn is_newly_open(&self) -> bool
        ensures { result ≡ is_newly_open self.now }
    {
        self.opening_untold && self.confirmed
    }

    /// Takes the next event of this connection, which has this number. `None`: there is none.
    pub fn tell(&mut self, alloc: Global, now: u64, number: usize) -> Option<Event>
        ensures event { result ≡ event_for number self.old }
        ensures tells { result ≢ None → GuestReports now self.old self.new }
        ensures none { result ≡ None → self.new ≡ self.old }
    {
        if self.is_newly_open() {
            self.opening_untold = false;
            return Some(Event::Opened {
                number,
                tag: self.tag,
            });
        }
        if let Some(message) = self.connection.take_message(alloc, now) {
            self.heard_of = true;
            self.opening_untold = false;
            return Some(event_of(number, self.tag, message));
        }
        let why = self.connection.take_why()?;
        self.opening_untold = false;
        Some(Event::Closed {
            number,
            tag: self.tag,
            why,
        })
    }

    /// The next packet of the connection that is to go out. `None`: there is none, until something is done again. The only error is
    /// [`HostFault::NoMemory`]: what is to go out stays so.
    pub fn next_packet(&mut self, alloc: Global, now: u64) -> Result<Option<Outgoing>, HostFault>
        ensures { GuestGives now result self.old self.new }
    {
        match self.connection.next_packet(alloc, now) {
            Ok(Some(packet)) => Ok(Some(Outgoing {
                via: self.via,
                packet,
            })),
            // Memory was refused while items moved.
            Ok(None) if self.connection.has_packet() => Err(HostFault::NoMemory),
            Ok(None) => Ok(None),
            Err(_) => Err(HostFault::NoMemory),
        }
    }

    /// Whether a quoted packet went lately from the connection to its peer.
    pub fn is_sent_by(&self, quote: &Quote) -> bool
        ensures { (s : State) → StandsFor self.now.connection.conversation.endpoint s → result ≡ is_sent_by self.now s quote.now }
    {
        let (own, _) = self.connection.own();
        let (target, target_id) = self.connection.peer().unwrap_or((self.peer, 0));
        own.is_same_place(&quote.source)
            && target.is_same_place(&quote.target)
            && target_id == quote.target_id
            && self.connection.is_out(quote.sequence)
    }

    /// When the connection, which lingers, is forgotten. `None`: it is open, or the program was not told that it is closed, or it lingers no
    /// more.
    #[inline(always)]
    fn forgotten_at(&self) -> Option<u64>
        ensures { result ≡ forgotten_at self.now.connection }
    {
        if self.connection.is_closed() && self.connection.is_told() {
            self.connection.due().time()
        } else {
            None
        }
    }

    /// When its peer was last heard, if that peer only opened the connection.
    #[inline(always)]
    fn stranger_heard_at(&self) -> Option<u64>
        ensures { result ≡ stranger_heard_at self.now }
    {
        if self.connection.peer_opened()
            && !self.confirmed
            && !self.heard_of
            && !self.connection.is_closed()
            && !self.connection.has_event()
        {
            Some(self.connection.heard_at())
        } else {
            None
        }
    }

    /// What a host has to know of the connection.
    #[inline(always)]
    pub fn facts(&self) -> Facts
        ensures { result ≡ facts_of self.now }
    {
        Facts {
            due: self.connection.due().time(),
            has_packet: self.connection.has_packet(),
            has_event: self.is_newly_open() || self.connection.has_event(),
            forgotten_at: self.forgotten_at(),
            stranger_heard_at: self.stranger_heard_at(),
        }
    }

    /// Whether the connection may be forgotten: it is closed, the program was told, and it lingers no more.
    pub fn is_done(&self) -> bool
        ensures { result ≡ may_go self.now.connection }
    {
        self.connection.is_closed()
            && self.connection.is_told()
            && (self.connection.is_dead() || self.connection.due().time().is_none())
    }
}
