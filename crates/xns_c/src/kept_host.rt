//! A host that C holds.

ghost use Rattle.std.specs.Prelude.{◌≡◌, IfOk, OnErr, Some, None, Ok, Err, length};
ghost use Rattle.xns_connection.specs.Calls.{raw_of_call};
ghost use Rattle.xns_host.specs.Settings.{wrong_setting};
ghost use Rattle.xns_host.specs.Standing.{IsNewHost};
ghost use Rattle.xns_host.specs.Turn.{GivesOut, TellsNext};
ghost use Rattle.xns_host.specs.declared.event.Event.{Event};
ghost use Rattle.xns_host.specs.declared.host_fault.HostFault.TheVariants.{NoMemory, OutOfRange};
ghost use Rattle.xns_host.specs.declared.outgoing.Outgoing.{Outgoing};
ghost use Rattle.xns_host.specs.declared.setting.Setting.{Setting};
ghost use Rattle.xns_c.specs.Heads.{answer_of_kind};
ghost use Rattle.xns_c.specs.Hosts.{AbandonsOne, HostCalls, AnswersCall, Closes, HostMoves, HostServes, Receives, Wakes, FetchesEvent, FetchesPacket};
ghost use Rattle.xns_c.specs.Hosts.{TagsOne, keeps_answer, kept_after, kept_closing, kept_tagging};

use crate::address::XnsAddress;
use crate::event::XnsEvent;
use crate::faults::host_told;
use crate::front::put_front;
use crate::heads::answer_of_kind;
use crate::results::{BAD_ARGUMENT, BUSY, NO_MEMORY, NOTHING, OK, SHORT_BUFFER};
use crate::telling_events::{give_event, is_answer, number_of, set_tag};
use courier_sessions::Program;
use std::alloc::Global;
use xns_host::{Call, Event, Host, HostFault, Outgoing, Settings};

/// Never: a time that does not come.
pub const NEVER: u64 = u64::MAX;

/// A host, and what was fetched of it that the buffer had no room for.
#[derive(Drop)]
pub struct KeptHost {
    pub host: Host,
    pub event: Option<Event>,
    pub packet: Option<Outgoing>,
}

impl KeptHost {
    /// A host at this address, whose socket is not looked at.
    ///
    /// An `Err` is [`HostFault::OutOfRange`] or [`HostFault::NoMemory`].
    pub fn new(
        alloc: Global,
        own: &XnsAddress,
        settings: Settings,
        secret: &[u8; 32],
    ) -> Result<KeptHost, HostFault>
        ensures made { IfOk result (λ k. IsNewHost own.now.network own.now.host settings secret.now k.host) }
        ensures room { IfOk result (λ k. length k.host.guests.items ≡ settings.connections) }
        ensures empty { IfOk result (λ k. (k.event ≡ None) × (k.packet ≡ None)) }
        ensures settings { (s : Setting) → wrong_setting settings ≡ Some s → result ≡ Err (OutOfRange s) }
        ensures fault { OnErr result (wrong_setting settings ≡ None → result ≡ Err NoMemory) }
    {
        let host = Host::new(alloc, own.network, own.host, settings, *secret)?;
        Ok(KeptHost {
            host,
            event: None,
            packet: None,
        })
    }

    /// Tells the host its network.
    pub fn set_network(&mut self, network: u32)
        ensures { HostMoves self.old self.new network }
    {
        self.host.set_network(network);
    }

    /// Answers connections to this socket from now on, for these programs.
    pub fn serve(&mut self, socket: u16, programs: &[Program]) -> u32
        ensures { HostServes self.old self.new socket programs.now result }
    {
        host_told(self.host.serve(socket, programs))
    }

    /// Whether an answer on the connection with this number is kept.
    fn keeps_answer(&self, number: usize) -> bool
        ensures { result ≡ keeps_answer self.now.event number }
    {
        match &self.event {
            Some(event) => is_answer(event) && number_of(event) == number,
            None => false,
        }
    }

    /// Puts out a call, unless the answer to the one before is kept.
    pub fn call(&mut self, now: u64, number: usize, call: &Call<'_>) -> u32
        ensures { HostCalls self.old self.new now number (raw_of_call call.now) result }
    {
        if self.keeps_answer(number) {
            return BUSY;
        }
        host_told(self.host.call(now, number, call))
    }

    /// Lets the event go that is kept of the connection with this number, where its call was answered or it was abandoned.
    fn let_go(&mut self, number: usize, told: u32)
        ensures { self.new ≡ record self.old { event = kept_after self.old.event number told } }
    {
        if told != OK {
            return;
        }
        let Some(event) = &self.event else {
            return;
        };
        if number_of(event) == number {
            self.event = None;
        }
    }

    /// Answers the call that was handed, or is kept, which then goes.
    pub fn answer(&mut self, now: u64, number: usize, kind: u8, code: u16, words: &[u16]) -> u32
        ensures { AnswersCall self.old self.new now number (answer_of_kind kind code) words.now result }
    {
        let Some(answer) = answer_of_kind(kind, code) else {
            return BAD_ARGUMENT;
        };
        let result = host_told(self.host.answer(now, number, answer, words));
        self.let_go(number, result);
        result
    }

    /// Lets the answer go that is kept on the connection with this number, where that was closed.
    fn let_answer_go(&mut self, number: usize, told: u32)
        ensures { self.new ≡ record self.old { event = kept_closing self.old.event number told } }
    {
        if told == OK && self.keeps_answer(number) {
            self.event = None;
        }
    }

    /// Closes a connection. An answer on it that is kept goes.
    pub fn close(&mut self, now: u64, number: usize) -> u32
        ensures { Closes self.old self.new now number result }
    {
        let result = host_told(self.host.close(now, number));
        self.let_answer_go(number, result);
        result
    }

    /// Abandons a connection. What is kept of it goes; a packet that is kept stays.
    pub fn abandon(&mut self, number: usize) -> u32
        ensures { AbandonsOne self.old self.new number result }
    {
        let result = host_told(self.host.abandon(number));
        self.let_go(number, result);
        result
    }

    /// Gives the event a tag that is kept of the connection with this number, where that was given it.
    fn tag_event(&mut self, number: usize, tag: u64, told: u32)
        ensures { self.new ≡ record self.old { event = kept_tagging self.old.event number tag told } }
    {
        if told != OK {
            return;
        }
        let Some(event) = &mut self.event else {
            return;
        };
        if number_of(event) != number {
            return;
        }
        set_tag(event, tag);
    }

    /// Gives a connection a tag, and the event that is kept of it.
    pub fn set_tag(&mut self, number: usize, tag: u64) -> u32
        ensures { TagsOne self.old self.new number tag result }
    {
        let result = host_told(self.host.set_tag(number, tag));
        self.tag_event(number, tag, result);
        result
    }

    /// Takes a packet in. `NOTHING`: it was not for the host.
    pub fn receive(&mut self, now: u64, via: u64, bytes: &[u8]) -> u32
        ensures { Receives self.old self.new now via bytes.now result }
    {
        if self.host.receive(now, via, bytes) {
            OK
        } else {
            NOTHING
        }
    }

    /// Takes the event that is kept, or else fetches the next one.
    fn take_event(&mut self) -> Option<Event>
        ensures kept { (e : Event) → self.old.event ≡ Some e → (result ≡ Some e) × (self.new.host ≡ self.old.host) }
        ensures tells { self.old.event ≡ None → TellsNext result self.old.host self.new.host }
        ensures taken { self.new.event ≡ None }
        ensures packet { self.new.packet ≡ self.old.packet }
    {
        if self.event.is_none() {
            return self.host.next_event();
        }
        self.event.take()
    }

    /// Tells the next event, its words to the front of a buffer. One whose words have no room is kept.
    pub fn next_event(&mut self, event: &mut XnsEvent, words: &mut [u16], count: &mut usize) -> u32
        ensures { FetchesEvent self.old self.new event.old event.new words.old words.new count.old count.new result }
    {
        let Some(found) = self.take_event() else {
            return NOTHING;
        };
        let result = give_event(&found, event, words, count);
        if result == SHORT_BUFFER {
            self.event = Some(found);
        }
        result
    }

    /// Takes the packet that is kept, or else fetches the next one. An `Err`: there is none, for want of memory.
    fn take_packet(&mut self, now: u64) -> Result<Option<Outgoing>, HostFault>
        ensures kept { (p : Outgoing) → self.old.packet ≡ Some p → (result ≡ Ok (Some p)) × (self.new.host ≡ self.old.host) }
        ensures gives { self.old.packet ≡ None → GivesOut now result self.old.host self.new.host }
        ensures taken { self.new.packet ≡ None }
        ensures event { self.new.event ≡ self.old.event }
    {
        if self.packet.is_none() {
            return self.host.next_packet(now);
        }
        Ok(self.packet.take())
    }

    /// Puts the next packet to the front of a buffer. One that has no room is kept.
    pub fn next_packet(
        &mut self,
        now: u64,
        buffer: &mut [u8],
        written: &mut usize,
        via: &mut u64,
    ) -> u32
        ensures { FetchesPacket self.old self.new now buffer.old buffer.new written.old written.new via.old via.new result }
    {
        let found = match self.take_packet(now) {
            Ok(Some(found)) => found,
            Ok(None) => return NOTHING,
            Err(_) => return NO_MEMORY,
        };
        let way = found.via;
        let told = put_front(found.packet.as_slice(), buffer, written);
        if told == SHORT_BUFFER {
            self.packet = Some(found);
        } else {
            *via = way;
        }
        told
    }

    /// When the host wants to be asked at the latest: at once, which is 0, where something is kept.
    #[tactic(auto, using(crate::proofs::Hosts::wakes_host))]
    pub fn wake(&self) -> u64
        ensures { Wakes self.now result }
    {
        if self.event.is_some() || self.packet.is_some() {
            return 0;
        }
        match self.host.wake() {
            Some(time) => time,
            None => NEVER,
        }
    }
}
