//! What a host tells its program next, and which packet goes out next.

ghost use Rattle.std.specs.Prelude.{◌≡◌, ◌<◌, Option, length, true, false, OnErr, Some, None, Ok, Err, slice_get};
ghost use Rattle.xns_agenda.specs.Turns.{has_turn, with_turn};
ghost use Rattle.xns_agenda.specs.Waiting.{last_time, later};

use crate::event::Event;
use crate::host::Host;
use crate::host_fault::HostFault;
use crate::outgoing::Outgoing;
use crate::slots::{note, settle_in};
use xns_connection::laws::{
    a_connection_gives_what_it_made, a_connection_keeps_its_end, a_message_is_handed_as_by_a_step,
};

impl Host {
    ghost use Rattle.xns_host.specs.Hosting.{ActsIn, EachActs, IsApart};
    ghost use Rattle.xns_host.specs.Identifiers.{StaysInOrder};
    ghost use Rattle.xns_host.specs.Places.{ActsOneByOne, ActsAt, AsksEvent, AsksPacket, resting};
    ghost use Rattle.xns_host.specs.Standing.{StaysSetUp};
    ghost use Rattle.xns_host.specs.Turn.{GivesOut, TellsNext, places_of};
    ghost use Rattle.xns_host.specs.declared.guest.Guest.{Guest};
    ghost use Rattle.xns_host.specs.declared.host_fault.HostFault.TheVariants.{NoMemory};

    /// Takes the next event of connection `number`, which goes to the back of the queue if it may have another. `None`: the connection has no
    /// event, and leaves the queue.
    #[tactic(auto, using(crate::proofs::Turns::put_registered, crate::proofs::Turns::put_undone))]
    fn event(&mut self, number: usize) -> Option<Event>
        requires { number < length self.old.guests.items }
        ensures asks { AsksEvent self.old.clock.latest number (places_of self.old) result (places_of self.new) }
        ensures passed { result ≡ None → self.new.agenda
            ≡ record self.old.agenda { events = with_turn self.old.agenda.events number false } }
        ensures order { StaysInOrder self.old.register.identifiers self.new.register.identifiers }
        ensures strays { self.new.strays ≡ self.old.strays }
        ensures set_up { StaysSetUp self.old self.new }
    {
        a_message_is_handed_as_by_a_step();
        a_connection_keeps_its_end();
        let now = self.clock.latest();
        self.agenda.pass_event(number);
        let Some(guest) = &mut self.guests[number] else {
            return None;
        };
        let event = guest.tell(self.alloc, now, number)?;
        let done = guest.is_done();
        settle_in(
            &mut self.register,
            &mut self.guests,
            &mut self.agenda,
            number,
            done,
        );
        Some(event)
    }

    /// The next thing that the program is told. A `None`: there is nothing, until something is done again.
    pub fn next_event(&mut self) -> Option<Event>
        ensures tells { TellsNext result self.old self.new }
    {
        while let Some(number) = self.agenda.first_event() {
            if let Some(event) = self.event(number) {
                return Some(event);
            }
        }
        None
    }

    /// Does what is due of connection `number`.
    #[tactic(auto, using(crate::proofs::Noting::put_back, crate::proofs::Turns::put_registered, crate::proofs::Turns::put_undone))]
    fn act(&mut self, now: u64, number: usize)
        ensures turn { (g : Guest) → slice_get self.old.guests.items number ≡ Some (Some g)
            → ActsAt now number (places_of self.old) (places_of self.new) }
        ensures acts { now < last_time → (g : Guest) → slice_get self.old.guests.items number ≡ Some (Some g)
            → ActsIn now g.connection (slice_get self.new.guests.items number) }
        ensures apart { IsApart self.old.guests.items self.new.guests.items number }
        ensures order { StaysInOrder self.old.register.identifiers self.new.register.identifiers }
        ensures strays { self.new.strays ≡ self.old.strays }
        ensures set_up { StaysSetUp self.old self.new }
    {
        a_connection_keeps_its_end();
        if number >= self.guests.len() {
            return;
        }
        let Some(guest) = &mut self.guests[number] else {
            return;
        };
        guest.act(now);
        let over = guest.is_done();
        settle_in(
            &mut self.register,
            &mut self.guests,
            &mut self.agenda,
            number,
            over,
        );
    }

    /// Does all that is due, of each connection.
    fn act_all(&mut self, now: u64)
        ensures one_by_one { ActsOneByOne now (places_of self.old) (places_of self.new) }
        ensures acts { now < last_time → EachActs now self.old.guests.items self.new.guests.items }
        ensures order { StaysInOrder self.old.register.identifiers self.new.register.identifiers }
        ensures strays { self.new.strays ≡ self.old.strays }
        ensures set_up { StaysSetUp self.old self.new }
    {
        for _ in 0..self.guests.len() {
            let Some(number) = self.agenda.first_due(now) else {
                return;
            };
            self.act(now, number);
        }
    }

    /// Takes the next packet of connection `number`, which goes to the back of the queue if it may have another. `None`: the connection has no
    /// packet, and leaves the queue. Where memory is refused, what is to go out stays so.
    #[tactic(auto, using(crate::proofs::Noting::put_back, crate::proofs::Turns::put_registered, crate::proofs::Turns::put_undone))]
    fn packet(&mut self, now: u64, number: usize) -> Result<Option<Outgoing>, HostFault>
        requires within { number < length self.old.guests.items }
        requires turn { has_turn self.old.agenda.packets number ≡ true }
        ensures asks { AsksPacket now number result (places_of self.old) (places_of self.new) }
        ensures rested { result ≡ Ok None → self.new.agenda.packets
            ≡ with_turn (with_turn self.old.agenda.packets number false) number false }
        ensures fault { OnErr result (result ≡ Err NoMemory) }
        ensures register { self.new.register ≡ self.old.register }
        ensures strays { self.new.strays ≡ self.old.strays }
        ensures set_up { StaysSetUp self.old self.new }
    {
        a_connection_gives_what_it_made();
        a_connection_keeps_its_end();
        self.agenda.pass_packet(number);
        let Some(guest) = &mut self.guests[number] else {
            return Ok(None);
        };
        let made = guest.next_packet(self.alloc, now);
        note(self.guests.as_slice(), &mut self.agenda, number);
        made
    }

    /// Notes that memory was refused for a packet: connections are asked for packets again when the first wait is over.
    #[tactic(auto, using(crate::proofs::Noting::rested_all))]
    fn rest(&mut self, now: u64)
        ensures rests { places_of self.new ≡ resting (places_of self.old) (later now self.old.settings.first_wait) }
        ensures register { self.new.register ≡ self.old.register }
        ensures strays { self.new.strays ≡ self.old.strays }
        ensures set_up { StaysSetUp self.old self.new }
    {
        let wait = u64::from(self.settings.first_wait);
        self.agenda.rest_packets(now.saturating_add(wait));
    }

    /// The next packet that is to go out, with its `via`; also what is due at this time is done. `None`: there is none, until
    /// something is done again or [`wake`](Host::wake)'s time has come.
    ///
    /// The only error is [`HostFault::NoMemory`]: what is to go out stays so, and [`wake`](Host::wake) does not want it before the first wait
    /// is over. Who asks earlier gets it, if there is memory.
    pub fn next_packet(&mut self, now: u64) -> Result<Option<Outgoing>, HostFault>
        ensures gives { GivesOut now result self.old self.new }
    {
        let now = self.clock.tell(now);
        self.act_all(now);
        if let Some(stray) = self.strays.take() {
            return Ok(Some(stray));
        }
        while let Some(number) = self.agenda.first_packet() {
            match self.packet(now, number) {
                Ok(Some(packet)) => return Ok(Some(packet)),
                Ok(None) => {}
                Err(fault) => {
                    self.rest(now);
                    return Err(fault);
                }
            }
        }
        Ok(None)
    }
}
