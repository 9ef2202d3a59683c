//! Packets of no connection that are to go out.

ghost use Rattle.std.specs.Prelude.{◌≡◌, ◌≢◌, ◌≤◌, ◌++◌, [], length, true, false, IfOk, OnErr, Some, None};
ghost use Rattle.std.specs.Option.{option_to_list};
ghost use Rattle.xns_idp.specs.Packet.{most_data, packet_model};
ghost use Rattle.xns_small.specs.Echo.{IsAnswered, echo_reply};
ghost use Rattle.xns_host.specs.Strays.{HasComplained, lost_stray, new_strays, stray_of, with_stray};

use crate::outgoing::Outgoing;
use std::alloc::{AllocError, Global};
use std::collections::VecDeque;
use std::marker::Model;
use xns_idp::{Address, Packet};
use xns_small::{answer_echo, complain};
use xns_spp::Bytes;

/// Packets of no connection that are to go out, in order, at most so many. What is over is as if lost.
#[derive(Drop)]
pub struct Strays {
    waiting: VecDeque<Outgoing>,
    most: usize,
    /// Whether memory was refused for a packet that was to be answered here or to open a connection, and no packet was put here since, with
    /// room for it or without.
    starved: bool,
}

impl Model for Strays {
    ghost use Rattle.std.specs.VecDeque.{deque_len, deque_capacity};
    ghost use Rattle.xns_host.specs.Strays.{StrayQueue, HasStrayRoom};

    ghost Value = { StrayQueue };

    ghost view = { λ s. record { most = s.most; waiting = s.waiting.items; starved = s.starved } };

    ghost invariant = { λ s. HasStrayRoom s.most s.waiting.items (deque_len s.waiting) (deque_capacity s.waiting) };
}

impl Strays {
    /// No packets, with room for so many.
    pub fn new(alloc: Global, most: usize) -> Result<Strays, AllocError>
        ensures { IfOk result (λ s. s ≡ new_strays most) }
    {
        let waiting = VecDeque::with_capacity(alloc, most)?;
        Ok(Strays {
            waiting,
            most,
            starved: false,
        })
    }

    /// Whether there is none.
    pub fn is_empty(&self) -> bool
        ensures empty { result ≡ true → self.now.waiting ≡ [] }
        ensures some { result ≡ false → self.now.waiting ≢ [] }
    {
        self.waiting.is_empty()
    }

    /// Puts one behind the others, unless there are as many as there may be.
    pub fn push(&mut self, stray: Outgoing)
        ensures { self.new ≡ with_stray self.old stray }
    {
        self.starved = false;
        if self.waiting.len() < self.most {
            self.waiting.push_back_reserved(stray);
        }
    }

    /// Notes that memory was refused for a packet that came.
    pub fn lose(&mut self)
        ensures { self.new ≡ lost_stray self.old }
    {
        self.starved = true;
    }

    /// Takes the first.
    pub fn take(&mut self) -> Option<Outgoing>
        ensures waiting { self.old.waiting ≡ option_to_list result ++ self.new.waiting }
        ensures none { result ≡ None → self.old.waiting ≡ [] }
        ensures rest { self.new ≡ record self.old { waiting = self.new.waiting } }
    {
        self.waiting.pop_front()
    }

    /// Complains of a packet that came by this `via`, if one may, by an Error packet from `own` with this number (XSIS 028112, Error
    /// Protocol), which goes out by the same. Where memory is refused, that is noted, and the complaint is lost.
    pub fn complain(&mut self, alloc: Global, own: Address, number: u16, via: u64, offending: &[u8])
        ensures { HasComplained own number via offending.now self.old self.new }
    {
        match complain(alloc, own, number, 0, offending) {
            Ok(Some(bytes)) => self.push(Outgoing {
                via,
                packet: Bytes::new(bytes),
            }),
            Ok(None) => {}
            Err(_) => self.lose(),
        }
    }

    /// Answers a packet that is an Echo request to `own` (XSIS 028112, Echo Protocol); whether it is one. The answer goes out by the
    /// `via` of the request. The only error is want of memory: it is noted, and the answer is lost.
    pub fn echo(
        &mut self,
        alloc: Global,
        own: Address,
        via: u64,
        packet: &Packet<'_>,
    ) -> Result<bool, AllocError>
        requires { length packet.now.body.now ≤ most_data }
        ensures answered { IfOk result (λ b. b ≡ true → IsAnswered own (packet_model packet.now)
            × (self.new ≡ with_stray self.old (stray_of via (echo_reply own (packet_model packet.now))))) }
        ensures none { IfOk result (λ b. b ≡ false → (IsAnswered own (packet_model packet.now) → ⊥) × (self.new ≡ self.old)) }
        ensures memory { OnErr result (IsAnswered own (packet_model packet.now)) }
        ensures noted { OnErr result (self.new ≡ lost_stray self.old) }
    {
        let reply = match answer_echo(alloc, own, packet) {
            Ok(Some(reply)) => reply,
            Ok(None) => return Ok(false),
            Err(error) => {
                self.lose();
                return Err(error);
            }
        };
        self.push(Outgoing {
            via,
            packet: Bytes::new(reply),
        });
        Ok(true)
    }
}
