//! Which connection gives way to a new one.

ghost use Rattle.std.specs.Prelude.{◌≡◌, ◌<◌, ℕ, length, replicate, IfOk, Some, None, slice_set};
ghost use Rattle.xns_agenda.specs.Times.{HasEarliest, IsEarliest};
ghost use Rattle.xns_agenda.specs.declared.way.Way.TheVariants.{Lingers, Stranger, Nobody};

use crate::times::Times;
use crate::way::Way;
use std::alloc::{AllocError, Global};

/// By two times of each connection, which one gives way to a new one. Its room is made once.
#[derive(Drop)]
pub struct Places {
    /// Since when closed connections linger.
    closed: Times,
    /// Since when connections are silent that a peer opened and never confirmed.
    strangers: Times,
}

impl Places {
    /// Places of no connections, with room for `most`.
    pub fn new(alloc: Global, most: usize) -> Result<Places, AllocError>
        ensures closed { IfOk result (λ p. p.closed ≡ replicate most None) }
        ensures strangers { IfOk result (λ p. p.strangers ≡ replicate most None) }
    {
        let closed = Times::new(alloc, most)?;
        let strangers = Times::new(alloc, most)?;
        Ok(Places { closed, strangers })
    }

    /// Notes when the connection with this number, which lingers, is forgotten. `None`: it does not linger.
    #[inline(always)]
    pub fn set_closed(&mut self, number: usize, forgotten_at: Option<u64>)
        requires { number < length self.old.closed }
        ensures { self.new ≡ record self.old { closed = slice_set self.old.closed number forgotten_at } }
    {
        self.closed.set(number, forgotten_at);
    }

    /// Notes when the peer of the connection with this number was last heard, where that peer opened it and never confirmed it. `None`: its
    /// peer is no such peer.
    #[inline(always)]
    pub fn set_stranger(&mut self, number: usize, heard_at: Option<u64>)
        requires { number < length self.old.strangers }
        ensures { self.new ≡ record self.old { strangers = slice_set self.old.strangers number heard_at } }
    {
        self.strangers.set(number, heard_at);
    }

    /// The connection that gives way to a new one, where there is no room: the closed one that lingers longest. Where none
    /// lingers, it is the one silent longest, of those that their peer opened and never confirmed.
    pub fn way(&self) -> Way
        ensures lingers { (k t : ℕ) → result ≡ Lingers k t → IsEarliest self.now.closed k t }
        ensures stranger { (k t : ℕ) → result ≡ Stranger k t → HasEarliest self.now.closed None × IsEarliest self.now.strangers k t }
        ensures nobody { result ≡ Nobody → HasEarliest self.now.closed None × HasEarliest self.now.strangers None }
    {
        if let Some((number, forgotten_at)) = self.closed.first() {
            return Way::Lingers(number, forgotten_at);
        }
        match self.strangers.first() {
            Some((number, heard_at)) => Way::Stranger(number, heard_at),
            None => Way::Nobody,
        }
    }
}
