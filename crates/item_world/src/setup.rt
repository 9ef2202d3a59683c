//! The setup of two ends: their addresses and identifiers, the window and the backlog.

ghost use Rattle.std.specs.Prelude.{◌↔◌, IsTrue, IfOk};

use crate::side::Side;
use std::alloc::{AllocError, Global};
use xns_idp::Address;
use xns_idp::known::known_word;
use xns_spp::{Endpoint, MOST_PENDING};

/// The two ends of a connection, as it begins.
#[derive(Clone, Copy, Debug, PartialEq, Eq)]
pub struct Setup {
    /// The address of the initiator.
    pub a: Address,
    /// The address of the responder.
    pub b: Address,
    /// The initiator's connection identifier.
    pub a_id: u16,
    /// The responder's connection identifier.
    pub b_id: u16,
    /// How many items each end takes before the first of them is handed up.
    pub window: usize,
    /// How many items each end accepts before the first of them is acknowledged.
    pub backlog: usize,
}

impl Setup {
    ghost use Rattle.xns_spp.specs.Held.{StandsFor};
    ghost use Rattle.item_world.specs.Setup.{IsSetup, IsGood};
    ghost use Rattle.item_world.specs.World.{start, end_at};

    /// Whether a connection can be made from this setup: both identifiers are known, window and backlog are from 1 to
    /// 64 items, and neither end is the broadcast host.
    pub fn is_good(&self) -> bool
        ensures { IsTrue result ↔ IsGood self.now }
    {
        self.a_id != 0
            && self.b_id != 0
            && (1..=MOST_PENDING).contains(&self.window)
            && (1..=MOST_PENDING).contains(&self.backlog)
            && !self.a.is_broadcast()
            && !self.b.is_broadcast()
    }

    /// Does nothing; says to a proof that the numbers are within their types' bounds.
    pub fn known(&self)
        ensures { IsSetup self.now }
    {
        self.a.known();
        self.b.known();
        known_word(self.a_id);
        known_word(self.b_id);
    }

    /// The end at this side, before anything has happened.
    pub fn end(&self, alloc: Global, side: Side) -> Result<Endpoint, AllocError>
        requires { IsGood self.now }
        ensures { IfOk result (λ e. StandsFor e (end_at (start self.now) side)) }
    {
        let Setup {
            a,
            b,
            a_id,
            b_id,
            window,
            backlog,
        } = *self;
        match side {
            Side::A => Endpoint::initiator(alloc, a, a_id, b, window, backlog),
            Side::B => Endpoint::responder(alloc, b, b_id, a, a_id, window, backlog),
        }
    }
}
