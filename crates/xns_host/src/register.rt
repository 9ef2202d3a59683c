//! Which connection a packet names.

ghost use Rattle.std.specs.Prelude.{◌≡◌, ◌≢◌, ◌<◌, ℕ, true, IfOk, IfSome, OnOk, OnErr, Some, None, position, slice_get, slice_set};
ghost use Rattle.std.specs.BTreeMap.{IsEmpty, IsUnchanged, Updates};
ghost use Rattle.xns_host.specs.Identifiers.{GivesIdentifier, IsNextIdentifier, is_free, most_id, numbers, order_of};
ghost use Rattle.xns_host.specs.Register.{number_by, owner_in, peer_cmp};

use crate::identifiers::Identifiers;
use crate::peer::Peer;
use std::alloc::{AllocError, Global};
use std::collections::BTreeMap;

/// Which connection has an identifier of ours, and which was opened by a peer. No connection is found by a walk over all.
#[derive(Drop)]
pub struct Register {
    identifiers: Identifiers,
    /// The number of each connection that a peer opened.
    peers: BTreeMap<Peer, u16>,
}

impl Register {
    /// No connections; their identifiers come in the order that a secret gives. The only error is want of memory.
    pub fn new(alloc: Global, secret: [u8; 32]) -> Result<Register, AllocError>
        ensures order { IfOk result (λ r. r.identifiers.ahead ≡ order_of (numbers most_id) secret) }
        ensures free { IfOk result (λ r. (id : ℕ) → is_free r.identifiers.owners id ≡ true) }
        ensures nobody { IfOk result (λ r. IsEmpty r.peers) }
    {
        Ok(Register {
            identifiers: Identifiers::new(alloc, secret)?,
            peers: BTreeMap::new(alloc),
        })
    }

    /// The number of the connection that a packet of this peer names by an identifier of ours; by 0, of the one that the peer opened. A
    /// `None`: there is none.
    pub fn find(&self, id: u16, peer: &Peer) -> Option<u16>
        ensures { result ≡ number_by self.now.identifiers self.now.peers id peer.now }
    {
        if id == 0 {
            self.peers.get(peer).copied()
        } else {
            self.identifiers.owner(id)
        }
    }

    /// The identifier that [`take`](Register::take) gives next. A `None`: all are in use.
    pub fn next(&self) -> Option<u16>
        ensures given { (place : ℕ) → position (is_free self.now.identifiers.owners) self.now.identifiers.ahead ≡ Some place
            → result ≡ slice_get self.now.identifiers.ahead place }
        ensures next { IfSome result (IsNextIdentifier self.now.identifiers) }
        ensures none { position (is_free self.now.identifiers.owners) self.now.identifiers.ahead ≡ None → result ≡ None }
        ensures known { IfSome result (λ id. 0 < id) }
    {
        self.identifiers.next()
    }

    /// The number of the connection that has this identifier.
    pub fn owner(&self, id: u16) -> Option<u16>
        ensures { result ≡ owner_in self.now.identifiers id }
    {
        self.identifiers.owner(id)
    }

    /// The next identifier that no connection has: the one with this number has it from then on. A `None`: all are in use.
    pub fn take(&mut self, number: u16) -> Option<u16>
        ensures given { (place : ℕ) → position (is_free self.old.identifiers.owners) self.old.identifiers.ahead ≡ Some place
            → IfSome result (GivesIdentifier self.old.identifiers self.new.identifiers place number) }
        ensures some { (place : ℕ) → position (is_free self.old.identifiers.owners) self.old.identifiers.ahead ≡ Some place
            → result ≢ None }
        ensures owner { IfSome result (λ id. owner_in self.new.identifiers id ≡ Some number) }
        ensures none { position (is_free self.old.identifiers.owners) self.old.identifiers.ahead ≡ None → (result ≡ None)
            × (self.new.identifiers ≡ self.old.identifiers) }
        ensures peers { self.new.peers ≡ self.old.peers }
    {
        self.identifiers.take(number)
    }

    /// The connection with this number was opened by this peer. The only error is want of memory: nothing is changed then.
    pub fn enter(&mut self, peer: Peer, number: u16) -> Result<(), AllocError>
        ensures entered { OnOk result (Updates peer_cmp self.old.peers self.new.peers peer (Some number)) }
        ensures unchanged { OnErr result (IsUnchanged self.old.peers self.new.peers) }
        ensures identifiers { self.new.identifiers ≡ self.old.identifiers }
    {
        match self.peers.insert(peer, number) {
            Ok(_) => Ok(()),
            Err(_) => Err(AllocError),
        }
    }

    /// No connection has this identifier any longer.
    pub fn release(&mut self, id: u16)
        ensures identifiers { self.new.identifiers ≡ record self.old.identifiers { owners = slice_set self.old.identifiers.owners id None } }
        ensures peers { self.new.peers ≡ self.old.peers }
    {
        self.identifiers.release(id);
    }

    /// No connection was opened by this peer any longer.
    pub fn leave(&mut self, peer: &Peer)
        ensures left { Updates peer_cmp self.old.peers self.new.peers peer.now None }
        ensures identifiers { self.new.identifiers ≡ self.old.identifiers }
    {
        let _ = self.peers.remove(peer);
    }
}
