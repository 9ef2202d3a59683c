//! The identifiers of new connections.

ghost use Rattle.std.specs.Prelude.{◌≡◌, ◌≢◌, ◌<◌, ℕ, length, IfOk, IfSome, IsPermutation, Some, None, true, position, slice_get};
ghost use Rattle.std.specs.Prelude.{slice_index_or, slice_set};
ghost use Rattle.xns_host.specs.Identifiers.{IsNextIdentifier, IsOrder, GivesIdentifier, is_free, most_id, numbers, order_of};
ghost use Rattle.xns_host.specs.Register.{owner_in};

use rand::seq::SliceRandom;
use rand_chacha::ChaCha20Rng;
use rand_core::SeedableRng;
use std::alloc::{AllocError, Global};
use std::collections::VecDeque;
use std::marker::Model;

/// The greatest identifier.
const MOST_ID: u16 = 65_535;

/// The identifiers from 1 to 65,535, in an order that a secret gives, and which connection has each. The first that is not in use is
/// given, and stands behind all others then, with those before it, which are in use. A connection is found by its identifier without a
/// walk.
#[derive(Drop)]
pub struct Identifiers {
    /// All identifiers, in the order in which they come next.
    ahead: VecDeque<u16>,
    /// By identifier, the number of the connection that has it.
    owners: Vec<Option<u16>>,
}

impl Model for Identifiers {
    ghost use Rattle.xns_host.specs.Identifiers.{Ids, IsIds};

    ghost Value = { Ids };

    ghost view = { λ i. record { ahead = i.ahead.items; owners = i.owners.items } };

    ghost invariant = { λ i. IsIds i.ahead.items i.owners.items };
}

/// The identifiers in their order.
#[tactic(auto, using(crate::proofs::Ordered::numbers_none, crate::proofs::Ordered::numbers_more))]
fn numbered(alloc: Global) -> Result<Vec<u16>, AllocError>
    ensures { IfOk result (λ v. v.items ≡ numbers most_id) }
{
    let mut ids = Vec::new(alloc);
    for id in 0..MOST_ID {
        ids.push(id + 1)?;
    }
    Ok(ids)
}

/// Puts identifiers into the order that a secret gives.
fn shuffle(ids: &mut [u16], secret: [u8; 32])
    ensures permutation { IsPermutation ids.old ids.new }
    ensures order { ids.new ≡ order_of ids.old secret }
{
    let mut rng = ChaCha20Rng::from_seed(secret);
    ids.shuffle(&mut rng);
}

/// The identifiers in the order that a secret gives.
fn ordered(alloc: Global, secret: [u8; 32]) -> Result<Vec<u16>, AllocError>
    ensures permutation { IfOk result (λ v. IsPermutation (numbers most_id) v.items) }
    ensures order { IfOk result (λ v. v.items ≡ order_of (numbers most_id) secret) }
{
    let mut ids = numbered(alloc)?;
    shuffle(ids.as_mut_slice(), secret);
    Ok(ids)
}

/// Whether no connection has an identifier.
fn is_free(owners: &[Option<u16>], id: u16) -> bool
    ensures { result ≡ is_free owners.now id }
{
    match owners.get(usize::from(id)) {
        Some(owner) => owner.is_none(),
        None => true,
    }
}

/// No owners, of so many identifiers.
#[tactic(auto, using(crate::proofs::Ordered::all_free))]
fn unowned(alloc: Global, count: usize) -> Result<Vec<Option<u16>>, AllocError>
    ensures len { IfOk result (λ v. length v.items ≡ count) }
    ensures free { IfOk result (λ v. (id : ℕ) → is_free v.items id ≡ true) }
{
    let owners = vec![in alloc; None; count]?;
    Ok(owners)
}

impl Identifiers {
    /// All identifiers, in the order that a secret gives, none in use.
    #[tactic(auto, using(crate::proofs::Ordered::permuted, crate::proofs::Ordered::all_in_order))]
    pub fn new(alloc: Global, secret: [u8; 32]) -> Result<Identifiers, AllocError>
        ensures order { IfOk result (λ i. i.ahead ≡ order_of (numbers most_id) secret) }
        ensures free { IfOk result (λ i. (id : ℕ) → is_free i.owners id ≡ true) }
    {
        let order = ordered(alloc, secret)?;
        let owners = unowned(alloc, 65_536)?;
        Ok(Identifiers {
            ahead: VecDeque::from_vec(order),
            owners,
        })
    }

    /// Where the first identifier stands that is not in use.
    fn first_free(&self) -> Option<usize>
        ensures place { result ≡ position (is_free self.now.owners) self.now.ahead }
        ensures order { IsOrder self.now.ahead }
    {
        let owners = self.owners.as_slice();
        self.ahead.iter().position(|id| is_free(owners, *id))
    }

    /// Gives the identifier at this place to the connection with this number.
    #[tactic(auto, using(crate::proofs::Ordered::place_within, crate::proofs::Ordered::id_within))]
    fn give(&mut self, place: usize, number: u16) -> u16
        requires { position (is_free self.old.owners) self.old.ahead ≡ Some place }
        ensures gives { GivesIdentifier self.old self.new place number result }
        ensures owner { owner_in self.new result ≡ Some number }
        ensures order { IsOrder self.new.ahead }
    {
        let id = self.ahead[place];
        self.ahead.rotate_left(place + 1);
        self.owners[usize::from(id)] = Some(number);
        id
    }

    /// The identifier that [`take`](Identifiers::take) gives next. A `None`: all are in use.
    #[tactic(auto, using(crate::proofs::Ordered::id_known))]
    pub fn next(&self) -> Option<u16>
        ensures given { (place : ℕ) → position (is_free self.now.owners) self.now.ahead ≡ Some place
            → result ≡ slice_get self.now.ahead place }
        ensures next { IfSome result (IsNextIdentifier self.now) }
        ensures none { position (is_free self.now.owners) self.now.ahead ≡ None → result ≡ None }
        ensures known { IfSome result (λ id. 0 < id) }
    {
        let place = self.first_free()?;
        self.ahead.get(place).copied()
    }

    /// The next identifier that no connection has: the one with this number has it from then on. A `None`: all are in use.
    pub fn take(&mut self, number: u16) -> Option<u16>
        ensures given { (place : ℕ) → position (is_free self.old.owners) self.old.ahead ≡ Some place
            → IfSome result (GivesIdentifier self.old self.new place number) }
        ensures some { (place : ℕ) → position (is_free self.old.owners) self.old.ahead ≡ Some place → result ≢ None }
        ensures owner { IfSome result (λ id. owner_in self.new id ≡ Some number) }
        ensures none { position (is_free self.old.owners) self.old.ahead ≡ None → (result ≡ None) × (self.new ≡ self.old) }
        // Each identifier comes, and none twice, before one comes again.
        ensures order { IsOrder self.new.ahead }
    {
        let place = self.first_free()?;
        Some(self.give(place, number))
    }

    /// The number of the connection that has this identifier.
    pub fn owner(&self, id: u16) -> Option<u16>
        ensures { result ≡ slice_index_or self.now.owners id None }
    {
        self.owners[usize::from(id)]
    }

    /// No connection has this identifier any longer.
    pub fn release(&mut self, id: u16)
        ensures { self.new ≡ record self.old { owners = slice_set self.old.owners id None } }
    {
        self.owners[usize::from(id)] = None;
    }
}
