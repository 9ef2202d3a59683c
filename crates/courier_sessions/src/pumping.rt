//! Items that move between a side of a conversation and an endpoint.

ghost use Rattle.std.specs.Prelude.{◌≡◌, ◌≢◌, ◌<◌, List, ◌∷◌, length, true, false, None, Ok, IfErr, Some};
ghost use Rattle.std.specs.Option.{is_some};
ghost use Rattle.xns_spp.specs.Held.{StandsFor};
ghost use Rattle.xns_spp.specs.Sending.{send_fault, after_send, take_answer, after_take};
ghost use Rattle.xns_spp.specs.State.{State};
ghost use Rattle.xns_spp.specs.declared.item.Item.{Item};
ghost use Rattle.courier_sessions.specs.Feeding.{NeedsNoCopy};
ghost use Rattle.courier_sessions.specs.Pumping.{Pumped, RefusesNext, feeds};

use crate::feed_refusal::FeedRefusal;
use crate::side::WordSide;
use std::alloc::Global;
use xns_spp::{Endpoint, Item};

/// Whether an endpoint would refuse an item.
fn refuses(endpoint: &Endpoint, item: &Item) -> bool
    ensures { (s : State) → StandsFor endpoint.now s → result ≡ is_some (send_fault s item.now) }
{
    endpoint.send_fault(item).is_some()
}

/// Gives an endpoint an item to send. An item that the endpoint refuses is let go.
#[inline(always)]
fn accept(endpoint: &mut Endpoint, item: Item)
    ensures { (s : State) → StandsFor endpoint.old s → StandsFor endpoint.new (after_send s item) }
{
    let _ = endpoint.send(item);
}

/// Sends the first item that is to go out, if there is one and the endpoint accepts it. Returns whether the item was
/// sent.
fn send_first<S: WordSide>(side: &mut S, endpoint: &mut Endpoint) -> bool
    ensures sent { (s : State) (x : Item) (xs : List Item) → StandsFor endpoint.old s → S.side.out side.old ≡ x ∷ xs → result ≡ true →
        (send_fault s x ≡ None) × (S.side.out side.new ≡ xs) × StandsFor endpoint.new (after_send s x) }
    ensures refused { (s : State) (x : Item) (xs : List Item) → StandsFor endpoint.old s → S.side.out side.old ≡ x ∷ xs → result ≡ false
        → send_fault s x ≢ None }
    ensures beside { result ≡ true → side.new ≡ S.side.with_out side.old (S.side.out side.new) }
    ensures stays { result ≡ false → (side.new ≡ side.old) × (endpoint.new ≡ endpoint.old) }
    ensures fewer { result ≡ true → length (S.side.out side.new) < length (S.side.out side.old) }
{
    let Some(first) = side.first_out() else {
        return false;
    };
    if refuses(endpoint, first) {
        return false;
    }
    if let Some(item) = side.take_out() {
        accept(endpoint, item);
    }
    true
}

/// Feeds a side the first item that waits at an endpoint, which hands the item up. The item needs no copy.
#[inline(always)]
fn feed_uncopied<S: WordSide>(side: &mut S, alloc: Global, endpoint: &mut Endpoint)
    ensures fed { (s : State) (x : Item) → StandsFor endpoint.old s → take_answer s ≡ Some x
        → NeedsNoCopy (S.side.fed side.old x) (S.phase side.old) → S.side.fed side.old x ≡ Ok side.new }
    ensures stands { (s : State) → StandsFor endpoint.old s → StandsFor endpoint.new (after_take s) }
    ensures out { S.side.out side.new ≡ S.side.out side.old }
{
    if let Some(item) = endpoint.take() {
        side.feed_uncopied(alloc, item);
    }
}

/// Feeds a side the first item that waits at an endpoint, which then hands the item up. Returns whether an item was
/// fed: none is where none waits, or where the side is busy. An item that the side refuses still waits at the endpoint.
fn feed_first<S: WordSide>(
    side: &mut S,
    alloc: Global,
    endpoint: &mut Endpoint,
) -> Result<bool, FeedRefusal>
    ensures fed { (s : State) → StandsFor endpoint.old s → result ≡ Ok true →
        (feeds S.side side.old s (take_answer s) ≡ Some (Ok (side.new, after_take s))) × StandsFor endpoint.new (after_take s) }
    ensures unfed { (s : State) → StandsFor endpoint.old s → result ≡ Ok false → feeds S.side side.old s (take_answer s) ≡ None }
    ensures refused { (s : State) → StandsFor endpoint.old s → IfErr result (λ e. RefusesNext S.side side.old (take_answer s) e side.new) }
    ensures same { result ≡ Ok false → side.new ≡ side.old }
    ensures stays { result ≢ Ok true → endpoint.new ≡ endpoint.old }
    ensures out { S.side.out side.new ≡ S.side.out side.old }
{
    let Some(item) = endpoint.first_waiting() else {
        return Ok(false);
    };
    if side.needs_no_copy(item) {
        feed_uncopied(side, alloc, endpoint);
        return Ok(true);
    }
    match side.feed(alloc, item) {
        Ok(()) => {
            let _ = endpoint.take();
            Ok(true)
        }
        Err(FeedRefusal::Busy) => Ok(false),
        Err(refusal) => Err(refusal),
    }
}

/// Moves items both ways between a side and an endpoint until nothing moves. What is out is sent, as far as the
/// endpoint accepts it. Once nothing is out, what waits at the endpoint is fed to the side, until the side is busy.
///
/// An `Err` is why the side refused an item, for another reason than being busy. The item still waits at the endpoint,
/// and so do those behind it. After `NoMemory` the function can be run again, and goes on with that item.
pub fn pump<S: WordSide>(
    side: &mut S,
    alloc: Global,
    endpoint: &mut Endpoint,
) -> Result<(), FeedRefusal>
    ensures { (s : State) → StandsFor endpoint.old s → Pumped S.side (side.old, s) result side.new endpoint.new }
{
    while send_first(side, endpoint) {}
    if side.first_out().is_some() {
        return Ok(());
    }
    for _ in 0..endpoint.waiting() {
        if !feed_first(side, alloc, endpoint)? {
            return Ok(());
        }
    }
    Ok(())
}
