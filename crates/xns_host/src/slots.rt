//! What a host does to one of its connections, in its place.

ghost use Rattle.std.specs.Prelude.{◌≡◌, ◌<◌, Option, length, false, IfOk, Some, None};
ghost use Rattle.std.specs.Prelude.{count_by, replicate, slice_get, slice_set};
ghost use Rattle.std.specs.Option.{is_some};
ghost use Rattle.xns_agenda.specs.Agenda.{noted, released};
ghost use Rattle.xns_agenda.specs.Turns.{with_turn};
ghost use Rattle.xns_host.specs.Hosting.{IsAllNoted, IsNotedBut, facts_in};
ghost use Rattle.xns_host.specs.Identifiers.{StaysInOrder};
ghost use Rattle.xns_host.specs.Places.{places_with, vacated_if};
ghost use Rattle.xns_host.specs.Registered.{HasLeft, HasRegistered, IsAllRegistered};
ghost use Rattle.xns_host.specs.Seating.{GetsPlace};
ghost use Rattle.xns_host.specs.declared.guest.Guest.{Guest};

use crate::guest::Guest;
use crate::register::Register;
use std::alloc::{AllocError, Global};
use xns_agenda::{Agenda, Facts};

/// Places for so many connections, all of them empty.
pub fn no_guests(alloc: Global, most: usize) -> Result<Vec<Option<Guest>>, AllocError>
    ensures { IfOk result (λ v. v.items ≡ replicate most None) }
{
    let mut guests = Vec::with_capacity(alloc, most)?;
    for _ in 0..most {
        guests.push(None)?;
    }
    Ok(guests)
}

/// What a host has to know of the connection in a place.
#[inline(always)]
pub fn facts_in(place: &Option<Guest>) -> Facts
    ensures { result ≡ facts_in place.now }
{
    match place {
        Some(guest) => guest.facts(),
        None => Facts::NONE,
    }
}

/// Whether a place is taken.
fn is_taken<T>(place: &Option<T>) -> bool
    ensures { result ≡ is_some place.now }
{
    place.is_some()
}

/// How many places are taken.
pub fn count<T>(places: &[Option<T>]) -> usize
    ensures { result ≡ count_by is_some places.now }
{
    places.iter().filter(|place| is_taken(place)).count()
}

/// Notes in the agenda what is to be done of the connection with this number.
#[inline(always)]
#[tactic(auto, using(crate::proofs::Noting::noted_all))]
pub fn note(guests: &[Option<Guest>], agenda: &mut Agenda, number: usize)
    requires within { number < length guests.now }
    requires sized { length guests.now ≡ length agenda.old.dues }
    requires others { IsNotedBut agenda.old guests.now number }
    ensures noted { IsAllNoted agenda.new guests.now }
    ensures sized { length agenda.new.dues ≡ length agenda.old.dues }
    ensures packets { (place : Option Guest) → slice_get guests.now number ≡ Some place
        → agenda.new.packets ≡ with_turn agenda.old.packets number (facts_in place).has_packet }
    ensures is { (place : Option Guest) → slice_get guests.now number ≡ Some place → agenda.new ≡ noted agenda.old number (facts_in place) }
{
    let facts = facts_in(&guests[number]);
    agenda.note(number, facts);
}

/// Takes the connection with this number out of its place.
#[tactic(auto, using(crate::proofs::Noting::vacated))]
pub fn vacate(guests: &mut Vec<Option<Guest>>, agenda: &mut Agenda, number: usize) -> Option<Guest>
    requires within { number < length guests.old.items }
    requires sized { length guests.old.items ≡ length agenda.old.dues }
    requires noted { IsAllNoted agenda.old guests.old.items }
    ensures noted { IsAllNoted agenda.new guests.new.items }
    ensures sized { length agenda.new.dues ≡ length agenda.old.dues }
    ensures taken { slice_get guests.old.items number ≡ Some result }
    ensures gone { guests.new.items ≡ slice_set guests.old.items number None }
    ensures agenda { agenda.new ≡ released agenda.old number }
{
    agenda.release(number);
    guests[number].take()
}

/// Puts a connection into a place.
#[tactic(auto, using(crate::proofs::Noting::filled))]
pub fn fill(guests: &mut Vec<Option<Guest>>, agenda: &mut Agenda, number: usize, guest: Guest)
    requires within { number < length guests.old.items }
    requires sized { length guests.old.items ≡ length agenda.old.dues }
    requires noted { IsAllNoted agenda.old guests.old.items }
    ensures noted { IsAllNoted agenda.new guests.new.items }
    ensures sized { length agenda.new.dues ≡ length agenda.old.dues }
    ensures there { guests.new.items ≡ slice_set guests.old.items number (Some guest) }
    ensures agenda { agenda.new ≡ noted (record agenda.old { free = with_turn agenda.old.free number false }) number (facts_in (Some guest)) }
{
    let mut filling = Some(guest);
    std::mem::swap(&mut guests[number], &mut filling);
    agenda.take(number);
    note(guests.as_slice(), agenda, number);
}

/// Forgets the connection with this number: the register leads to it no longer.
pub fn forget_in(
    register: &mut Register,
    guests: &mut Vec<Option<Guest>>,
    agenda: &mut Agenda,
    number: usize,
)
    requires within { number < length guests.old.items }
    requires sized { length guests.old.items ≡ length agenda.old.dues }
    requires noted { IsAllNoted agenda.old guests.old.items }
    ensures noted { IsAllNoted agenda.new guests.new.items }
    ensures sized { length agenda.new.dues ≡ length agenda.old.dues }
    ensures gone { guests.new.items ≡ slice_set guests.old.items number None }
    ensures left { HasLeft register.old register.new (slice_get guests.old.items number) }
    ensures order { StaysInOrder register.old.identifiers register.new.identifiers }
    ensures agenda { agenda.new ≡ released agenda.old number }
{
    let Some(guest) = vacate(guests, agenda, number) else {
        return;
    };
    register.release(guest.id());
    if let Some(opener) = guest.opener() {
        register.leave(&opener);
    }
}

/// Notes in the agenda what is to be done of the connection with this number, and forgets the connection if it is done.
pub fn settle_in(
    register: &mut Register,
    guests: &mut Vec<Option<Guest>>,
    agenda: &mut Agenda,
    number: usize,
    done: bool,
)
    requires within { number < length guests.old.items }
    requires sized { length guests.old.items ≡ length agenda.old.dues }
    requires others { IsNotedBut agenda.old guests.old.items number }
    requires registered { IsAllRegistered register.old guests.old.items }
    ensures noted { IsAllNoted agenda.new guests.new.items }
    ensures sized { length agenda.new.dues ≡ length agenda.old.dues }
    ensures room { length guests.new.items ≡ length guests.old.items }
    ensures registered { IsAllRegistered register.new guests.new.items }
    ensures order { StaysInOrder register.old.identifiers register.new.identifiers }
    ensures places { (place : Option Guest) → slice_get guests.old.items number ≡ Some place → places_with guests.new.items agenda.new
        ≡ vacated_if done (places_with guests.old.items (noted agenda.old number (facts_in place))) number }
{
    note(guests.as_slice(), agenda, number);
    if done {
        forget_in(register, guests, agenda, number);
    }
}

/// Puts a new connection into a place. The register knows the new connection already; the one that was in the place gives way.
pub fn put_in(
    register: &mut Register,
    guests: &mut Vec<Option<Guest>>,
    agenda: &mut Agenda,
    number: usize,
    guest: Guest,
)
    requires within { number < length guests.old.items }
    requires sized { length guests.old.items ≡ length agenda.old.dues }
    requires noted { IsAllNoted agenda.old guests.old.items }
    requires registered { HasRegistered register.old guests.old.items number guest }
    ensures { GetsPlace number guest register.old register.new (places_with guests.old.items agenda.old) (places_with guests.new.items agenda.new) }
{
    forget_in(register, guests, agenda, number);
    fill(guests, agenda, number, guest);
}
