//! The timers and turns of all connections: what is to be done next.

ghost use Rattle.std.specs.Prelude.{◌≡◌, ◌<◌, ℕ, length, true, false, IfOk, IfSome, Some, None, slice_get};
ghost use Rattle.xns_agenda.specs.Agenda.{GetsNumber, GivesWay, HasNobody, HasNoNumber, IsFor, IsWake, asked_at, new_agenda, noted, released};
ghost use Rattle.xns_agenda.specs.Times.{HasEarliest, HasNoneBy, IsFirstBy};
ghost use Rattle.xns_agenda.specs.Turns.{HasNoTurn, IsFirst, has_turn, lined_up, with_turn};

use crate::facts::Facts;
use crate::places::Places;
use crate::time_tree::sooner;
use crate::times::Times;
use crate::turns::Turns;
use std::alloc::{AllocError, Global};
use std::marker::Model;

/// The timers and turns of all connections. It finds what is to be done next without a walk over them. Its room is made once: no timer and
/// no turn is lost.
#[derive(Drop)]
pub struct Agenda {
    /// When something is due at each connection by the time alone.
    dues: Times,
    /// The connections that may have a packet to send, in turn.
    packets: Turns,
    /// The connections that may have an event for the program, in turn.
    events: Turns,
    /// The number of the connection that gives way to a new one.
    places: Places,
    /// The numbers that no connection has.
    free: Turns,
    /// When packets are asked for again, where memory was refused for the last one and nothing was noted since.
    short: Option<u64>,
}

impl Model for Agenda {
    ghost use Rattle.std.specs.Prelude.{length};
    ghost use Rattle.xns_agenda.specs.Agenda.{Plan, IsFor, plan_of};

    ghost Value = { Plan };

    ghost view = { λ a. plan_of a.dues a.packets a.events a.places a.free a.short };

    ghost invariant = { λ a. IsFor (plan_of a.dues a.packets a.events a.places a.free a.short) (length a.dues) };
}

/// The numbers below `most`, each free, the lowest first.
#[tactic(auto, using(crate::proofs::Free::lined_none, crate::proofs::Free::lined_more, crate::proofs::Free::lined_size))]
fn all_free(alloc: Global, most: usize) -> Result<Turns, AllocError>
    ensures { IfOk result (λ t. t ≡ lined_up most most) }
{
    let mut free = Turns::new(alloc, most)?;
    for number in 0..most {
        free.put_last(number);
    }
    Ok(free)
}

/// The number of the connection that gives way to a new one.
#[tactic(auto, using(crate::proofs::Agendas::giver_gives, crate::proofs::Agendas::no_giver))]
fn giver(places: &Places) -> Option<usize>
    requires { length places.now.strangers ≡ length places.now.closed }
    ensures within { IfSome result (λ k. k < length places.now.closed) }
    ensures some { (k : ℕ) → result ≡ Some k → GivesWay places.now.closed places.now.strangers k }
    ensures none { result ≡ None → HasEarliest places.now.closed None × HasEarliest places.now.strangers None }
{
    places.way().number()
}

/// The number that a new connection gets.
fn place_of(free: &Turns, places: &Places) -> Option<usize>
    requires free { length free.now.tickets ≡ length places.now.closed }
    requires strangers { length places.now.strangers ≡ length places.now.closed }
    ensures within { IfSome result (λ k. k < length places.now.closed) }
    ensures some { (k : ℕ) → result ≡ Some k → GetsNumber free.now places.now.closed places.now.strangers k }
    ensures none { result ≡ None → HasNoNumber free.now places.now.closed places.now.strangers }
{
    if let Some(number) = free.first() {
        return Some(number);
    }
    giver(places)
}

/// A number that has the earliest time, if that time is at or before `now`.
fn first_by(dues: &Times, now: u64) -> Option<usize>
    ensures some { IfSome result (λ k. IsFirstBy dues.now now k) }
    ensures within { IfSome result (λ k. k < length dues.now) }
    ensures none { result ≡ None → HasNoneBy dues.now now }
{
    let (number, _) = dues.first_by(now)?;
    Some(number)
}

/// The earliest time.
fn first_time(dues: &Times) -> Option<u64>
    ensures earliest { HasEarliest dues.now result }
    ensures there { (t : ℕ) → result ≡ Some t → (k : ℕ) × (slice_get dues.now k ≡ Some (Some t)) }
{
    let (_, time) = dues.first()?;
    Some(time)
}

/// When the connections that have a turn to send are asked for a packet. `None`: no connection has such a turn.
#[tactic(auto, using(crate::proofs::Agendas::nobody))]
fn packet_time(packets: &Turns, short: Option<u64>) -> Option<u64>
    ensures some { (k : ℕ) → has_turn packets.now k ≡ true → result ≡ Some (asked_at short) }
    ensures there { (t : ℕ) → result ≡ Some t → (k : ℕ) × (has_turn packets.now k ≡ true) }
    ensures time { (t : ℕ) → result ≡ Some t → t ≡ asked_at short }
{
    packets.first()?;
    match short {
        Some(time) => Some(time),
        None => Some(0),
    }
}

/// The first time at which something is to be done.
fn wake(packets: &Turns, events: &Turns, dues: &Times, short: Option<u64>) -> Option<u64>
    ensures { IsWake packets.now events.now dues.now short result }
{
    if events.first().is_some() {
        return Some(0);
    }
    sooner(packet_time(packets, short), first_time(dues))
}

impl Agenda {
    /// An agenda of no connections, with room for `most`. The lowest number is given first. The only error is want of memory.
    pub fn new(alloc: Global, most: usize) -> Result<Agenda, AllocError>
        ensures made { IfOk result (λ a. a ≡ new_agenda most) }
        ensures room { IfOk result (λ a. IsFor a most) }
        ensures nobody { IfOk result (λ a. (k : ℕ) → k < most → HasNobody a k) }
    {
        let free = all_free(alloc, most)?;
        Ok(Agenda {
            dues: Times::new(alloc, most)?,
            packets: Turns::new(alloc, most)?,
            events: Turns::new(alloc, most)?,
            places: Places::new(alloc, most)?,
            free,
            short: None,
        })
    }

    /// Notes these facts of the connection with this number.
    #[inline(always)]
    pub fn note(&mut self, number: usize, facts: Facts)
        requires { number < length self.old.dues }
        ensures noted { self.new ≡ noted self.old number facts }
        ensures room { IsFor self.old (length self.old.dues) }
    {
        self.dues.set(number, facts.due);
        self.packets.set(number, facts.has_packet);
        self.events.set(number, facts.has_event);
        self.places.set_closed(number, facts.forgotten_at);
        self.places.set_stranger(number, facts.stranger_heard_at);
        self.short = None;
    }

    /// Notes that a connection has this number.
    pub fn take(&mut self, number: usize)
        requires { number < length self.old.dues }
        ensures taken { self.new ≡ record self.old { free = with_turn self.old.free number false } }
        ensures room { IsFor self.old (length self.old.dues) }
    {
        self.free.set(number, false);
    }

    /// Notes that no connection has this number any longer.
    pub fn release(&mut self, number: usize)
        requires { number < length self.old.dues }
        ensures released { self.new ≡ released self.old number }
        ensures room { IsFor self.old (length self.old.dues) }
    {
        self.note(number, Facts::NONE);
        self.free.set(number, true);
    }

    /// The number that a new connection gets: a free one; where no number is free, that of the connection that gives way. `None`: no
    /// connection gives way.
    pub fn place(&self) -> Option<usize>
        ensures within { IfSome result (λ k. k < length self.now.dues) }
        ensures some { (k : ℕ) → result ≡ Some k → GetsNumber self.now.free self.now.closed self.now.strangers k }
        ensures room { IsFor self.now (length self.now.dues) }
        ensures none { result ≡ None → HasNoNumber self.now.free self.now.closed self.now.strangers }
    {
        place_of(&self.free, &self.places)
    }

    /// The number of a connection at which something is due by this time; at no other is something due earlier. `None`: nothing is due.
    pub fn first_due(&self, now: u64) -> Option<usize>
        ensures some { IfSome result (λ k. IsFirstBy self.now.dues now k) }
        ensures within { IfSome result (λ k. k < length self.now.dues) }
        ensures none { result ≡ None → HasNoneBy self.now.dues now }
    {
        first_by(&self.dues, now)
    }

    /// The number of the connection that has the first turn to send a packet. `None`: no connection has such a turn.
    pub fn first_packet(&self) -> Option<usize>
        ensures some { IfSome result (λ k. IsFirst self.now.packets k) }
        ensures within { IfSome result (λ k. k < length self.now.dues) }
        ensures none { result ≡ None → HasNoTurn self.now.packets }
    {
        self.packets.first()
    }

    /// Notes that the connection with this number has had its turn to send a packet.
    #[inline(always)]
    pub fn pass_packet(&mut self, number: usize)
        requires { number < length self.old.dues }
        ensures passed { self.new ≡ record self.old { packets = with_turn self.old.packets number false } }
        ensures room { IsFor self.old (length self.old.dues) }
    {
        self.packets.set(number, false);
    }

    /// The number of the connection that has the first turn to give an event. `None`: no connection has such a turn.
    pub fn first_event(&self) -> Option<usize>
        ensures some { IfSome result (λ k. IsFirst self.now.events k) }
        ensures within { IfSome result (λ k. k < length self.now.dues) }
        ensures none { result ≡ None → HasNoTurn self.now.events }
    {
        self.events.first()
    }

    /// Notes that the connection with this number has had its turn to give an event.
    #[inline(always)]
    pub fn pass_event(&mut self, number: usize)
        requires { number < length self.old.dues }
        ensures passed { self.new ≡ record self.old { events = with_turn self.old.events number false } }
        ensures room { IsFor self.old (length self.old.dues) }
    {
        self.events.set(number, false);
    }

    /// Notes that memory was refused for a packet. Until something is noted, packets are asked for at this time, and not at once.
    pub fn rest_packets(&mut self, time: u64)
        ensures rested { self.new ≡ record self.old { short = Some time } }
        ensures room { IsFor self.old (length self.old.dues) }
    {
        self.short = Some(time);
    }

    /// The first time at which something is to be done. It is 0, which means at once, where there may be an event, or where there may be a
    /// packet and none was refused memory. `None`: never.
    pub fn wake(&self) -> Option<u64>
        ensures wake { IsWake self.now.packets self.now.events self.now.dues self.now.short result }
        ensures room { IsFor self.now (length self.now.dues) }
    {
        wake(&self.packets, &self.events, &self.dues, self.short)
    }
}
