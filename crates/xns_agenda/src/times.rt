//! Times of some of the connections, and which one is the earliest.

ghost use Rattle.std.specs.Prelude.{◌≡◌, ◌≤◌, ◌<◌, ℕ, length, replicate, IfOk, Some, None, slice_get, slice_set};
ghost use Rattle.xns_agenda.specs.Times.{HasEarliest, HasNoneBy, IsBeside, IsEarliest};

use crate::time_tree::{TimeTree, is_same};
use std::alloc::{AllocError, Global};
use std::marker::Model;

/// A time in milliseconds, or none, for each number of a connection. The earliest is found without a walk over all.
///
/// Room for all is made once: a time is never refused. The time of the number that was set last stands beside the tree of the others: while
/// one connection goes on, no tree is mended.
#[derive(Drop)]
pub struct Times {
    /// The times of the other numbers.
    others: TimeTree,
    /// The number that was set last.
    last: usize,
    /// The time of that number.
    time: Option<u64>,
}

impl Model for Times {
    ghost use Rattle.std.specs.Prelude.{List, Option, ℕ, slice_set};
    ghost use Rattle.xns_agenda.specs.Times.{IsBeside};

    ghost Value = { List (Option ℕ) };

    ghost view = { λ t. slice_set t.others t.last t.time };

    ghost invariant = { λ t. IsBeside t.others t.last t.time };
}

/// Puts the time of a number, which stood beside the tree, into the tree.
#[tactic(auto, using(crate::proofs::Beside::put_nothing))]
fn put(others: &mut TimeTree, number: usize, time: Option<u64>)
    requires { IsBeside others.old number time }
    ensures { others.new ≡ slice_set others.old number time }
{
    if time.is_some() {
        others.set(number, time);
    }
}

/// Puts the time of one number into the tree, and takes that of another number out.
fn exchange(others: &mut TimeTree, last: usize, time: Option<u64>, number: usize)
    requires beside { IsBeside others.old last time }
    requires within { number < length others.old }
    ensures { others.new ≡ slice_set (slice_set others.old last time) number None }
{
    put(others, last, time);
    others.set(number, None);
}

/// A number that has the earliest time, and that time, among the number beside the tree and the others.
#[tactic(auto, using(crate::proofs::Beside::first_of_others, crate::proofs::Beside::first_beside))]
fn sooner_of(others: &TimeTree, last: usize, time: u64) -> (usize, u64)
    requires { IsBeside others.now last (Some time) }
    ensures first { IsEarliest (slice_set others.now last (Some time)) result.0 result.1 }
    ensures by { result.1 ≤ time }
{
    match others.first_by(time) {
        Some(found) => found,
        None => (last, time),
    }
}

impl Times {
    /// No times, for `most` numbers.
    pub fn new(alloc: Global, most: usize) -> Result<Times, AllocError>
        ensures { IfOk result (λ t. t ≡ replicate most None) }
    {
        let others = TimeTree::new(alloc, most)?;
        Ok(Times {
            others,
            last: 0,
            time: None,
        })
    }

    /// The time of a number, or none.
    #[inline(always)]
    pub fn get(&self, number: usize) -> Option<u64>
        requires { number < length self.now }
        ensures { slice_get self.now number ≡ Some result }
    {
        if number == self.last {
            self.time
        } else {
            self.others.get(number)
        }
    }

    /// Sets the time of a number, or takes it away.
    #[inline(always)]
    pub fn set(&mut self, number: usize, time: Option<u64>)
        requires { number < length self.old }
        ensures { self.new ≡ slice_set self.old number time }
    {
        if number == self.last {
            self.time = time;
            return;
        }
        if is_same(self.others.get(number), time) {
            return;
        }
        exchange(&mut self.others, self.last, self.time, number);
        self.last = number;
        self.time = time;
    }

    /// A number that has the earliest time, and that time. A `None`: no number has one.
    #[inline(always)]
    pub fn first(&self) -> Option<(usize, u64)>
        ensures some { (k t : ℕ) → result ≡ Some (k, t) → IsEarliest self.now k t }
        ensures none { result ≡ None → HasEarliest self.now None }
    {
        match self.time {
            Some(time) => Some(sooner_of(&self.others, self.last, time)),
            None => self.others.first(),
        }
    }

    /// A number that has the earliest time, and that time, if it is at or before this one.
    pub fn first_by(&self, now: u64) -> Option<(usize, u64)>
        ensures some { (k t : ℕ) → result ≡ Some (k, t) → IsEarliest self.now k t × (t ≤ now) }
        ensures none { result ≡ None → HasNoneBy self.now now }
    {
        match self.time {
            Some(time) if time <= now => Some(sooner_of(&self.others, self.last, time)),
            _ => self.others.first_by(now),
        }
    }
}
