//! Which connections have something to do, in turn.

ghost use Rattle.std.specs.Prelude.{◌≡◌, ◌<◌, length, IfOk, IfSome, None};
ghost use Rattle.xns_agenda.specs.Turns.{HasNoTurn, IsFirst, empty_line, with_last, with_turn};

use crate::times::Times;
use std::alloc::{AllocError, Global};
use std::marker::Model;

/// By the number of each connection, whether it has a turn, and whose turn is first. Its room is made once: a turn is never refused.
#[derive(Drop)]
pub struct Turns {
    tickets: Times,
    next: u64,
}

impl Model for Turns {
    ghost use Rattle.xns_agenda.specs.Turns.{Line};

    ghost Value = { Line };

    ghost view = { λ t. record { tickets = t.tickets; next = t.next } };
}

impl Turns {
    /// No turns, with room for `most` numbers. The only error is want of memory.
    pub fn new(alloc: Global, most: usize) -> Result<Turns, AllocError>
        ensures { IfOk result (λ t. t ≡ empty_line most) }
    {
        let tickets = Times::new(alloc, most)?;
        Ok(Turns { tickets, next: 0 })
    }

    /// The number of the connection whose turn is first. `None`: no connection has a turn.
    #[inline(always)]
    pub fn first(&self) -> Option<usize>
        ensures some { IfSome result (λ k. IsFirst self.now k) }
        ensures none { result ≡ None → HasNoTurn self.now }
    {
        let (number, _) = self.tickets.first()?;
        Some(number)
    }

    /// Gives the connection with this number the last turn.
    #[inline(always)]
    pub fn put_last(&mut self, number: usize)
        requires { number < length self.old.tickets }
        ensures { self.new ≡ with_last self.old number }
    {
        self.tickets.set(number, Some(self.next));
        self.next = self.next.saturating_add(1);
    }

    /// Gives the connection with this number a turn, behind the others if it had none, or takes its turn away.
    #[inline(always)]
    pub fn set(&mut self, number: usize, has: bool)
        requires { number < length self.old.tickets }
        ensures { self.new ≡ with_turn self.old number has }
    {
        if !has {
            self.tickets.set(number, None);
        } else if self.tickets.get(number).is_none() {
            self.put_last(number);
        }
    }
}
