//! The items of a flow that are kept.
ghost use Rattle.std.specs.Prelude.{◌≡◌, [], ◌==◌, ◌<◌, length, OnErr, OnOk, IfOk, IfSome, IfNone};
ghost use Rattle.std.specs.List.{list_any};
ghost use Rattle.xns_calls.specs.AtEnd.{first_at_end};
ghost use Rattle.xns_calls.specs.Numbers.{most_numbers};
ghost use Rattle.xns_calls.specs.Queue.{HasNoDue, HasNoneBelow, IsFirstBelow, IsFirstDue, kept, last_kept_number};
ghost use Rattle.xns_calls.specs.Turns.{first_kept};

use crate::carried::Carried;
use crate::early::Early;
use crate::first_kept::FirstKept;
use crate::item_number::ItemNumber;
use crate::queue::Queue;
use std::alloc::{AllocError, Global};
use std::marker::Model;

/// The items that a flow keeps, in memory that is taken with the first of them: most flows never keep one. Contracts see
/// them as a list.
#[derive(Drop)]
pub struct EarlyItems {
    queue: Option<Box<Queue>>,
}

impl Model for EarlyItems {
    ghost use Rattle.std.specs.Prelude.{List, [], option_map};
    ghost use Rattle.std.specs.Option.{unwrap_or};
    ghost use Rattle.xns_calls.specs.declared.early.Early.{Early as EarlyModel};

    ghost Value = { List EarlyModel };

    ghost view = { λ e. unwrap_or (option_map (λ b. b.value) e.queue) [] };
}

/// A queue of one item. The only error is want of memory.
fn first_kept(alloc: Global, number: ItemNumber, item: Carried) -> Result<Box<Queue>, AllocError>
    ensures { IfOk result (λ b. b.value ≡ kept number item []) }
{
    let mut queue = Queue::new(alloc);
    queue.keep(number, item)?;
    match Box::new(alloc, queue) {
        Ok(queue) => Ok(queue),
        Err(_) => Err(AllocError),
    }
}

impl EarlyItems {
    /// No item.
    pub fn new() -> EarlyItems
        ensures { result ≡ [] }
    {
        EarlyItems { queue: None }
    }

    /// Whether none is kept.
    pub fn is_empty(&self) -> bool
        ensures { result ≡ (length self.now == 0) }
    {
        match &self.queue {
            None => true,
            Some(queue) => queue.as_ref().is_empty(),
        }
    }

    /// The number of the last item, or none where none is kept.
    pub fn last_kept_number(&self) -> Option<u64>
        ensures value { result ≡ last_kept_number self.now }
        ensures bound { IfSome result (λ number. number < most_numbers) }
    {
        match &self.queue {
            None => None,
            Some(queue) => queue.as_ref().last_kept_number(),
        }
    }

    /// What decides when the first item is read, or none where none is kept.
    #[inline(always)]
    pub fn first(&self) -> Option<FirstKept>
        ensures { result ≡ first_kept self.now }
    {
        match &self.queue {
            None => None,
            Some(queue) => queue.as_ref().first(),
        }
    }

    /// The first item, as it is read at the end: in the turn of the one that was captured first. `None`: none is kept.
    pub fn first_at_end(&self) -> Option<FirstKept>
        ensures value { result ≡ first_at_end self.now }
        ensures bound { IfSome result (λ first. first.number < most_numbers) }
    {
        match &self.queue {
            None => None,
            Some(queue) => queue.as_ref().first_at_end(),
        }
    }

    /// Takes the first item, where its number is not above this one.
    pub fn take_due(&mut self, most: u64) -> Option<Early>
        ensures some { IfSome result (λ early. IsFirstDue most early self.old self.new) }
        ensures none { IfNone result (HasNoDue most self.old) }
        ensures same { IfNone result (self.new ≡ self.old) }
    {
        match &mut self.queue {
            None => None,
            Some(queue) => queue.as_mut().take_due(most),
        }
    }

    /// Takes the first item, where its number is below this one.
    pub fn take_below(&mut self, number: u64) -> Option<Early>
        ensures some { IfSome result (λ early. IsFirstBelow number early self.old self.new) }
        ensures none { IfNone result (HasNoneBelow number self.old) }
        ensures same { IfNone result (self.new ≡ self.old) }
    {
        let most = number.checked_sub(1)?;
        self.take_due(most)
    }

    /// Whether an item of that number is kept.
    pub fn has(&self, number: u64) -> bool
        ensures { result ≡ list_any (λ early. early.number == number) self.now }
    {
        match &self.queue {
            None => false,
            Some(queue) => queue.as_ref().has(number),
        }
    }

    /// Keeps an item under its number. The only error is want of memory, which leaves what is kept as it was.
    pub fn keep(
        &mut self,
        alloc: Global,
        number: ItemNumber,
        item: Carried,
    ) -> Result<(), AllocError>
        ensures items { OnOk result (self.new ≡ kept number item self.old) }
        ensures same { OnErr result (self.new ≡ self.old) }
    {
        match &mut self.queue {
            None => {
                self.queue = Some(first_kept(alloc, number, item)?);
                Ok(())
            }
            Some(queue) => queue.as_mut().keep(number, item),
        }
    }
}
