//! What comes in at a side of a conversation.

ghost use Rattle.std.specs.Prelude.{◌≡◌, [], true, Err};
ghost use Rattle.courier_messages.specs.declared.fault.SessionFault.TheVariants.{NoMemory};
ghost use Rattle.courier_messages.specs.Conversation.{opening};
ghost use Rattle.courier_messages.specs.Phases.{run, said};
ghost use Rattle.courier_messages.specs.Refusal.{Foresees, ComesToWith, KeepsNothing, MayBeKept};
ghost use Rattle.courier_messages.specs.Text.{signs, item_of};

use courier_messages::{Head, Incoming, PiecedMessage, SessionFault};
use std::alloc::Global;
use std::marker::Model;
use xns_spp::Item;

/// What comes in at a side, item by item. The side knows behind each mark that nothing is kept of what came.
#[derive(Drop)]
pub struct Intake {
    incoming: Incoming,
    /// Whether the side knows that nothing is kept.
    empty: bool,
}

impl Model for Intake {
    ghost use Rattle.std.specs.Prelude.{◌≡◌, true};
    ghost use Rattle.courier_messages.specs.Conversation.{Phase};
    ghost use Rattle.courier_messages.specs.Refusal.{KeepsNothing};

    ghost Value = { Phase };

    ghost view = { λ i. i.incoming };

    ghost invariant = { λ i. i.empty ≡ true → KeepsNothing i.incoming };
}

impl Intake {
    /// An intake in which nothing came.
    pub fn new(alloc: Global) -> Intake
        ensures { result ≡ opening [] }
    {
        Intake {
            incoming: Incoming::new(alloc),
            empty: true,
        }
    }

    /// Whether the side knows that nothing is kept of what came. Bytes that come then need no memory.
    #[inline(always)]
    pub fn is_empty(&self) -> bool
        ensures { result ≡ true → KeepsNothing self.now }
    {
        self.empty
    }

    /// What an item of these parts would bring: the head of the message that it would end, or what is wrong. Nothing of
    /// the item is kept.
    #[inline(always)]
    pub fn look(&self, stream: u8, last: bool, body: &[u8]) -> Result<Option<Head>, SessionFault>
        ensures { Foresees result (run self.now (signs (item_of stream last body.now)))
            (said self.now (signs (item_of stream last body.now))) }
    {
        self.incoming.look(stream, last, body)
    }

    /// Takes in one more item: the message that it ends, if it ends one. Where memory is refused, nothing is changed.
    #[tactic(auto, using(courier_messages::proofs::Empties::behind_last))]
    #[inline(always)]
    pub fn take(&mut self, alloc: Global, item: Item) -> Result<Option<PiecedMessage>, SessionFault>
        ensures takes { ComesToWith result (run self.old (signs item)) (said self.old (signs item)) self.new }
        ensures memory { result ≡ Err NoMemory → self.new ≡ self.old }
        ensures kept { result ≡ Err NoMemory → MayBeKept self.old item.body }
    {
        let last = item.last;
        self.empty = false;
        let message = self.incoming.take(alloc, item)?;
        self.empty = last;
        Ok(message)
    }
}
