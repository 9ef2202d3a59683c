//! What the sides of a conversation do each in their own way with an item that they hear.

ghost use Rattle.std.specs.Prelude.{◌≡◌};

use crate::feed_refusal::FeedRefusal;
use crate::outgoing::copied_item;
use courier_messages::SessionFault;
use std::alloc::Global;
use xns_spp::Item;

/// A side of a conversation, by what it finds in an item and what it keeps of one.
///
/// Each `impl` names the side that its steps are defined by.
pub trait Hearer {
    ghost use Rattle.std.specs.Prelude.{◌≡◌, ◌≢◌, ◌<◌, Bool, Result, length, true, Ok, Err, OnErr, IsOk};
    ghost use Rattle.xns_spp.specs.declared.item.Item.{Item};
    ghost use Rattle.courier_messages.specs.declared.fault.SessionFault.{SessionFault};
    ghost use Rattle.courier_messages.specs.declared.fault.SessionFault.TheVariants.{NoMemory};
    ghost use Rattle.courier_messages.specs.Conversation.{Phase};
    ghost use Rattle.courier_messages.specs.Refusal.{ComesTo, KeepsNothing, MayBeKept};
    ghost use Rattle.courier_messages.specs.Text.{item_of};
    ghost use Rattle.courier_sessions.specs.Feeding.{Judges, fed_unless, look_result};
    ghost use Rattle.courier_sessions.specs.Pumping.{Side};

    // What is out at the side, and what comes of an item that it is fed.
    ghost side: { Side Self };

    // The side with one more item of the peer's, or the first fault.
    ghost after: { Self → Item → Result Self SessionFault };

    // What is kept of the peer's text.
    ghost phase: { Self → Phase };

    // Whether the conversation has stopped, and whether an item has to wait.
    ghost stopped: { Self → Bool };

    ghost busy: { Self → Bool };

    /// Whether the conversation has stopped.
    fn is_stopped(&self) -> bool
        ensures { result ≡ stopped self.now };

    /// Whether an item has to wait.
    fn is_busy(&self) -> bool
        ensures { result ≡ busy self.now };

    /// Whether the side knows that nothing is kept of what came.
    fn is_empty(&self) -> bool
        ensures { result ≡ true → KeepsNothing (phase self.now) };

    /// Stops the conversation.
    fn stop(&mut self)
        ensures stops { side.stops self.old self.new }
        ensures out { side.out self.new ≡ side.out self.old };

    /// What is wrong with an item of these parts, if anything is. The item is not taken in.
    fn judge(&self, stream: u8, last: bool, body: &[u8]) -> Result<(), SessionFault>
        ensures { Judges result (after self.now (item_of stream last body.now)) };

    /// Takes in one more item, and keeps the message that it ends.
    fn take_item(&mut self, alloc: Global, item: Item) -> Result<(), SessionFault>
        ensures hears { ComesTo result (after self.old item) self.new }
        ensures memory { result ≡ Err NoMemory → (self.new ≡ self.old) × MayBeKept (phase self.old) item.body }
        ensures out { side.out self.new ≡ side.out self.old };

    /// Takes in an item of these parts, whose bytes are copied once nothing is wrong with them.
    final fn hear(
        &mut self,
        alloc: Global,
        stream: u8,
        last: bool,
        body: &[u8],
    ) -> Result<(), SessionFault>
        ensures hears { ComesTo result (after self.old (item_of stream last body.now)) self.new }
        ensures same { OnErr result (self.new ≡ self.old) }
        ensures memory { result ≡ Err NoMemory → IsOk (after self.old (item_of stream last body.now)) × (0 < length body.now) }
        ensures out { side.out self.new ≡ side.out self.old }
    {
        self.judge(stream, last, body)?;
        let item = copied_item(alloc, stream, last, body)?;
        self.take_item(alloc, item)
    }

    /// What is returned for an item that the side looked at. A fault stops the side; where memory is refused, the side
    /// goes on.
    final fn tell(&mut self, taken: Result<(), SessionFault>) -> Result<(), FeedRefusal>
        ensures told { result ≡ look_result taken }
        ensures good { taken ≡ Ok tt → self.new ≡ self.old }
        ensures memory { taken ≡ Err NoMemory → self.new ≡ self.old }
        ensures stops { taken ≢ Ok tt → taken ≢ Err NoMemory → side.stops self.old self.new }
        ensures out { side.out self.new ≡ side.out self.old }
    {
        match taken {
            Ok(()) => Ok(()),
            Err(SessionFault::NoMemory) => Err(FeedRefusal::NoMemory),
            Err(fault) => {
                self.stop();
                Err(FeedRefusal::Fault(fault))
            }
        }
    }

    // Where an item that is fed leads.
    ghost fed: { (s : Self) (x : Item) → side.fed s x ≡ fed_unless (stopped s) (busy s) x (after s x) };
}
