//! A side of a conversation, which puts out items and is fed items.

ghost use Rattle.std.specs.Prelude.{◌≡◌};

use crate::feed_refusal::FeedRefusal;
use crate::hearer::Hearer;
use crate::outgoing::MOST_ITEM;
use std::alloc::Global;
use xns_spp::Item;

/// A side of a Courier conversation over words. Its items go out, and it is fed the items of its peer.
pub trait WordSide: Hearer {
    ghost use Rattle.std.specs.Prelude.{◌≡◌, ◌≢◌, ◌<◌, List, [], ◌∷◌, length, true, Some, None, Ok, option_copied};
    ghost use Rattle.xns_spp.specs.declared.item.Item.{Item};
    ghost use Rattle.courier_sessions.specs.Feeding.{NeedsNoCopy};
    ghost use Rattle.courier_sessions.specs.Pumping.{IsFed};

    /// The first item that is to go out, which stays.
    fn first_out(&self) -> Option<&Item>
        ensures first { (x : Item) (xs : List Item) → Self.side.out self.now ≡ x ∷ xs → option_copied result ≡ Some x }
        ensures none { result ≡ None → Self.side.out self.now ≡ [] }
        ensures some { result ≢ None → Self.side.out self.now ≢ [] };

    /// Takes the first item that is to go out.
    fn take_out(&mut self) -> Option<Item>
        ensures taken { (x : Item) (xs : List Item) → Self.side.out self.old ≡ x ∷ xs
            → (result ≡ Some x) × (Self.side.out self.new ≡ xs) }
        ensures beside { self.new ≡ Self.side.with_out self.old (Self.side.out self.new) }
        ensures fewer { Self.side.out self.old ≢ [] → length (Self.side.out self.new) < length (Self.side.out self.old) };

    /// Takes in one more item of these parts of the peer's, whose bytes are copied, and keeps the message that it ends.
    final fn feed_parts(
        &mut self,
        alloc: Global,
        stream: u8,
        attention: bool,
        last: bool,
        body: &[u8],
    ) -> Result<(), FeedRefusal>
        ensures fed { IsFed Self.side self.old (record {
          stream = stream;
          attention = attention;
          last = last;
          body = body.now;
        }) result self.new }
        ensures out { Self.side.out self.new ≡ Self.side.out self.old }
    {
        if self.is_stopped() {
            return Err(FeedRefusal::Stopped);
        }
        if self.is_busy() {
            return Err(FeedRefusal::Busy);
        }
        if attention {
            self.stop();
            return Err(FeedRefusal::Attention);
        }
        if body.len() > MOST_ITEM {
            return Err(FeedRefusal::TooLong);
        }
        let taken = self.hear(alloc, stream, last, body);
        self.tell(taken)
    }

    /// Takes in one more item of the peer's, whose bytes are copied, and keeps the message that it ends.
    final fn feed(&mut self, alloc: Global, item: &Item) -> Result<(), FeedRefusal>
        ensures fed { IsFed Self.side self.old item.now result self.new }
        ensures out { Self.side.out self.new ≡ Self.side.out self.old }
    {
        self.feed_parts(
            alloc,
            item.stream,
            item.attention,
            item.last,
            item.body.as_slice(),
        )
    }

    /// Whether the item can be fed without a copy: nothing is wrong with the item, and nothing is kept of what came, so
    /// the item's bytes take no memory. The side may also say no where it does not know that nothing is kept.
    #[inline(always)]
    final fn needs_no_copy(&self, item: &Item) -> bool
        ensures { result ≡ true → NeedsNoCopy (Self.side.fed self.now item.now) (Self.phase self.now) }
    {
        if !self.is_empty() || self.is_stopped() || self.is_busy() {
            return false;
        }
        if item.attention || item.body.as_slice().len() > MOST_ITEM {
            return false;
        }
        self.judge(item.stream, item.last, item.body.as_slice())
            .is_ok()
    }

    /// Takes in an item that needs no copy, and keeps the message that the item ends. For other items there is `feed`.
    #[inline(always)]
    final fn feed_uncopied(&mut self, alloc: Global, item: Item)
        ensures fed { NeedsNoCopy (Self.side.fed self.old item) (Self.phase self.old) → Self.side.fed self.old item ≡ Ok self.new }
        ensures out { Self.side.out self.new ≡ Self.side.out self.old }
    {
        let _ = self.take_item(alloc, item);
    }
}
