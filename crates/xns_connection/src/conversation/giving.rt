//! Which packet of a conversation goes out next.

ghost use Rattle.std.specs.Prelude.{◌≡◌, ◌||◌, ◌<◌, [], ◌++◌, length, false, true, IfOk, IfSome, OnOk, OnErr, Some, None, Ok};
ghost use Rattle.xns_spp.specs.Held.{StandsFor};
ghost use Rattle.xns_spp.specs.Sending.{after_flush, flush_answer};
ghost use Rattle.std.specs.Option.{is_some, option_to_list};
ghost use Rattle.xns_spp.specs.State.{State};
ghost use Rattle.xns_spp.specs.Telling.{after_resend, resend_answer, single_answer};
ghost use Rattle.xns_connection.specs.Giving.{Giving, GivesAs, GivesNewer, IsGiving, MayStopAt, giving, has_packets, newer, next_of, older};

use crate::conversation::Conversation;
use crate::owed::Owed;
use std::alloc::{AllocError, Global};
use std::collections::VecDeque;
use xns_spp::Bytes;

impl Conversation {
    ghost use Rattle.xns_connection.specs.Telling.{word_answer};

    /// Makes the packets of all items that may go out for the first time, where no packet that was made waits.
    fn flush(&mut self, alloc: Global) -> Result<(), AllocError>
        requires { self.old.packets.items ≡ [] }
        ensures side { (self.new.side ≡ self.old.side) × (self.new.closing ≡ self.old.closing) }
        ensures packets { OnOk result ((s : State) → StandsFor self.old.endpoint s → self.new.packets.items ≡ flush_answer s) }
        ensures stands { OnOk result ((s : State) → StandsFor self.old.endpoint s → StandsFor self.new.endpoint (after_flush s)) }
        ensures unchanged { OnErr result (self.new ≡ self.old) }
        ensures memory { OnErr result ((s : State) → StandsFor self.old.endpoint s → 0 < length (flush_answer s)) }
    {
        self.packets = VecDeque::from(self.endpoint.flush(alloc)?);
        Ok(())
    }

    /// Makes the first of the packets that a tick sends: that of the first item that is not acknowledged, or a probe where it may not go
    /// out, or the opening packet again. `None`: each item is acknowledged.
    fn again(&mut self, alloc: Global) -> Result<Option<Bytes>, AllocError>
        ensures answer { IfOk result (λ o. (s : State) → StandsFor self.old.endpoint s → o ≡ resend_answer s) }
        ensures side { (self.new.side ≡ self.old.side) × (self.new.closing ≡ self.old.closing) }
        ensures packets { self.new.packets.items ≡ self.old.packets.items }
        ensures stands { OnOk result ((s : State) → StandsFor self.old.endpoint s → StandsFor self.new.endpoint (after_resend s)) }
        ensures unchanged { OnErr result (self.new ≡ self.old) }
        ensures memory { OnErr result ((s : State) → StandsFor self.old.endpoint s → is_some (resend_answer s) ≡ true) }
    {
        self.endpoint.resend_first(alloc)
    }

    /// Takes the first of the packets that were made. `None`: none waits.
    fn fetch(&mut self) -> Option<Bytes>
        ensures packets { self.old.packets.items ≡ option_to_list result ++ self.new.packets.items }
        ensures none { result ≡ None → self.new.packets.items ≡ [] }
        ensures rest { self.new ≡ record self.old { packets = self.new.packets } }
    {
        self.packets.pop_front()
    }

    /// The first of the packets that were made; where none waits, the one that is to go out again.
    fn older_packet(&mut self, alloc: Global, owed: &mut Owed) -> Result<Option<Bytes>, AllocError>
        ensures side { (self.new.side ≡ self.old.side) × (self.new.closing ≡ self.old.closing) }
        ensures none { result ≡ Ok None → self.new.packets.items ≡ [] }
        ensures at { IfOk result (λ p. (s : State) → StandsFor self.old.endpoint s → GivesAs (older (giving self.old owed.old s)) p self.new owed.new) }
        ensures stays { OnErr result ((s : State) → StandsFor self.old.endpoint s → IsGiving self.new owed.new (giving self.old owed.old s)) }
        ensures memory { OnErr result ((s : State) → StandsFor self.old.endpoint s → is_some (older (giving self.old owed.old s)).0 ≡ true) }
    {
        if let Some(packet) = self.fetch() {
            return Ok(Some(packet));
        }
        if !owed.again {
            return Ok(None);
        }
        let packet = self.again(alloc)?;
        owed.again = false;
        owed.word = owed.word && packet.is_none();
        Ok(packet)
    }

    /// The packet without an item that the peer is owed. `None`: none is owed.
    fn system_packet(&self, alloc: Global, owed: &mut Owed) -> Result<Option<Bytes>, AllocError>
        ensures done { OnOk result ((owed.new.asks ≡ false) × (owed.new.word ≡ false) × (owed.new.fresh ≡ owed.new.moving)) }
        ensures answer { (s : State) → StandsFor self.now.endpoint s → IfOk result (λ o. o ≡ word_answer owed.old s) }
        ensures beside { (owed.new.again ≡ owed.old.again) × (owed.new.moving ≡ owed.old.moving) }
        ensures refused { OnErr result (owed.new ≡ owed.old) }
        ensures memory { OnErr result ((s : State) → StandsFor self.now.endpoint s → is_some (word_answer owed.old s) ≡ true) }
    {
        if !owed.asks && !owed.word {
            owed.fresh = owed.moving;
            return Ok(None);
        }
        let packet = self.endpoint.system_packet(alloc, owed.asks)?;
        owed.asks = false;
        owed.word = false;
        owed.fresh = owed.moving;
        Ok(packet)
    }

    /// Whether another packet is to go out after one that went out for the first time.
    fn has_more(&self, owed: &Owed) -> bool
        ensures value { result ≡ owed.now.moving || (owed.now.asks || has_packets self.now.packets.items) }
    {
        owed.moving || owed.asks || !self.packets.is_empty()
    }

    /// The packet of the item that is to go out for the first time, where one alone is. `None` where none is or several are: nothing
    /// changes then.
    fn single_packet(&mut self, alloc: Global, owed: &mut Owed) -> Result<Option<Bytes>, AllocError>
        requires { self.old.packets.items ≡ [] }
        ensures side { (self.new.side ≡ self.old.side) × (self.new.closing ≡ self.old.closing) }
        ensures at { IfOk result (λ o. IfSome o (λ p. (s : State) → StandsFor self.old.endpoint s
            → GivesAs (newer (giving self.old owed.old s)) (Some p) self.new owed.new)) }
        ensures answer { IfOk result (λ o. (s : State) → StandsFor self.old.endpoint s → o ≡ single_answer s) }
        ensures none { result ≡ Ok None → (self.new ≡ self.old) × (owed.new ≡ owed.old) }
        ensures unchanged { OnErr result ((self.new ≡ self.old) × (owed.new ≡ owed.old)) }
        ensures memory { OnErr result ((s : State) → StandsFor self.old.endpoint s → is_some (newer (giving self.old owed.old s)).0 ≡ true) }
    {
        let Some(packet) = self.endpoint.flush_single(alloc)? else {
            return Ok(None);
        };
        owed.word = false;
        owed.fresh = self.has_more(owed);
        Ok(Some(packet))
    }

    /// As `newer_packet`, with the packets of all items that may go out for the first time made at once.
    fn flushed_packet(
        &mut self,
        alloc: Global,
        owed: &mut Owed,
    ) -> Result<Option<Bytes>, AllocError>
        requires { self.old.packets.items ≡ [] }
        ensures { GivesNewer result self.old self.new owed.old owed.new }
    {
        self.flush(alloc)?;
        if let Some(packet) = self.fetch() {
            owed.word = false;
            owed.fresh = self.has_more(owed);
            return Ok(Some(packet));
        }
        self.system_packet(alloc, owed)
    }

    /// The next packet that goes out for the first time; where there is none, the packet without an item that the peer is owed.
    fn newer_packet(&mut self, alloc: Global, owed: &mut Owed) -> Result<Option<Bytes>, AllocError>
        requires { self.old.packets.items ≡ [] }
        ensures { GivesNewer result self.old self.new owed.old owed.new }
    {
        if let Some(packet) = self.single_packet(alloc, owed)? {
            return Ok(Some(packet));
        }
        self.flushed_packet(alloc, owed)
    }

    /// The next packet that is to go out. `None` where there is none. The only error is want of memory: what is to go out stays so.
    pub fn next_packet(
        &mut self,
        alloc: Global,
        owed: &mut Owed,
    ) -> Result<Option<Bytes>, AllocError>
        ensures side { (self.new.side ≡ self.old.side) × (self.new.closing ≡ self.old.closing) }
        ensures at { IfOk result (λ p. (s : State) → StandsFor self.old.endpoint s → GivesAs (next_of (giving self.old owed.old s)) p self.new owed.new) }
        ensures short { OnErr result ((s : State) → StandsFor self.old.endpoint s → (y : Giving) × MayStopAt (giving self.old owed.old s) y
            × IsGiving self.new owed.new y) }
        ensures memory { OnErr result ((s : State) → StandsFor self.old.endpoint s → is_some (next_of (giving self.old owed.old s)).0 ≡ true) }
    {
        if let Some(packet) = self.older_packet(alloc, owed)? {
            return Ok(Some(packet));
        }
        self.newer_packet(alloc, owed)
    }
}
