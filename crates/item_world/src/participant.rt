//! One end of a play, with the items that it accepted and handed up.

ghost use Rattle.std.specs.Prelude.{◌≡◌, ◌<◌, [], length, OnOk, OnErr, IfOk};
ghost use Rattle.xns_spp.specs.Sending.{after_send, after_take};
ghost use Rattle.item_world.specs.Play.{Becomes};

use crate::items::Items;
use std::alloc::{AllocError, Global};
use xns_spp::{Bytes, Endpoint, Item};

/// One end in a play: its endpoint, with the items that it accepted and those that it handed up.
#[derive(Drop)]
pub struct Participant {
    pub endpoint: Endpoint,
    pub sent: Items,
    pub handed: Items,
}

impl Participant {
    /// An end that has done nothing yet.
    pub fn new(alloc: Global, endpoint: Endpoint) -> Participant
        ensures { (result.endpoint ≡ endpoint) × (result.sent ≡ []) × (result.handed ≡ []) }
    {
        Participant {
            endpoint,
            sent: Items::new(Vec::new(alloc)),
            handed: Items::new(Vec::new(alloc)),
        }
    }

    /// Gives the endpoint an item to send; an item that the endpoint refuses is dropped.
    pub fn send(&mut self, alloc: Global, item: &Item) -> Result<(), AllocError>
        ensures { OnOk result (Becomes self.old self.new (λ s. after_send s item.now)) }
    {
        if self.endpoint.send(copied(alloc, item)?).is_ok() {
            self.sent.push(copied(alloc, item)?)?;
        }
        Ok(())
    }

    /// Hands up an item, where one waits.
    pub fn take(&mut self) -> Result<(), AllocError>
        ensures { OnOk result (Becomes self.old self.new after_take) }
    {
        if let Some(item) = self.endpoint.take() {
            self.handed.push(item)?;
        }
        Ok(())
    }
}

/// A copy of the item. The only error is want of memory, where the item has bytes.
pub fn copied(alloc: Global, item: &Item) -> Result<Item, AllocError>
    ensures item { IfOk result (λ x. x ≡ item.now) }
    ensures memory { OnErr result (0 < length item.now.body) }
{
    let mut body = Vec::new(alloc);
    body.extend_from_slice(item.body.as_slice())?;
    Ok(Item {
        stream: item.stream,
        attention: item.attention,
        last: item.last,
        body: Bytes::new(body),
    })
}
