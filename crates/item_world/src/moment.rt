//! When a packet was sent, and how long it lives.

ghost use Rattle.std.specs.Prelude.{◌≡◌};

/// How many items more the sender and the receiver of a packet may each take while the packet lives.
const LIFETIME: u64 = 30_000;

/// When a packet was sent: how many items both its ends had taken by then.
#[derive(Clone, Copy)]
pub struct Moment {
    /// How many items the sender of the packet had taken.
    pub sender: u64,
    /// How many items the receiver of the packet had taken.
    pub receiver: u64,
}

impl Moment {
    ghost use Rattle.item_world.specs.World.{is_past};

    /// Whether a packet of this moment lives no longer, now that its ends have taken so many items.
    pub fn is_past(self, sender: u64, receiver: u64) -> bool
        ensures { result ≡ is_past self sender receiver }
    {
        sender.saturating_sub(self.sender) > LIFETIME
            || receiver.saturating_sub(self.receiver) > LIFETIME
    }
}
