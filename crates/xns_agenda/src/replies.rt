ghost use Rattle.std.specs.Prelude.{◌≡◌};
ghost use Rattle.xns_agenda.specs.Replying.{counted, is_third};

/// How often the peer said in a row that it lacks the same item, since it acknowledged more.
#[derive(Clone, Copy, Debug, PartialEq, Eq)]
pub struct Replies {
    /// How many replies said the same; 3 stands for more, too.
    pub count: u8,
    /// The allocation number in these replies.
    pub allocation: u16,
}

impl Replies {
    /// No reply came.
    pub const NONE: Replies = Replies {
        count: 0,
        allocation: 0,
    };

    /// Whether a reply with this allocation number is the third that says the same.
    pub fn is_third(self, allocation: u16) -> bool
        ensures { result ≡ is_third self allocation }
    {
        self.count == 2 && self.allocation == allocation
    }

    /// The replies with one more. After the third, no further one is counted.
    pub fn counted(self, allocation: u16) -> Replies
        ensures { result ≡ counted self allocation }
    {
        if self.count >= 3 {
            return self;
        }
        if self.count > 0 && self.allocation == allocation {
            return Replies {
                count: self.count + 1,
                allocation,
            };
        }
        Replies {
            count: 1,
            allocation,
        }
    }
}
