use std::alloc::AllocError;
use xns_host::Why;

/// The outcome of a play.
#[derive(Clone, Copy, Default)]
pub struct Outcome {
    /// Answers that were right.
    pub right: usize,
    /// Answers that were wrong, and functions of a host that refused.
    pub wrong: usize,
    /// Connections that were closed because the program asked for it; because the peer did; and for another reason.
    pub asked: usize,
    pub by_peer: usize,
    pub otherwise: usize,
}

impl Outcome {
    /// Counts an answer that came, which is right or not.
    pub fn answered(&mut self, is_right: bool) {
        if is_right {
            self.right = self.right.saturating_add(1);
        } else {
            self.wrong = self.wrong.saturating_add(1);
        }
    }

    /// Counts a connection that is closed.
    pub fn closed(&mut self, why: Why) {
        match why {
            Why::Asked => self.asked = self.asked.saturating_add(1),
            Why::ByPeer => self.by_peer = self.by_peer.saturating_add(1),
            Why::Silent | Why::NotServed(_) | Why::Refused(_) => {
                self.otherwise = self.otherwise.saturating_add(1);
            }
        }
    }

    /// Adds the counts of another outcome.
    pub fn add(&mut self, other: &Outcome) {
        self.right = self.right.saturating_add(other.right);
        self.wrong = self.wrong.saturating_add(other.wrong);
        self.asked = self.asked.saturating_add(other.asked);
        self.by_peer = self.by_peer.saturating_add(other.by_peer);
        self.otherwise = self.otherwise.saturating_add(other.otherwise);
    }

    /// Puts the counts of the outcome.
    pub fn put(&self, text: &mut String) -> Result<(), AllocError> {
        put_count(text, self.right, "right")?;
        put_count(text, self.wrong, "wrong")?;
        put_count(text, self.asked, "closed as asked")?;
        put_count(text, self.by_peer, "by the peer")?;
        put_count(text, self.otherwise, "else")
    }
}

/// Puts a number and what it counts.
pub fn put_count(text: &mut String, count: usize, what: &str) -> Result<(), AllocError> {
    write!(text, "{count} {what}, ")
}
