//! The waits of a connection.

ghost use Rattle.std.specs.Prelude.{◌≡◌, ◌<◌, ◌≤◌};
ghost use Rattle.xns_agenda.specs.Measuring.{borne, mends};
ghost use Rattle.xns_agenda.specs.Waiting.{later, idle_due, idle_span};
ghost use Rattle.xns_agenda.specs.declared.act.Act.TheVariants.{Again, Ask};
ghost use Rattle.xns_agenda.specs.declared.due.Due.TheVariants.{AgainAt, AskAt};

use crate::act::Act;
use crate::due::Due;
use crate::measure::Measure;
use crate::pace::Pace;
use crate::progress::Progress;
use crate::replies::Replies;
use crate::timing::Timing;
use std::marker::Model;

/// What a connection waits for, how long, and how often in vain. Times are in milliseconds, of any clock.
///
/// The owner of a wait tells it each word of the peer (`hear`), and, after each step of an open connection, whether something waits for the
/// peer, and how many items are out (`step`); asks it when something is due (`due`); and then what is to be done (`act`).
#[derive(Drop)]
pub struct Wait {
    pace: Pace,
    due: Due,
    /// How long the next wait is.
    length: u32,
    /// How long the peer takes to acknowledge, as it was measured.
    measure: Measure,
    /// The item that is timed.
    timing: Timing,
    /// How often the peer said that it lacks the same item.
    replies: Replies,
    /// How many packets went out again or asked since the last word of the peer.
    misses: u16,
    /// When the last word of the peer came.
    heard_at: u64,
}

impl Model for Wait {
    ghost use Rattle.xns_agenda.specs.Waiting.{Waiting, IsWaiting};

    ghost Value = { Waiting };

    ghost view = { λ w. record { pace = w.pace; due = w.due; length = w.length; measure = w.measure; timing = w.timing; replies = w.replies; misses = w.misses; heard_at = w.heard_at } };

    ghost invariant = { λ w. IsWaiting w.pace w.length w.misses w.measure };
}

/// The time `span` after `now`, and the last time where that would be later.
fn later(now: u64, span: u32) -> u64
    ensures { result ≡ later now span }
{
    now.saturating_add(u64::from(span))
}

/// How long a peer for which nothing waits may be silent; 0 is for ever, or the usual time while a word of the peer is wanted.
fn idle_span(pace: &Pace, wants: bool) -> u32
    ensures { result ≡ idle_span pace.now wants }
{
    if pace.idle == 0 && wants {
        Pace::USUAL_IDLE
    } else {
        pace.idle
    }
}

/// When a peer for which nothing waits is asked for a word.
fn idle_due(pace: &Pace, heard_at: u64, wants: bool) -> Due
    ensures { result ≡ idle_due pace.now heard_at wants }
{
    let span = idle_span(pace, wants);
    if span == 0 {
        Due::Never
    } else {
        Due::AskAt(later(heard_at, span))
    }
}

impl Wait {
    ghost use Rattle.xns_agenda.specs.Waiting.{new_waiting, act_at, after_act, after_by, after_step, after_word, begun, counting, is_overdue, is_third_reply, missed, rested, resent, lingering, taught, unmoved};
    ghost use Rattle.xns_agenda.specs.Waiting.{IsDueAfter, last_time, waiting_on, idling};

    /// The waits of a connection that is made at this time.
    pub fn new(pace: Pace, now: u64) -> Wait
        ensures { result ≡ new_waiting pace now }
    {
        Wait {
            pace,
            due: Due::Never,
            length: pace.first,
            measure: Measure::NONE,
            timing: Timing::Ready,
            replies: Replies::NONE,
            misses: 0,
            heard_at: now,
        }
    }

    /// What is due, and when.
    pub fn due(&self) -> Due
        ensures { result ≡ self.now.due }
    {
        self.due
    }

    /// Whether, where the peer acknowledges so many items, the next one that it lacks goes out again at once: something had gone out again
    /// since it acknowledged more, and it has not acknowledged all that was out then, as far as that is kept.
    pub fn mends(&self, acknowledged: u64, now: u64) -> bool
        ensures { result ≡ mends self.now.measure self.now.pace self.now.timing acknowledged now }
    {
        self.measure
            .mends(&self.pace, self.timing, acknowledged, now)
    }

    /// Whether half of the first wait is over since the item that is timed went out, which the peer did not acknowledge, and nothing went
    /// out again.
    pub fn is_overdue(&self, now: u64) -> bool
        ensures { result ≡ is_overdue self.now now }
    {
        match self.due {
            Due::AgainAt(_) => self
                .timing
                .is_late(self.measure.first_wait(&self.pace), now),
            Due::Never | Due::AskAt(_) | Due::ForgetAt(_) => false,
        }
    }

    /// Whether a reply is the third in a row that says the same, while something waits for the peer, and nothing went out again since it
    /// acknowledged more. `reply` is the allocation number of a reply by which the peer lacks the first item that is out; `None` of another
    /// packet.
    pub fn is_third_reply(&self, reply: Option<u16>) -> bool
        ensures { result ≡ is_third_reply self.now reply }
    {
        match (self.due, reply) {
            (Due::AgainAt(_), Some(allocation)) => !self.timing.is_vain()
                && self.replies.is_third(allocation),
            _ => false,
        }
    }

    /// When the last word of the peer came.
    pub fn heard_at(&self) -> u64
        ensures value { result ≡ self.now.heard_at }
        // No more packets than are borne have gone out since that word.
        ensures patient { self.now.misses ≤ borne self.now.measure self.now.pace }
    {
        self.heard_at
    }

    /// Ends the wait for the peer; the next wait is a first one.
    fn rest(&mut self)
        ensures { self.new ≡ rested self.old }
    {
        self.due = Due::Never;
        self.length = self.measure.first_wait(&self.pace);
    }

    /// Begins a wait for the peer.
    fn begin(&mut self, now: u64)
        ensures { self.new ≡ begun AgainAt self.old now }
    {
        self.due = Due::AgainAt(later(now, self.length));
        self.length = self.pace.next_length(self.length);
    }

    /// Takes in a step after which something waits for the peer.
    fn wait_on(&mut self, out: u64, now: u64)
        ensures { self.new ≡ waiting_on self.old self.old.due out now }
    {
        match self.due {
            Due::ForgetAt(_) => {}
            Due::AgainAt(_) => self.timing = self.timing.begun(out, now),
            Due::Never | Due::AskAt(_) => {
                self.timing = self.timing.begun(out, now);
                self.rest();
                self.begin(now);
            }
        }
    }

    /// Takes in a step after which nothing waits for the peer.
    fn idle(&mut self, wants: bool)
        ensures { self.new ≡ idling self.old self.old.due wants }
    {
        match self.due {
            Due::AskAt(_) | Due::ForgetAt(_) => {}
            Due::Never | Due::AgainAt(_) => {
                self.timing = Timing::Ready;
                self.rest();
                self.due = idle_due(&self.pace, self.heard_at, wants);
            }
        }
    }

    /// Takes in a step of an open connection, where `waiting` says how many items are out, if something waits for the peer, and `wants`
    /// whether a word of the peer is wanted, for a call or for the end of the connection. A timer of the same kind that runs already is
    /// not started again.
    pub fn step(&mut self, waiting: Option<u64>, wants: bool, now: u64)
        ensures { self.new ≡ after_step self.old waiting wants now }
    {
        match waiting {
            Some(out) => self.wait_on(out, now),
            None => self.idle(wants),
        }
    }

    /// Learns how long the peer took to acknowledge more.
    fn learn(&mut self, progress: Progress, again: bool, now: u64)
        requires { self.old.misses ≡ 0 }
        ensures { self.new ≡ taught self.old progress again now }
    {
        self.measure = self.measure.learnt(&self.pace, self.timing, progress, now);
        self.timing = self.timing.moved_on(progress, again, now);
        self.replies = Replies::NONE;
    }

    /// Takes in that the packet which waits for the peer goes out again before its time: the first wait begins anew.
    fn resend(&mut self, out: u64, now: u64)
        ensures { self.new ≡ resent self.old out now }
    {
        self.rest();
        self.begin(now);
        self.timing = Timing::Resent(now, out);
    }

    /// Takes in that the peer says, by a reply with this allocation number, that it lacks the first item that is out, and whether the item
    /// goes out again for that.
    fn take_reply(&mut self, allocation: u16, again: bool, out: u64, now: u64)
        ensures { self.new ≡ unmoved self.old (Some allocation) again out now }
    {
        self.replies = self.replies.counted(allocation);
        if again {
            self.resend(out, now);
        }
    }

    /// Takes in a word of the peer that acknowledges no more, while something waits for the peer.
    fn stay(&mut self, reply: Option<u16>, again: bool, out: u64, now: u64)
        ensures { self.new ≡ unmoved self.old reply again out now }
    {
        match reply {
            Some(allocation) => self.take_reply(allocation, again, out, now),
            None if again => self.resend(out, now),
            None => {}
        }
    }

    /// Takes in a word of the peer, where `progress` says what it acknowledges, and `again` whether something goes out again for it.
    /// `reply` is the allocation number of a reply by which the peer lacks the first item that is out; `None` of another packet.
    pub fn hear(&mut self, progress: Progress, reply: Option<u16>, again: bool, now: u64)
        ensures { self.new ≡ after_word self.old progress reply again now }
    {
        self.heard_at = now;
        self.misses = 0;
        match self.due {
            Due::ForgetAt(_) => {}
            Due::AgainAt(_) if progress.acknowledged > 0 => {
                self.learn(progress, again, now);
                self.rest();
            }
            Due::AgainAt(_) => self.stay(reply, again, progress.out, now),
            Due::Never | Due::AskAt(_) => self.rest(),
        }
    }

    /// Takes in that the connection is closed at this time: it is forgotten after the longest wait.
    pub fn linger(&mut self, now: u64)
        ensures { self.new ≡ lingering self.old now }
    {
        self.due = Due::ForgetAt(later(now, self.pace.longest));
    }

    /// What is to be done at this time.
    fn next_act(&self, now: u64) -> Act
        ensures value { result ≡ act_at self.now now }
        ensures again { result ≡ Again → self.now.misses < borne self.now.measure self.now.pace }
        ensures ask { result ≡ Ask → self.now.misses < borne self.now.measure self.now.pace }
    {
        let Some(time) = self.due.time() else {
            return Act::Nothing;
        };
        if now < time {
            return Act::Nothing;
        }
        match self.due {
            Due::Never => Act::Nothing,
            Due::ForgetAt(_) => Act::Forget,
            Due::AgainAt(_) | Due::AskAt(_) if self.misses >= self.measure.borne(&self.pace) =>
                Act::GiveUp,
            Due::AgainAt(_) => Act::Again,
            Due::AskAt(_) => Act::Ask,
        }
    }

    /// Counts a packet that goes out again, and begins the next wait.
    fn miss_again(&mut self, now: u64)
        requires { self.old.misses < borne self.old.measure self.old.pace }
        ensures { self.new ≡ after_by self.old Again now }
    {
        self.misses += 1;
        self.timing = Timing::Resent(now, Timing::EVERY);
        self.due = Due::AgainAt(later(now, self.length));
        self.length = self.pace.next_length(self.length);
    }

    /// Counts a packet that asks the peer for a word, and begins the next wait.
    fn miss_ask(&mut self, now: u64)
        requires { self.old.misses < borne self.old.measure self.old.pace }
        ensures { self.new ≡ missed AskAt self.old now }
    {
        self.misses += 1;
        self.due = Due::AskAt(later(now, self.length));
        self.length = self.pace.next_length(self.length);
    }

    /// What is to be done at this time, which counts as done from then on. Nothing is done before its time.
    #[tactic(auto, using(crate::proofs::Later::due_later))]
    pub fn act(&mut self, now: u64) -> Act
        ensures act { result ≡ act_at self.old now }
        ensures after { self.new ≡ after_act self.old now }
        // What is due next is due after this time, unless time ends.
        ensures later { now < last_time → IsDueAfter now self.new.due }
    {
        let act = self.next_act(now);
        match act {
            Act::Nothing => {}
            Act::Again => self.miss_again(now),
            Act::Ask => self.miss_ask(now),
            Act::GiveUp => self.linger(now),
            Act::Forget => self.due = Due::Never,
        }
        act
    }
}
