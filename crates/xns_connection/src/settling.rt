//! What becomes of a connection after something was done: its items move, and its timer and what it owes are set anew.

ghost use Rattle.std.specs.Prelude.{◌≡◌, ◌≢◌, ◌<◌, ◌-◌, ◌&&◌, ◌||◌, [], not, if◌then◌else◌, true, false};
ghost use Rattle.std.specs.Prelude.{Some, None, Err};
ghost use Rattle.courier_sessions.specs.declared.feed_refusal.FeedRefusal.TheVariants.{NoMemory};
ghost use Rattle.std.specs.Option.{is_none, is_some};
ghost use Rattle.xns_spp.specs.Ends.{is_open};
ghost use Rattle.xns_spp.specs.Held.{StandsFor};
ghost use Rattle.xns_spp.specs.Sending.{tick_answer};
ghost use Rattle.xns_spp.specs.State.{State};
ghost use Rattle.xns_spp.specs.Telling.{unacknowledged_count};
ghost use Rattle.xns_connection.specs.Closing.{wants_word};
ghost use Rattle.xns_connection.specs.Connecting.{FitsClosed, is_again, is_open_due, is_closed_due, why_after, owed_after, again_for, is_foreign, is_of_another, is_dropped_repeat};
ghost use Rattle.xns_connection.specs.Moving.{HasHistory};
ghost use Rattle.xns_connection.specs.Deeds.{ClosesThen, GoesOnBy, is_starved};
ghost use Rattle.xns_connection.specs.Telling.{progress, waits};
ghost use Rattle.xns_agenda.specs.Waiting.{StepsAt, after_step, after_word};
ghost use Rattle.xns_agenda.specs.declared.act.Act.TheVariants.{GiveUp};

use crate::conversation::Conversation;
use crate::owed::Owed;
use crate::why::Why;
use crate::why_closed::why_after;
use courier_sessions::FeedRefusal;
use std::alloc::Global;
use xns_agenda::{Act, Progress, Wait};
use xns_spp::{Dropped, Input};

/// Whether a packet was dropped as one of another connection.
pub fn is_of_another(dropped: Option<Dropped>) -> bool
    ensures { result ≡ is_of_another dropped }
{
    matches!(dropped, Some(Dropped::NotOurs))
}

/// Whether the packet is not from our peer.
fn is_foreign(dropped: Option<Dropped>) -> bool
    ensures { result ≡ is_foreign dropped }
{
    matches!(
        dropped,
        Some(Dropped::NotIdp | Dropped::NotSpp | Dropped::NotOurs | Dropped::AheadOfUs)
    )
}

/// Whether a word of the peer is wanted, where nothing waits for the peer.
fn asks_word(conversation: &Conversation, waiting: Option<u64>) -> bool
    ensures { result ≡ is_none waiting && wants_word conversation.now.side conversation.now.closing }
{
    waiting.is_none() && conversation.wants_word()
}

/// Takes a step of an open connection into its wait: its timer starts or stops, and one that runs for the same cause goes on.
#[tactic(auto, using(crate::proofs::Moments::one_step))]
pub fn wait_on(conversation: &Conversation, wait: &mut Wait, now: u64)
    requires { is_open_due wait.old.due ≡ true }
    ensures waits { (s : State) → StandsFor conversation.now.endpoint s
        → wait.new ≡ after_step wait.old (waits s) (wants_word conversation.now.side conversation.now.closing) now }
    ensures steps { StepsAt now wait.old wait.new }
    ensures timed { (s : State) → StandsFor conversation.now.endpoint s → tick_answer s ≢ [] → is_again wait.new.due ≡ true }
    ensures open_due { is_open_due wait.new.due ≡ true }
{
    let waiting = conversation.waits();
    wait.step(waiting, asks_word(conversation, waiting), now);
}

/// After items moved: records the close reason, if any, and takes the step into the wait.
#[tactic(auto, using(crate::proofs::Moments::no_step, crate::proofs::Moments::one_close))]
fn after_moving(
    conversation: &mut Conversation,
    moved: Result<(), FeedRefusal>,
    closed: &mut Option<Why>,
    wait: &mut Wait,
    now: u64,
)
    requires fits { FitsClosed closed.old conversation.old wait.old }
    ensures closes { ClosesThen now conversation.old moved conversation.new closed.old closed.new wait.old wait.new }
    ensures timed { closed.new ≡ None → (s : State) → StandsFor conversation.new.endpoint s → tick_answer s ≢ []
        → is_again wait.new.due ≡ true }
    ensures fits { FitsClosed closed.new conversation.new wait.new }
{
    if closed.is_some() {
        return;
    }
    let why = why_after(conversation, moved);
    if why.is_some() {
        *closed = why;
        conversation.give_up();
        wait.linger(now);
        return;
    }
    wait_on(conversation, wait, now);
}

/// Whether memory was refused while items moved.
fn is_starved(moved: Result<(), FeedRefusal>) -> bool
    ensures { result ≡ is_starved moved }
{
    matches!(moved, Err(FeedRefusal::NoMemory))
}

/// Moves items until none can move; then records the close reason, if any, and what the connection owes, and takes the step into the
/// wait.
pub fn settled(
    conversation: &mut Conversation,
    alloc: Global,
    owed: &mut Owed,
    closed: &mut Option<Why>,
    wait: &mut Wait,
    now: u64,
)
    requires fits { FitsClosed closed.old conversation.old wait.old }
    requires stands { HasHistory conversation.old.endpoint }
    ensures moved { GoesOnBy now conversation.old conversation.new owed.old owed.new closed.old closed.new wait.old wait.new }
    ensures timed { closed.new ≡ None → (s : State) → StandsFor conversation.new.endpoint s → tick_answer s ≢ []
        → is_again wait.new.due ≡ true }
    ensures fits { FitsClosed closed.new conversation.new wait.new }
    ensures stands { HasHistory conversation.new.endpoint }
{
    let waiting = conversation.endpoint.waiting();
    let moved = conversation.settle(alloc);
    owed.moving = is_starved(moved);
    owed.word = owed.word || conversation.endpoint.waiting() < waiting;
    owed.fresh = true;
    after_moving(conversation, moved, closed, wait, now);
}

/// How many items a packet of the peer acknowledged, where that it opened the connection counts as one.
fn acknowledged(conversation: &Conversation, before: usize, was_open: bool) -> u64
    ensures { (s : State) → StandsFor conversation.now.endpoint s
        → result ≡ (if is_open s.ends && not was_open then 1 else before - unacknowledged_count s) }
{
    if conversation.endpoint.is_open() && !was_open {
        return 1;
    }
    before.saturating_sub(conversation.endpoint.unacknowledged()) as u64
}

/// What a packet of the peer acknowledged, of so many items that were not, and how many are out then.
pub fn progress_of(conversation: &Conversation, before: usize, was_open: bool) -> Progress
    ensures { (s v : State) → before ≡ unacknowledged_count s → was_open ≡ is_open s.ends → StandsFor conversation.now.endpoint v
        → result ≡ progress s v }
{
    Progress {
        acknowledged: acknowledged(conversation, before, was_open),
        out: conversation.endpoint.out_count(),
    }
}

/// Whether a packet was dropped because its item came before.
fn is_dropped_repeat(dropped: Option<Dropped>) -> bool
    ensures { result ≡ is_dropped_repeat dropped }
{
    matches!(dropped, Some(Dropped::Repeat))
}

/// Whether the first item goes out again for a packet, where `acknowledged` says how many items the packet has acknowledged, and `left`
/// whether an item is still not: where something had gone out again, and not all is acknowledged that was out then; for a repeat, where
/// something is overdue; or for a reply, by its allocation number, that is the third in a row by which the peer lacks the item.
fn goes_again(
    dropped: Option<Dropped>,
    acknowledged: u64,
    left: bool,
    reply: Option<u16>,
    wait: &Wait,
    now: u64,
) -> bool
    ensures { result ≡ again_for dropped acknowledged left reply wait.now now }
{
    let may = if acknowledged > 0 {
        wait.mends(acknowledged, now)
    } else {
        wait.is_third_reply(reply) || (is_dropped_repeat(dropped) && wait.is_overdue(now))
    };
    left && may
}

/// Records in the timer and in what the connection owes that a packet came. `progress` says what the packet acknowledges, and `left` whether an
/// item is still not acknowledged. `reply` is the allocation number of a reply by which the peer lacks an item that is out; `None` of another
/// packet.
pub fn note(
    input: Input,
    progress: Progress,
    left: bool,
    reply: Option<u16>,
    owed: &mut Owed,
    wait: &mut Wait,
    now: u64,
)
    ensures foreign { is_foreign input.dropped ≡ true → (wait.new ≡ wait.old) × (owed.new ≡ owed.old) }
    ensures wait { is_foreign input.dropped ≡ false
        → wait.new ≡ after_word wait.old progress reply (again_for input.dropped progress.acknowledged left reply wait.old now) now }
    ensures owed { is_foreign input.dropped ≡ false → owed.new ≡ record owed.old {
      word = owed.old.word || input.owes_reply;
      again = owed.old.again || again_for input.dropped progress.acknowledged left reply wait.old now;
    } }
    ensures open_due { is_open_due wait.old.due ≡ true → is_open_due wait.new.due ≡ true }
    ensures closed_due { is_closed_due wait.old.due ≡ true → is_closed_due wait.new.due ≡ true }
{
    if is_foreign(input.dropped) {
        return;
    }
    let again = goes_again(input.dropped, progress.acknowledged, left, reply, wait, now);
    owed.word = owed.word || input.owes_reply;
    owed.again = owed.again || again;
    wait.hear(progress, reply, again, now);
}

/// What a connection owes after an act.
pub fn owed_after(owed: Owed, act: Act) -> Owed
    ensures { result ≡ owed_after owed act }
{
    let mut after = owed;
    match act {
        Act::Nothing | Act::GiveUp | Act::Forget => {}
        Act::Again => {
            after.again = true;
            after.fresh = true;
        }
        Act::Ask => {
            after.asks = true;
            after.fresh = true;
        }
    }
    after
}

/// Takes a step that closed nothing into the wait of the connection. The wait of a closed connection stays as it is.
#[tactic(auto, using(crate::proofs::Moments::no_step))]
pub fn wait_unless(conversation: &Conversation, closed: Option<Why>, wait: &mut Wait, now: u64)
    requires open_due { closed ≡ None → is_open_due wait.old.due ≡ true }
    ensures kept { closed ≢ None → wait.new ≡ wait.old }
    ensures waits { closed ≡ None → (s : State) → StandsFor conversation.now.endpoint s
        → wait.new ≡ after_step wait.old (waits s) (wants_word conversation.now.side conversation.now.closing) now }
    ensures timed { closed ≡ None → (s : State) → StandsFor conversation.now.endpoint s → tick_answer s ≢ []
        → is_again wait.new.due ≡ true }
    ensures open_due { closed ≡ None → is_open_due wait.new.due ≡ true }
    ensures steps { StepsAt now wait.old wait.new }
{
    if closed.is_some() {
        return;
    }
    wait_on(conversation, wait, now);
}
