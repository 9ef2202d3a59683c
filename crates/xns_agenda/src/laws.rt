//! What the definitions imply, each as the contract of a function that does nothing.

ghost use Rattle.std.specs.Prelude.{◌≡◌, ◌≤◌, ◌<◌, ◌+◌, ◌-◌, ◌*◌, ◌/◌, ℕ, Bool, Option, true};
ghost use Rattle.std.specs.Option.{is_some};
ghost use Rattle.xns_agenda.specs.Agenda.{HasNobody, IsFor, new_agenda};
ghost use Rattle.xns_agenda.specs.Clock.{by_told, day, time_at, told_at};
ghost use Rattle.xns_agenda.specs.Measuring.{Ambiguous, borne, first_smoothed, first_wait, is_vain, learnt, mends, most_ambiguous, most_borne, moved_on, next_length, smoothed_on, soonest, waits_time};
ghost use Rattle.xns_agenda.specs.declared.measure.Measure.{Measure};
ghost use Rattle.xns_agenda.specs.declared.measure.TheConstants.Measure.{NONE};
ghost use Rattle.xns_agenda.specs.declared.pace.Pace.{Pace};
ghost use Rattle.xns_agenda.specs.declared.progress.Progress.{Progress};
ghost use Rattle.xns_agenda.specs.declared.smoothed.Smoothed.{Smoothed};
ghost use Rattle.xns_agenda.specs.declared.timing.Timing.{Timing};
ghost use Rattle.xns_agenda.specs.declared.timing.Timing.TheVariants.{Resent, Timed};
ghost use Rattle.xns_agenda.specs.declared.clock.Clock.{Clock};
ghost use Rattle.xns_agenda.specs.Patience.{Asked, Vain};
ghost use Rattle.xns_agenda.specs.Waiting.{Lacks, Unheard, Waiting, Silence, last_time, act_at, after_act, after_step, due_time, is_third_reply, later};
ghost use Rattle.xns_agenda.specs.declared.act.Act.TheVariants.{Again, GiveUp};
ghost use Rattle.xns_agenda.specs.declared.due.Due.TheVariants.{AgainAt};

/// Between two words of the peer at most as many packets go out by the time alone as are borne, whatever else is done. Each
/// packet counts as one miss.
pub fn a_silent_peer_is_given_up()
    ensures { (w v : Waiting) (n : ℕ) → w.misses ≤ borne w.measure w.pace → Silence w n v
        → (w.misses + n ≡ v.misses) × (w.misses + n ≤ borne w.measure w.pace) }
{}

/// The words of a peer make a connection repeat nothing for ever: while something waits for the peer, and the peer acknowledges no
/// more, at most one packet goes out again for its words, be they repeats or replies that say the same.
pub fn a_repeat_is_answered_once()
    ensures { (w v : Waiting) (n : ℕ) → Unheard w n v → n ≤ 1 }
{}

/// A reply is the third that says the same only where the peer said by two others, since it acknowledged more, that it lacks an item. Where
/// fewer than three such replies come, nothing goes out again for them.
pub fn a_third_reply_comes_after_two()
    ensures { (w v : Waiting) (n : ℕ) (reply : Option ℕ) → w.replies.count ≡ 0 → Lacks w n v → is_third_reply v reply ≡ true → 2 ≤ n }
{}

/// Where the peer acknowledges more, the next item that it lacks goes out again only if something had gone out again since it acknowledged
/// more before (`vain`), and if the peer has not acknowledged all that was out then (`out`). How many items were out is known from the word
/// of the peer for which something went out again (`said`). Where it went out because a wait was over, the number is not kept, and no
/// acknowledgement counts as one of all. An item that is timed is measured only where the peer acknowledges it (`timed`).
pub fn what_was_out_is_mended()
    ensures vain { (m : Measure) (pace : Pace) (timing : Timing) (acknowledged now : ℕ) → mends m pace timing acknowledged now ≡ true
        → is_vain timing ≡ true }
    ensures out { (m : Measure) (pace : Pace) (at missing acknowledged now : ℕ) → mends m pace (Resent at missing) acknowledged now ≡ true
        → acknowledged < missing }
    ensures said { (timing : Timing) (progress : Progress) (now : ℕ) → moved_on timing progress true now ≡ Resent now progress.out }
    ensures timed { (m : Measure) (pace : Pace) (since place now : ℕ) (progress : Progress) → progress.acknowledged < place
        → learnt m pace (Timed since place) progress now ≡ m }
{}

/// While a word of the peer is wanted, as for a call that wants its answer, the connection never waits for ever: something is due at a
/// time.
pub fn a_call_does_not_wait_for_ever()
    ensures { (w : Waiting) (waiting : Option ℕ) (now : ℕ) → is_some (due_time (after_step w waiting true now).due) ≡ true }
{}

/// When something goes out again, a wait begins that has the length set before (`due`). The length for the next wait is twice
/// that, up to the longest (`next`).
pub fn each_wait_is_twice_the_last()
    ensures due { (w : Waiting) (now : ℕ) → act_at w now ≡ Again → (after_act w now).due ≡ AgainAt (later now w.length) }
    ensures next { (w : Waiting) (now : ℕ) → act_at w now ≡ Again → (after_act w now).length ≡ next_length w.pace w.length }
{}

/// The own time of a clock goes on whatever time is told. By steps forward of at most a day it goes as the times told do (`steady`). When
/// these go back it stands still (`back`), and goes on from there by the next step (`on`). No step of it is more than a day (`far`). An own
/// time that is ahead is as far ahead of the time told last, by the clock that told it (`told`).
pub fn a_clock_goes_on()
    ensures steady { (c : Clock) (now : ℕ) → c.told ≤ now → now ≤ c.told + day → c.latest + (now - c.told) ≤ last_time
        → time_at c now ≡ c.latest + (now - c.told) }
    ensures back { (c : Clock) (now : ℕ) → c.latest ≤ last_time → now ≤ c.told → time_at c now ≡ c.latest }
    ensures on { (c : Clock) (now then : ℕ) → c.latest ≤ last_time → now ≤ c.told → now ≤ then → then ≤ now + day
        → c.latest + (then - now) ≤ last_time → time_at (told_at c now) then ≡ c.latest + (then - now) }
    ensures far { (c : Clock) (now : ℕ) → time_at c now ≤ c.latest + day }
    ensures told { (c : Clock) (span : ℕ) → 0 < span → c.told + span < last_time → by_told c (c.latest + span) ≡ c.told + span }
{}

/// How long the first wait is: as long as the pace says, where nothing was measured (`unmeasured`). A smoothed time stays as it is where it
/// is measured again (`steady`). After one time that was measured (`once`), and after a smoothed time of at most twice `least` (`near`), no
/// acknowledgement of a packet that went out again comes too soon.
pub fn a_wait_is_measured()
    ensures unmeasured { (pace : Pace) → first_wait NONE pace ≡ pace.first }
    ensures steady { (s : Smoothed) (time : ℕ) → s.time8 ≡ 8 * time → (smoothed_on s time).time8 ≡ 8 * time }
    ensures once { (time least : ℕ) → soonest (first_smoothed time) least ≡ 0 }
    ensures near { (s : Smoothed) (least : ℕ) → s.time8 / 8 ≤ 2 * least → soonest s least ≡ 0 }
{}

/// No item goes out twice for ever because each wait is too short: after eight ambiguous acknowledgements, between which no time is
/// measured, the first wait is at least as long as the pace says. An item that is acknowledged within it is measured.
pub fn a_wait_is_not_too_short_for_ever()
    ensures { (m k : Measure) (pace : Pace) → m.ambiguous < most_ambiguous → Ambiguous m pace most_ambiguous k → pace.first ≤ first_wait k pace }
{}

/// How long a silent peer is borne. One packet goes out after each wait but the last, and the waits together take at least the patience
/// (`patient`), unless as many packets go out as can be counted; at least as many go out as the tries say (`tries`), and no more than can
/// be counted (`counted`). After fewer packets than are borne, but not fewer than the tries, the waits have not taken the patience
/// (`no_longer`). Where the first waits have taken the patience, the tries alone say how many (`tries_alone`). With the usual numbers,
/// where nothing was measured, eight packets are borne, and the nine waits take 39,750 ms (`usual`).
#[tactic(auto, using(crate::proofs::Measures::patient, crate::proofs::Measures::tried, crate::proofs::Measures::counted, crate::proofs::Measures::no_longer, crate::proofs::Measures::tries_alone))]
pub fn a_silent_peer_is_borne()
    ensures patient { (m : Measure) (pace : Pace) → borne m pace < most_borne
        → pace.patience ≤ waits_time pace (first_wait m pace) (borne m pace + 1) }
    ensures tries { (m : Measure) (pace : Pace) → pace.tries ≤ borne m pace }
    ensures counted { (m : Measure) (pace : Pace) → pace.tries ≤ most_borne → borne m pace ≤ most_borne }
    ensures no_longer { (m : Measure) (pace : Pace) (k : ℕ) → pace.tries ≤ k → k < borne m pace
        → waits_time pace (first_wait m pace) (k + 1) < pace.patience }
    ensures tries_alone { (m : Measure) (pace : Pace) → pace.patience ≤ waits_time pace (first_wait m pace) (pace.tries + 1)
        → borne m pace ≡ pace.tries }
    ensures usual { (pace : Pace) → pace.first ≡ 250 → pace.longest ≡ 8000 → pace.tries ≡ 8 → pace.patience ≡ 32000
        → (borne NONE pace ≡ 8) × (waits_time pace (first_wait NONE pace) 9 ≡ 39750) }
{}

/// A silent peer is given up no sooner than the pace says. Where something waits for it that begins to wait at `start`, at least as many
/// packets have gone out again as the tries say (`tries`), and the patience has passed since (`patience`), unless as many packets have gone
/// out as can be counted, or time ends. Where nothing waits for it, at least as many packets have asked it (`asked`), and the patience has
/// passed since its last word, if it is asked no sooner than after the longest wait (`idle`).
pub fn no_peer_is_given_up_early()
    ensures tries { (w v : Waiting) (start n now : ℕ) → w.misses ≡ 0 → Vain start w n v → act_at v now ≡ GiveUp → w.pace.tries ≤ n }
    ensures patience { (w v : Waiting) (start n now : ℕ) → w.misses ≡ 0 → Vain start w n v → act_at v now ≡ GiveUp → n < most_borne
        → later start w.pace.patience ≤ now }
    ensures asked { (w v : Waiting) (span n now : ℕ) → w.misses ≡ 0 → Asked span w n v → act_at v now ≡ GiveUp → w.pace.tries ≤ n }
    ensures idle { (w v : Waiting) (span n now : ℕ) → w.misses ≡ 0 → Asked span w n v → act_at v now ≡ GiveUp → n < most_borne
        → w.pace.longest ≤ span → later w.heard_at w.pace.patience ≤ now }
{}

/// A new agenda has room for as many numbers as it was made for (`room`). Nothing is to be done at any of them, and each is free
/// (`nobody`).
pub fn a_new_agenda_has_nobody()
    ensures room { (most : ℕ) → IsFor (new_agenda most) most }
    ensures nobody { (most k : ℕ) → k < most → HasNobody (new_agenda most) k }
{}
