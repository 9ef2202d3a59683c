//! The message that is coming in.
ghost use Rattle.std.specs.Prelude.{◌≡◌, ◌<◌, ◌≤◌, ◌+◌, ◌++◌, ◌∷◌, None, Ok, Err, [], map, length, drop, true, IfOk};
ghost use Rattle.std.specs.Option.{option_to_list};
ghost use Rattle.std.specs.Prelude.{IfErr, IfNone, IfSome, OnOk, OnErr};
ghost use Rattle.courier_messages.specs.declared.incoming.Stage.TheVariants.{Fresh, Inside};
ghost use Rattle.courier_messages.specs.declared.fault.SessionFault.TheVariants.{NoMemory};
ghost use Rattle.courier_messages.specs.Text.{byte, mark, signs, item_of};
ghost use Rattle.courier_messages.specs.Conversation.{range_bytes, Phase, opening, fresh, inside};
ghost use Rattle.courier_messages.specs.Message.{most_bytes};
ghost use Rattle.courier_messages.specs.Phases.{after_sign, ended, run, said, agreement};
ghost use Rattle.courier_messages.specs.Bounds.{IsWithinMessage};
ghost use Rattle.courier_messages.specs.Inside.{phase_in, kept_at, IsHeld, IsSkipped};
ghost use Rattle.courier_messages.specs.Refusal.{ComesTo, ComesToWith, Foresees, Stops, UnlessMemory, AreRight, KeepsNothing, MayBeKept};

use crate::fault::{MessageFault, SessionFault};
use crate::front::{RANGE_BYTES, head_in, range_in, read_head_in};
use crate::head::Head;
use crate::pieced_message::PiecedMessage;
use crate::pieces::Pieces;
use crate::reading::MOST_BYTES;
use crate::whole_message::WholeMessage;
use std::alloc::Global;
use std::marker::Model;
use xns_spp::Item;

/// The version of Courier that both sides speak.
pub const VERSION: u16 = 3;

/// Where in a conversation a session is: in the version range, directly behind the range, or in a message.
#[derive(Clone, Copy, Debug)]
pub enum Stage {
    Opening,
    Fresh,
    Inside,
}

/// The bytes that came since the last message.
///
/// The first message may begin in the piece that the version range ends in: the range then stands in front of it, and
/// is skipped.
#[derive(Debug, Drop)]
pub struct Incoming {
    stage: Stage,
    pieces: Pieces,
    skipped: usize,
}

impl Model for Incoming {
    ghost Value = { Phase };

    ghost view = { λ a. phase_in a.stage (drop a.skipped a.pieces) };

    ghost invariant = { λ a. IsHeld a.stage a.skipped a.pieces };
}

fn agree(low: u16, high: u16) -> Result<(), SessionFault>
    ensures follows { ComesTo result (agreement low high) fresh }
    ensures memory { result ≡ Err NoMemory → ⊥ }
{
    if low > high {
        Err(SessionFault::BadVersions)
    } else if low > VERSION || high < VERSION {
        Err(SessionFault::NoCommonVersion)
    } else {
        Ok(())
    }
}

/// The stage of a session once more bytes have come, which begin in the version range, and how many bytes are to be
/// skipped from then on; or what is wrong with the bytes. Nothing is changed.
#[tactic(auto, using(crate::proofs::Ranges::still_opening, crate::proofs::Ranges::range_faulty, crate::proofs::Ranges::range_alone, crate::proofs::Ranges::range_and_more, crate::proofs::Ranges::range_and_too_much))]
fn behind_range(pieces: &Pieces, body: &[u8]) -> Result<(Stage, usize), SessionFault>
    requires { length pieces.now < range_bytes }
    ensures runs { IfOk result (λ x. run (opening pieces.now) (map byte body.now) ≡ Ok
        (phase_in x.0 (drop x.1 (kept_at x.0 (pieces.now ++ body.now))))) }
    ensures held { IfOk result (λ x. IsHeld x.0 x.1 (kept_at x.0 (pieces.now ++ body.now))) }
    ensures whole { IfOk result (λ x. length pieces.now + length body.now ≡ range_bytes → x.0 ≡ Fresh) }
    ensures stops { IfErr result (λ e. Stops e ⊥ (run (opening pieces.now) (map byte body.now) ≡ Err e)) }
{
    let Some((low, high)) = range_in(pieces, body) else {
        return Ok((Stage::Opening, 0));
    };
    agree(low, high)?;
    let behind = pieces.len() + body.len() - RANGE_BYTES;
    if behind > MOST_BYTES {
        return Err(SessionFault::BadMessage(MessageFault::TooLong));
    }
    if behind == 0 {
        return Ok((Stage::Fresh, 0));
    }
    Ok((Stage::Inside, RANGE_BYTES))
}

/// Takes in more bytes, which begin in the version range. Returns the stage of the session then, and how many bytes are
/// to be skipped from then on.
fn take_range(pieces: &mut Pieces, body: Vec<u8>) -> Result<(Stage, usize), SessionFault>
    requires { length pieces.old < range_bytes }
    ensures runs { IfOk result (λ x. run (opening pieces.old) (map byte body.items) ≡ Ok (phase_in x.0 (drop x.1 pieces.new))) }
    ensures held { IfOk result (λ x. IsHeld x.0 x.1 pieces.new) }
    ensures stops { IfErr result (λ e. UnlessMemory e (run (opening pieces.old) (map byte body.items) ≡ Err e)) }
    ensures same { OnErr result (pieces.new ≡ pieces.old) }
    ensures memory { result ≡ Err NoMemory → MayBeKept (opening pieces.old) body.items }
{
    let (stage, skipped) = behind_range(pieces, body.as_slice())?;
    match stage {
        Stage::Fresh => pieces.clear(),
        Stage::Opening | Stage::Inside => pieces.push(body)?,
    }
    Ok((stage, skipped))
}

/// Returns `TooLong` where a message would have over 131,072 bytes with these.
#[tactic(auto, using(crate::proofs::Ranges::more_bytes, crate::proofs::Ranges::too_many_bytes))]
#[inline(always)]
fn behind_more(pieces: &Pieces, skipped: usize, body: &[u8]) -> Result<(), SessionFault>
    requires skipped { IsSkipped skipped pieces.now }
    requires size { length pieces.now ≤ most_bytes + skipped }
    ensures runs { OnOk result (run (inside (drop skipped pieces.now)) (map byte body.now) ≡ Ok
        (inside (drop skipped (pieces.now ++ body.now)))) }
    ensures held { OnOk result (IsHeld Inside skipped (pieces.now ++ body.now)) }
    ensures stops { IfErr result (λ e. Stops e ⊥ (run (inside (drop skipped pieces.now)) (map byte body.now) ≡ Err e)) }
{
    if body.len() > MOST_BYTES + skipped - pieces.len() {
        return Err(SessionFault::BadMessage(MessageFault::TooLong));
    }
    Ok(())
}

/// Takes in more bytes of a message.
#[inline(always)]
fn take_more(pieces: &mut Pieces, skipped: usize, body: Vec<u8>) -> Result<(), SessionFault>
    requires skipped { IsSkipped skipped pieces.old }
    requires size { length pieces.old ≤ most_bytes + skipped }
    ensures runs { OnOk result (run (inside (drop skipped pieces.old)) (map byte body.items) ≡ Ok (inside (drop skipped pieces.new))) }
    ensures held { OnOk result (IsHeld Inside skipped pieces.new) }
    ensures stops { IfErr result (λ e. UnlessMemory e (run (inside (drop skipped pieces.old)) (map byte body.items) ≡ Err e)) }
    ensures same { OnErr result (pieces.new ≡ pieces.old) }
    ensures memory { result ≡ Err NoMemory → MayBeKept (inside (drop skipped pieces.old)) body.items }
{
    behind_more(pieces, skipped, body.as_slice())?;
    pieces.push(body)?;
    Ok(())
}

/// Takes in bytes directly behind the version range, and returns the stage of the session then. Where there are no
/// bytes, nothing is changed.
#[tactic(auto, using(crate::proofs::Ranges::fresh_bytes, crate::proofs::Ranges::no_more_bytes))]
#[inline(always)]
fn take_first(pieces: &mut Pieces, body: Vec<u8>) -> Result<Stage, SessionFault>
    requires { pieces.old ≡ [] }
    ensures runs { IfOk result (λ stage. run fresh (map byte body.items) ≡ Ok (phase_in stage pieces.new)) }
    ensures held { IfOk result (λ stage. IsHeld stage 0 pieces.new) }
    ensures stops { IfErr result (λ e. UnlessMemory e (run fresh (map byte body.items) ≡ Err e)) }
    ensures same { OnErr result (pieces.new ≡ []) }
    ensures memory { result ≡ Err NoMemory → MayBeKept fresh body.items }
{
    let more = body.len();
    if more == 0 {
        return Ok(Stage::Fresh);
    }
    take_more(pieces, 0, body)?;
    Ok(Stage::Inside)
}

/// The stage of a session once more bytes have come, and how many bytes are to be skipped from then on; or what is
/// wrong with the bytes. Nothing is changed.
#[tactic(auto, using(crate::proofs::Ranges::fresh_bytes, crate::proofs::Ranges::no_more_bytes))]
fn behind(
    stage: Stage,
    pieces: &Pieces,
    skipped: usize,
    body: &[u8],
) -> Result<(Stage, usize), SessionFault>
    requires { IsHeld stage skipped pieces.now }
    ensures runs { IfOk result (λ x. run (phase_in stage (drop skipped pieces.now)) (map byte body.now) ≡ Ok
        (phase_in x.0 (drop x.1 (kept_at x.0 (pieces.now ++ body.now))))) }
    ensures held { IfOk result (λ x. IsHeld x.0 x.1 (kept_at x.0 (pieces.now ++ body.now))) }
    ensures stops { IfErr result (λ e. Stops e ⊥ (run (phase_in stage (drop skipped pieces.now)) (map byte body.now) ≡ Err e)) }
{
    match stage {
        Stage::Opening => behind_range(pieces, body),
        Stage::Fresh if body.is_empty() => Ok((Stage::Fresh, 0)),
        Stage::Fresh => {
            behind_more(pieces, 0, body)?;
            Ok((Stage::Inside, 0))
        }
        Stage::Inside => {
            behind_more(pieces, skipped, body)?;
            Ok((Stage::Inside, skipped))
        }
    }
}

/// The message that a mark behind these bytes ends, where no other bytes are kept.
fn whole_behind<'a>(stage: Stage, skipped: usize, body: &'a [u8]) -> Option<WholeMessage<'a>>
    requires { IsHeld stage skipped (kept_at stage body.now) }
    ensures steps { IfSome result (λ message. after_sign (phase_in stage (drop skipped (kept_at stage body.now))) mark ≡ Ok (inside [])) }
    ensures ends { ended (phase_in stage (drop skipped (kept_at stage body.now))) mark ≡ option_to_list result }
{
    match stage {
        Stage::Opening | Stage::Fresh => None,
        Stage::Inside => WholeMessage::of(&body[skipped..]),
    }
}

/// The head of the message that a mark behind these bytes would end, if it ends one; or what is wrong. Nothing is
/// changed.
fn look_at_mark(
    stage: Stage,
    pieces: &Pieces,
    skipped: usize,
    body: &[u8],
) -> Result<Option<Head>, SessionFault>
    requires { IsHeld stage skipped (kept_at stage (pieces.now ++ body.now)) }
    ensures { Foresees result (after_sign (phase_in stage (drop skipped (kept_at stage (pieces.now ++ body.now)))) mark)
        (ended (phase_in stage (drop skipped (kept_at stage (pieces.now ++ body.now)))) mark) }
{
    match stage {
        Stage::Opening => Err(SessionFault::BadVersions),
        Stage::Fresh => Ok(None),
        Stage::Inside => match head_in(pieces, skipped, body) {
            Ok(head) => Ok(Some(head)),
            Err(fault) => Err(SessionFault::BadMessage(fault)),
        },
    }
}

impl Incoming {
    pub fn new(alloc: Global) -> Incoming
        ensures { result ≡ opening [] }
    {
        Incoming {
            stage: Stage::Opening,
            pieces: Pieces::new(alloc),
            skipped: 0,
        }
    }

    /// A message of which no byte came yet, as behind a mark.
    pub fn behind_mark(alloc: Global) -> Incoming
        ensures { result ≡ inside [] }
    {
        Incoming {
            stage: Stage::Inside,
            pieces: Pieces::new(alloc),
            skipped: 0,
        }
    }

    /// Does nothing; says to a proof that the bytes that are kept are bounded.
    #[tactic(auto, using(crate::proofs::Bounds::held_bound))]
    pub fn known(&self)
        ensures { IsWithinMessage self.now }
    {
        let _stage = self.stage;
    }

    /// Takes in more bytes.
    #[inline(always)]
    fn take_body(&mut self, body: Vec<u8>) -> Result<(), SessionFault>
        ensures follows { ComesTo result (run self.old (map byte body.items)) self.new }
        ensures memory { result ≡ Err NoMemory → self.new ≡ self.old }
        ensures kept { result ≡ Err NoMemory → MayBeKept self.old body.items }
    {
        match self.stage {
            Stage::Opening => {
                let (stage, skipped) = take_range(&mut self.pieces, body)?;
                self.stage = stage;
                self.skipped = skipped;
                Ok(())
            }
            Stage::Fresh => {
                self.stage = take_first(&mut self.pieces, body)?;
                Ok(())
            }
            Stage::Inside => take_more(&mut self.pieces, self.skipped, body),
        }
    }

    /// The head of the message that an item of these parts would end, if it would end one; or what is wrong with the
    /// item. Nothing of the item is kept.
    pub fn look(&self, stream: u8, last: bool, body: &[u8]) -> Result<Option<Head>, SessionFault>
        ensures { Foresees result (run self.now (signs (item_of stream last body.now)))
            (said self.now (signs (item_of stream last body.now))) }
    {
        if stream != 0 {
            return Err(SessionFault::Stream { kind: stream });
        }
        let (stage, skipped) = behind(self.stage, &self.pieces, self.skipped, body)?;
        if last {
            look_at_mark(stage, &self.pieces, skipped, body)
        } else {
            Ok(None)
        }
    }

    /// Takes in an item of datastream 0 that has these bytes and a mark, where the item brings a whole message of which
    /// nothing was kept before, and returns that message. `None` changes nothing: [`take`](Incoming::take) then returns
    /// what the item brings.
    pub fn take_whole<'a>(&mut self, body: &'a [u8]) -> Option<WholeMessage<'a>>
        ensures runs { IfSome result (λ message. run self.old (signs (item_of 0 true body.now)) ≡ Ok self.new) }
        ensures said { IfSome result (λ message. said self.old (signs (item_of 0 true body.now)) ≡ message ∷ []) }
        ensures none { IfNone result (KeepsNothing self.old → said self.old (signs (item_of 0 true body.now)) ≡ []) }
        ensures same { result ≡ None → self.new ≡ self.old }
    {
        if self.pieces.len() > 0 {
            return None;
        }
        let Ok((stage, skipped)) = behind(self.stage, &self.pieces, self.skipped, body) else {
            return None;
        };
        let Some(message) = whole_behind(stage, skipped, body) else {
            return None;
        };
        self.stage = Stage::Inside;
        self.skipped = 0;
        Some(message)
    }

    /// Takes in a mark, and returns the message that it ends, if it ends one.
    #[inline(always)]
    fn take_mark(&mut self, alloc: Global) -> Result<Option<PiecedMessage>, SessionFault>
        ensures takes { ComesToWith result (after_sign self.old mark) (ended self.old mark) self.new }
        ensures memory { result ≡ Err NoMemory → ⊥ }
    {
        match self.stage {
            Stage::Opening => Err(SessionFault::BadVersions),
            Stage::Fresh => {
                self.stage = Stage::Inside;
                Ok(None)
            }
            Stage::Inside => {
                let head = match read_head_in(&self.pieces, self.skipped) {
                    Ok(head) => head,
                    Err(fault) => return Err(SessionFault::BadMessage(fault)),
                };
                let before = self.skipped / 2 + head.size();
                self.skipped = 0;
                Ok(Some(PiecedMessage::new(head, self.pieces.take(alloc), before)))
            }
        }
    }

    /// Takes in one more item, and returns the message that it ends, if it ends one. Memory is refused only to bytes
    /// that are to be kept behind others and with which nothing is wrong: nothing is changed then, and the item can be
    /// given again. The first piece of a message takes no memory.
    #[tactic(auto, using(crate::proofs::Runs::run_append, crate::proofs::Runs::said_append, crate::proofs::Runs::run_mark, crate::proofs::Runs::said_mark, crate::proofs::Runs::said_bytes))]
    #[inline(always)]
    pub fn take(&mut self, alloc: Global, item: Item) -> Result<Option<PiecedMessage>, SessionFault>
        ensures takes { ComesToWith result (run self.old (signs item)) (said self.old (signs item)) self.new }
        ensures memory { result ≡ Err NoMemory → self.new ≡ self.old }
        ensures kept { result ≡ Err NoMemory → (item.stream ≡ 0) × MayBeKept self.old item.body }
        ensures right { OnOk result (AreRight self.old item.body) }
        ensures ends { IfOk result (λ message. IfSome message (λ m. (item.stream ≡ 0) × (item.last ≡ true))) }
    {
        if item.stream != 0 {
            return Err(SessionFault::Stream { kind: item.stream });
        }
        let last = item.last;
        self.take_body(item.body.into_vec())?;
        if last {
            self.take_mark(alloc)
        } else {
            Ok(None)
        }
    }
}
