//! Reads the front of the bytes that are kept and of those that come behind them: the version range, or the head of a message. No function
//! here changes what is kept.
ghost use Rattle.std.specs.Prelude.{◌≡◌, ◌<◌, ◌≤◌, ◌+◌, ◌*◌, ◌/◌, ◌++◌, length, drop, slice_get, get_or, MatchOption};
ghost use Rattle.courier_types.specs.Pieces.{words_of};
ghost use Rattle.courier_messages.specs.Conversation.{range_bytes};
ghost use Rattle.courier_messages.specs.Head.{ReadsHead, size_of, heads_in};
ghost use Rattle.courier_messages.specs.Inside.{IsSkipped};
ghost use Rattle.courier_messages.specs.Message.{most_bytes, message_of};
ghost use Rattle.courier_messages.specs.Phases.{agreement, opened};

use crate::fault::MessageFault;
use crate::head::Head;
use crate::pieces::Pieces;
use crate::reading::{head_of, read_head, take_word};
use courier_types::PieceWords;

/// How many bytes the version range has.
pub const RANGE_BYTES: usize = 4;

/// The byte at a place of the pieces, followed by `body`; `None` behind the last.
#[tactic(auto, using(crate::proofs::Joins::byte_kept, crate::proofs::Joins::byte_that_comes))]
fn byte_at(pieces: &Pieces, body: &[u8], place: usize) -> Option<u8>
    ensures { result ≡ slice_get (pieces.now ++ body.now) place }
{
    match place.checked_sub(pieces.len()) {
        None => pieces.byte(place),
        Some(behind) => body.get(behind).copied(),
    }
}

/// The lowest and the highest version, with which the bytes of the pieces, followed by `body`, begin; `None` for fewer than four bytes.
#[tactic(auto, using(crate::proofs::Ranges::range_bytes, crate::proofs::Ranges::range_cut))]
pub fn range_in(pieces: &Pieces, body: &[u8]) -> Option<(u16, u16)>
    ensures { MatchOption result (length pieces.now + length body.now < range_bytes)
        (λ range. (range_bytes ≤ length pieces.now + length body.now) × (opened (pieces.now ++ body.now) ≡ agreement range.0 range.1)) }
{
    let low_high = byte_at(pieces, body, 0)?;
    let low_low = byte_at(pieces, body, 1)?;
    let high_high = byte_at(pieces, body, 2)?;
    let high_low = byte_at(pieces, body, 3)?;
    let low = u16::from(low_high) * 256 + u16::from(low_low);
    let high = u16::from(high_high) * 256 + u16::from(high_low);
    Some((low, high))
}

/// The words of the pieces behind the bytes that are skipped.
#[tactic(auto, using(crate::proofs::Ranges::words_skipped))]
#[inline(always)]
fn words_behind(pieces: &Pieces, skipped: usize) -> PieceWords<'_>
    requires { IsSkipped skipped pieces.now }
    ensures { result ≡ words_of (drop skipped pieces.now) }
{
    let _count = pieces.len();
    let mut words = PieceWords::new(pieces.as_slice());
    if skipped == RANGE_BYTES {
        take_word(&mut words);
        take_word(&mut words);
    }
    words
}

/// The head of the message whose bytes are kept behind those that are skipped, or what is wrong with the message.
#[inline(always)]
pub fn read_head_in(pieces: &Pieces, skipped: usize) -> Result<Head, MessageFault>
    requires skipped { IsSkipped skipped pieces.now }
    requires size { length pieces.now ≤ most_bytes + skipped }
    ensures { ReadsHead result (drop (skipped / 2 + size_of result) (words_of pieces.now)) (message_of (drop skipped pieces.now)) }
{
    if (pieces.len() - skipped) % 2 == 1 {
        return Err(MessageFault::OddLength);
    }
    let mut words = words_behind(pieces, skipped);
    read_head(&mut words)
}

/// The word at a place of the pieces, without the bytes that are skipped, followed by `body`; 0 behind the last.
#[tactic(auto, using(crate::proofs::Fronts::word_is, crate::proofs::Fronts::no_word, crate::proofs::Fronts::no_high))]
fn word_at(pieces: &Pieces, skipped: usize, body: &[u8], place: usize) -> u16
    requires { skipped + 2 * place < 256 }
    ensures { result ≡ get_or (words_of (drop skipped (pieces.now ++ body.now))) place 0 }
{
    let Some(high) = byte_at(pieces, body, skipped + 2 * place) else {
        return 0;
    };
    let Some(low) = byte_at(pieces, body, skipped + 2 * place + 1) else {
        return 0;
    };
    u16::from(high) * 256 + u16::from(low)
}

/// The head of the message whose bytes are those of the pieces, without those that are skipped, followed by `body`; or
/// what is wrong with the message.
#[tactic(auto, using(crate::proofs::Fronts::front_taken, crate::proofs::Fronts::front_head, crate::proofs::Fronts::even_head, crate::proofs::Heads::odd_message, courier_types::proofs::Joined::words_length, crate::proofs::Heads::dropped_length))]
fn head_behind(pieces: &Pieces, skipped: usize, body: &[u8]) -> Result<Head, MessageFault>
    requires skipped { IsSkipped skipped (pieces.now ++ body.now) }
    requires size { length pieces.now + length body.now ≤ most_bytes + skipped }
    ensures { result ≡ heads_in (message_of (drop skipped (pieces.now ++ body.now))) }
{
    let behind = pieces.len() + body.len() - skipped;
    if behind % 2 == 1 {
        return Err(MessageFault::OddLength);
    }
    let count = behind / 2;
    let front = [
        word_at(pieces, skipped, body, 0),
        word_at(pieces, skipped, body, 1),
        word_at(pieces, skipped, body, 2),
        word_at(pieces, skipped, body, 3),
        word_at(pieces, skipped, body, 4),
        word_at(pieces, skipped, body, 5),
    ];
    if count < 6 {
        return head_of(&front[..count]);
    }
    head_of(&front)
}

/// The head of the message that the bytes are, or what is wrong with the message.
#[tactic(auto, unfolding(crate::specs::Message::message_of))]
fn head_alone(bytes: &[u8]) -> Result<Head, MessageFault>
    requires { length bytes.now ≤ most_bytes }
    ensures { result ≡ heads_in (message_of bytes.now) }
{
    if bytes.len() % 2 == 1 {
        return Err(MessageFault::OddLength);
    }
    let mut words = PieceWords::of_bytes(bytes);
    read_head(&mut words)
}

/// The head of the message whose bytes are those of the pieces, without those that are skipped, followed by `body`; or
/// what is wrong with the message. Where the pieces have no bytes, `body` is read where it lies.
#[tactic(auto, using(crate::proofs::Fronts::alone, crate::proofs::Heads::dropped_length))]
pub fn head_in(pieces: &Pieces, skipped: usize, body: &[u8]) -> Result<Head, MessageFault>
    requires skipped { IsSkipped skipped (pieces.now ++ body.now) }
    requires size { length pieces.now + length body.now ≤ most_bytes + skipped }
    ensures { result ≡ heads_in (message_of (drop skipped (pieces.now ++ body.now))) }
{
    if pieces.len() == 0 {
        return head_alone(&body[skipped..]);
    }
    head_behind(pieces, skipped, body)
}
