//! Reading messages, from words wherever they lie.
ghost use Rattle.std.specs.Prelude.{◌≡◌, ◌<◌, ◌∷◌, length, IfOk, OnErr, MatchResult, Ok, Err};
ghost use Rattle.courier_types.specs.Pieces.{words_of};
ghost use Rattle.courier_messages.specs.Head.{ReadsHead, heads_in};
ghost use Rattle.courier_messages.specs.Message.{message_in, call_in, reject_in, abort_in, message_of, SpellsMessage};
ghost use Rattle.courier_messages.specs.Refusal.{Reads, IfNoMemory, HasOwnWords};

use crate::fault::{MessageFault, MessageRefusal};
use crate::head::Head;
use crate::kinds::{ABORT, CALL, REJECT, RETURN};
use crate::message::Message;
use crate::words::Words;
use courier_types::known::known_bytes;
use courier_types::{PieceWords, WordSource};
use std::alloc::{AllocError, Global};

/// How many bytes a message has at most.
pub const MOST_BYTES: usize = 131_072;

/// Takes the next word of a source that has one.
#[inline(always)]
pub fn take_word<S: WordSource>(source: &mut S) -> u16
    requires { 0 < length (S.words_left source.old) }
    ensures { S.words_left source.old ≡ result ∷ S.words_left source.new }
{
    match source.next_word() {
        Some(word) => word,
        None => unreachable!(),
    }
}

#[inline(always)]
fn read_call_head<S: WordSource>(transaction: u16, source: &mut S) -> Result<Head, MessageFault>
    ensures { ReadsHead result (S.words_left source.new) (call_in transaction (S.words_left source.old)) }
{
    if source.left() < 4 {
        return Err(MessageFault::ShortMessage);
    }
    let high = take_word(source);
    let low = take_word(source);
    let version = take_word(source);
    let procedure = take_word(source);
    Ok(Head::Call {
        transaction,
        program: u32::from(high) * 65536 + u32::from(low),
        version,
        procedure,
    })
}

fn read_reject_head<S: WordSource>(transaction: u16, source: &mut S) -> Result<Head, MessageFault>
    ensures { ReadsHead result (S.words_left source.new) (reject_in transaction (S.words_left source.old)) }
{
    match source.next_word() {
        Some(reason) => Ok(Head::Reject {
            transaction,
            reason,
        }),
        None => Err(MessageFault::ShortMessage),
    }
}

fn read_abort_head<S: WordSource>(transaction: u16, source: &mut S) -> Result<Head, MessageFault>
    ensures { ReadsHead result (S.words_left source.new) (abort_in transaction (S.words_left source.old)) }
{
    match source.next_word() {
        Some(error) => Ok(Head::Abort { transaction, error }),
        None => Err(MessageFault::ShortMessage),
    }
}

/// Reads the head that the words begin with.
#[inline(always)]
pub fn read_head<S: WordSource>(source: &mut S) -> Result<Head, MessageFault>
    ensures { ReadsHead result (S.words_left source.new) (message_in (S.words_left source.old)) }
{
    if source.left() < 2 {
        return Err(MessageFault::ShortMessage);
    }
    let kind = take_word(source);
    let transaction = take_word(source);
    match kind {
        CALL => read_call_head(transaction, source),
        REJECT => read_reject_head(transaction, source),
        RETURN => Ok(Head::Return { transaction }),
        ABORT => read_abort_head(transaction, source),
        found => Err(MessageFault::UnknownKind { found }),
    }
}

/// The head of a message that begins with these words, which are its first six or all that it has.
pub fn head_of(words: &[u16]) -> Result<Head, MessageFault>
    ensures { result ≡ heads_in (message_in words.now) }
{
    match words {
        [CALL, transaction, high, low, version, procedure, ..] => Ok(Head::Call {
            transaction: *transaction,
            program: u32::from(*high) * 65536 + u32::from(*low),
            version: *version,
            procedure: *procedure,
        }),
        [REJECT, transaction, reason, ..] => Ok(Head::Reject {
            transaction: *transaction,
            reason: *reason,
        }),
        [RETURN, transaction, ..] => Ok(Head::Return {
            transaction: *transaction,
        }),
        [ABORT, transaction, error, ..] => Ok(Head::Abort {
            transaction: *transaction,
            error: *error,
        }),
        [] | [_] | [CALL | REJECT | ABORT, ..] => Err(MessageFault::ShortMessage),
        [found, ..] => Err(MessageFault::UnknownKind { found: *found }),
    }
}

/// A copy of the words that are left, in one list. Memory is refused only where there are some.
#[inline(always)]
pub fn words_left<S: WordSource>(alloc: Global, source: &mut S) -> Result<Words, AllocError>
    ensures words { IfOk result (λ w. w ≡ S.words_left source.old) }
    ensures memory { OnErr result (0 < length (S.words_left source.old)) }
{
    let mut words = Vec::with_capacity(alloc, source.left())?;
    while let Some(word) = source.next_word() {
        words.push_reserved(word);
    }
    Ok(Words::new(words))
}

#[tactic(auto, unfolding(crate::specs::Message::message_of))]
fn read_exactly(alloc: Global, bytes: &[u8]) -> Result<Message, MessageRefusal>
    ensures exact { Reads result (message_of bytes.now) }
    ensures memory { IfNoMemory result (HasOwnWords (message_of bytes.now)) }
{
    if bytes.len() % 2 == 1 {
        return Err(MessageRefusal::Fault(MessageFault::OddLength));
    }
    let mut source = PieceWords::of_bytes(bytes);
    let head = match read_head(&mut source) {
        Ok(head) => head,
        Err(fault) => return Err(MessageRefusal::Fault(fault)),
    };
    if bytes.len() > MOST_BYTES {
        return Err(MessageRefusal::Fault(MessageFault::TooLong));
    }
    match words_left(alloc, &mut source) {
        Ok(words) => Ok(head.with_words(words)),
        Err(_) => Err(MessageRefusal::NoMemory),
    }
}

/// The message that the bytes are.
///
/// The fault is the first of these: `OddLength`; `ShortMessage` under 2 words; `UnknownKind`; `ShortMessage` where there
/// are fewer than the kind needs; `TooLong` over 131,072 bytes. `NoMemory` comes only where the bytes are a message that
/// has words of its own, for which room is made once.
pub fn read_message(alloc: Global, bytes: &[u8]) -> Result<Message, MessageRefusal>
    ensures exact { Reads result (message_of bytes.now) }
    ensures spells { IfOk result (λ m. SpellsMessage m (words_of bytes.now)) }
    ensures memory { IfNoMemory result (HasOwnWords (message_of bytes.now)) }
{
    known_bytes(bytes);
    read_exactly(alloc, bytes)
}
