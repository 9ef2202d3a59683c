//! Writing messages.
ghost use Rattle.std.specs.Prelude.{◌≡◌, ◌+◌, ◌*◌, ◌^◌, ◌<◌, ◌≤◌, ◌++◌, length, vec_len, vec_capacity, OnOk, OnErr, IfSome, IfNone};
ghost use Rattle.courier_types.specs.Writing.{HasRoom};
ghost use Rattle.courier_messages.specs.Head.{head_size};
ghost use Rattle.courier_types.specs.Source.{bytes_of};
ghost use Rattle.courier_messages.specs.Message.{message_bytes};

use crate::head::Head;
use crate::message::Message;
use std::alloc::{AllocError, Global};

/// Appends the words, two bytes each, to `out`, which has room for them.
#[tactic(auto, using(crate::proofs::Puts::word_put))]
pub fn put_words(words: &[u16], out: &mut Vec<u8>)
    requires { HasRoom out.old (length (bytes_of words.now)) }
    ensures items { out.new.items ≡ out.old.items ++ bytes_of words.now }
    ensures len { vec_len out.new ≡ vec_len out.old + length (bytes_of words.now) }
    ensures capacity { vec_capacity out.new ≡ vec_capacity out.old }
{
    for word in words {
        let word = *word;
        out.push_reserved((word / 256) as u8);
        out.push_reserved((word % 256) as u8);
    }
}

/// How many bytes the head and so many words have; `None` where a `usize` cannot hold it.
fn byte_count(head: Head, words: usize) -> Option<usize>
    ensures some { IfSome result (λ count. count ≡ 2 * (head_size head + words)) }
    ensures none { IfNone result (2 ^ 64 ≤ 2 * (head_size head + words)) }
{
    head.size().checked_add(words)?.checked_mul(2)
}

/// Appends the message's words, two bytes each.
///
/// The bytes grow by their own allocator, once, before the first byte is written; `alloc` only shows that they may.
/// Where memory is refused, the bytes are as they were. Memory is never refused to bytes that have room for the
/// message.
#[tactic(auto, using(crate::proofs::Puts::message_is_its_parts, crate::proofs::Puts::head_bytes, crate::proofs::Cuts::bytes_length))]
pub fn write_message(alloc: Global, message: &Message, out: &mut Vec<u8>) -> Result<(), AllocError>
    ensures ok { OnOk result (out.new.items ≡ out.old.items ++ message_bytes message.now) }
    ensures err { OnErr result (out.new.items ≡ out.old.items) }
    ensures memory { OnErr result (vec_capacity out.old < vec_len out.old + length (message_bytes message.now)) }
{
    let head = Head::of(message);
    let words = message.words();
    let Some(count) = byte_count(head, words.len()) else {
        return Err(AllocError);
    };
    out.reserve(count)?;
    head.put(out);
    put_words(words, out);
    Ok(())
}
