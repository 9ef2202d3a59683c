//! The bytes of items that are fed, and the words of messages on their way out.

ghost use Rattle.std.specs.Prelude.{◌≡◌, ◌<◌, ◌++◌, length, false, OnErr, IfOk, Ok};
ghost use Rattle.courier_messages.specs.Cutting.{cut};
ghost use Rattle.courier_messages.specs.Head.{with_words};
ghost use Rattle.courier_messages.specs.Text.{item_of};

use courier_messages::{Head, MOST_BYTES, put_long, put_whole};
use std::alloc::{AllocError, Global};
use std::collections::VecDeque;
use xns_spp::{Bytes, Item, MOST_BODY};

/// The most bytes that an item may have: the versions and the longest message.
pub const MOST_ITEM: usize = 4 + MOST_BYTES;

/// How many words an item holds at most.
const WORDS_AN_ITEM: usize = MOST_BODY / 2;

/// An item of any datastream, without attention, whose bytes are copied. Memory is refused only where there are bytes.
pub fn copied_item(alloc: Global, stream: u8, last: bool, body: &[u8]) -> Result<Item, AllocError>
    ensures copied { IfOk result (λ x. x ≡ item_of stream last body.now) }
    ensures memory { OnErr result (0 < length body.now) }
{
    let mut bytes = Vec::new(alloc);
    if !body.is_empty() {
        bytes.extend_from_slice(body)?;
    }
    Ok(Item {
        stream,
        attention: false,
        last,
        body: Bytes::new(bytes),
    })
}

/// Puts the items of a message with this head and these words behind those that are out. Where memory is refused, `out`
/// holds what it held.
pub fn put_message(
    alloc: Global,
    head: Head,
    words: &[u16],
    out: &mut VecDeque<Item>,
) -> Result<(), AllocError>
    ensures put { result ≡ Ok tt → out.new.items ≡ out.old.items ++ cut (with_words head words.now) }
    ensures unchanged { OnErr result (out.new.items ≡ out.old.items) }
{
    if head.size() + words.len() <= WORDS_AN_ITEM {
        return put_whole(alloc, head, words, out);
    }
    put_long(alloc, head, words, out)
}
