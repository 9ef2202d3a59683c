//! Messages on their way out.
ghost use Rattle.std.specs.Prelude.{◌≡◌, ◌++◌, ◌∷◌, ◌<◌, ◌≤◌, ◌+◌, ◌*◌, [], length, true, IfOk, OnOk, OnErr, Ok};
ghost use Rattle.xns_spp.specs.Packet.{most_body};
ghost use Rattle.courier_types.specs.Source.{bytes_of};
ghost use Rattle.courier_messages.specs.Bounds.{bytes_in};
ghost use Rattle.courier_messages.specs.Cutting.{message_item, cut_bytes, versions_item};
ghost use Rattle.courier_messages.specs.Head.{head_size, with_words};
ghost use Rattle.courier_messages.specs.Message.{message_bytes};

use crate::head::Head;
use crate::incoming::VERSION;
use crate::writing::put_words;
use std::alloc::{AllocError, Global};
use std::collections::VecDeque;
use xns_spp::{Bytes, Item, MOST_BODY};

/// How many words the body of an item has at most.
const WORDS_AN_ITEM: usize = MOST_BODY / 2;

/// The item of a part of a message; `last` says whether the part is the last one.
#[inline(always)]
fn item_with(last: bool, body: Vec<u8>) -> Item
    ensures { result ≡ message_item last body.items }
{
    Item {
        stream: 0,
        attention: false,
        last,
        body: Bytes::new(body),
    }
}

#[tactic(auto, using(crate::proofs::Cuts::bytes_length))]
#[inline(always)]
fn make_item(alloc: Global, last: bool, words: &[u16]) -> Result<Item, AllocError>
    requires { 2 * length words.now ≤ most_body }
    ensures { IfOk result (λ x. x ≡ message_item last (bytes_of words.now)) }
{
    let mut body = Vec::with_capacity(alloc, 2 * words.len())?;
    put_words(words, &mut body);
    Ok(item_with(last, body))
}

/// The items that the words of a message are cut into.
#[tactic(auto, using(crate::proofs::Cuts::last_item, crate::proofs::Cuts::one_more_item))]
pub fn cut(alloc: Global, words: &[u16]) -> Result<VecDeque<Item>, AllocError>
    ensures items { IfOk result (λ q. q.items ≡ cut_bytes (bytes_of words.now)) }
    ensures size { IfOk result (λ q. length (bytes_in q.items) ≡ 2 * length words.now) }
{
    let mut items = VecDeque::with_capacity(alloc, words.len() / WORDS_AN_ITEM + 1)?;
    let mut rest = words;
    while rest.len() > WORDS_AN_ITEM {
        let (front, others) = rest.split_at(WORDS_AN_ITEM);
        items.push_back(make_item(alloc, false, front)?)?;
        rest = others;
    }
    items.push_back(make_item(alloc, true, rest)?)?;
    Ok(items)
}

/// The item that each side puts out first, which says its lowest and highest version. The only error is want of memory.
pub fn versions(alloc: Global) -> Result<VecDeque<Item>, AllocError>
    ensures { IfOk result (λ q. q.items ≡ versions_item ∷ []) }
{
    cut(alloc, &[VERSION; 2])
}

/// Cuts the words of a message into items, and puts these behind the items in `out`. The only error is want of memory,
/// after which `out` holds what it held.
#[tactic(auto, using(crate::proofs::Cuts::last_item))]
#[inline(always)]
pub fn put_out(alloc: Global, words: &[u16], out: &mut VecDeque<Item>) -> Result<(), AllocError>
    ensures ok { OnOk result (out.new.items ≡ out.old.items ++ cut_bytes (bytes_of words.now)) }
    ensures size { OnOk result (length (bytes_in out.new.items) ≡ length (bytes_in out.old.items) + 2 * length words.now) }
    ensures err { OnErr result (out.new.items ≡ out.old.items) }
{
    if words.len() > WORDS_AN_ITEM {
        let mut items = cut(alloc, words)?;
        return out.append(&mut items);
    }
    let item = make_item(alloc, true, words)?;
    out.push_back(item)?;
    Ok(())
}

/// The bytes of a message with this head and these words.
#[tactic(auto, using(crate::proofs::Puts::message_is_its_parts, crate::proofs::Puts::head_bytes, crate::proofs::Cuts::bytes_length))]
#[inline(always)]
fn whole_bytes(alloc: Global, head: Head, words: &[u16]) -> Result<Vec<u8>, AllocError>
    requires { 2 * (head_size head + length words.now) ≤ most_body }
    ensures { IfOk result (λ v. v.items ≡ message_bytes (with_words head words.now)) }
{
    let mut bytes = Vec::with_capacity(alloc, 2 * (head.size() + words.len()))?;
    head.put(&mut bytes);
    put_words(words, &mut bytes);
    Ok(bytes)
}

/// The item of a head and these words, which one item holds; `last` says whether the message ends with them.
#[inline(always)]
fn head_item(alloc: Global, last: bool, head: Head, words: &[u16]) -> Result<Item, AllocError>
    requires { 2 * (head_size head + length words.now) ≤ most_body }
    ensures { IfOk result (λ x. x ≡ message_item last (message_bytes (with_words head words.now))) }
{
    let body = whole_bytes(alloc, head, words)?;
    Ok(item_with(last, body))
}

/// Puts the item of a message with this head and these words behind the items in `out`. One item holds the message. The only error is
/// want of memory, after which `out` holds what it held.
#[tactic(auto, using(crate::proofs::Puts::whole_cut))]
pub fn put_whole(
    alloc: Global,
    head: Head,
    words: &[u16],
    out: &mut VecDeque<Item>,
) -> Result<(), AllocError>
    requires { 2 * (head_size head + length words.now) ≤ most_body }
    ensures ok { OnOk result (out.new.items ≡ out.old.items ++ cut_bytes (message_bytes (with_words head words.now))) }
    ensures err { OnErr result (out.new.items ≡ out.old.items) }
{
    let item = head_item(alloc, true, head, words)?;
    out.push_back(item)?;
    Ok(())
}

/// Puts the items of a message with this head and these words behind the items in `out`. One item does not hold the message. The only
/// error is want of memory, after which `out` holds what it held.
pub fn put_long(
    alloc: Global,
    head: Head,
    words: &[u16],
    out: &mut VecDeque<Item>,
) -> Result<(), AllocError>
    requires { most_body < 2 * (head_size head + length words.now) }
    ensures ok { OnOk result (out.new.items ≡ out.old.items ++ cut_bytes (message_bytes (with_words head words.now))) }
    ensures err { OnErr result (out.new.items ≡ out.old.items) }
{
    let (front, rest) = words.split_at(WORDS_AN_ITEM - head.size());
    let first = head_item(alloc, false, head, front)?;
    out.push_back(first)?;
    match put_out(alloc, rest, out) {
        Ok(()) => Ok(()),
        Err(refused) => {
            let _first = out.pop_back();
            Err(refused)
        }
    }
}
