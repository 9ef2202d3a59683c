//! The bodies of Packet Exchange packets, read and written.

ghost use Rattle.std.specs.Prelude.{◌≡◌, ◌+◌, ◌<◌, ◌≤◌, ◌++◌, length, IfOk, OnOk, OnErr, Ok, vec_len, vec_capacity};
ghost use Rattle.xns_small.specs.Exchange.{ExchangeModel, IsExchange, SpellsExchange, exchange_model, exchange_of, exchange_spelling};
ghost use Rattle.xns_small.specs.Reading.{answer_model};

use crate::appending::append;
use crate::fault::SmallFault;
use std::alloc::{AllocError, Global};
use xns_idp::known::{known_long, known_word};
use xns_idp::places::{read_long, read_word};

/// A Packet Exchange request or response, lent from a packet's body (XSIS 028112, Packet Exchange Protocol).
#[derive(Clone, Copy, Debug, PartialEq, Eq)]
pub struct Exchange<'a> {
    /// The transaction identifier, of 32 bits: a response has the request's.
    pub id: u32,
    /// The client type, of 16 bits: what the bytes mean.
    pub client: u16,
    /// The bytes, at most 540.
    pub body: &'a [u8],
}

impl Exchange<'_> {
    /// Does nothing; says to a proof that the numbers of a packet exchange are within their types' bounds.
    pub fn known(&self)
        ensures { IsExchange (exchange_model self.now) }
    {
        known_long(self.id);
        known_word(self.client);
    }
}

/// Reads the body of a Packet Exchange packet. An `Err` is [`SmallFault::Short`], for under 6 bytes.
pub fn read_exchange(body: &[u8]) -> Result<Exchange<'_>, SmallFault>
    ensures exact { answer_model exchange_model result ≡ exchange_of body.now }
    ensures found { IfOk result (λ exchange. SpellsExchange (exchange_model exchange) body.now) }
    ensures only { (exchange : ExchangeModel) → IsExchange exchange → SpellsExchange exchange body.now
        → answer_model exchange_model result ≡ Ok exchange }
{
    read_fields(body)
}

#[tactic(auto, unfolding(crate::specs::Exchange::exchange_of))]
fn read_fields(body: &[u8]) -> Result<Exchange<'_>, SmallFault>
    ensures { answer_model exchange_model result ≡ exchange_of body.now }
{
    let have = body.len();
    if have < 6 {
        return Err(SmallFault::Short { have });
    }
    let (_, rest) = body.split_at(6);
    Ok(Exchange {
        id: read_long(body, 0),
        client: read_word(body, 4),
        body: rest,
    })
}

/// Appends the body of a Packet Exchange packet to `out`. The only error is want of memory, after which `out` is as it was.
pub fn write_exchange(
    _alloc: Global,
    exchange: &Exchange<'_>,
    out: &mut Vec<u8>,
) -> Result<(), AllocError>
    requires { length exchange.now.body.now ≤ 540 }
    ensures ok { OnOk result (out.new.items ≡ out.old.items ++ exchange_spelling (exchange_model exchange.now)) }
    ensures err { OnErr result (out.new.items ≡ out.old.items) }
    // Memory is refused only where `out` has no room for the bytes.
    ensures memory { OnErr result (vec_capacity out.old < vec_len out.old + (6 + length exchange.now.body.now)) }
    // `out` has no less room than before.
    ensures room { vec_capacity out.old ≤ vec_capacity out.new }
{
    let [i0, i1, i2, i3] = exchange.id.to_be_bytes();
    let [c0, c1] = exchange.client.to_be_bytes();
    append(out, &[i0, i1, i2, i3, c0, c1], exchange.body)
}
