//! The bodies of Echo packets, read and written.

ghost use Rattle.std.specs.Prelude.{◌≡◌, ◌+◌, ◌<◌, ◌≤◌, ◌++◌, length, IfOk, OnOk, OnErr, Ok, vec_len, vec_capacity};
ghost use Rattle.xns_small.specs.Echo.{EchoModel, SpellsEcho, echo_model, echo_of, echo_spelling};
ghost use Rattle.xns_small.specs.Reading.{answer_model};

use crate::appending::append;
use crate::fault::SmallFault;
use std::alloc::{AllocError, Global};
use xns_idp::places::read_word;

/// The operation word of a request.
const REQUEST: u16 = 1;

/// The operation word of a reply.
const REPLY: u16 = 2;

/// An Echo request or reply, lent from a packet's body (XSIS 028112, Echo Protocol).
#[derive(Clone, Copy, Debug, PartialEq, Eq)]
pub struct Echo<'a> {
    /// Whether it is a reply, and not a request.
    pub reply: bool,
    /// The bytes that are echoed, at most 544.
    pub body: &'a [u8],
}

/// Reads the body of an Echo packet.
///
/// An `Err` is [`SmallFault::Short`] for under 2 bytes, and else [`SmallFault::EchoOperation`] for another operation word.
pub fn read_echo(body: &[u8]) -> Result<Echo<'_>, SmallFault>
    ensures exact { answer_model echo_model result ≡ echo_of body.now }
    ensures found { IfOk result (λ echo. SpellsEcho (echo_model echo) body.now) }
    ensures only { (echo : EchoModel) → SpellsEcho echo body.now → answer_model echo_model result ≡ Ok echo }
{
    read_operation(body)
}

#[tactic(auto, unfolding(crate::specs::Echo::echo_of))]
fn read_operation(body: &[u8]) -> Result<Echo<'_>, SmallFault>
    ensures { answer_model echo_model result ≡ echo_of body.now }
{
    let have = body.len();
    if have < 2 {
        return Err(SmallFault::Short { have });
    }
    let found = read_word(body, 0);
    let (_, rest) = body.split_at(2);
    if found == REQUEST {
        return Ok(Echo {
            reply: false,
            body: rest,
        });
    }
    if found == REPLY {
        return Ok(Echo {
            reply: true,
            body: rest,
        });
    }
    Err(SmallFault::EchoOperation { found })
}

/// Appends the body of an Echo packet to `out`. The only error is want of memory, after which `out` is as it was.
pub fn write_echo(_alloc: Global, echo: &Echo<'_>, out: &mut Vec<u8>) -> Result<(), AllocError>
    requires { length echo.now.body.now ≤ 544 }
    ensures ok { OnOk result (out.new.items ≡ out.old.items ++ echo_spelling (echo_model echo.now)) }
    ensures err { OnErr result (out.new.items ≡ out.old.items) }
    // Memory is refused only where `out` has no room for the bytes.
    ensures memory { OnErr result (vec_capacity out.old < vec_len out.old + (2 + length echo.now.body.now)) }
    // `out` has no less room than before.
    ensures room { vec_capacity out.old ≤ vec_capacity out.new }
{
    let operation = if echo.reply { REPLY } else { REQUEST };
    append(out, &operation.to_be_bytes(), echo.body)
}
