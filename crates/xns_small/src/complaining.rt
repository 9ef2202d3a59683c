//! Makes the Error packet about an offending packet.

ghost use Rattle.std.specs.Prelude.{◌≡◌, ◌+◌, ◌≤◌, length, IfOk, OnErr, MatchOption};
ghost use Rattle.xns_idp.specs.Reading.{address_at};
ghost use Rattle.xns_small.specs.ErrorReport.{MayBeComplainedOf, complaint};

use crate::error_report::{ErrorReport, write_error};
use crate::sending::sent_packet;
use std::alloc::{AllocError, Global};
use xns_idp::packet_type::ERROR;
use xns_idp::places::read_address;
use xns_idp::{Address, HEADER_BYTES};

/// Complains of an offending packet, given by its bytes: returns the whole bytes of an Error packet from `own` to the
/// offending packet's source with the error number, the parameter and the first 42 of the offending bytes (XSIS 028112,
/// Error Protocol). The source is read from its place in the header, even where the offending packet's checksum is
/// wrong.
///
/// `None` means that one must not complain: the bytes have no whole header, they are an Error packet themselves, or
/// they were sent to the broadcast host. The only error is want of memory.
#[tactic(auto, unfolding(crate::specs::ErrorReport::complaint))]
pub fn complain(
    alloc: Global,
    own: Address,
    number: u16,
    parameter: u16,
    offending: &[u8],
) -> Result<Option<Vec<u8>>, AllocError>
    ensures answer { IfOk result (λ answer. MatchOption answer (MayBeComplainedOf offending.now → ⊥)
        (λ bytes. MayBeComplainedOf offending.now × (bytes.items ≡ complaint own number parameter offending.now))) }
    // Memory is refused only where one may complain of the bytes.
    ensures memory { OnErr result (MayBeComplainedOf offending.now) }
{
    let Some(source) = complained_to(offending) else {
        return Ok(None);
    };
    let report = ErrorReport {
        number,
        parameter,
        quoted: offending,
    };
    let mut body = Vec::new(alloc);
    write_error(alloc, &report, &mut body)?;
    let bytes = sent_packet(alloc, ERROR, own, source, body.as_slice())?;
    Ok(Some(bytes))
}

/// The address that a complaint about these bytes goes to, if one may complain of them.
fn complained_to(offending: &[u8]) -> Option<Address>
    ensures { MatchOption result (MayBeComplainedOf offending.now → ⊥)
        (λ source. MayBeComplainedOf offending.now × (source ≡ address_at offending.now 18)) }
{
    if offending.len() < HEADER_BYTES || offending[5] == ERROR {
        return None;
    }
    if read_address(offending, 6).is_broadcast() {
        return None;
    }
    Some(read_address(offending, 18))
}
