//! Words as the text of a record.

ghost use Rattle.std.specs.Prelude.{◌≡◌, ◌<◌, length};
ghost use Rattle.courier_types.specs.Value.{value_model, value_models};
ghost use Rattle.call_texts.specs.declared.unread.Unshown.TheVariants.{Unread as UnreadWord};
ghost use Rattle.courier_programs.specs.Meanings.{components_seen, fields_model};
ghost use Rattle.call_texts.specs.Showing.{IfNoMemory, ShowingWants, Shows, bracketed, limited, unread_reason as unread_reason_in, record_text, shown};

use crate::unread::{Unread, UnreadReason, Unshown};
use courier_programs::Fields;
use courier_texts::{Named, TextRefusal, print_record};
use courier_types::{ReadRefusal, Reason, Value, read};
use std::alloc::Global;

fn unread_reason(reason: Reason) -> UnreadReason
    ensures { result ≡ unread_reason_in reason }
{
    match reason {
        Reason::Truncated => UnreadReason::Truncated,
        Reason::NotBoolean => UnreadReason::NotBoolean,
        Reason::NotListed => UnreadReason::NotListed,
        Reason::OverMaximum => UnreadReason::OverMaximum,
    }
}

fn unread(place: usize, reason: UnreadReason) -> Unshown
    ensures { result ≡ UnreadWord (record { place = place; reason = reason }) }
{
    Unshown::Unread(Unread { place, reason })
}

/// The text of a record, if it is not too long.
#[tactic(auto, using(courier_programs::proofs::Models::components_are))]
fn text_of_record(
    alloc: Global,
    components: &[(Vec<u8>, Named)],
    values: &[Value],
) -> Result<Vec<u8>, Unshown>
    ensures { Shows result (limited (bracketed (components_seen components.now) (value_models values.now))) }
{
    let mut out = Vec::new(alloc);
    match print_record(&mut out, components, values) {
        Ok(()) => Ok(out),
        Err(TextRefusal::LongText) => Err(unread(0, UnreadReason::LongText)),
        Err(TextRefusal::NoMemory) => Err(Unshown::NoMemory),
    }
}

/// The text of a value of a record, if it is not too long.
#[tactic(auto, using(courier_texts::proofs::Printed::value_fields))]
fn text_of(
    alloc: Global,
    components: &[(Vec<u8>, Named)],
    value: &Value,
) -> Result<Vec<u8>, Unshown>
    ensures text { Shows result (limited (record_text (components_seen components.now) (value_model value.now))) }
    ensures memory { IfNoMemory result (0 < length (record_text (components_seen components.now) (value_model value.now))) }
{
    match value {
        Value::Fields(values) => text_of_record(alloc, components, values),
        _ => Ok(Vec::new(alloc)),
    }
}

/// The text of the record that the words are.
pub(crate) fn show(alloc: Global, fields: &Fields, words: &[u16]) -> Result<Vec<u8>, Unshown>
    ensures exact { Shows result (shown (fields_model fields.now) words.now) }
    ensures memory { IfNoMemory result (ShowingWants (fields_model fields.now) words.now) }
{
    match read(alloc, &fields.shape, words) {
        Ok((value, taken)) => {
            if taken != words.len() {
                return Err(unread(taken, UnreadReason::Trailing));
            }
            text_of(alloc, &fields.components, &value)
        }
        Err(ReadRefusal::Fault(fault)) => Err(unread(fault.place, unread_reason(fault.reason))),
        Err(ReadRefusal::NoMemory) => Err(Unshown::NoMemory),
    }
}
