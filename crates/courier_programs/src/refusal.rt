//! Why names were not resolved.

ghost use Rattle.std.specs.Prelude.{◌≡◌};
ghost use Rattle.courier_notation.specs.declared.failure.Failure.TheVariants.{Wrong};

use crate::name_reason::NameReason;
use courier_notation::Failure;

/// Why a program's names were not resolved. The place of the fault is the index of the wrong name in `Lexed::names`.
pub type Refusal = Failure<u32, NameReason>;

/// The name is wrong.
pub(crate) fn wrong(name: u32, reason: NameReason) -> Refusal
    ensures { result ≡ Wrong name reason }
{
    Refusal::Wrong {
        place: name,
        reason,
    }
}
