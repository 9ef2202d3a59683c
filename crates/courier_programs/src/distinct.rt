//! Names that must differ from one another.

ghost use Rattle.std.specs.Prelude.{◌≡◌, ◌<◌, IsOk, length};
ghost use Rattle.courier_notation.specs.Failing.{Gives, IfNoMemory};
ghost use Rattle.courier_programs.specs.Faults.{steps};
ghost use Rattle.courier_programs.specs.Scopes.{env};
ghost use Rattle.courier_programs.specs.Types.{has_name as has_name_in, once as once_in};

use crate::bytes::{is_same, text};
use crate::name_reason::NameReason;
use crate::refusal::{Refusal, wrong};
use crate::scope::Scope;

/// Whether the name is one of the names that were seen.
fn has_name(scope: &Scope, seen: &[u32], name: u32) -> bool
    ensures { result ≡ has_name_in (env scope.now) seen.now name }
{
    for other in seen {
        if is_same(text(scope.names, *other), text(scope.names, name)) {
            return true;
        }
    }
    false
}

/// Puts a name behind those that it must differ from.
fn once(scope: &Scope, seen: &mut Vec<u32>, name: u32) -> Result<(), Refusal>
    ensures exact { Gives (λ _. seen.new.items) result (once_in (env scope.now) seen.old.items name) }
    ensures memory { IfNoMemory result (IsOk (once_in (env scope.now) seen.old.items name)) }
{
    if has_name(scope, seen, name) {
        return Err(wrong(name, NameReason::DoubledName));
    }
    seen.push(name)?;
    Ok(())
}

/// Puts names behind those that they must differ from, one after the other.
pub fn all_once(scope: &Scope, seen: &mut Vec<u32>, names: &[u32]) -> Result<(), Refusal>
    ensures exact { Gives (λ _. seen.new.items) result (steps (once_in (env scope.now)) seen.old.items names.now) }
    ensures memory { IfNoMemory result (0 < length names.now) }
{
    for name in names {
        once(scope, seen, *name)?;
    }
    Ok(())
}
