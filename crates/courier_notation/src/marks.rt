//! Single tokens that have to stand first.
ghost use Rattle.std.specs.Prelude.{◌≡◌, IfNone, IfSome, None, Some, length};
ghost use Rattle.courier_notation.specs.declared.failure.Failure.TheVariants.{Wrong};
ghost use Rattle.courier_notation.specs.Failing.{Finds};
ghost use Rattle.courier_notation.specs.Reading.{behind_comma, token_at};
ghost use Rattle.courier_notation.specs.Programs.{is_end as is_end_of};

use crate::reason::Reason;
use crate::stop::Stop;
use crate::token::Token;

/// The first of the tokens is wrong, or there is none.
pub fn wrong(tokens: &[Token], reason: Reason) -> Stop
    ensures { result ≡ Wrong (length tokens.now) reason }
{
    Stop::Wrong {
        place: tokens.len(),
        reason,
    }
}

/// The tokens behind the wanted one, which has to stand first.
pub fn behind(wanted: Token, missing: Reason, tokens: &[Token]) -> Result<&[Token], Stop>
    ensures { Finds (λ x. x.now) result (token_at wanted missing tokens.now) }
{
    match tokens {
        [first, rest @ ..] if *first == wanted => Ok(rest),
        _ => Err(wrong(tokens, missing)),
    }
}

/// The tokens behind a comma; `None` where no comma stands first.
pub fn next_part(tokens: &[Token]) -> Option<&[Token]>
    ensures some { IfSome result (λ next. behind_comma tokens.now ≡ Some next.now) }
    ensures none { IfNone result (behind_comma tokens.now ≡ None) }
{
    match tokens {
        [Token::Comma, next @ ..] => Some(next),
        _ => None,
    }
}

/// Whether `END` stands first.
pub fn is_end(tokens: &[Token]) -> bool
    ensures { result ≡ is_end_of tokens.now }
{
    match tokens {
        [Token::End, ..] => true,
        _ => false,
    }
}
