//! The first lexeme of a text.
ghost use Rattle.std.specs.Prelude.{◌≡◌, ◌∷◌, ◌<◌, ◌≤◌, ◌==◌, ◌&&◌, ◌||◌, ℕ, Bool, false, length};
ghost use Rattle.courier_notation.specs.Lexing.{digits_number, long_of, behind_front, is_blank as is_blank_of};
ghost use Rattle.courier_notation.specs.Lexing.{equal_at, passing_front, is_digit as is_digit_of};
ghost use Rattle.courier_notation.specs.Lexing.{is_name_byte as is_name_byte_of, is_no_quote, lexeme_at, lexeme_in};
ghost use Rattle.courier_notation.specs.Lexing.{lexeme_view, mark_at, number_at, quoted_at, skipped, word_lexeme};
ghost use Rattle.courier_notation.specs.Failing.{Finds};

use crate::bytes::{is_blank, is_digit, is_letter, is_line_end, is_name_byte};
use crate::keywords::{keyword_of, mark_of};
use crate::limits::MOST_NAME;
use crate::reason::Reason;
use crate::stop::Stop;
use crate::token::Token;

/// A token whose name or string has no number yet.
#[derive(Clone, Copy)]
pub enum Lexeme<'a> {
    Plain(Token),
    Name(&'a [u8]),
    Quoted(&'a [u8]),
}

/// Whether two bytes are the two dashes that begin or end a comment.
fn are_dashes(first: u8, second: u8) -> bool
    ensures { result ≡ (first == 45 && second == 45) }
{
    first == b'-' && second == b'-'
}

/// What stands behind blanks and comments.
pub fn behind_blanks(text: &[u8]) -> &[u8]
    ensures { result.now ≡ skipped false text.now }
{
    let mut rest = text;
    let mut is_comment = false;
    while rest.len() > 1 {
        let first = rest[0];
        if are_dashes(first, rest[1]) {
            is_comment = !is_comment;
            rest = rest.split_at(2).1;
        } else if is_comment {
            is_comment = !is_line_end(first);
            rest = rest.split_at(1).1;
        } else if is_blank(first) {
            rest = rest.split_at(1).1;
        } else {
            return rest;
        }
    }
    behind_last(is_comment, rest)
}

/// Whether the byte is passed over.
fn is_passed(is_comment: bool, byte: u8) -> bool
    ensures { result ≡ (is_comment || is_blank_of byte) }
{
    is_comment || is_blank(byte)
}

/// What stands behind a blank, or behind a byte of a comment, of at most one byte.
fn behind_last(is_comment: bool, rest: &[u8]) -> &[u8]
    requires { length rest.now ≤ 1 }
    ensures { result.now ≡ skipped is_comment rest.now }
{
    if rest.len() == 0 {
        return rest;
    }
    if is_passed(is_comment, rest[0]) {
        return rest.split_at(1).1;
    }
    rest
}

/// The bytes that stand first and pass the test, and what is behind them.
fn front_and_rest<F: Fn(u8) -> bool>(bytes: &[u8], passes: F) -> (&[u8], &[u8])
    requires { F.IsAlwaysCallable passes }
    ensures front { (test : ℕ → Bool) → ((byte : ℕ) (r : Bool) → F.post passes byte r → test byte ≡ r) → result.0.now ≡ passing_front test bytes.now }
    ensures rest { (test : ℕ → Bool) → ((byte : ℕ) (r : Bool) → F.post passes byte r → test byte ≡ r) → result.1.now ≡ behind_front test bytes.now }
{
    for (i, byte) in bytes.iter().enumerate() {
        if !passes(*byte) {
            return bytes.split_at(i);
        }
    }
    bytes.split_at(bytes.len())
}

/// The letters and digits that stand first, and what is behind them.
fn name_and_rest(bytes: &[u8]) -> (&[u8], &[u8])
    ensures front { result.0.now ≡ passing_front is_name_byte_of bytes.now }
    ensures rest { result.1.now ≡ behind_front is_name_byte_of bytes.now }
{
    front_and_rest(bytes, is_name_byte)
}

/// The digits that stand first, and what is behind them.
fn digits_and_rest(bytes: &[u8]) -> (&[u8], &[u8])
    ensures front { result.0.now ≡ passing_front is_digit_of bytes.now }
    ensures rest { result.1.now ≡ behind_front is_digit_of bytes.now }
{
    front_and_rest(bytes, is_digit)
}

/// What stands before the first quote, and the rest from it on.
fn string_and_rest(bytes: &[u8]) -> (&[u8], &[u8])
    ensures front { result.0.now ≡ passing_front is_no_quote bytes.now }
    ensures rest { result.1.now ≡ behind_front is_no_quote bytes.now }
{
    front_and_rest(bytes, |byte| byte != b'"')
}

/// The number that digits make, if it has 32 bits.
fn number_of(digits: &[u8]) -> Option<u32>
    ensures { result ≡ long_of (digits_number 0 digits.now) }
{
    let mut number = 0u64;
    for digit in digits {
        number = 10 * number + u64::from(digit.saturating_sub(b'0'));
        if number > 4_294_967_295 {
            return None;
        }
    }
    Some(number as u32)
}

/// A keyword or a name.
fn word_of(bytes: &[u8]) -> Result<(Lexeme<'_>, &[u8]), Stop>
    ensures { Finds (λ x. (lexeme_view x.0, x.1.now)) result (word_lexeme bytes.now) }
{
    let (word, rest) = name_and_rest(bytes);
    match keyword_of(word) {
        Some(token) => Ok((Lexeme::Plain(token), rest)),
        None if word.len() <= MOST_NAME => Ok((Lexeme::Name(word), rest)),
        None => Err(Stop::Wrong {
            place: bytes.len(),
            reason: Reason::LongName,
        }),
    }
}

/// A number.
fn number_lexeme(bytes: &[u8]) -> Result<(Lexeme<'_>, &[u8]), Stop>
    ensures { Finds (λ x. (lexeme_view x.0, x.1.now)) result (number_at bytes.now) }
{
    let (digits, rest) = digits_and_rest(bytes);
    match number_of(digits) {
        Some(number) => Ok((Lexeme::Plain(Token::Number(number)), rest)),
        None => Err(Stop::Wrong {
            place: bytes.len(),
            reason: Reason::HugeNumber,
        }),
    }
}

/// A string, behind its first quote.
fn quoted_of(bytes: &[u8]) -> Result<(Lexeme<'_>, &[u8]), Stop>
    ensures { Finds (λ x. (lexeme_view x.0, x.1.now)) result (quoted_at bytes.now) }
{
    let (string, rest) = string_and_rest(bytes);
    match rest {
        [] => Err(Stop::Wrong {
            place: bytes.len() + 1,
            reason: Reason::OpenString,
        }),
        [_, rest @ ..] => Ok((Lexeme::Quoted(string), rest)),
    }
}

/// An arrow, or an equals sign alone, from what stands behind the equals sign.
fn equal_of(bytes: &[u8]) -> Result<(Lexeme<'_>, &[u8]), Stop>
    ensures { Finds (λ x. (lexeme_view x.0, x.1.now)) result (equal_at bytes.now) }
{
    match bytes {
        [b'>', rest @ ..] => Ok((Lexeme::Plain(Token::Arrow), rest)),
        _ => Ok((Lexeme::Plain(Token::Equal), bytes)),
    }
}

fn mark_lexeme(mark: Option<Token>, bytes: &[u8]) -> Result<(Lexeme<'_>, &[u8]), Stop>
    ensures { Finds (λ x. (lexeme_view x.0, x.1.now)) result (mark_at mark bytes.now) }
{
    match mark {
        Some(token) => Ok((Lexeme::Plain(token), bytes)),
        None => Err(Stop::Wrong {
            place: bytes.len() + 1,
            reason: Reason::BadByte,
        }),
    }
}

/// The first lexeme of a text, by its first byte and by the bytes behind that one.
#[tactic(auto, unfolding(crate::specs::Lexing::lexeme_at))]
fn lexeme_by<'a>(first: u8, text: &'a [u8], bytes: &'a [u8]) -> Result<(Lexeme<'a>, &'a [u8]), Stop>
    requires { text.now ≡ first ∷ bytes.now }
    ensures { Finds (λ x. (lexeme_view x.0, x.1.now)) result (lexeme_at first bytes.now) }
{
    if is_letter(first) {
        word_of(text)
    } else if is_digit(first) {
        number_lexeme(text)
    } else if first == b'"' {
        quoted_of(bytes)
    } else if first == b'=' {
        equal_of(bytes)
    } else {
        mark_lexeme(mark_of(first), bytes)
    }
}

/// The first lexeme of a text that begins with no blank.
pub fn lexeme_of(text: &[u8]) -> Result<(Lexeme<'_>, &[u8]), Stop>
    requires { 0 < length text.now }
    ensures { Finds (λ x. (lexeme_view x.0, x.1.now)) result (lexeme_in text.now) }
{
    let first = text[0];
    lexeme_by(first, text, text.split_at(1).1)
}
