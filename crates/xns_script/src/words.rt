//! The words of a line, and what they are as numbers and bytes.
ghost use Rattle.std.specs.Prelude.{◌≡◌, ◌<◌, ◌≤◌, ◌-◌, ◌↔◌, ◌∷◌, IfNone, IfOk, IfSome, IsTrue, MatchOption, length, option_map};
ghost use Rattle.std.specs.Int.{IsInRange};
ghost use Rattle.std.specs.Str.{bytes_eq};
ghost use Rattle.xns_script.specs.Word.{AreDigits, MayBeDecimal, all_hex_words, digits_from, hex_bytes_of, hex_word_of};
ghost use Rattle.xns_script.specs.Word.{is_dash as is_dash_of, number_of, raw_words_of, side_of, words_after, words_of_line};

use hex::FromHexError;
use item_world::Side;
use memchr::memchr;
use std::alloc::{AllocError, Global};
use xns_spp::Bytes;

/// How many digits the decimal of a number of 32 bits has at most.
const MOST_DIGITS: usize = 10;

/// The first word of a line, and what follows the space behind the word, if there is one.
pub(crate) fn cut_word(line: &[u8]) -> (&[u8], Option<&[u8]>)
    ensures words { words_of_line line.now ≡ result.0.now ∷ words_after (option_map (λ rest. rest.now) result.1) }
    ensures shorter { IfSome result.1 (λ rest. length rest.now < length line.now) }
{
    match memchr(b' ', line) {
        Some(end) => (&line[..end], Some(&line[end + 1..])),
        None => (line, None),
    }
}

/// Whether the word is this name.
pub(crate) fn is(word: &[u8], name: &[u8]) -> bool
    ensures { result ≡ bytes_eq word.now name.now }
{
    word == name
}

/// The number whose decimal the word is, if the number is at most `most`. No decimal has a leading zero but 0 itself.
pub(crate) fn read_number(most: u32, word: &[u8]) -> Option<u32>
    ensures value { result ≡ number_of most word.now }
    ensures within { IfSome result (λ number. number ≤ most) }
{
    if !may_be_decimal(word) {
        return None;
    }
    match read_digits(word) {
        None => None,
        Some(number) => {
            if number > u64::from(most) {
                return None;
            }
            Some(number as u32)
        }
    }
}

/// Whether the word is neither empty nor too long for a number of 32 bits, and begins with no zero but 0 itself.
fn may_be_decimal(word: &[u8]) -> bool
    ensures { IsTrue result ↔ MayBeDecimal word.now }
{
    match word {
        [] => false,
        [_] => true,
        [first, ..] => *first != b'0' && word.len() <= MOST_DIGITS,
    }
}

/// The number that the digits of a word make; `None` where a byte is no digit.
fn read_digits(word: &[u8]) -> Option<u64>
    requires { length word.now ≤ 10 }
    ensures some { IfSome result (λ number. AreDigits word.now × (number ≡ digits_from 0 word.now)) }
    ensures none { IfNone result (AreDigits word.now → ⊥) }
{
    let mut number = 0u64;
    for byte in word {
        let Some(digit) = read_digit(*byte) else {
            return None;
        };
        number = 10 * number + u64::from(digit);
    }
    Some(number)
}

fn read_digit(byte: u8) -> Option<u8>
    ensures { MatchOption result (IsInRange 48 57 byte → ⊥) (λ digit. IsInRange 48 57 byte × (digit ≡ byte - 48)) }
{
    match byte {
        b'0'..=b'9' => Some(byte - b'0'),
        _ => None,
    }
}

/// The word that four hex digits of either case spell.
pub(crate) fn read_hex_word(digits: &[u8]) -> Option<u16>
    ensures { result ≡ hex_word_of digits.now }
{
    let mut bytes = [0u8; 2];
    match hex::decode_to_slice(digits, &mut bytes) {
        Ok(()) => Some(u16::from_be_bytes([bytes[0], bytes[1]])),
        Err(_) => None,
    }
}

/// The bytes that hex digits of either case spell, at least one; `None` where the digits spell none.
pub(crate) fn read_hex_bytes(alloc: Global, digits: &[u8]) -> Result<Option<Bytes>, AllocError>
    ensures { IfOk result (λ bytes. bytes ≡ hex_bytes_of digits.now) }
{
    match hex::decode(alloc, digits) {
        Ok(bytes) => {
            if bytes.is_empty() {
                return Ok(None);
            }
            Ok(Some(Bytes::new(bytes)))
        }
        Err(error) => match error {
            FromHexError::OutOfMemory => Err(AllocError),
            _ => Ok(None),
        },
    }
}

/// The end that the word names.
#[tactic(auto, unfolding(crate::specs::Word::side_of))]
pub(crate) fn read_side(word: &[u8]) -> Option<Side>
    ensures { result ≡ side_of word.now }
{
    if is(word, b"a") {
        Some(Side::A)
    } else if is(word, b"b") {
        Some(Side::B)
    } else {
        None
    }
}

/// The words of a raw call: one or more of four hex digits, or a dash where there are none.
pub(crate) fn read_raw_words(alloc: Global, line: &[u8]) -> Result<Option<Vec<u16>>, AllocError>
    ensures { IfOk result (λ answer. option_map (λ v. v.items) answer ≡ raw_words_of (words_of_line line.now)) }
{
    if is_dash(line) {
        return Ok(Some(Vec::new(alloc)));
    }
    read_hex_words(alloc, line)
}

/// Whether the line's one word is a dash.
fn is_dash(line: &[u8]) -> bool
    ensures { result ≡ is_dash_of (words_of_line line.now) }
{
    let (word, more) = cut_word(line);
    match more {
        None => is(word, b"-"),
        Some(_) => false,
    }
}

/// The words that a line spells, each of four hex digits; `None` where a word is not of this form.
fn read_hex_words(alloc: Global, line: &[u8]) -> Result<Option<Vec<u16>>, AllocError>
    ensures { IfOk result (λ answer. option_map (λ v. v.items) answer ≡ all_hex_words (words_of_line line.now)) }
{
    let mut words = Vec::new(alloc);
    let mut left = Some(line);
    while let Some(rest) = left {
        let (digits, more) = cut_word(rest);
        let Some(word) = read_hex_word(digits) else {
            return Ok(None);
        };
        words.push(word)?;
        left = more;
    }
    Ok(Some(words))
}
