//! Hex digits of bytes, with no branch for each byte.
ghost use Rattle.std.specs.Prelude.{◌≡◌, ◌++◌, ◌*◌, ◌/◌, ◌%◌, ◌<◌, OnErr, OnOk, length, slice_index, take};
ghost use Rattle.hex.specs.Hex.{encode_lower, lower_digits};
ghost use Rattle.xns_lines.specs.Text.{spaced, words_behind_spaces};

use std::alloc::AllocError;

/// The digits of each byte, in lower case.
static PAIRS: [u8; 512] = *b"\
    000102030405060708090a0b0c0d0e0f\
    101112131415161718191a1b1c1d1e1f\
    202122232425262728292a2b2c2d2e2f\
    303132333435363738393a3b3c3d3e3f\
    404142434445464748494a4b4c4d4e4f\
    505152535455565758595a5b5c5d5e5f\
    606162636465666768696a6b6c6d6e6f\
    707172737475767778797a7b7c7d7e7f\
    808182838485868788898a8b8c8d8e8f\
    909192939495969798999a9b9c9d9e9f\
    a0a1a2a3a4a5a6a7a8a9aaabacadaeaf\
    b0b1b2b3b4b5b6b7b8b9babbbcbdbebf\
    c0c1c2c3c4c5c6c7c8c9cacbcccdcecf\
    d0d1d2d3d4d5d6d7d8d9dadbdcdddedf\
    e0e1e2e3e4e5e6e7e8e9eaebecedeeef\
    f0f1f2f3f4f5f6f7f8f9fafbfcfdfeff";

/// Writes the two digits of each byte, in lower case.
fn write_digits(bytes: &[u8], digits: &mut [u8])
    requires { length digits.old ≡ 2 * length bytes.now }
    ensures { digits.new ≡ encode_lower bytes.now }
{
    for i in 0..bytes.len() {
        digits[2 * i] = digit_of(bytes[i] / 16);
        digits[2 * i + 1] = digit_of(bytes[i] % 16);
    }
}

/// Writes the two digits of each byte, in lower case. They are read from a table, which is the quicker way for a few bytes.
#[inline]
pub fn write_few_digits(bytes: &[u8], digits: &mut [u8])
    requires { length digits.old ≡ 2 * length bytes.now }
    ensures { digits.new ≡ encode_lower bytes.now }
{
    for i in 0..bytes.len() {
        let pair = 2 * usize::from(bytes[i]);
        digits[2 * i] = PAIRS[pair];
        digits[2 * i + 1] = PAIRS[pair + 1];
    }
}

/// Appends the two digits of each byte, in lower case. Where memory is refused, nothing is appended.
pub(crate) fn append_digits(text: &mut Vec<u8>, bytes: &[u8]) -> Result<(), AllocError>
    ensures ok { OnOk result (text.new.items ≡ text.old.items ++ encode_lower bytes.now) }
    ensures err { OnErr result (text.new.items ≡ text.old.items) }
{
    let start = text.len();
    let Some(end) = start.checked_add(2 * bytes.len()) else {
        return Err(AllocError);
    };
    text.resize(end, 0)?;
    write_digits(bytes, &mut text.as_mut_slice()[start..]);
    Ok(())
}

/// Appends words of four digits, each before a space. Where memory is refused, nothing is appended.
pub(crate) fn append_spaced(text: &mut Vec<u8>, bytes: &[u8]) -> Result<(), AllocError>
    requires { length bytes.now % 2 ≡ 0 }
    ensures ok { OnOk result (text.new.items ≡ text.old.items ++ spaced (encode_lower bytes.now)) }
    ensures err { OnErr result (text.new.items ≡ text.old.items) }
{
    let start = text.len();
    let words = bytes.len() / 2;
    let Some(size) = words.checked_mul(9) else {
        return Err(AllocError);
    };
    let Some(end) = start.checked_add(size) else {
        return Err(AllocError);
    };
    text.resize(end, 0)?;
    write_spaced(bytes, &mut text.as_mut_slice()[start..]);
    text.truncate(start + 5 * words);
    Ok(())
}

/// Appends words of four digits, each behind a space. Where memory is refused, nothing is appended.
pub(crate) fn append_words(text: &mut Vec<u8>, words: &[u16]) -> Result<(), AllocError>
    ensures ok { OnOk result (text.new.items ≡ text.old.items ++ words_behind_spaces words.now) }
    ensures err { OnErr result (text.new.items ≡ text.old.items) }
{
    let start = text.len();
    let Some(size) = words.len().checked_mul(5) else {
        return Err(AllocError);
    };
    let Some(end) = start.checked_add(size) else {
        return Err(AllocError);
    };
    text.resize(end, 0)?;
    write_words(words, &mut text.as_mut_slice()[start..]);
    Ok(())
}

/// Writes words of four digits, each behind a space.
fn write_words(words: &[u16], text: &mut [u8])
    requires { length text.old ≡ 5 * length words.now }
    ensures { text.new ≡ words_behind_spaces words.now }
{
    for i in 0..words.len() {
        text[5 * i] = b' ';
        write_few_digits(&words[i].to_be_bytes(), &mut text[5 * i + 1..5 * i + 5]);
    }
}

/// Writes words of four digits at the front of some room, each before a space. Their digits alone are left behind them.
fn write_spaced(bytes: &[u8], room: &mut [u8])
    requires whole { length bytes.now % 2 ≡ 0 }
    requires fits { length room.old ≡ 9 * (length bytes.now / 2) }
    ensures { take (5 * (length bytes.now / 2)) room.new ≡ spaced (encode_lower bytes.now) }
{
    let (text, digits) = room.split_at_mut(5 * (bytes.len() / 2));
    write_digits(bytes, digits);
    spread(digits, text);
}

/// Writes digits four at a time, and a space behind each four.
fn spread(digits: &[u8], text: &mut [u8])
    requires { 4 * length text.old ≡ 5 * length digits.now }
    ensures { text.new ≡ spaced digits.now }
{
    for i in 0..digits.len() / 4 {
        text[5 * i..5 * i + 4].copy_from_slice(&digits[4 * i..4 * i + 4]);
        text[5 * i + 4] = b' ';
    }
}

/// The digit of a value, in lower case.
fn digit_of(value: u8) -> u8
    requires { value < 16 }
    ensures { result ≡ slice_index lower_digits value }
{
    if value < 10 {
        value + b'0'
    } else {
        value - 10 + b'a'
    }
}
