//! Numbers, words and bytes as text, appended to the latest line of a report. The only error of each function is want of
//! memory, after which the line may have a part of the text. The lines before it are always as they were.
ghost use Rattle.std.specs.Prelude.{◌≤◌, OnErr};
ghost use Rattle.std.specs.Fmt.{decimal};
ghost use Rattle.hex.specs.Hex.{encode_lower};
ghost use Rattle.xns_lines.specs.Report.{Adds, LacksRoom};
ghost use Rattle.xns_lines.specs.Text.{bytes_or_dash as bytes_or_dash_of, hex_word, words_in_hex, words_or_dash, words_text};

use crate::digits::write_few_digits;
use crate::report::Report;
use itoa::Buffer;
use std::alloc::AllocError;

/// Appends a number in decimal.
pub fn append_decimal(report: &mut Report, number: usize) -> Result<(), AllocError>
    ensures text { Adds result report.old report.new (decimal number) }
    ensures memory { OnErr result (LacksRoom report.old (decimal number)) }
    ensures room { report.old.room ≤ report.new.room }
{
    append_decimal_u64(report, number as u64)
}

/// Appends a number of 64 bits in decimal. One digit, which many numbers have, is the quicker for being written as it is.
pub fn append_decimal_u64(report: &mut Report, number: u64) -> Result<(), AllocError>
    ensures text { Adds result report.old report.new (decimal number) }
    ensures memory { OnErr result (LacksRoom report.old (decimal number)) }
    ensures room { report.old.room ≤ report.new.room }
{
    if number < 10 {
        return report.append(&[b'0' + number as u8]);
    }
    let mut buffer = Buffer::new();
    report.append(buffer.format(number).as_bytes())
}

/// Appends bytes as hex digits in lower case, two a byte.
pub fn append_hex(report: &mut Report, bytes: &[u8]) -> Result<(), AllocError>
    ensures { Adds result report.old report.new (encode_lower bytes.now) }
{
    report.append_digits(bytes)
}

/// Appends a word as four hex digits in lower case.
pub fn append_word(report: &mut Report, word: u16) -> Result<(), AllocError>
    ensures text { Adds result report.old report.new (hex_word word) }
    ensures memory { OnErr result (LacksRoom report.old (hex_word word)) }
    ensures room { report.old.room ≤ report.new.room }
{
    let mut digits = [0; 4];
    write_few_digits(&word.to_be_bytes(), &mut digits);
    report.append(&digits)
}

/// Appends bytes as hex digits in lower case, or a dash where there are none.
pub fn append_bytes_or_dash(report: &mut Report, bytes: &[u8]) -> Result<(), AllocError>
    ensures { Adds result report.old report.new (bytes_or_dash_of bytes.now) }
{
    if bytes.is_empty() {
        report.append(b"-")
    } else {
        append_hex(report, bytes)
    }
}

/// Appends bytes as words of four digits with one space between, or a dash where there are none. An odd last byte has two
/// digits.
pub fn append_words_or_dash(report: &mut Report, bytes: &[u8]) -> Result<(), AllocError>
    ensures { Adds result report.old report.new (words_or_dash bytes.now) }
{
    if bytes.is_empty() {
        report.append(b"-")
    } else {
        append_words(report, bytes)
    }
}

/// Appends words of four digits with one space between.
fn append_words(report: &mut Report, bytes: &[u8]) -> Result<(), AllocError>
    ensures { Adds result report.old report.new (words_in_hex bytes.now) }
{
    let words = bytes.len().saturating_sub(1) / 2;
    report.append_spaced(&bytes[..2 * words])?;
    append_hex(report, &bytes[2 * words..])
}

/// Appends words of four digits with one space between, or a dash where there are none.
#[tactic(auto, unfolding(crate::specs::Text::words_text))]
pub fn append_word_list(report: &mut Report, words: &[u16]) -> Result<(), AllocError>
    ensures { Adds result report.old report.new (words_text words.now) }
{
    match words {
        [] => report.append(b"-"),
        [first, rest @ ..] => {
            append_word(report, *first)?;
            report.append_words(rest)
        }
    }
}
