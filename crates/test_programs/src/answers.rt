//! Answers to lines of words.

use call_texts::{Unshown, abort_text, call_text, return_text};
use courier_programs::Program;
use std::alloc::{AllocError, Global};

/// What a line asks for.
struct Asked {
    program: u32,
    version: u16,
    number: u16,
    words: Vec<u16>,
}

/// The numbers and words of a line, behind its first word.
fn asked_of(alloc: Global, line: &str) -> Result<Option<Asked>, AllocError> {
    let mut parts = line.split(' ');
    let _kind = parts.next();
    let Some(program) = parts.next().and_then(|part| part.parse::<u32>().ok()) else {
        return Ok(None);
    };
    let Some(version) = parts.next().and_then(|part| part.parse::<u16>().ok()) else {
        return Ok(None);
    };
    let Some(number) = parts.next().and_then(|part| part.parse::<u16>().ok()) else {
        return Ok(None);
    };
    let mut words = Vec::new(alloc);
    for part in parts {
        if let Ok(word) = u16::from_str_radix(part, 16) {
            words.push(word)?;
        }
    }
    Ok(Some(Asked {
        program,
        version,
        number,
        words,
    }))
}

/// The text of a line by name; the line itself where nothing is declared, and behind it why, where the words are no value.
pub fn answer(alloc: Global, programs: &[Program], line: &str) -> Result<String, AllocError> {
    let Some(asked) = asked_of(alloc, line)? else {
        return String::from_str(alloc, line);
    };
    let Asked {
        program,
        version,
        number,
        words,
    } = asked;
    let kind = line.split(' ').next().unwrap_or("");
    let shown = match kind {
        "call" => call_text(alloc, programs, program, version, number, &words),
        "return" => return_text(alloc, programs, program, version, number, &words),
        _ => abort_text(alloc, programs, program, version, number, &words),
    };
    match shown {
        Ok(Some(text)) => {
            let text = String::from_utf8_lossy(alloc, &text)?;
            format!(in alloc; "{kind} {text}")
        }
        Ok(None) => String::from_str(alloc, line),
        Err(Unshown::Unread(unread)) => format!(in alloc; "{line} unread {unread}"),
        Err(Unshown::NoMemory) => Err(AllocError),
    }
}
