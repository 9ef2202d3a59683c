//! Plays conversations with a server or a caller, reads messages and values, and checks shapes and tables, one a line; the result
//! of each line is a line of the output.
//!
//! `message HEX` tells what the bytes are, and `zeros COUNT` the fault of a message of so many bytes of 0. `server STEPS` feeds a server
//! of the tally items, `caller STEPS` has a caller make calls and feeds it, and `own STEPS` does the same over the tally's own table. An
//! item is hex digits, or `=` and how many bytes of 0, and then `/`; or `|` where a message ends with it; or `*` where it is an attention
//! item that ends a message; or `!` where it is of datastream 254 and ends a message. What goes out stands behind `<` in the same form.
//!
//! `shape NAME; SHAPE` tells the first fault of a shape. `words NAME; SHAPE; WORDS` tells the value that the words begin with, and what
//! it is written as behind the word 170. `pieces NAME; SHAPE; SKIP; BYTES/BYTES/..` tells the value that the bytes begin with, behind so
//! many words. `fits NAME; OTHER; SHAPE; WORDS` tells whether the value of the shape that the words begin with fits the other shape.
//! `table CHANGE` tells the first fault of the tally's table with a change. `faults` tells what faults of each kind say, each in a line
//! of its own. All other lines come back as they are.
#![tactic(auto)]

mod calling;
mod faults;
mod reading;
mod script;
mod serving;
mod shapes;
mod tables;
mod values;

use std::alloc::{AllocError, Global};

fn main(rt: HostRuntime) -> Result<(), anyhow::Error> {
    for line in rt.lines(rt.alloc()) {
        let mut text = String::new(rt.alloc());
        answer(rt.alloc(), line?.as_str(), &mut text)?;
        println!(rt; "{}", text.as_str().trim_start())?;
    }
    Ok(())
}

/// Puts the result of a line of the input.
fn answer(alloc: Global, line: &str, text: &mut String) -> Result<(), AllocError> {
    let (word, words) = line.split_once(' ').unwrap_or((line, ""));
    match word {
        "message" => reading::tell(alloc, words, text),
        "zeros" => reading::tell_zeros(alloc, words, text),
        "server" => serving::play(alloc, words, text),
        "caller" => calling::play(alloc, words, text),
        "own" => calling::play_own(alloc, words, text),
        "faults" => faults::tell(text),
        _ => answer_values(alloc, line, text),
    }
}

/// Puts the result of a line of shapes, values and tables.
fn answer_values(alloc: Global, line: &str, text: &mut String) -> Result<(), AllocError> {
    let (word, words) = line.split_once(' ').unwrap_or((line, ""));
    match word {
        "shape" => values::check(alloc, words, text),
        "words" => values::read_again(alloc, words, text),
        "pieces" => values::read_pieced(alloc, words, text),
        "fits" => values::fit(alloc, words, text),
        "table" => tables::check(alloc, words, text),
        _ => text.push_str(line),
    }
}
