//! Reads and writes Courier's values, as many times as the first word says, else once. `bench/values_peer.rs` does the same. Prints
//! how many words each value has, and, where that word is given, the least nanoseconds of a reading, of a reading over pieces, and
//! of a writing.

ghost use Rattle.courier_types.specs.Shape.{shape_model};
ghost use Rattle.courier_types.specs.Value.{value_model};
ghost use Rattle.courier_types.specs.Check.{IsChecked};
ghost use Rattle.courier_types.specs.Fits.{Fits};

use courier_types::{Shape, Value, read, read_pieces, write};
use std::alloc::{AllocError, Global};
use std::io;
use std::time::{Duration, Instant};
use xns_spp::MOST_BODY;

/// How deep the records within one another are, the value inside them among them.
const DEPTH: usize = 16;

/// The kinds of values that are timed.
#[derive(Clone, Copy)]
enum Kind {
    Cardinals,
    Text,
    Records,
    Nested,
}

const KINDS: &[Kind] = &[Kind::Cardinals, Kind::Text, Kind::Records, Kind::Nested];

impl Kind {
    fn name(self) -> &'static str {
        match self {
            Kind::Cardinals => "cardinals",
            Kind::Text => "text",
            Kind::Records => "records",
            Kind::Nested => "nested",
        }
    }

    fn shape(self, alloc: Global) -> Result<Shape, AllocError> {
        match self {
            Kind::Cardinals => sequence(alloc, Shape::Cardinal),
            Kind::Text => Ok(Shape::Text),
            Kind::Records => sequence(alloc, record(alloc, Shape::Text)?),
            Kind::Nested => nested(alloc),
        }
    }

    /// Adds the words of the value: 60,000 cardinals, a text of 65,535 bytes, 15,000 records of a cardinal and a text of 4 bytes,
    /// or a cardinal for each of the records within one another.
    fn push_words(self, words: &mut Vec<u16>) -> Result<(), AllocError> {
        match self {
            Kind::Cardinals => {
                words.push(60000)?;
                push_numbers(words, 60000)
            }
            Kind::Text => {
                words.push(65535)?;
                push_numbers(words, 32767)?;
                words.push(0x4100)?;
                Ok(())
            }
            Kind::Records => push_records(words),
            Kind::Nested => push_numbers(words, 16),
        }
    }
}

/// A value to be timed: its shape, its words, and how often it is read and written, which it is once at least.
#[derive(Clone, Copy)]
struct Trial<'a> {
    shape: &'a Shape,
    words: &'a [u16],
    times: u32,
}

/// How many words a value has, and the least nanoseconds of each kind of work.
#[derive(Clone, Copy)]
struct Found {
    taken: usize,
    read: u128,
    pieces: u128,
    write: u128,
}

impl Found {
    /// Keeps how many words were read over pieces, and the time where it is the least.
    fn keep_pieces(&mut self, taken: usize, spent: io::Result<Duration>) -> io::Result<bool> {
        self.taken = taken;
        self.pieces = self.pieces.min(spent?.as_nanos());
        Ok(true)
    }
}

/// Times each of the values.
pub fn run(rt: &HostRuntime, times: u32) -> io::Result<()> {
    for kind in KINDS {
        time_kind(rt, *kind, &kind.shape(rt.alloc())?, times)?;
    }
    Ok(())
}

/// Times the value of a kind.
fn time_kind(rt: &HostRuntime, kind: Kind, shape: &Shape, times: u32) -> io::Result<()> {
    let mut words = Vec::new(rt.alloc());
    kind.push_words(&mut words)?;
    time_value(
        rt,
        kind.name(),
        Trial {
            shape,
            words: &words,
            times,
        },
    )
}

/// Times one value, and prints what was found.
fn time_value(rt: &HostRuntime, name: &str, trial: Trial) -> io::Result<()> {
    let mut found = Found {
        taken: 0,
        read: u128::MAX,
        pieces: u128::MAX,
        write: u128::MAX,
    };
    if trial.shape.check().is_err()
        || !time_whole(rt, trial, &mut found)?
        || !time_pieces(rt, trial, &mut found)?
    {
        return Ok(());
    }
    println!(rt; "{name} {} words", found.taken)?;
    if trial.times > 0 {
        return print_least(rt, name, &found);
    }
    Ok(())
}

/// Prints the least times of the value of this name.
fn print_least(rt: &HostRuntime, name: &str, found: &Found) -> io::Result<()> {
    println!(rt; "{name} read {}", found.read)?;
    println!(rt; "{name} pieces {}", found.pieces)?;
    println!(rt; "{name} write {}", found.write)
}

/// Reads and writes the value; `false` where the words do not spell one, or it is written otherwise.
fn time_whole(rt: &HostRuntime, trial: Trial, found: &mut Found) -> io::Result<bool>
    requires { IsChecked (shape_model trial.shape.now) }
{
    let mut out = Vec::new(rt.alloc());
    for _ in 0..trial.times.max(1) {
        if !time_read(rt, trial.shape, trial.words, &mut out, found)? {
            return Ok(false);
        }
    }
    Ok(out.as_slice() == trial.words)
}

/// Reads the value, and then writes it; `false` where the words spell none.
fn time_read(
    rt: &HostRuntime,
    shape: &Shape,
    words: &[u16],
    out: &mut Vec<u16>,
    found: &mut Found,
) -> io::Result<bool>
    requires { IsChecked (shape_model shape.now) }
{
    let start = Instant::now(rt)?;
    let whole = read(rt.alloc(), shape, words);
    let spent = start.elapsed(rt);
    match &whole {
        Ok((value, _)) => time_write(rt, shape, value, spent, out, found),
        Err(_) => Ok(false),
    }
}

/// Keeps the time that reading the value took, where it is the least, and writes the value.
fn time_write(
    rt: &HostRuntime,
    shape: &Shape,
    value: &Value,
    reading: io::Result<Duration>,
    out: &mut Vec<u16>,
    found: &mut Found,
) -> io::Result<bool>
    requires { Fits (shape_model shape.now) (value_model value.now) }
{
    found.read = found.read.min(reading?.as_nanos());
    out.clear();
    let start = Instant::now(rt)?;
    write(rt.alloc(), shape, value, out)?;
    found.write = found.write.min(start.elapsed(rt)?.as_nanos());
    Ok(true)
}

/// Reads the value from pieces; `false` where the words do not spell one.
fn time_pieces(rt: &HostRuntime, trial: Trial, found: &mut Found) -> io::Result<bool>
    requires { IsChecked (shape_model trial.shape.now) }
{
    let mut pieces = Vec::new(rt.alloc());
    push_pieces(rt.alloc(), trial.words, &mut pieces)?;
    for _ in 0..trial.times.max(1) {
        if !time_pieced(rt, trial.shape, &pieces, found)? {
            return Ok(false);
        }
    }
    Ok(true)
}

/// Reads the value from the pieces; `false` where they spell none.
fn time_pieced(
    rt: &HostRuntime,
    shape: &Shape,
    pieces: &[Vec<u8>],
    found: &mut Found,
) -> io::Result<bool>
    requires { IsChecked (shape_model shape.now) }
{
    let start = Instant::now(rt)?;
    let pieced = read_pieces(rt.alloc(), shape, pieces, 0);
    let spent = start.elapsed(rt);
    match &pieced {
        Ok((_, taken)) => found.keep_pieces(*taken, spent),
        Err(_) => Ok(false),
    }
}

/// Adds the bytes of the words, in pieces as long as the body of a data packet can be.
fn push_pieces(alloc: Global, words: &[u16], pieces: &mut Vec<Vec<u8>>) -> Result<(), AllocError> {
    for part in words.chunks(MOST_BODY / 2) {
        pieces.push(bytes_of(alloc, part)?)?;
    }
    Ok(())
}

/// The bytes of the words.
fn bytes_of(alloc: Global, words: &[u16]) -> Result<Vec<u8>, AllocError> {
    let mut bytes = Vec::new(alloc);
    for word in words {
        bytes.extend_from_slice(&word.to_be_bytes())?;
    }
    Ok(bytes)
}

/// A sequence of such values, as many as there may be.
fn sequence(alloc: Global, shape: Shape) -> Result<Shape, AllocError> {
    Ok(Shape::Sequence(65535, Box::new(alloc, shape)?))
}

/// A record of a cardinal and such a value.
fn record(alloc: Global, shape: Shape) -> Result<Shape, AllocError> {
    let mut fields = Vec::new(alloc);
    fields.push(Shape::Cardinal)?;
    fields.push(shape)?;
    Ok(Shape::Fields(fields))
}

/// Records within records, as deep as `DEPTH` with the cardinal inside them.
fn nested(alloc: Global) -> Result<Shape, AllocError> {
    let mut shape = Shape::Cardinal;
    for _ in 1..DEPTH {
        shape = record(alloc, shape)?;
    }
    Ok(shape)
}

/// Adds the numbers from 0 to below this one.
fn push_numbers(words: &mut Vec<u16>, count: u16) -> Result<(), AllocError> {
    for number in 0..count {
        words.push(number)?;
    }
    Ok(())
}

/// Adds a count of 15,000, and as many records with texts of 4 bytes.
fn push_records(words: &mut Vec<u16>) -> Result<(), AllocError> {
    words.push(15000)?;
    for number in 0..15000 {
        words.extend_from_slice(&[number, 4, 0x4142, 0x4344])?;
    }
    Ok(())
}
