//! Shapes as lines spell them: words, each of which stands behind the shapes of its parts.
//!
//! `array:2` and `sequence:2` take the last shape before them, and `record` all of them. `enumeration:3,9` lists its members.
//! `choice:4` is a choice of a boolean, whose designator is 1, and of a text, whose designator is 4.
use courier_types::Shape;
use std::alloc::{AllocError, Global};
use std::mem;

/// The numbers between commas; what is no number is left out.
pub fn numbers(alloc: Global, text: &str) -> Result<Vec<u16>, AllocError> {
    let mut numbers = Vec::new(alloc);
    for word in text.split(',') {
        if let Ok(number) = word.parse::<u16>() {
            numbers.push(number)?;
        }
    }
    Ok(numbers)
}

/// The last shape; a boolean where there is none.
fn last(shapes: &mut Vec<Shape>) -> Shape {
    match shapes.pop() {
        Some(shape) => shape,
        None => Shape::Boolean,
    }
}

fn array(alloc: Global, count: u16, element: Shape) -> Result<Shape, AllocError> {
    Ok(Shape::Array(count, Box::new(alloc, element)?))
}

fn sequence(alloc: Global, most: u16, element: Shape) -> Result<Shape, AllocError> {
    Ok(Shape::Sequence(most, Box::new(alloc, element)?))
}

fn choice(alloc: Global, text: u16) -> Result<Shape, AllocError> {
    let mut members = Vec::new(alloc);
    members.push((1, Shape::Boolean))?;
    members.push((text, Shape::Text))?;
    Ok(Shape::Choice(members))
}

/// The shape of this name that has no parts; a boolean where there is none.
fn plain(name: &str) -> Shape {
    match name {
        "cardinal" => Shape::Cardinal,
        "long-cardinal" => Shape::LongCardinal,
        "integer" => Shape::Integer,
        "long-integer" => Shape::LongInteger,
        "text" => Shape::Text,
        _ => Shape::Boolean,
    }
}

/// The shape that a word makes of the shapes before it.
fn make(alloc: Global, shapes: &mut Vec<Shape>, word: &str) -> Result<Shape, AllocError> {
    let (name, text) = word.split_once(':').unwrap_or((word, ""));
    let number = text.parse::<u16>().unwrap_or(0);
    match name {
        "enumeration" => Ok(Shape::Enumeration(numbers(alloc, text)?)),
        "array" => array(alloc, number, last(shapes)),
        "sequence" => sequence(alloc, number, last(shapes)),
        "record" => Ok(Shape::Fields(mem::replace(shapes, Vec::new(alloc)))),
        "choice" => choice(alloc, number),
        _ => Ok(plain(name)),
    }
}

/// The shape that the words spell.
pub fn shape(alloc: Global, words: &str) -> Result<Shape, AllocError> {
    let mut shapes = Vec::new(alloc);
    for word in words.split(' ') {
        let shape = make(alloc, &mut shapes, word)?;
        shapes.push(shape)?;
    }
    Ok(last(&mut shapes))
}
