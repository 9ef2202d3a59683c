use crate::scene::Scene;
use std::alloc::{AllocError, Global};

/// The words of a client's call in a scene.
pub fn words_of(
    alloc: Global,
    client: usize,
    call: usize,
    scene: &Scene,
) -> Result<Vec<u16>, AllocError> {
    let mut words = Vec::new(alloc);
    let seed = call
        .wrapping_mul(7_919)
        .wrapping_add(client.wrapping_mul(31));
    let range = scene
        .most_words
        .saturating_sub(scene.least_words)
        .saturating_add(1);
    let more = seed.checked_rem(range).unwrap_or(0);
    let count = scene.least_words.saturating_add(more);
    for place in 0..count {
        words.push((seed.wrapping_add(place) % 65_536) as u16)?;
    }
    Ok(words)
}

/// The answer to these words: their sum, and then the words.
pub fn answer_to(alloc: Global, words: &[u16]) -> Result<Vec<u16>, AllocError> {
    let mut answer = Vec::new(alloc);
    let mut sum: u16 = 1;
    for word in words {
        sum = sum.wrapping_add(*word);
    }
    answer.push(sum)?;
    answer.extend_from_slice(words)?;
    Ok(answer)
}
