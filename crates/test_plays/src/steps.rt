//! The steps of a line.
use std::alloc::{AllocError, Global};

/// The steps, one after another; `3* STEP; STEP` stands for six.
pub fn unfold<'a>(alloc: Global, steps: &'a str) -> Result<Vec<&'a str>, AllocError> {
    let mut all = Vec::new(alloc);
    for group in steps.split(", ") {
        push_group(&mut all, group)?;
    }
    Ok(all)
}

/// Adds the steps of a group as often as it comes.
fn push_group<'a>(all: &mut Vec<&'a str>, group: &'a str) -> Result<(), AllocError> {
    let (count, steps) = counted(group);
    for _ in 0..count {
        all.extend(steps.split("; "))?;
    }
    Ok(())
}

/// How often a group of steps comes, and the group.
pub fn counted(group: &str) -> (u16, &str) {
    match group.split_once("* ") {
        Some((count, steps)) => (count.parse::<u16>().unwrap_or(0), steps),
        None => (1, group),
    }
}
