//! A printed text, beside a pattern of it.

use crate::changes::push_line;
use std::alloc::{AllocError, Global};
use std::str::Lines;

/// Whether a line is like one of a pattern, in which `...` stands for any characters.
fn is_like(line: &str, wanted: &str) -> bool {
    match wanted.split_once("...") {
        Some(("", part)) => line.contains(part),
        Some((begin, end)) => line.starts_with(begin) && line.ends_with(end),
        None => line == wanted,
    }
}

/// Goes on to the next line that is like this one. Answers whether there is one.
fn skips_to(lines: &mut Lines<'_>, wanted: &str) -> bool {
    for line in lines {
        if is_like(line, wanted) {
            return true;
        }
    }
    false
}

/// Whether the text fits the pattern, line by line. Its line `...` stands for any lines, and `...PART` for any lines
/// and one that has this part.
pub fn fits(text: &str, pattern: &str) -> bool {
    let mut lines = text.lines();
    let mut skips = false;
    for wanted in pattern.trim_end_matches('\n').lines() {
        if wanted == "..." {
            skips = true;
            continue;
        }
        let is_there = if skips || wanted.starts_with("...") {
            skips_to(&mut lines, wanted)
        } else {
            lines.next().is_some_and(|line: &str| is_like(line, wanted))
        };
        if !is_there {
            return false;
        }
        skips = false;
    }
    skips || lines.next().is_none()
}

/// The lines of a text that have this part, and how many there are.
pub fn rows_with(alloc: Global, text: &str, part: &str) -> Result<String, AllocError> {
    let mut rows = String::new(alloc);
    let mut count = 0u64;
    for line in text.lines() {
        if line.contains(part) {
            push_line(&mut rows, line)?;
            count = count.saturating_add(1);
        }
    }
    push_line(&mut rows, &format!(in alloc; "{count} rows")?)?;
    Ok(rows)
}
