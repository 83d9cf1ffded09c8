//! Names as texts in small letters: the labels, each with a dot after it, so that the root is the empty text.

use crate::random::Random;
use enum_base::MemoryFault;
use std::alloc::Global;

/// A name of at most so many labels under another.
pub fn name_under(
    alloc: Global,
    random: &mut Random,
    above: &str,
    most: usize,
) -> Result<String, MemoryFault> {
    let mut name = above.to_string(alloc)?;
    for _ in 0..random.below(most.min(9) + 1) {
        name = format!(in alloc; "{}.{name}", label(random))?;
    }
    Ok(name)
}

fn label(random: &mut Random) -> &'static str {
    match random.below(4) {
        0 => "a",
        1 => "b",
        2 => "c",
        _ => "*",
    }
}

/// The apex of a zone.
pub fn apex(random: &mut Random) -> &'static str {
    match random.below(5) {
        0 => "",
        1 => "z.",
        2 => "a.z.",
        3 => "b.a.z.",
        _ => "y.",
    }
}

/// The name without its first label; the root as it is.
pub fn parent(name: &str) -> &str {
    match name.split_once('.') {
        Some((_, above)) => above,
        None => name,
    }
}

/// Whether a name is at or below another.
pub fn is_below(name: &str, other: &str) -> bool {
    match name.strip_suffix(other) {
        Some(labels) => labels.is_empty() || other.is_empty() || labels.ends_with('.'),
        None => false,
    }
}

/// The name as it is written, each letter small or capital.
pub fn written(alloc: Global, random: &mut Random, name: &str) -> Result<String, MemoryFault> {
    let mut text = String::new(alloc);
    for letter in name.chars() {
        let capital = random.below(2) == 1;
        text.push(if capital {
            letter.to_ascii_uppercase()
        } else {
            letter
        })?;
    }
    if text.is_empty() {
        text.push('.')?;
    }
    Ok(text)
}
