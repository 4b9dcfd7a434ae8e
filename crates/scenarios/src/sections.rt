//! A case file as its sections.

use money_units::NoMemory;
use std::alloc::Global;

/// A section: the number of its first line, its words, and its lines, if it has any.
#[derive(Clone, Copy, Debug, PartialEq, Eq)]
pub struct Section<'a> {
    pub line: u64,
    pub words: &'a str,
    pub lines: Option<&'a str>,
}

fn line_feeds(text: &str) -> u64 {
    text.bytes().filter(|byte| *byte == b'\n').count() as u64
}

// A section by its text, from behind `== ` to before the next one.
fn section_of(text: &str, line: u64) -> Section<'_> {
    match text.split_once('\n') {
        Some((words, lines)) => Section {
            line,
            words,
            lines: Some(lines),
        },
        None => Section {
            line,
            words: text,
            lines: None,
        },
    }
}

/// The sections of a case file, behind the words that it begins with.
pub(crate) fn sections_of<'a>(alloc: Global, text: &'a str) -> Result<Vec<Section<'a>>, NoMemory> {
    let mut sections = Vec::new(alloc);
    let text = text.strip_suffix('\n').unwrap_or(text);
    let mut line: u64 = 1;
    for (number, part) in text.split("\n== ").enumerate() {
        if number > 0 {
            sections.push(section_of(part, line))?;
        }
        line = line.saturating_add(line_feeds(part)).saturating_add(1);
    }
    Ok(sections)
}
