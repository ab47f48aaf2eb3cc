// The lines of a case, in sections.
use super::fault::Fault;
use std::alloc::Global;
use std::mem;

/// A line, and its number in the file.
#[derive(Clone, Copy)]
pub struct Line<'a> {
    pub number: u32,
    pub text: &'a str,
}

impl<'a> Line<'a> {
    /// The line, as it is understood to be wrong.
    pub fn unread(&self) -> Fault {
        Fault::Unread { line: self.number }
    }

    /// What the line says does not hold: this came.
    pub fn wrong(&self, came: String) -> Fault {
        Fault::Wrong {
            line: self.number,
            came,
        }
    }

    /// The first word, and what follows it.
    pub fn parts(&self) -> (&'a str, &'a str) {
        first_word(self.text)
    }
}

/// The first word of a text, and what follows it.
pub fn first_word(text: &str) -> (&str, &str) {
    match text.split_once(' ') {
        Some((word, rest)) => (word, rest),
        None => (text, ""),
    }
}

/// The lines from a line `* TITLE` to the next. Those before the first such line have an empty title.
#[derive(Drop)]
pub struct Section<'a> {
    pub title: Line<'a>,
    pub lines: Vec<Line<'a>>,
}

impl<'a> Section<'a> {
    fn new(alloc: Global, title: Line<'a>) -> Section<'a> {
        Section {
            title,
            lines: Vec::new(alloc),
        }
    }
}

// Whether a line says nothing: a remark, or an empty one.
fn is_silent(text: &str) -> bool {
    text.is_empty() || text.starts_with('#')
}

/// The sections of a text.
pub fn read_sections<'a>(alloc: Global, text: &'a str) -> Result<Vec<Section<'a>>, Fault> {
    let mut sections = Vec::new(alloc);
    let head = Line {
        number: 0,
        text: "",
    };
    let mut section = Section::new(alloc, head);
    let mut number = 0u32;
    for text in text.lines() {
        number = number.saturating_add(1);
        if let Some(title) = text.strip_prefix("* ") {
            let title = Line {
                number,
                text: title,
            };
            sections.push(mem::replace(&mut section, Section::new(alloc, title)))?;
        } else if !is_silent(text) {
            section.lines.push(Line { number, text })?;
        }
    }
    sections.push(section)?;
    Ok(sections)
}
