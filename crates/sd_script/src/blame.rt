//! What in a line doesn't fit the language, with the field itself and what may not be seen of it.

use crate::line_fault::LineFault;
use crate::unfit::unfit_line;
use std::alloc::{AllocError, Global};
use std::{fmt, str};

/// What is hard to see in a line.
#[derive(Clone, Copy, PartialEq, Eq)]
pub enum Blank {
    CarriageReturn,
    Tab,
    LeadingSpace,
    TrailingSpace,
    TwoSpaces,
}

impl fmt::Display for Blank {
    fn fmt<W: fmt::Write>(&self, f: &mut fmt::Formatter<W>) -> fmt::Result {
        f.write_str(match self {
            Blank::CarriageReturn =>
                "the line has a carriage return; lines end with a newline alone",
            Blank::Tab => "the line has a tab; fields are separated by single spaces",
            Blank::LeadingSpace => "the line begins with a space",
            Blank::TrailingSpace => "the line ends with a space",
            Blank::TwoSpaces => "the line has two spaces side by side",
        })
    }
}

/// What in a line doesn't fit, the field that is meant, and what is hard to see in the line.
#[derive(Clone, Copy)]
pub struct Blame<'a> {
    pub fault: LineFault,
    pub field: Option<&'a str>,
    pub blank: Option<Blank>,
}

/// How many bytes of a field or of a line are quoted at most.
const QUOTED: usize = 80;

/// The beginning of a text that is quoted: at most 80 bytes.
fn front_of(text: &str) -> &str {
    let mut end = QUOTED.min(text.len());
    for _ in 0..QUOTED {
        if let Some(front) = text.get(..end) {
            return front;
        }
        end = end.saturating_sub(1);
    }
    ""
}

/// A field of a line, quoted as far as its first 80 bytes go.
#[derive(Clone, Copy)]
struct QuotedField<'a>(&'a str);

impl fmt::Display for QuotedField<'_> {
    fn fmt<W: fmt::Write>(&self, f: &mut fmt::Formatter<W>) -> fmt::Result {
        let QuotedField(field) = self;
        let front = front_of(field);
        write!(f, "{front:?}{}", rest_of(field, front))
    }
}

/// A line, quoted as far as its first 80 bytes go.
#[derive(Clone, Copy)]
pub struct QuotedLine<'a>(pub &'a str);

impl fmt::Display for QuotedLine<'_> {
    fn fmt<W: fmt::Write>(&self, f: &mut fmt::Formatter<W>) -> fmt::Result {
        let QuotedLine(line) = self;
        let front = front_of(line);
        write!(f, "{front}{}", rest_of(line, front))
    }
}

/// What stands for the rest of a text whose beginning is quoted.
fn rest_of(text: &str, front: &str) -> &'static str {
    if front.len() < text.len() { ".." } else { "" }
}

impl fmt::Display for Blame<'_> {
    fn fmt<W: fmt::Write>(&self, f: &mut fmt::Formatter<W>) -> fmt::Result {
        write!(f, "{}", self.fault)?;
        if let Some(field) = self.field {
            write!(f, ", not {}", QuotedField(field))?;
        }
        if let Some(blank) = self.blank {
            write!(f, "; {blank}")?;
        }
        Ok(())
    }
}

/// What is hard to see in a line, the first that applies.
fn blank_in(line: &str) -> Option<Blank> {
    if line.contains('\r') {
        Some(Blank::CarriageReturn)
    } else if line.contains('\t') {
        Some(Blank::Tab)
    } else if line.starts_with(' ') {
        Some(Blank::LeadingSpace)
    } else if line.ends_with(' ') {
        Some(Blank::TrailingSpace)
    } else if line.contains("  ") {
        Some(Blank::TwoSpaces)
    } else {
        None
    }
}

/// The field that a fault means, counted from 1.
fn field_of(line: &str, fault: LineFault) -> Option<&str> {
    match fault {
        LineFault::UnknownRequest => line.split(' ').next(),
        LineFault::Field { number, .. } => line.split(' ').nth(number.saturating_sub(1)),
        LineFault::NoText | LineFault::FieldCount { .. } => None,
    }
}

/// What in a line that `Script::parse` refused doesn't fit, for a reader.
///
/// # Errors
///
/// Out of memory where the fields find no room.
pub fn blame_line(alloc: Global, line: &[u8]) -> Result<Blame<'_>, AllocError> {
    let fault = unfit_line(alloc, line)?;
    let Ok(text) = str::from_utf8(line) else {
        return Ok(Blame {
            fault,
            field: None,
            blank: None,
        });
    };
    Ok(Blame {
        fault,
        field: field_of(text, fault),
        blank: blank_in(text),
    })
}
