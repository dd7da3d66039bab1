use std::fmt;

/// What a field of a line has to be.
#[derive(Clone, Copy, PartialEq, Eq)]
pub enum FieldKind {
    /// A number below 2^64, decimal or `0x` and hexadecimal.
    Number,
    /// A number from 1 on.
    Positive,
    /// `dumper`, `merger` or `opener`.
    WorkerName,
    /// `none`, or some of `rwx`.
    Permissions,
    /// Two hexadecimal digits for each byte.
    Hex,
}

impl fmt::Display for FieldKind {
    fn fmt<W: fmt::Write>(&self, f: &mut fmt::Formatter<W>) -> fmt::Result {
        f.write_str(match self {
            FieldKind::Number => "a number below 2^64, decimal or 0x and hexadecimal",
            FieldKind::Positive => "a number from 1 on",
            FieldKind::WorkerName => "dumper, merger or opener",
            FieldKind::Permissions => "none, or some of rwx in this order",
            FieldKind::Hex => "hexadecimal digits, two for each byte",
        })
    }
}

/// What in a line doesn't fit the language. Fields are counted from 1, the word of the request.
#[derive(Clone, Copy, PartialEq, Eq)]
pub enum LineFault {
    /// The bytes are no UTF-8.
    NoText,
    /// No request has this word.
    UnknownRequest,
    /// The request has another number of fields.
    FieldCount { found: usize, wanted: usize },
    /// This field has to be something else.
    Field { number: usize, wanted: FieldKind },
}

impl fmt::Display for LineFault {
    fn fmt<W: fmt::Write>(&self, f: &mut fmt::Formatter<W>) -> fmt::Result {
        match self {
            LineFault::NoText => f.write_str("it isn't UTF-8"),
            LineFault::UnknownRequest => f.write_str("field 1 is no request of the language"),
            LineFault::FieldCount { found, wanted } => {
                write!(
                    f,
                    "it has {found} fields, separated by single spaces, and needs {wanted}"
                )
            }
            LineFault::Field { number, wanted } => write!(f, "field {number} has to be {wanted}"),
        }
    }
}
