//! What in a line doesn't fit the language, for a reader. `Script::parse` alone decides whether a line fits.

use crate::field_values::{hex_bytes, number, permissions, worker_named};
use crate::forms::form_of;
use crate::line_error::LineError;
use crate::line_fault::{FieldKind, LineFault};
use std::alloc::{AllocError, Global};
use std::str;

/// Whether a field is of this kind.
fn is_of_kind(alloc: Global, field: &str, kind: FieldKind) -> Result<bool, AllocError> {
    match kind {
        FieldKind::Number => Ok(number(field).is_some()),
        FieldKind::Positive => Ok(matches!(number(field), Some(1..))),
        FieldKind::WorkerName => Ok(worker_named(field).is_some()),
        FieldKind::Permissions => Ok(permissions(field).is_some()),
        FieldKind::Hex => match hex_bytes(alloc, field) {
            Ok(_) => Ok(true),
            Err(LineError::Unfit) => Ok(false),
            Err(LineError::OutOfMemory) => Err(AllocError),
        },
    }
}

/// What in a line that `Script::parse` refused doesn't fit.
///
/// # Errors
///
/// Out of memory where the fields find no room.
pub fn unfit_line(alloc: Global, line: &[u8]) -> Result<LineFault, AllocError> {
    let Ok(text) = str::from_utf8(line) else {
        return Ok(LineFault::NoText);
    };
    let fields: Vec<&str> = text.split(' ').collect(alloc)?;
    let [word, arguments @ ..] = fields.as_slice() else {
        return Ok(LineFault::UnknownRequest);
    };
    let Some(form) = form_of(word) else {
        return Ok(LineFault::UnknownRequest);
    };
    for (index, (field, wanted)) in arguments.iter().zip(form.fields).enumerate() {
        if !is_of_kind(alloc, field, wanted.kind)? {
            return Ok(LineFault::Field {
                number: index.saturating_add(2),
                wanted: wanted.kind,
            });
        }
    }
    Ok(LineFault::FieldCount {
        found: fields.len(),
        wanted: form.fields.len().saturating_add(1),
    })
}
