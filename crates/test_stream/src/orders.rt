//! Calls of a writer that are out of order.
use crate::streams::{BASE, Call, is_shown, make};
use sd_stream::{Base, MAX_FILE_LEN, StreamWriter, WriteError};
use std::alloc::{AllocError, Global};

/// How a call is answered that isn't refused.
const WRITTEN: &str = "written";

/// A stream: its base, its calls, each with its answer, and the answer of its end, with how long it is then.
type Row = (
    Option<Base>,
    &'static [(Call, &'static str)],
    &'static str,
    usize,
);

/// What is refused writes nothing.
const ROWS: &[Row] = &[
    (
        Some(BASE),
        &[
            (Call::Bytes(b"a"), "too many bytes of an image"),
            (Call::Acknowledged(4), "checkpoint 4 without an image"),
            (Call::Image(0), "image of 0 bytes"),
            (Call::Image(MAX_FILE_LEN + 1), "image of 536870913 bytes"),
            (Call::Image(2), WRITTEN),
            (Call::Image(2), "bytes of an image are left"),
            (Call::Acknowledged(4), "bytes of an image are left"),
            (Call::Bytes(b"abc"), "too many bytes of an image"),
            (Call::Bytes(b"ab"), WRITTEN),
            (
                Call::Acknowledged(3),
                "checkpoint 3 isn't above the one before",
            ),
            (Call::Acknowledged(4), WRITTEN),
        ],
        WRITTEN,
        56 + 16 + 2 + 16 + 16 + 32,
    ),
    (
        None,
        &[(Call::Image(2), WRITTEN), (Call::Bytes(b"ab"), WRITTEN)],
        "images without a checkpoint",
        0,
    ),
    (
        None,
        &[(Call::Image(2), WRITTEN)],
        "bytes of an image are left",
        0,
    ),
    (
        Some(Base {
            number: 0,
            digest: [0; 32],
        }),
        &[],
        "base without a number",
        0,
    ),
];

/// Whether a call is answered so.
fn is_answered(
    alloc: Global,
    writer: &mut StreamWriter<Vec<u8>>,
    call: Call,
    answer: &str,
) -> Result<bool, AllocError> {
    match make(writer, call) {
        Ok(()) => Ok(answer == WRITTEN),
        Err(why) => is_shown(alloc, &why, answer),
    }
}

fn are_answered(
    alloc: Global,
    writer: &mut StreamWriter<Vec<u8>>,
    calls: &[(Call, &str)],
) -> Result<bool, AllocError> {
    for (call, answer) in calls {
        if !is_answered(alloc, writer, *call, answer)? {
            return Ok(false);
        }
    }
    Ok(true)
}

/// Whether a stream ends as its row says.
fn ends_so(
    alloc: Global,
    ended: Result<Vec<u8>, WriteError>,
    row: &Row,
) -> Result<bool, AllocError> {
    match ended {
        Ok(stream) => Ok(row.2 == WRITTEN && stream.len() == row.3),
        Err(why) => is_shown(alloc, &why, row.2),
    }
}

/// Whether a stream is answered as its row says.
fn is_written_so(alloc: Global, row: &Row) -> Result<bool, AllocError> {
    let mut writer = match StreamWriter::begin(Vec::new(alloc), row.0) {
        Ok(writer) => writer,
        Err(why) => return ends_so(alloc, Err(why), row),
    };
    let are_answered = are_answered(alloc, &mut writer, row.1);
    let ends = ends_so(alloc, writer.end(), row);
    Ok(are_answered? && ends?)
}

#[test]
fn each_refusal_has_its_name(rt: HostRuntime) -> Result<(), AllocError> {
    for (place, row) in ROWS.iter().enumerate() {
        assert!(rt; is_written_so(rt.alloc(), row)?, "row {place}");
    }
    Ok(())
}
