//! A shell that waits for its input. What is held of the answers is printed before.

use crate::requests::{Brought, Requests};
use crate::shell::Asked;
use sd_exit::{Output, Stop};
use sd_program::{STANDARD_INPUT, unread};
use std::io::{Read, Write};

/// How long the next line is, once all of it came; none at the end of the input.
pub(crate) fn wait_for_line<I: Read, W: Write>(
    asked: Asked<'_>,
    requests: &mut Requests<I>,
    out: &mut Output<W>,
) -> Result<Option<usize>, Stop> {
    for _ in 0..u64::MAX {
        if let Some(length) = requests.line_length() {
            return Ok(Some(length));
        }
        if wait(asked, requests, out)? == Brought::End {
            return Ok(requests.line_length());
        }
    }
    Ok(None)
}

/// Prints what is held of the answers, and waits for more of the input.
fn wait<I: Read, W: Write>(
    asked: Asked<'_>,
    requests: &mut Requests<I>,
    out: &mut Output<W>,
) -> Result<Brought, Stop> {
    out.flush()?;
    match requests.wait() {
        Ok(brought) => Ok(brought),
        Err(error) => Err(unread(asked.called.rt, asked.called.causes, STANDARD_INPUT, &error)),
    }
}

/// Takes so many bytes of the input, once they came; fewer where it ends before.
pub(crate) fn wait_for_bytes<'a, I: Read, W: Write>(
    asked: Asked<'_>,
    requests: &'a mut Requests<I>,
    length: usize,
    out: &mut Output<W>,
) -> Result<&'a [u8], Stop> {
    for _ in 0..u64::MAX {
        if requests.waiting() >= length || wait(asked, requests, out)? == Brought::End {
            break;
        }
    }
    Ok(requests.take(length))
}

/// Reads so many bytes of the input, and drops them.
pub(crate) fn drop_bytes<I: Read, W: Write>(
    asked: Asked<'_>,
    requests: &mut Requests<I>,
    length: usize,
    out: &mut Output<W>,
) -> Result<(), Stop> {
    let mut left = length;
    for _ in 0..u64::MAX {
        left = left.saturating_sub(requests.take(left).len());
        if left == 0 || wait(asked, requests, out)? == Brought::End {
            break;
        }
    }
    Ok(())
}
