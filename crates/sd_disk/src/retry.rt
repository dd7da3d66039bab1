//! Calls of the system that a signal interrupts.
use std::io;

/// How often a call is made again. What is interrupted more often has failed.
const TRIES: u32 = 1_000;

/// Makes a call of the system, and makes it again where a signal interrupted it.
pub(crate) fn uninterrupted<T: Drop, F: Fn() -> io::Result<T>>(call: F) -> io::Result<T>
    requires { F.IsAlwaysCallable call }
{
    for _ in 0..TRIES {
        match call() {
            Err(error) if error.kind() == io::ErrorKind::Interrupted => {}
            ended => return ended,
        }
    }
    call()
}
