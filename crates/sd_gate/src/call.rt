/// A device call on one slot. The bytes that it writes or fills stand beside it.
#[derive(Clone, Copy, PartialEq, Eq)]
pub enum Call {
    /// Asks for the length of the file.
    Len,
    /// Fills the bytes from byte `at` of the file on.
    Read { at: usize },
    /// Writes the bytes at byte `at`, after the gate.
    Write { at: usize },
    /// Writes a header, the bytes from 1 to 4,095 of the file.
    WriteHeader,
    /// Writes one byte 0 over the gate.
    Close,
    /// Writes the byte 0xA5 over the gate.
    Open,
    /// Cuts the file to one byte, its gate.
    Cut,
    /// Waits until the file is on the device as it reads.
    Sync,
}
