//! The layout of an image's file: the gate and the header, then the data pages, then the table.

/// The gate of an open slot: the first byte of its file. Every other value means closed.
pub const GATE: u8 = 0xA5;

/// How many bytes stand before the data pages, the gate among them. A shorter file is closed.
pub const HEADER_SIZE: usize = 4096;

/// The length of the head of a table, in bytes.
pub(crate) const TABLE_HEAD_SIZE: usize = 8;

/// The length of the head of a space, in bytes.
pub(crate) const SPACE_HEAD_SIZE: usize = 16;

/// The length of an area or a run, in bytes.
pub(crate) const RANGE_SIZE: usize = 24;
