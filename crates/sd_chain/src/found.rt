/// Where a page's bytes are.
#[derive(Clone, Copy, PartialEq, Eq)]
pub enum Found {
    /// Nowhere: they are zeros.
    Zero,
    /// In the file of a slot, from this byte on.
    Data { slot: usize, offset: u64 },
}
