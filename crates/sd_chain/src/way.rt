/// How an image has a page.
#[derive(Clone, Copy, PartialEq, Eq)]
pub enum Way {
    /// Among its data pages: so many of them stand before it.
    Data { place: u64 },
    /// In the image that its header's parent names.
    Parent,
    /// As zeros.
    Zero,
}
