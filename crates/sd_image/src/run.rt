use sd_areas::PageNo;

/// Where an image has the bytes of a run of pages.
#[derive(Clone, Copy, PartialEq, Eq)]
pub enum RunKind {
    /// Among its data pages.
    Data,
    /// In the image that its header's parent names.
    Parent,
    /// Nowhere: they are zeros.
    Zero,
}

/// A run of pages that an image has in one way: `count` of them, from `first` on.
#[derive(Clone, Copy, PartialEq, Eq)]
pub struct Run {
    pub first: PageNo,
    pub count: u64,
    pub kind: RunKind,
}
