/// What copying a sector came to.
#[derive(Clone, Copy, PartialEq, Eq)]
pub enum Copied {
    /// The sector stands after those before it.
    More,
    /// It was the eighth, and the page is all zeros: it has its entry.
    Zero,
    /// The page is no longer mapped: it gets no entry.
    Gone,
}
