use crate::spot::Spot;
use crate::way::Way;

/// How a table has a page, and as many pages after it as it has alike.
#[derive(Clone, Copy, PartialEq, Eq)]
pub(crate) struct Stretch {
    /// How it has the page. The places of data pages rise by one from page to page.
    pub(crate) way: Way,
    /// How many pages from it on, one after the other.
    pub(crate) count: u64,
    /// Where in the table they are.
    pub(crate) spot: Spot,
}
