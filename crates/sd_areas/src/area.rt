use crate::page_no::PageNo;
use crate::prot::Prot;

/// A run of pages with equal permissions: `count` of them, from `first` on.
#[derive(Clone, Copy, Debug, PartialEq, Eq, Hash)]
pub struct Area {
    pub first: PageNo,
    pub count: u64,
    pub prot: Prot,
}
