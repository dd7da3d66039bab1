/// An image that is closed once the merged one is open.
#[derive(Clone, Copy, PartialEq, Eq)]
pub struct Retired {
    pub serial: u64,
    pub slot: usize,
}
