/// What an outcome was to the opener.
#[derive(Clone, Copy, PartialEq, Eq)]
pub enum OpenerProgress {
    /// It is of no request that is out. Nothing changed.
    Strange,
    /// The device failed.
    Failed,
    /// The opener goes on.
    More,
}
