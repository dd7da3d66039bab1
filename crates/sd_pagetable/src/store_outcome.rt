/// What a try of a store on a permitted page returns.
#[derive(Clone, Copy, Debug, PartialEq, Eq, Hash)]
pub enum StoreOutcome {
    /// The bytes are stored.
    Done,
    /// The page isn't writable: it needs a fault first, and nothing is stored.
    NeedsFault,
}
