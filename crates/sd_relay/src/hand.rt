use std::collections::LinkedList;

/// What a pass has done: the tickets that it put and those that it took, in order. No value of it is made.
pub struct Hand {
    /// Its parts of the right to know the whole.
    pub parts: u64,
    /// Whether it is the one pass that puts.
    pub puts: bool,
    pub put: LinkedList<u64>,
    pub taken: LinkedList<u64>,
}
