//! Words that name cases.

/// What a word names, if anything.
pub(crate) fn named<T: Copy>(names: &[(&str, T)], word: &str) -> Option<T> {
    for (name, case) in names {
        if *name == word {
            return Some(*case);
        }
    }
    None
}
