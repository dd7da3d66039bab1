/// Who has device calls made.
#[derive(Clone, Copy, Debug, PartialEq, Eq, Hash)]
pub enum Worker {
    Dumper,
    Merger,
    Opener,
}
