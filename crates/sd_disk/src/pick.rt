//! What a test chooses of what a crash may leave.
ghost use Rattle.std.specs.Prelude.{◌≡◌, ℕ, ◌<◌, List, length, slice_index};
ghost use Rattle.sd_disk.specs.Contents.{file_at};

/// Chooses one of the contents that a crash may leave.
///
/// `aims` are the contents that it aims at, if it aims at any: what it returns is then theirs, and it still aims at
/// them.
pub trait Pick {
    ghost aims: { Self → List (List ℕ) → Type 0 };

    /// The length of a slot's file, between the least and the greatest, both included. A length outside of them
    /// counts as the nearest of the two. `synced` is the length as last synced, and `now` as it reads.
    fn len(&mut self, slot: usize, least: u64, greatest: u64, synced: u64, now: u64) -> u64
        ensures { (c : List (List ℕ)) → aims self.old c
            → (result ≡ length (file_at c slot)) × aims self.new c };

    /// The byte at a place that may hold any. `synced` is the byte as last synced, and `now` as it reads, `None`
    /// past the file's end.
    fn byte(&mut self, slot: usize, at: u64, synced: Option<u8>, now: Option<u8>) -> u8
        ensures { (c : List (List ℕ)) → aims self.old c
            → (at < length (file_at c slot) → result ≡ slice_index (file_at c slot) at)
            × aims self.new c };
}
