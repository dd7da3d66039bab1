//! What a disk was asked, and how it ended.

/// A call with what came back. The bytes that it carried stand beside it.
#[derive(Clone, Copy)]
pub enum Call {
    /// A slot's file has this length.
    Measured { slot: usize, len: usize },
    /// These bytes stand in a slot's file at `at`.
    Read { slot: usize, at: usize },
    Written { slot: usize, at: usize },
    Cut { slot: usize, len: usize },
    Synced { slot: usize },
    /// A call that changes no file failed.
    Failed,
    /// The write of the bytes failed, and may have been done in part.
    WriteFailed { slot: usize, at: usize },
    /// It may have cut.
    CutFailed { slot: usize, len: usize },
}

impl Call {
    ghost use Rattle.std.specs.Prelude.{◌≡◌};
    ghost use Rattle.sd_disk.specs.Events.{is_failure};

    pub(crate) fn is_failure(&self) -> bool
        ensures { result ≡ is_failure self.now }
    {
        matches!(
            self,
            Call::Failed | Call::WriteFailed { .. } | Call::CutFailed { .. }
        )
    }
}
