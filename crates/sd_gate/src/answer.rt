/// How a device call ended.
#[derive(Clone, Copy, PartialEq, Eq)]
pub enum Answer {
    /// It was done.
    Done,
    /// The file has so many bytes.
    Len(usize),
    /// The device failed. A write or cut may have been done in part.
    Failed,
}

impl Answer {
    ghost use Rattle.std.specs.Prelude.{◌≡◌};
    ghost use Rattle.sd_gate.specs.Calls.{is_done};

    /// Whether the device did what it was asked.
    pub fn is_done(self) -> bool
        ensures { result ≡ is_done self }
    {
        !matches!(self, Answer::Failed)
    }
}
