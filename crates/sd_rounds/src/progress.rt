use sd_writing::NewImage;

/// What an outcome was to a dumper.
#[derive(Drop)]
pub enum Progress {
    /// It is of no request that is out. Nothing changed.
    Strange,
    /// The device failed: the checkpoint has ended.
    Failed,
    /// It was done, and the checkpoint goes on.
    More,
    /// A pre-dump is open, and the checkpoint goes on.
    PreDump(NewImage),
    /// The dump is open, and the checkpoint has ended.
    Dump(NewImage),
}
