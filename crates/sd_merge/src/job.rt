ghost use Rattle.std.specs.Prelude.{◌≡◌};

use crate::closing::Closing;
use crate::copier::Copier;

/// How far a merge is.
#[derive(Drop)]
pub enum Job {
    /// The next step begins the merged image.
    Due,
    /// The merged image is made.
    Copying(Copier),
    /// The merged image, of this serial, is open, and the list of the images to close is awaited.
    Opened(u64),
    /// The images of the list are closed.
    Closing(Closing),
}

/// Gives a merge its next job.
pub(crate) fn put_job(job: &mut Job, next: Job)
    ensures { job.new ≡ next }
{
    *job = next;
}
