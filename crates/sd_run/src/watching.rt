//! Who sees a run: its jobs, and the answers of its requests.
use sd_command::Refusal;
use sd_core::Core;
use sd_script::Answer;
use sd_world::{Unwatched, Watch};

/// Sees a run, so that it can be shown while it lasts. A run doesn't depend on it.
pub trait RunWatch: Watch {
    /// The next request was answered, and its answer printed; the first is the opening. The core is as it then stands.
    fn answered(&mut self, core: &Core, given: &Answer);

    /// An order of a run without requests, a merge or an import, is refused.
    fn refused(&mut self, core: &Core, why: Refusal);
}

impl RunWatch for Unwatched {
    fn answered(&mut self, _core: &Core, _given: &Answer) {}

    fn refused(&mut self, _core: &Core, _why: Refusal) {}
}
