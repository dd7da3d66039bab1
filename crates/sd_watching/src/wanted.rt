//! How many free slots a request needs.
ghost use Rattle.std.specs.Prelude.{◌≡◌};
ghost use Rattle.sd_watching.specs.Wanted.{slots_wanted};

use sd_program::FewSlots;
use sd_script::Line;

/// How many slots are free, where a request needs some. None for one that needs none.
pub fn slots_for(request: &Line, free: usize) -> Option<FewSlots>
    ensures { result ≡ slots_wanted request.now free }
{
    match request {
        Line::Begin(rounds) | Line::Checkpoint(rounds) => Some(FewSlots::of_checkpoint(
            free, *rounds,
        )),
        Line::BeginMerge | Line::Merge => Some(FewSlots::of_merge(free)),
        _ => None,
    }
}
