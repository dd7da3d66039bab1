//! Too few free slots, as a cause.
ghost use Rattle.std.specs.Prelude.{◌≡◌, ◌+◌, ◌-◌, ◌^◌, ◌<◌, ◌↔◌, min, IsTrue};

use std::fmt;

/// How many slots are free, where a job needs some.
#[derive(Clone, Copy)]
pub struct FewSlots {
    pub free: usize,
    pub wanted: u64,
}

impl FewSlots {
    /// Those of a checkpoint with so many rounds.
    pub fn of_checkpoint(free: usize, rounds: u64) -> FewSlots
        ensures { result ≡ record { free = free; wanted = min (rounds + 2) (2 ^ 64 - 1) } }
    {
        FewSlots {
            free,
            wanted: rounds.saturating_add(2),
        }
    }

    /// Those of a merge.
    pub fn of_merge(free: usize) -> FewSlots
        ensures { result ≡ record { free = free; wanted = 1 } }
    {
        FewSlots { free, wanted: 1 }
    }

    /// Whether fewer slots are free than are needed.
    pub fn are_few(self) -> bool
        ensures { IsTrue result ↔ (self.free < self.wanted) }
    {
        (self.free as u64) < self.wanted
    }
}

impl fmt::Display for FewSlots {
    ghost use Rattle.std.specs.Prelude.{Some};
    ghost use Rattle.sd_program.specs.Texts.{few_slots_text};

    ghost output = { λ slots. Some (few_slots_text slots.free slots.wanted) };

    fn fmt<W: fmt::Write>(&self, f: &mut fmt::Formatter<W>) -> fmt::Result {
        let FewSlots { free, wanted } = self;
        write!(f, "no-slot: free slots: {free}, wanted: {wanted}")?;
        f.write_str("; a merge frees those of the images that it takes in")
    }
}
