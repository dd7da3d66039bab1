ghost use Rattle.std.specs.Prelude.{◌≡◌, ℕ, ⊤, List, []};
ghost use Rattle.sd_relay.specs.Fronts.{put_into, StaysOnChannel};

use crate::front::Front;

/// What the thread that calls `relay` does: it puts errands into the front.
pub trait Feeder {
    /// What it has done where it was so before, and is so now.
    ghost fed: { Self → Self → Type 0 };

    /// What it knows of the tickets that it put, in order.
    ghost has_put: { Self → List ℕ → Type 0 } = { λ _ _. ⊤ };

    /// Puts its errands into the front.
    fn feed(&mut self, front: &mut Front)
        ensures stays { StaysOnChannel front.old front.new }
        ensures fed { fed self.old self.new }
        ensures put { put_into front.old ≡ [] → has_put self.new (put_into front.new) };
}
