use std::sync::Condvar;

/// Whether those that wait for a thaw are to go on. It can't be dropped: who made a turn that may end a freeze has to
/// wake them.
pub(crate) struct Waking {
    go_on: bool,
}

impl Waking {
    ghost use Rattle.std.specs.Prelude.{◌≡◌};

    pub(crate) fn new(go_on: bool) -> Waking
        ensures { result.go_on ≡ go_on }
    {
        Waking { go_on }
    }

    /// Wakes all that wait, where they are to go on.
    pub(crate) fn wake(self, thawed: &Condvar) {
        let Waking { go_on } = self;
        if go_on {
            thawed.notify_all();
        }
    }
}
