//! The calls on a device, one after another, for clauses alone. It takes no memory.
ghost use Rattle.std.specs.Prelude.{◌≡◌, List, [], ◌∷◌};
ghost use Rattle.std.specs.Borrow.{ftrue};
ghost use Rattle.sd_disk.specs.Events.{Outside, DiskEvent};

use crate::call::Call;
use std::marker::{Model, PhantomData};

#[derive(Drop)]
pub struct CallTrace {
    marker: PhantomData<u8>,
    pub ghost outside: { Outside },
    pub ghost events: { List DiskEvent },
}

impl Model for CallTrace {
    ghost also_owns = { λ _. ftrue };
}

// It owns nothing.
unsafe impl Send for CallTrace {}

impl CallTrace {
    pub(crate) fn new() -> CallTrace
        ghost outside: { Outside }
        ensures { (result.outside ≡ outside) × (result.events ≡ []) }
    {
        CallTrace {
            marker: PhantomData,
        }
    }

    /// Nothing runs: a caller notes the call that it makes, with the bytes that it carried.
    pub(crate) fn note(&mut self, _call: &Call, _bytes: &[u8])
        ensures { self.new
            ≡ record self.old { events = (_call.now, _bytes.now) ∷ self.old.events } }
    {}
}
