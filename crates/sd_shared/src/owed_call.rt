use sd_disk::Disk;
use sd_gate::{Outcome, Request, perform};
use sd_relay::{Errand, Front};
use std::sync::Wait;

/// A device call that a worker took up. It can't be dropped: it is performed, put for the writers, or given up where
/// the disk hasn't its slot.
pub(crate) struct OwedCall {
    request: Request,
}

impl OwedCall {
    ghost use Rattle.std.specs.Prelude.{◌≡◌, ◌<◌, ◌≤◌, ◌++◌, ◌∷◌, [], length, IfSome, IfNone};
    ghost use Rattle.sd_relay.specs.Fronts.{StaysOnChannel, put_into};

    /// What a request asks for.
    pub(crate) fn new(request: Request) -> OwedCall
        ensures { result.request ≡ request }
    {
        OwedCall { request }
    }

    /// The slot of which it is a call.
    pub(crate) fn slot(&self) -> usize
        ensures { result ≡ self.now.request.id.slot }
    {
        self.request.id().slot
    }

    /// Performs the call.
    pub(crate) fn perform<D: Disk>(self, disk: &mut D) -> Outcome
        requires { self.request.id.slot < length (D.contents disk.old) }
        ensures { result.request.id ≡ self.request.id }
    {
        let OwedCall { request } = self;
        perform(disk, request)
    }

    /// Gives the call up, as the disk hasn't its slot.
    pub(crate) fn give_up<D: Disk>(self, disk: &D)
        requires { length (D.contents disk.now) ≤ self.request.id.slot }
    {
        let _ = disk;
        let OwedCall { request: _ } = self;
    }

    /// Puts the call, with its number, for the writers. It comes back where `Front::put` hands it back.
    pub(crate) fn put(self, rt: &impl Wait, front: &mut Front, call: u64) -> Option<OwedCall>
        ensures stays { StaysOnChannel front.old front.new }
        ensures put { IfNone result
            (put_into front.new ≡ put_into front.old ++ self.request.id.ticket ∷ []) }
        ensures back { IfSome result (λ back. back.request ≡ self.request) }
    {
        let OwedCall { request } = self;
        match front.put(rt, Errand { call, request }) {
            Ok(()) => None,
            Err(Errand { call: _, request }) => Some(OwedCall { request }),
        }
    }
}
