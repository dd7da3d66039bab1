/// The right to make one order: of a job, of a cancel, or of a trim. It can't be dropped, and only the public calls of
/// `Shared` that order something make one, each one alone: the turn that orders takes it.
pub(crate) struct OneOrder {
    own: (),
}

impl OneOrder {
    /// The right of one public call.
    pub(super) fn new() -> OneOrder {
        OneOrder { own: () }
    }

    /// Ends the right: the order is made, or the call was refused before it.
    pub(crate) fn end(self) {
        let OneOrder { own: () } = self;
    }
}
