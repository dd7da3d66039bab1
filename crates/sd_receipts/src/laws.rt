//! Laws of the faults, each the contract of a function that does nothing.
ghost use Rattle.sd_receipts.specs.Laws.{FaultLaws};

/// A journal with receipts and acknowledgements has at most one fault, and one with a fault doesn't account for them.
pub fn fault_laws()
    ensures { FaultLaws }
{}
