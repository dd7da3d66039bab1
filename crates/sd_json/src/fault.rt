//! Why a store isn't read, as a document.
ghost use Rattle.std.specs.Prelude.{◌≡◌, IfOk};
ghost use Rattle.serde_json.specs.View.{view};
ghost use Rattle.sd_json.specs.Documents.{faulty, lacking};

use sd_restore::Fault;
use sd_show::reason_phrase;
use serde_json::{Value, json};
use std::alloc::{AllocError, Global};

/// A document of a fault: its name, and of a damaged store the slot, the reason's number and the reason in words.
pub fn fault_document(alloc: Global, fault: &Fault) -> Result<Value, AllocError>
    ensures { IfOk result (λ document. view document ≡ faulty fault.now) }
{
    match fault {
        Fault::EmptyChain => json!(in alloc; {"fault": "empty chain"}),
        Fault::Damaged { slot, reason } => json!(in alloc; {
            "fault": "damaged",
            "slot": *slot,
            "reason": reason.number(),
            "why": reason_phrase(*reason)
        }),
        Fault::Device => json!(in alloc; {"fault": "device"}),
        Fault::OutOfMemory => json!(in alloc; {"fault": "out-of-memory"}),
    }
}

/// A document of a store without an image of the checkpoint with this number.
pub fn lacks_document(alloc: Global, number: u64) -> Result<Value, AllocError>
    ensures { IfOk result (λ document. view document ≡ lacking number) }
{
    json!(in alloc; {"checkpoint": number, "fault": "no checkpoint"})
}
