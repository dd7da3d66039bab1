//! What the inspection of a slot ended with.
ghost use Rattle.std.specs.Prelude.{◌≡◌, ◌≢◌, ℕ, List, None, Some, IsSome, MatchOption, IfSome};
ghost use Rattle.sd_gate.specs.Looks.{IsFound};
ghost use Rattle.sd_gate.specs.declared.phase.Phase.TheVariants.{Whole};
ghost use Rattle.sd_gate.specs.Laws.{found_phase, phase_found};
ghost use Rattle.sd_gate.specs.Plans.{found_of};
ghost use Rattle.sd_opener.specs.Sees.{InspectionEndsAs, InspectionHasEnded, IsOpenStage, SeesSlot};

use crate::stage::Stage;
use sd_gate::{Found, Phase};
use sd_image::{HEADER_SIZE, decode_header};

/// What the inspection of a slot ended with.
#[derive(Drop)]
pub enum SlotEnd {
    /// The slot is closed, and in this phase.
    Closed(Phase),
    /// It is open, and is to be decoded.
    Open(Stage),
}

/// What is to be decoded of an open slot: the header with the bytes of the table, or why the header is none.
fn open_stage(found: Found) -> Option<Stage>
    ensures sees { (file : List ℕ) → IsFound file (found_of found) → found_phase file ≡ Whole
        → MatchOption result ⊥ (λ stage. (slot : ℕ) → SeesSlot slot file None stage) }
    ensures open { IfSome result IsOpenStage }
    ensures ended { InspectionHasEnded (found_of found)
        → phase_found (found_of found).len (found_of found).first ≡ Some Whole → IsSome result }
{
    let Found { len, first, second } = found;
    let len = len?;
    let first = first?;
    if first.len() != HEADER_SIZE {
        return None;
    }
    match decode_header(&first, len as u64) {
        Ok(header) => Some(Stage::Read {
            header,
            table: second?,
        }),
        Err(reason) => Some(Stage::Broken(reason)),
    }
}

/// What an inspection ended with, by what came back. None where it didn't come to its end.
pub fn slot_end(found: Found) -> Option<SlotEnd>
    ensures sees { (file : List ℕ) → IsFound file (found_of found)
        → MatchOption result ⊥ (InspectionEndsAs file) }
    ensures open { IfSome result (λ end. (stage : Stage) → end ≡ SlotEnd.Open stage → IsOpenStage stage) }
    ensures ended { InspectionHasEnded (found_of found) → IsSome result }
{
    match found.phase()? {
        Phase::Whole => Some(SlotEnd::Open(open_stage(found)?)),
        phase => Some(SlotEnd::Closed(phase)),
    }
}
