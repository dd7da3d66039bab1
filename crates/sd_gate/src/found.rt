//! What came back to a plan.
ghost use Rattle.std.specs.Prelude.{◌≡◌};
ghost use Rattle.std.specs.Option.{option_map};
ghost use Rattle.sd_gate.specs.Laws.{phase_found};
ghost use Rattle.sd_gate.specs.Plans.{found_of, found_after, length_looked_up, nothing_back};

use crate::answer::Answer;
use crate::phase::Phase;
use sd_image::{GATE, HEADER_SIZE};

/// What came back to a plan with the outcomes: of a page or a body its buffer, the first; of an inspection the length
/// of the file, its first 4,096 bytes and its table, as far as the inspection came.
#[derive(Drop)]
pub struct Found {
    pub len: Option<usize>,
    pub first: Option<Vec<u8>>,
    pub second: Option<Vec<u8>>,
}

/// The length that was said last.
fn length_looked_up(before: Option<usize>, answer: Answer) -> Option<usize>
    ensures { result ≡ length_looked_up before answer }
{
    match answer {
        Answer::Len(len) => Some(len),
        Answer::Done | Answer::Failed => before,
    }
}

impl Found {
    /// The phase of a slot that was inspected, by the length and the first bytes of its file. None where the inspection
    /// did not come so far.
    pub fn phase(&self) -> Option<Phase>
        ensures { result ≡ phase_found (found_of self.now).len (found_of self.now).first }
    {
        match (self.len, &self.first) {
            (Some(len), _) if len < HEADER_SIZE => Some(Phase::Raw),
            (Some(_), Some(first)) if !first.is_empty() && first[0] == GATE => Some(Phase::Whole),
            (Some(_), Some(_)) => Some(Phase::Shut),
            (Some(_), None) | (None, _) => None,
        }
    }

    pub(crate) fn new() -> Found
        ensures { found_of result ≡ nothing_back }
    {
        Found {
            len: None,
            first: None,
            second: None,
        }
    }

    /// With one outcome more.
    pub(crate) fn with(self, answer: Answer, buffer: Option<Vec<u8>>) -> Found
        ensures { found_of result
            ≡ found_after (found_of self) answer (option_map (λ b. b.items) buffer) }
    {
        let Found { len, first, second } = self;
        let len = length_looked_up(len, answer);
        let Some(buffer) = buffer else {
            return Found { len, first, second };
        };
        match first {
            None => Found {
                len,
                first: Some(buffer),
                second,
            },
            Some(first) => Found {
                len,
                first: Some(first),
                second: Some(buffer),
            },
        }
    }
}
