//! Reading a store beside a run that writes it: again where the run may have come between.
ghost use Rattle.std.specs.Prelude.{◌≡◌};
ghost use Rattle.sd_program.specs.Beside.{can_change};

use sd_exit::Stop;
use sd_restore::Fault;
use std::sync::Wait;
use std::thread;
use std::time::{Clock, Duration};

/// How long a reader waits before each further try, in milliseconds.
const PAUSES: [u64; 9] = [1, 2, 5, 10, 20, 50, 100, 200, 400];

/// What is reported of an answer that a run may have disturbed.
pub const BESIDE: &str = "a run is writing this store; try again when it has ended";

/// Whether another try may answer otherwise.
pub fn may_change(fault: Option<Fault>) -> bool
    ensures { result ≡ can_change fault }
{
    matches!(fault, Some(Fault::Device | Fault::Damaged { .. }))
}

/// Reads a store, and reads it again while a run may have disturbed what was read, with a pause before each further
/// try. Returns what was read last.
pub fn read_until_steady<C: Clock + Wait, T: Drop, R: Fn() -> Result<T, Stop>, D: Fn(&T) -> bool>(
    clock: &C,
    read: R,
    is_disturbed: D,
) -> Result<T, Stop>
    requires read { R.IsAlwaysCallable read }
    requires looked { D.IsAlwaysCallable is_disturbed }
    // It is what `read` answered.
    ensures { R.post read result }
{
    for pause in PAUSES {
        let found = read()?;
        if !is_disturbed(&found) {
            return Ok(found);
        }
        thread::sleep(clock, Duration::from_millis(pause));
    }
    read()
}
