//! The last number of each seat.
ghost use Rattle.std.specs.Prelude.{◌≡◌, ◌∷◌, ◌++◌, [], ℕ, List, None, false, length, replicate, IsTrue};
ghost use Rattle.sd_journal.specs.declared.receipt.Receipt.{Receipt as Told};
ghost use Rattle.sd_receipts.specs.Noted.{AreNoted, HasNotBelow, Rises};

use sd_journal::Receipt;

/// The seats that are handed out are below this number.
const SEAT_LIMIT: usize = 1000;

/// No seat has a number yet.
pub(crate) fn no_numbers() -> [Option<u64>; SEAT_LIMIT]
    ensures { result ≡ replicate 1000 None }
{
    [None; SEAT_LIMIT]
}

/// Whether a receipt's number is above those of its seat before it. A seat from `SEAT_LIMIT` on, which nobody hands
/// out, has no place in `last`: its receipts are looked for one by one.
pub(crate) fn rises(before: &[Receipt], last: &[Option<u64>], receipt: &Receipt) -> bool
    requires { AreNoted before.now last.now }
    ensures above { IsTrue result → Rises before.now receipt.now }
    ensures other { result ≡ false → HasNotBelow before.now receipt.now }
{
    if receipt.seat >= SEAT_LIMIT {
        return is_above_all(before, receipt);
    }
    match last[receipt.seat] {
        Some(number) => number < receipt.number,
        None => true,
    }
}

/// Whether a receipt's number is above those of its seat before it, by all of these.
fn is_above_all(before: &[Receipt], receipt: &Receipt) -> bool
    ensures above { IsTrue result → Rises before.now receipt.now }
    ensures other { result ≡ false → HasNotBelow before.now receipt.now }
{
    for earlier in before {
        if earlier.seat == receipt.seat && earlier.number >= receipt.number {
            return false;
        }
    }
    true
}

/// Notes a receipt's number as the last one of its seat.
pub(crate) fn note(last: &mut [Option<u64>], receipt: &Receipt)
    requires { length last.old ≡ 1000 }
    ensures { (before : List Told) → AreNoted before last.old → Rises before receipt.now
        → AreNoted (before ++ receipt.now ∷ []) last.new }
{
    if receipt.seat < SEAT_LIMIT {
        last[receipt.seat] = Some(receipt.number);
    }
}
