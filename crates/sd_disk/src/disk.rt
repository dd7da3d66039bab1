ghost use Rattle.std.specs.Prelude.{◌≡◌, ℕ, ◌+◌, ◌-◌, ◌<◌, ◌≤◌, ◌^◌, min, List, length, take, OnOk, IfOk, slice_range};
ghost use Rattle.std.specs.Prelude.{slice_set};
ghost use Rattle.sd_disk.specs.Contents.{file_at, file_after_write, Torn, Cut, AtSlot};
ghost use Rattle.sd_disk.specs.Crash.{Follows, Within, OnlyAt, Elapses};
ghost use Rattle.sd_disk.specs.Failures.{HasCause};

use crate::error::DeviceError;

/// Slots numbered from 0, each a file of bytes.
///
/// `contents` is what the slots hold. What `len` and `read` return is tied to it under `is_honest` alone: so far the
/// device has reported what it was given. A device in memory is always honest; of a real file that is a premise.
///
/// `may_leave` are the contents that a crash now may leave, and `left_since` those that a crash at some moment
/// since another may have left, during a call or between two. Slots are independent. After a successful `sync` of
/// a slot a crash leaves what a read of it gives. Until the next, each range that was written or cut off, and what lies
/// past the end of the synced file, may hold any bytes. A call that failed may have been done, in whole or in part.
pub trait Disk {
    ghost contents: { Self → List (List ℕ) };

    /// What a crash now may leave.
    ghost may_leave: { Self → List (List ℕ) → Type 0 };

    /// The moment, as a number that does not fall.
    ghost moment: { Self → ℕ };

    /// What a crash at some moment from that one on might have left.
    ghost left_since: { Self → ℕ → List (List ℕ) → Type 0 };

    /// How often the device has failed.
    ghost failed: { Self → ℕ };

    /// How many calls were made: of `len`, `read`, `write_at`, `cut` and `sync`, also those that failed.
    ghost calls: { Self → ℕ };

    ghost is_honest: { Self → Type 0 };

    /// The number of slots. It never changes.
    fn slots(&self) -> usize
        ensures { result ≡ length (contents self.now) };

    /// The number of failed calls so far, as far as 64 bits hold it.
    fn failures(&self) -> u64
        ensures { result ≡ min (failed self.now) (2 ^ 64 - 1) };

    /// The length of a slot's file, in bytes.
    fn len(&mut self, slot: usize) -> Result<usize, DeviceError>
        requires { slot < length (contents self.old) }
        ensures length { is_honest self.new
            → IfOk result (λ n. n ≡ length (file_at (contents self.old) slot)) }
        ensures same { contents self.new ≡ contents self.old }
        ensures crash { Within (may_leave self.new) (may_leave self.old) }
        ensures time { Elapses (moment self.old) (moment self.new) (left_since self.old)
            (left_since self.new) (may_leave self.new) }
        ensures honest { is_honest self.new → is_honest self.old }
        ensures counted { calls self.new ≡ calls self.old + 1 }
        ensures cause { HasCause (failed self.old) (failed self.new) result };

    /// Fills the buffer from a slot's file, from byte `at` on. A file that ends before the buffer is full is an
    /// error, counted as a failure. On an error the buffer may hold anything.
    fn read(&mut self, slot: usize, at: usize, buffer: &mut [u8]) -> Result<(), DeviceError>
        requires slot { slot < length (contents self.old) }
        // A read of bytes past the end fails.
        ensures inside { is_honest self.new → 0 < length buffer.old
            → OnOk result (at + length buffer.old ≤ length (file_at (contents self.old) slot)) }
        ensures bytes { is_honest self.new → OnOk result (buffer.new
            ≡ slice_range (file_at (contents self.old) slot) at (at + length buffer.old)) }
        ensures same { contents self.new ≡ contents self.old }
        ensures crash { Within (may_leave self.new) (may_leave self.old) }
        ensures time { Elapses (moment self.old) (moment self.new) (left_since self.old)
            (left_since self.new) (may_leave self.new) }
        ensures honest { is_honest self.new → is_honest self.old }
        ensures counted { calls self.new ≡ calls self.old + 1 }
        ensures cause { HasCause (failed self.old) (failed self.new) result };

    /// Writes all bytes at `at`, also past the file's end: the gap then reads as zeros.
    /// On an error any bytes may stand in the range, and past the old end up to the range's.
    fn write_at(&mut self, slot: usize, at: usize, bytes: &[u8]) -> Result<(), DeviceError>
        requires slot { slot < length (contents self.old) }
        requires some { 0 < length bytes.now }
        ensures written { OnOk result (contents self.new
            ≡ slice_set (contents self.old) slot
            (file_after_write (file_at (contents self.old) slot) at bytes.now)) }
        ensures torn { AtSlot slot (Torn at (length bytes.now)) (contents self.old)
            (contents self.new) }
        ensures crash { Follows (AtSlot slot (Torn at (length bytes.now))) (may_leave self.old)
            (may_leave self.new) }
        ensures time { Elapses (moment self.old) (moment self.new) (left_since self.old)
            (left_since self.new) (may_leave self.new) }
        ensures honest { is_honest self.new → is_honest self.old }
        ensures counted { calls self.new ≡ calls self.old + 1 }
        ensures cause { HasCause (failed self.old) (failed self.new) result };

    /// Cuts a slot's file to `len` bytes. A shorter file isn't lengthened: that is an error, counted as a failure.
    /// On an error any bytes may stand after the first `len`, up to the old end.
    fn cut(&mut self, slot: usize, len: usize) -> Result<(), DeviceError>
        requires slot { slot < length (contents self.old) }
        // A cut that would lengthen the file fails.
        ensures no_longer { is_honest self.new
            → OnOk result (len ≤ length (file_at (contents self.old) slot)) }
        ensures cut { OnOk result (contents self.new
            ≡ slice_set (contents self.old) slot (take len (file_at (contents self.old) slot))) }
        ensures torn { AtSlot slot (Cut len) (contents self.old) (contents self.new) }
        ensures crash { Follows (AtSlot slot (Cut len)) (may_leave self.old) (may_leave self.new) }
        ensures time { Elapses (moment self.old) (moment self.new) (left_since self.old)
            (left_since self.new) (may_leave self.new) }
        ensures honest { is_honest self.new → is_honest self.old }
        ensures counted { calls self.new ≡ calls self.old + 1 }
        ensures cause { HasCause (failed self.old) (failed self.new) result };

    /// Waits until a slot's file is on the device as it reads.
    fn sync(&mut self, slot: usize) -> Result<(), DeviceError>
        requires { slot < length (contents self.old) }
        ensures durable { OnOk result
            (OnlyAt slot (file_at (contents self.old) slot) (may_leave self.new)) }
        ensures same { contents self.new ≡ contents self.old }
        ensures crash { Within (may_leave self.new) (may_leave self.old) }
        ensures time { Elapses (moment self.old) (moment self.new) (left_since self.old)
            (left_since self.new) (may_leave self.new) }
        ensures honest { is_honest self.new → is_honest self.old }
        ensures counted { calls self.new ≡ calls self.old + 1 }
        ensures cause { HasCause (failed self.old) (failed self.new) result };

    /// The contents as read are one outcome of a crash now.
    ghost as_read: { (disk : Self) → may_leave disk (contents disk) };

    /// A crash leaves as many slots.
    ghost same_slots: { (disk : Self) (c : List (List ℕ)) → may_leave disk c → length c ≡ length (contents disk) };

    /// This moment is one of those since an earlier one.
    ghost counts_now: { (disk : Self) (t : ℕ) (c : List (List ℕ)) → t ≤ moment disk → may_leave disk c
        → left_since disk t c };

    /// Since this moment there is no other.
    ghost only_now: { (disk : Self) (c : List (List ℕ)) → left_since disk (moment disk) c → may_leave disk c };
}
