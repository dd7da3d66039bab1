//! A disk of which one call fails.
ghost use Rattle.std.specs.Prelude.{◌≡◌, ◌⊎◌, ◌+◌, ◌<◌, ◌≤◌, true, false, None, Some, length, take, IsTrue, IsErr};
ghost use Rattle.std.specs.Prelude.{IfOk, OnOk, slice_range, slice_set};
ghost use Rattle.sd_disk.specs.Fuses.{calls_before, blown};

use crate::disk::Disk;
use crate::error::DeviceError;
use crate::fuse::Fuse;

/// A disk of which one call fails: so many calls of `len`, `read`, `write_at`, `cut` and `sync` pass, the next one
/// returns `DeviceError`, and all others pass again.
///
/// The call that fails is not made on the disk within, with one exception: a write or cut of a disk made by `new`
/// is made, and returns `DeviceError` all the same.
#[derive(Drop)]
pub struct Fused<D> {
    disk: D,
    fuse: Fuse,
    drops: bool,
    misses: bool,
    ghost once: { misses ≡ true → calls_before fuse ≡ None },
}

impl<D: Disk> Fused<D> {
    ghost use Rattle.sd_disk.specs.Fused.{fuse_of, is_dropping, missed};

    /// After `calls` calls one fails. A write or cut is made all the same.
    pub fn new(disk: D, calls: u64) -> Fused<D>
        ensures disk { result.disk ≡ disk }
        ensures fuse { fuse_of result ≡ Some calls }
        ensures kind { is_dropping result ≡ false }
        ensures none { missed result ≡ 0 }
    {
        Fused {
            disk,
            fuse: Fuse::Passes(calls),
            drops: false,
            misses: false,
        }
    }

    /// After `calls` calls one fails, and is not made.
    pub fn dropping(disk: D, calls: u64) -> Fused<D>
        ensures disk { result.disk ≡ disk }
        ensures fuse { fuse_of result ≡ Some calls }
        ensures kind { is_dropping result ≡ true }
        ensures none { missed result ≡ 0 }
    {
        Fused {
            disk,
            fuse: Fuse::Passes(calls),
            drops: true,
            misses: false,
        }
    }

    /// The disk within.
    pub fn into_inner(self) -> D
        ensures { result ≡ self.disk }
    {
        self.disk
    }
}

impl<D: Disk> Disk for Fused<D> {
    ghost use Rattle.sd_disk.specs.Fused.{fuse_of, is_dropping, missed, Burns};
    ghost use Rattle.sd_disk.specs.Contents.{file_at, file_after_write, Torn, Cut, AtSlot};
    ghost use Rattle.sd_disk.specs.Crash.{Follows, Within, OnlyAt, Elapses};
    ghost use Rattle.sd_disk.specs.Failures.{HasCause};

    ghost contents = { λ fused. D.contents fused.disk };

    ghost may_leave = { λ fused. D.may_leave fused.disk };

    ghost moment = { λ fused. D.moment fused.disk };

    ghost left_since = { λ fused. D.left_since fused.disk };

    ghost failed = { λ fused. D.failed fused.disk + blown (fuse_of fused) };

    ghost calls = { λ fused. D.calls fused.disk + missed fused };

    ghost is_honest = { λ fused. D.is_honest fused.disk };

    ghost as_read = { λ fused. D.as_read fused.disk };

    ghost same_slots = { λ fused. D.same_slots fused.disk };

    ghost counts_now = { λ fused. D.counts_now fused.disk };

    ghost only_now = { λ fused. D.only_now fused.disk };

    fn slots(&self) -> usize {
        self.disk.slots()
    }

    fn failures(&self) -> u64 {
        self.disk.failures().saturating_add(self.fuse.failures())
    }

    fn len(&mut self, slot: usize) -> Result<usize, DeviceError>
        requires { slot < length (D.contents self.old.disk) }
        ensures length { D.is_honest self.new.disk
            → IfOk result (λ n. n ≡ length (file_at (D.contents self.old.disk) slot)) }
        ensures same { D.contents self.new.disk ≡ D.contents self.old.disk }
        ensures crash { Within (D.may_leave self.new.disk) (D.may_leave self.old.disk) }
        ensures time { Elapses (D.moment self.old.disk) (D.moment self.new.disk)
            (D.left_since self.old.disk) (D.left_since self.new.disk) (D.may_leave self.new.disk) }
        ensures honest { D.is_honest self.new.disk → D.is_honest self.old.disk }
        ensures cause { HasCause (D.failed self.old.disk + blown (fuse_of self.old))
            (D.failed self.new.disk + blown (fuse_of self.new)) result }
        ensures counted { D.calls self.new.disk + missed self.new
            ≡ D.calls self.old.disk + missed self.old + 1 }
        ensures burns { Burns self.old self.new }
        ensures fails { fuse_of self.old ≡ Some 0 → IsErr result }
        ensures unmade { fuse_of self.old ≡ Some 0 → self.new.disk ≡ self.old.disk }
    {
        if self.fuse.burn() {
            self.misses = true;
            return Err(DeviceError);
        }
        self.disk.len(slot)
    }

    fn read(&mut self, slot: usize, at: usize, buffer: &mut [u8]) -> Result<(), DeviceError>
        requires slot { slot < length (D.contents self.old.disk) }
        ensures inside { D.is_honest self.new.disk → 0 < length buffer.old
            → OnOk result (at + length buffer.old ≤ length
            (file_at (D.contents self.old.disk) slot)) }
        ensures bytes { D.is_honest self.new.disk → OnOk result (buffer.new
            ≡ slice_range (file_at (D.contents self.old.disk) slot) at (at + length buffer.old)) }
        ensures same { D.contents self.new.disk ≡ D.contents self.old.disk }
        ensures crash { Within (D.may_leave self.new.disk) (D.may_leave self.old.disk) }
        ensures time { Elapses (D.moment self.old.disk) (D.moment self.new.disk)
            (D.left_since self.old.disk) (D.left_since self.new.disk) (D.may_leave self.new.disk) }
        ensures honest { D.is_honest self.new.disk → D.is_honest self.old.disk }
        ensures cause { HasCause (D.failed self.old.disk + blown (fuse_of self.old))
            (D.failed self.new.disk + blown (fuse_of self.new)) result }
        ensures counted { D.calls self.new.disk + missed self.new
            ≡ D.calls self.old.disk + missed self.old + 1 }
        ensures burns { Burns self.old self.new }
        ensures fails { fuse_of self.old ≡ Some 0 → IsErr result }
        ensures unmade { fuse_of self.old ≡ Some 0 → self.new.disk ≡ self.old.disk }
    {
        if self.fuse.burn() {
            self.misses = true;
            return Err(DeviceError);
        }
        self.disk.read(slot, at, buffer)
    }

    fn write_at(&mut self, slot: usize, at: usize, bytes: &[u8]) -> Result<(), DeviceError>
        requires slot { slot < length (D.contents self.old.disk) }
        requires some { 0 < length bytes.now }
        ensures written { OnOk result (D.contents self.new.disk
            ≡ slice_set (D.contents self.old.disk) slot
            (file_after_write (file_at (D.contents self.old.disk) slot) at bytes.now)) }
        ensures torn { AtSlot slot (Torn at (length bytes.now)) (D.contents self.old.disk)
            (D.contents self.new.disk) }
        ensures crash { Follows (AtSlot slot (Torn at (length bytes.now)))
            (D.may_leave self.old.disk) (D.may_leave self.new.disk) }
        ensures time { Elapses (D.moment self.old.disk) (D.moment self.new.disk)
            (D.left_since self.old.disk) (D.left_since self.new.disk) (D.may_leave self.new.disk) }
        ensures honest { D.is_honest self.new.disk → D.is_honest self.old.disk }
        ensures cause { HasCause (D.failed self.old.disk + blown (fuse_of self.old))
            (D.failed self.new.disk + blown (fuse_of self.new)) result }
        ensures counted { D.calls self.new.disk + missed self.new
            ≡ D.calls self.old.disk + missed self.old + 1 }
        ensures burns { Burns self.old self.new }
        ensures fails { fuse_of self.old ≡ Some 0 → IsErr result }
        ensures dropped { fuse_of self.old ≡ Some 0 → IsTrue (is_dropping self.old)
            → self.new.disk ≡ self.old.disk }
        ensures made { fuse_of self.old ≡ Some 0 → is_dropping self.old ≡ false
            → (D.contents self.new.disk
            ≡ slice_set (D.contents self.old.disk) slot
            (file_after_write (file_at (D.contents self.old.disk) slot) at bytes.now))
            ⊎ (D.failed self.old.disk < D.failed self.new.disk) }
    {
        if self.fuse.burn() {
            self.misses = self.drops;
            if !self.drops {
                let _ = self.disk.write_at(slot, at, bytes);
            }
            return Err(DeviceError);
        }
        self.disk.write_at(slot, at, bytes)
    }

    fn cut(&mut self, slot: usize, len: usize) -> Result<(), DeviceError>
        requires slot { slot < length (D.contents self.old.disk) }
        ensures no_longer { D.is_honest self.new.disk
            → OnOk result (len ≤ length (file_at (D.contents self.old.disk) slot)) }
        ensures cut { OnOk result (D.contents self.new.disk
            ≡ slice_set (D.contents self.old.disk) slot
            (take len (file_at (D.contents self.old.disk) slot))) }
        ensures torn { AtSlot slot (Cut len) (D.contents self.old.disk) (D.contents self.new.disk) }
        ensures crash { Follows (AtSlot slot (Cut len)) (D.may_leave self.old.disk)
            (D.may_leave self.new.disk) }
        ensures time { Elapses (D.moment self.old.disk) (D.moment self.new.disk)
            (D.left_since self.old.disk) (D.left_since self.new.disk) (D.may_leave self.new.disk) }
        ensures honest { D.is_honest self.new.disk → D.is_honest self.old.disk }
        ensures cause { HasCause (D.failed self.old.disk + blown (fuse_of self.old))
            (D.failed self.new.disk + blown (fuse_of self.new)) result }
        ensures counted { D.calls self.new.disk + missed self.new
            ≡ D.calls self.old.disk + missed self.old + 1 }
        ensures burns { Burns self.old self.new }
        ensures fails { fuse_of self.old ≡ Some 0 → IsErr result }
        ensures dropped { fuse_of self.old ≡ Some 0 → IsTrue (is_dropping self.old)
            → self.new.disk ≡ self.old.disk }
        ensures made { fuse_of self.old ≡ Some 0 → is_dropping self.old ≡ false
            → (D.contents self.new.disk
            ≡ slice_set (D.contents self.old.disk) slot
            (take len (file_at (D.contents self.old.disk) slot)))
            ⊎ (D.failed self.old.disk < D.failed self.new.disk) }
    {
        if self.fuse.burn() {
            self.misses = self.drops;
            if !self.drops {
                let _ = self.disk.cut(slot, len);
            }
            return Err(DeviceError);
        }
        self.disk.cut(slot, len)
    }

    fn sync(&mut self, slot: usize) -> Result<(), DeviceError>
        requires { slot < length (D.contents self.old.disk) }
        ensures durable { OnOk result
            (OnlyAt slot (file_at (D.contents self.old.disk) slot) (D.may_leave self.new.disk)) }
        ensures same { D.contents self.new.disk ≡ D.contents self.old.disk }
        ensures crash { Within (D.may_leave self.new.disk) (D.may_leave self.old.disk) }
        ensures time { Elapses (D.moment self.old.disk) (D.moment self.new.disk)
            (D.left_since self.old.disk) (D.left_since self.new.disk) (D.may_leave self.new.disk) }
        ensures honest { D.is_honest self.new.disk → D.is_honest self.old.disk }
        ensures cause { HasCause (D.failed self.old.disk + blown (fuse_of self.old))
            (D.failed self.new.disk + blown (fuse_of self.new)) result }
        ensures counted { D.calls self.new.disk + missed self.new
            ≡ D.calls self.old.disk + missed self.old + 1 }
        ensures burns { Burns self.old self.new }
        ensures fails { fuse_of self.old ≡ Some 0 → IsErr result }
        ensures unmade { fuse_of self.old ≡ Some 0 → self.new.disk ≡ self.old.disk }
    {
        if self.fuse.burn() {
            self.misses = true;
            return Err(DeviceError);
        }
        self.disk.sync(slot)
    }
}
