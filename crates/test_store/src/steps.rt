//! Calls on a disk, each with how it has to end.
use sd_disk::Disk;

/// The longest file that is compared.
const MOST: usize = 16;

#[derive(Clone, Copy)]
pub(crate) enum Call {
    /// Writes the bytes at this place.
    Write(usize, &'static [u8]),
    /// Cuts the file to this length.
    Cut(usize),
    Sync,
    /// Asks for the length.
    Len,
    /// Asks for the length: this.
    Measures(usize),
    /// Reads so many bytes, 16 at most, from this place on.
    Read(usize, usize),
    /// Asks for the length, and reads the whole file: these bytes.
    Holds(&'static [u8]),
    /// The number of failures: this.
    Failures(u64),
    /// The number of slots: this.
    Slots(usize),
}

/// A call on a slot, and whether it succeeds.
pub(crate) type Step = (usize, Call, bool);

/// Whether the file of a slot has these bytes.
pub(crate) fn holds<D: Disk>(disk: &mut D, slot: usize, want: &[u8]) -> bool {
    if disk.slots() <= slot || MOST < want.len() {
        return false;
    }
    let mut buffer = [0; MOST];
    let file = &mut buffer[..want.len()];
    disk.len(slot) == Ok(want.len()) && disk.read(slot, 0, file).is_ok() && *file == *want
}

fn reads<D: Disk>(disk: &mut D, slot: usize, at: usize, len: usize) -> bool {
    if disk.slots() <= slot || MOST < len {
        return false;
    }
    disk.read(slot, at, &mut [0; MOST][..len]).is_ok()
}

fn writes<D: Disk>(disk: &mut D, slot: usize, at: usize, bytes: &[u8]) -> bool {
    slot < disk.slots() && !bytes.is_empty() && disk.write_at(slot, at, bytes).is_ok()
}

/// Makes a call, and says whether it succeeded.
fn makes<D: Disk>(disk: &mut D, slot: usize, call: Call) -> bool {
    match call {
        Call::Write(at, bytes) => writes(disk, slot, at, bytes),
        Call::Cut(len) => slot < disk.slots() && disk.cut(slot, len).is_ok(),
        Call::Sync => slot < disk.slots() && disk.sync(slot).is_ok(),
        Call::Len => slot < disk.slots() && disk.len(slot).is_ok(),
        Call::Measures(len) => slot < disk.slots() && disk.len(slot) == Ok(len),
        Call::Read(at, len) => reads(disk, slot, at, len),
        Call::Holds(bytes) => holds(disk, slot, bytes),
        Call::Failures(count) => disk.failures() == count,
        Call::Slots(count) => disk.slots() == count,
    }
}

/// Makes calls one after the other, up to the first that doesn't end as it has to. Returns its place, if there is one.
pub(crate) fn first_wrong<D: Disk>(disk: &mut D, steps: &[Step]) -> Option<usize> {
    for place in 0..steps.len() {
        let (slot, call, succeeds) = steps[place];
        if makes(disk, slot, call) != succeeds {
            return Some(place);
        }
    }
    None
}
