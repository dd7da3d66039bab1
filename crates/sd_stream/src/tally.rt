//! How far a stream has come, for its writer and its reader alike.
ghost use Rattle.std.specs.Prelude.{◌≡◌, ◌≤◌, ◌<◌, ◌^◌, ◌+◌, ℕ, List, true, false, length, ◌++◌};
ghost use Rattle.sha2.specs.Hashers.{Holds256};
ghost use Rattle.sha2.specs.Sha256.{sha256};
ghost use Rattle.sd_stream.specs.Stream.{IsBase, IsFileLength, IsStream, record_text, digested_text};
ghost use Rattle.sd_stream.specs.Progress.{Progress, progress_text, started, with_acknowledged, with_bytes};
ghost use Rattle.sd_stream.specs.Progress.{with_image};
ghost use Rattle.sd_stream.specs.Tallies.{Grows, HasTaken};

use crate::base::Base;
use crate::records::{ACKNOWLEDGED, END, IMAGE, head_bytes, number_of, record_bytes};
use sha2::{Digest, Sha256};

/// How far a stream has come, after its head.
#[derive(Drop)]
pub(crate) struct Tally {
    /// Of all bytes of the stream so far.
    hasher: Sha256,
    /// The number that was acknowledged last, or the base's.
    pub(crate) last: u64,
    /// How many bytes of the last image are still to come.
    pub(crate) left: u64,
    /// Whether images came since.
    pub(crate) waiting: bool,
}

impl Tally {
    /// After the head.
    pub(crate) fn new(base: &Option<Base>) -> Tally
        ensures taken { IsBase base.now → HasTaken result (started base.now) }
        ensures left { result.left ≡ 0 }
    {
        let mut hasher = Sha256::new();
        hasher.update(&head_bytes(base));
        Tally {
            hasher,
            last: number_of(base),
            left: 0,
            waiting: false,
        }
    }

    /// After the head of an image of so many bytes.
    pub(crate) fn image(&mut self, len: u64)
        requires left { self.old.left ≡ 0 }
        requires length { IsFileLength len }
        ensures grows { (p : Progress) → HasTaken self.old p
            → Grows self.old self.new p (with_image p) (record_text 1 len) }
        ensures left { self.new.left ≡ len }
    {
        self.hasher.update(&record_bytes(IMAGE, len));
        self.left = len;
        self.waiting = true;
    }

    /// After bytes of an image.
    pub(crate) fn bytes(&mut self, bytes: &[u8])
        requires { length bytes.now ≤ self.old.left }
        ensures grows { (p : Progress) → HasTaken self.old p
            → Grows self.old self.new p (with_bytes p bytes.now) bytes.now }
        ensures left { self.new.left + length bytes.now ≡ self.old.left }
    {
        self.hasher.update(bytes);
        self.left -= bytes.len() as u64;
    }

    /// After the images were acknowledged as the checkpoint of this number.
    pub(crate) fn acknowledged(&mut self, number: u64)
        requires left { self.old.left ≡ 0 }
        requires waiting { self.old.waiting ≡ true }
        requires above { self.old.last < number }
        ensures grows { (p : Progress) → HasTaken self.old p
            → Grows self.old self.new p (with_acknowledged p number) (record_text 2 number) }
        ensures left { self.new.left ≡ 0 }
    {
        self.hasher.update(&record_bytes(ACKNOWLEDGED, number));
        self.last = number;
        self.waiting = false;
    }

    /// The digest that stands at the end.
    pub(crate) fn digest(&mut self) -> [u8; 32]
        requires left { self.old.left ≡ 0 }
        requires waiting { self.old.waiting ≡ false }
        ensures hashed { (text : List ℕ) → Holds256 self.old.hasher text
            → result ≡ sha256 (text ++ record_text 3 0) }
        ensures stream { (p : Progress) → HasTaken self.old p → IsStream p.base p.groups }
        ensures text { (p : Progress) → HasTaken self.old p → digested_text p.base p.groups
            ≡ progress_text p self.old.left ++ record_text 3 0 }
    {
        self.hasher.update(&record_bytes(END, 0));
        self.hasher.finalize_reset()
    }
}
