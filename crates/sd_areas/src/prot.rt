ghost use Rattle.std.specs.Prelude.{◌≡◌, ℕ, ◌+◌, ◌<◌, ◌≤◌, ◌^◌, ◌↔◌, IsSome, IfSome};

use std::fmt;

/// The permissions of a page, as `mmap` of POSIX.1-2017 has them: any of read, write and
/// execute, or none.
#[derive(Clone, Copy, Debug, PartialEq, Eq, Hash)]
pub struct Prot {
    pub read: bool,
    pub write: bool,
    pub execute: bool,
}

impl Prot {
    ghost use Rattle.sd_areas.specs.Prot.{prot_bits};

    /// The permissions as a number, 0 to 7: read 1, write 2 and execute 4, added up.
    pub fn bits(self) -> u8
        ensures value { result ≡ prot_bits self }
    {
        u8::from(self.read) + 2 * u8::from(self.write) + 4 * u8::from(self.execute)
    }

    /// The permissions with these bits, or none where the number is over 7.
    pub fn from_bits(bits: u8) -> Option<Self>
        ensures within { IsSome result ↔ (bits ≤ 7) }
        ensures value { IfSome result (λ prot. prot_bits prot ≡ bits) }
    {
        (bits <= 7).then_some(Prot {
            read: bits % 2 == 1,
            write: bits / 2 % 2 == 1,
            execute: bits / 4 == 1,
        })
    }
}

/// Prints the letters `rwx`, each a `-` where the permission is missing.
impl fmt::Display for Prot {
    ghost use Rattle.std.specs.Prelude.{Some};
    ghost use Rattle.sd_areas.specs.Prot.{prot_text};

    ghost output = { λ prot. Some (prot_text prot) };

    fn fmt<W: fmt::Write>(&self, f: &mut fmt::Formatter<W>) -> fmt::Result {
        f.write_char(if self.read { 'r' } else { '-' })?;
        f.write_char(if self.write { 'w' } else { '-' })?;
        f.write_char(if self.execute { 'x' } else { '-' })
    }
}
