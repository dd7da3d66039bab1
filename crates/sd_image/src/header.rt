//! The header of an image.
ghost use Rattle.std.specs.Prelude.{◌≡◌};
ghost use Rattle.sd_image.specs.Words.{kind_name, kind_number, version_number};

/// The version of the format in which an image is written.
#[derive(Clone, Copy, PartialEq, Eq)]
pub enum Version {
    /// Without a digest. It is read, and no longer written.
    One,
    /// With a digest of the image.
    Two,
}

impl Version {
    /// Its number in a header: 1 or 2.
    pub fn number(self) -> u16
        ensures { result ≡ version_number self }
    {
        match self {
            Version::One => 1,
            Version::Two => 2,
        }
    }
}

/// What an image is for.
#[derive(Clone, Copy, PartialEq, Eq)]
pub enum Kind {
    /// Saved while its tasks ran; only ever restored through an image that names it.
    PreDump,
    /// Saved at a freeze.
    Dump,
    /// A whole image made of a chain of others.
    Merged,
}

impl Kind {
    /// Its number in a header: 1 for a pre-dump, 2 for a dump, 3 for a merged image.
    pub fn number(self) -> u16
        ensures { result ≡ kind_number self }
    {
        match self {
            Kind::PreDump => 1,
            Kind::Dump => 2,
            Kind::Merged => 3,
        }
    }

    /// Its name, as it is printed.
    pub fn name(self) -> &'static str
        ensures { result.now ≡ kind_name self }
    {
        match self {
            Kind::PreDump => "pre-dump",
            Kind::Dump => "dump",
            Kind::Merged => "merged",
        }
    }
}

/// The first 4,096 bytes of an open image.
#[derive(Clone, Copy, PartialEq, Eq)]
pub struct Header {
    pub version: Version,
    pub kind: Kind,
    /// The number of this image in its store, from 1.
    pub serial: u64,
    /// The number by which other images name it: its own, or that of the image it was merged from.
    pub stands_for: u64,
    /// The number of the image that has what this one leaves out, or 0.
    pub parent: u64,
    /// The number of its checkpoint, from 1.
    pub checkpoint: u64,
    /// How many data pages stand after the header.
    pub pages: u64,
    /// The length of the table after them, in bytes.
    pub table_len: u64,
    /// In version 2 the SHA-256 of the data pages in file order, the table, and bytes 1 to 63; in version 1 zeros.
    pub digest: [u8; 32],
}
