//! Why a slot, or a store, is damaged.
use std::error::Error;
use std::fmt;

/// Why an open slot, or the store, is damaged. It is printed as its number.
#[derive(Clone, Copy, Debug, PartialEq, Eq)]
pub enum Reason {
    /// Bytes 1 to 7 are not the magic.
    Magic,
    /// The version is neither 1 nor 2.
    Version,
    /// The kind is not 1, 2 or 3.
    Kind,
    /// Bytes that have to be zero are not.
    Reserved,
    /// The serial is 0.
    Serial,
    /// A dump or pre-dump does not stand for itself, or a merged image not for a lower number above 0.
    StandsFor,
    /// The parent is not below the serial, or that of a merged image is not 0.
    Parent,
    /// The checkpoint is 0.
    Checkpoint,
    /// Header, data pages and table are not the file's length.
    Length,
    /// An item goes past the table's end.
    PastEnd,
    /// There are over 16 spaces, or a space's number is not above the one before and at most 16.
    Space,
    /// A space has over 1,024 areas, or an area is empty, out of range, out of order or not maximal.
    Area,
    /// A run is empty, out of range, out of order, not maximal, or in a parent that the image doesn't have.
    Run,
    /// A number of the table that has to be zero is not.
    Zero,
    /// The runs of a space are not the pages of its areas.
    Coverage,
    /// Bytes remain after the table, the header counts other data pages, or over 65,536 pages are mapped.
    Total,
    /// An image of version 2 has another digest than its file.
    Digest,
    /// A page that no image of the chain has.
    Chain,
    /// Two open slots have one serial.
    DoubleSerial,
}

impl Reason {
    ghost use Rattle.std.specs.Prelude.{◌≡◌};
    ghost use Rattle.sd_image.specs.ReasonLaws.{reason_number};

    /// The number of the reason, 1 to 19. Of all that apply to one item the least is reported.
    pub fn number(self) -> u8
        ensures { result ≡ reason_number self }
    {
        match self {
            Reason::Magic => 1,
            Reason::Version => 2,
            Reason::Kind => 3,
            Reason::Reserved => 4,
            Reason::Serial => 5,
            Reason::StandsFor => 6,
            Reason::Parent => 7,
            Reason::Checkpoint => 8,
            Reason::Length => 9,
            Reason::PastEnd => 10,
            Reason::Space => 11,
            Reason::Area => 12,
            Reason::Run => 13,
            Reason::Zero => 14,
            Reason::Coverage => 15,
            Reason::Total => 16,
            Reason::Digest => 17,
            Reason::Chain => 18,
            Reason::DoubleSerial => 19,
        }
    }
}

impl fmt::Display for Reason {
    fn fmt<W: fmt::Write>(&self, f: &mut fmt::Formatter<W>) -> fmt::Result {
        write!(f, "{}", self.number())
    }
}

impl Error for Reason {}
