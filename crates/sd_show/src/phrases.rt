//! The reasons of a damaged slot, in words.
ghost use Rattle.std.specs.Prelude.{◌≡◌};
ghost use Rattle.sd_show.specs.Phrases.{reason_phrase};

use sd_image::Reason;

/// A reason in words: what is so of the slot, and may not be.
pub fn reason_phrase(reason: Reason) -> &'static str
    ensures { result.now ≡ reason_phrase reason }
{
    match reason {
        Reason::Magic => "bytes 1 to 7 are not SDCHAIN",
        Reason::Version => "the version is neither 1 nor 2",
        Reason::Kind => "the kind is not 1, 2 or 3",
        Reason::Reserved => "a byte of the header that has to be zero is not",
        Reason::Serial => "the serial is 0",
        Reason::StandsFor => "stands_for is not what it has to be beside the serial",
        Reason::Parent => "the parent is not what it has to be beside the serial",
        Reason::Checkpoint => "the checkpoint is 0",
        Reason::Length => "header, pages and table are not as long as the file",
        Reason::PastEnd => "an item goes past the table's end",
        Reason::Space => "there are over 16 spaces, or a space's number is wrong",
        Reason::Area => "an area is wrong, or there are too many",
        Reason::Run => "a run is wrong",
        Reason::Zero => "a number of the table that has to be zero is not",
        Reason::Coverage => "the runs' pages are not the areas' pages, or a space has no run",
        Reason::Total =>
            "bytes remain behind the table, or its pages are not as many as they have to be",
        Reason::Digest => "the digest is not that of the file",
        Reason::Chain => "a page is in a parent that does not have it",
        Reason::DoubleSerial => "another open slot has this serial",
    }
}
