use crate::errand::Errand;
use crate::writer::Writer;

/// An errand that a writer took. It can't be dropped: it is written.
pub(crate) struct OwedErrand {
    errand: Errand,
}

impl OwedErrand {
    ghost use Rattle.std.specs.Prelude.{◌≡◌};

    /// An errand that was taken.
    pub(crate) fn new(errand: Errand) -> OwedErrand
        ensures { result.errand ≡ errand }
    {
        OwedErrand { errand }
    }

    /// Lets the writer write it.
    pub(crate) fn write<W: Writer>(self, writer: &W) {
        let OwedErrand { errand } = self;
        writer.write(errand);
    }
}
