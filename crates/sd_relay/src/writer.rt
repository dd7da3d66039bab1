use crate::errand::Errand;

/// What each writer's thread does with an errand.
pub trait Writer {
    /// Makes the device call of an errand, and hands in what came of it.
    fn write(&self, errand: Errand);
}

impl<W: Writer> Writer for &W {
    fn write(&self, errand: Errand) {
        (**self).write(errand);
    }
}
