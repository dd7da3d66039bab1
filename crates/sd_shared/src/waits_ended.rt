use crate::booked::Booked;

/// That the waits for a thaw were ended: a turn of `Shared::end_waits` alone gives it.
#[derive(Debug, Drop)]
pub struct WaitsEnded {
    own: (),
}

impl WaitsEnded {
    ghost use Rattle.std.specs.Prelude.{◌≡◌, true};

    /// Of a core whose waits were ended.
    pub(crate) fn of(booked: &Booked) -> WaitsEnded
        requires { booked.now.ended ≡ true }
    {
        let _ = booked;
        WaitsEnded { own: () }
    }
}
