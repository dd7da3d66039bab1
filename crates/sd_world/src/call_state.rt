/// How far a device call is that is out.
#[derive(Clone, Copy, Debug, PartialEq, Eq)]
pub enum CallState {
    /// It was asked for, and wasn't made yet.
    Asked,
    /// It was made, and its outcome wasn't handed in yet.
    Made,
}
