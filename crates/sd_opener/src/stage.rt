use sd_gate::Plan;
use sd_image::{Header, Reason};

/// How far the slot is that the opener looks at.
#[derive(Drop)]
pub enum Stage {
    /// Its inspection asks for device calls.
    Asking(Plan),
    /// It is open, and was read: its header, and the bytes of its table.
    Read { header: Header, table: Vec<u8> },
    /// It is open, and its header is none.
    Broken(Reason),
}
