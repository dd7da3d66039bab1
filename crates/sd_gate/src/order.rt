ghost use Rattle.std.specs.Prelude.{◌≡◌};
ghost use Rattle.std.specs.Option.{option_map};
ghost use Rattle.sd_gate.specs.Calls.{call_of, bytes_of, buffer_back};

use sd_image::Header;

/// A device call with what it writes or fills.
#[derive(Drop)]
pub enum Order {
    Len,
    Read { at: usize, buffer: Vec<u8> },
    Write { at: usize, buffer: Vec<u8> },
    WriteHeader { header: Header },
    Close,
    Open,
    Cut,
    Sync,
}

impl Order {
    /// The buffer of a read or a write.
    pub fn into_buffer(self) -> Option<Vec<u8>>
        ensures { option_map (λ b. b.items) result ≡ buffer_back (call_of self) (bytes_of self) }
    {
        match self {
            Order::Read { buffer, .. } | Order::Write { buffer, .. } => Some(buffer),
            Order::Len | Order::WriteHeader { .. } => None,
            Order::Close | Order::Open | Order::Cut | Order::Sync => None,
        }
    }
}
