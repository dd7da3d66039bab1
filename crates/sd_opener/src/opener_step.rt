use sd_gate::Request;
use sd_image::Reason;

/// What a step of the opener was.
#[derive(Drop)]
pub enum OpenerStep {
    /// This device call is asked for.
    Call(Request),
    /// An open slot was decoded.
    Decoded,
    /// A slot is damaged.
    Damaged { slot: usize, reason: Reason },
    /// Every slot was read before.
    AllRead,
}
