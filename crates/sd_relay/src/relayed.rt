use crate::hand::Hand;
use crate::message::Message;
use crossbeam_channel::Pass;

/// That a relay is over: proofs know from it which tickets were put, and which of them the writers took.
#[derive(Drop)]
pub struct Relayed {
    pub(crate) pass: Pass<Message, Hand>,
}
