use crate::hand::Hand;
use crate::message::Message;
use crate::rule::Receiver;
use crossbeam_channel::Pass;
use std::snapshot::Snapshot;
use std::thread::Promise;

/// The promise of a writer's thread: its pass comes back, of this channel.
#[derive(Drop)]
pub(crate) struct Promised(pub(crate) Snapshot<Receiver>);

impl Promise<Pass<Message, Hand>> for Promised {
    ghost use Rattle.crossbeam_channel.specs.Claims.{view, IsSeatAt};
    ghost use Rattle.crossbeam_channel.specs.Ends.{receives_on};
    ghost use Rattle.sd_relay.specs.Hands.{IsWriters};

    ghost kept_by = { λ promised pass. IsSeatAt (receives_on promised.0.value) pass × IsWriters (view pass) };
}
