ghost use Rattle.std.specs.Prelude.{◌≡◌, true};
ghost use Rattle.crossbeam_channel.specs.Claims.{view, IsSeatAt};
ghost use Rattle.crossbeam_channel.specs.Ends.{sends_on};
ghost use Rattle.sd_relay.specs.Tickets.{IsLast};

use crate::hand::Hand;
use crate::message::Message;
use crate::rule::Sender;
use crossbeam_channel::Pass;

/// The end of the feeder's thread, into which errands are put.
#[derive(Drop)]
pub struct Front {
    pub(crate) sender: Sender,
    pub(crate) pass: Pass<Message, Hand>,
    /// The last ticket that was put.
    pub(crate) last: Option<u64>,
    ghost seat: { IsSeatAt (sends_on sender) pass },
    ghost puts: { (view pass).puts ≡ true },
    ghost highest: { IsLast last (view pass).put },
}
