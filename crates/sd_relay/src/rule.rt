//! The rule of the channel, and how each step changes what a pass knows.
use crate::hand::Hand;
use crate::message::Message;
use crossbeam_channel::protocol::{Join, Lesson, Outcome, Protocol, Split};
use crossbeam_channel::{RuledReceiver, RuledSender};

/// The rule of the channel.
pub(crate) struct Rule;

/// The end that the feeder's thread has.
pub(crate) type Sender = RuledSender<Message, Hand, Rule>;

/// The end that a writer has.
pub(crate) type Receiver = RuledReceiver<Message, Hand, Rule>;

impl Protocol<Message, Hand> for Rule {
    ghost use Rattle.std.specs.Prelude.{true, []};
    ghost use Rattle.sd_relay.specs.Hands.{all_parts, hand};
    ghost use Rattle.sd_relay.specs.Relays.{Relays};

    ghost holds = { Relays };

    ghost first = { hand all_parts true [] [] };
}

/// A pass for one more writer.
pub(crate) struct Cut;

impl Split<Hand> for Cut {
    ghost use Rattle.std.specs.Prelude.{◌-◌, false, []};
    ghost use Rattle.sd_relay.specs.Hands.{hand};

    ghost left = { λ v. hand (v.parts - 1) v.puts v.put v.taken };

    ghost right = { λ v. hand 1 false [] [] };
}

impl Join<Hand> for Cut {
    ghost use Rattle.std.specs.Prelude.{◌+◌, ◌++◌, false, []};
    ghost use Rattle.sd_relay.specs.Hands.{hand};

    ghost both = { λ v w. hand (v.parts + w.parts) v.puts v.put (v.taken ++ w.taken) };

    ghost spent = { hand 0 false [] [] };
}

/// A message that is put.
pub(crate) struct Puts;

impl Outcome<Message, Hand> for Puts {
    ghost use Rattle.std.specs.Prelude.{◌≡◌};
    ghost use Rattle.sd_relay.specs.Hands.{after_put};

    ghost then = { λ v message w. w ≡ after_put v message };
}

impl Lesson<Message, Hand> for Puts {
    ghost use Rattle.std.specs.Prelude.{⊤};

    ghost fact = { λ v messages. ⊤ };
}

/// A message that is taken.
pub(crate) struct Takes;

impl Outcome<Message, Hand> for Takes {
    ghost use Rattle.std.specs.Prelude.{◌≡◌};
    ghost use Rattle.sd_relay.specs.Hands.{after_taking};

    ghost then = { λ v message w. w ≡ after_taking v message };
}

impl Lesson<Message, Hand> for Takes {
    ghost use Rattle.std.specs.Prelude.{⊤};

    ghost fact = { λ v messages. ⊤ };
}

/// What the pass with every part knows of the whole.
pub(crate) struct Whole;

impl Lesson<Message, Hand> for Whole {
    ghost use Rattle.sd_relay.specs.Hands.{tickets};
    ghost use Rattle.sd_relay.specs.Relays.{IsSettled};

    ghost fact = { λ v messages. IsSettled v.put v.taken (tickets messages) };
}
