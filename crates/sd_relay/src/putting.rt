//! What the feeder's thread does with its end.
ghost use Rattle.std.specs.Prelude.{◌≡◌, ◌+◌, ◌-◌, ◌<◌, ◌++◌, ◌∷◌, [], false, true, IsTrue, MatchResult};
ghost use Rattle.std.specs.List.{All};
ghost use Rattle.crossbeam_channel.specs.Claims.{view, IsSeatAt};
ghost use Rattle.crossbeam_channel.specs.Ends.{sends_on};
ghost use Rattle.sd_relay.specs.Fronts.{hand_of, put_into, StaysOnChannel};
ghost use Rattle.sd_relay.specs.Hands.{all_parts, hand, IsWriters};
ghost use Rattle.sd_relay.specs.Relays.{IsSettled};
ghost use Rattle.sd_relay.specs.Results.{put_in, taken_in};

use crate::errand::Errand;
use crate::front::Front;
use crate::hand::Hand;
use crate::message::Message;
use crate::relayed::Relayed;
use crate::rule::{Cut, Puts, Sender, Whole};
use crossbeam_channel::Pass;
use std::sync::Wait;

impl Front {
    /// A front into which nothing was put.
    pub(crate) fn new(sender: Sender, pass: Pass<Message, Hand>) -> Self
        requires seat { IsSeatAt (sends_on sender) pass }
        requires first { view pass ≡ hand all_parts true [] [] }
        ensures channel { sends_on result.sender ≡ sends_on sender }
        ensures first { hand_of result ≡ hand all_parts true [] [] }
    {
        Front {
            sender,
            pass,
            last: None,
        }
    }

    /// Whether this ticket is above all that were put.
    fn is_next(&self, ticket: u64) -> bool
        ensures { IsTrue result → All (λ t. t < ticket) (put_into self.now) }
    {
        match self.last {
            Some(last) => last < ticket,
            None => true,
        }
    }

    /// Puts an errand for the writers. Handed back where no writer is there, the queue is full, or its ticket isn't
    /// above all that were put before.
    pub fn put<R: Wait>(&mut self, rt: &R, errand: Errand) -> Result<(), Errand>
        ensures stays { StaysOnChannel self.old self.new }
        ensures put { MatchResult result
            (λ _. put_into self.new ≡ put_into self.old ++ errand.request.id.ticket ∷ [])
            (λ back. (back ≡ errand) × (put_into self.new ≡ put_into self.old)) }
    {
        let ticket = errand.request.id().ticket;
        if !self.is_next(ticket) {
            return Err(errand);
        }
        match self
            .sender
            .try_send_as::<Puts, R>(rt, &mut self.pass, Message::Errand(errand))
        {
            Ok(()) => {
                self.last = Some(ticket);
                Ok(())
            }
            Err(refused) => match refused.into_inner() {
                Message::Errand(back) => Err(back),
                Message::End => unreachable!(),
            },
        }
    }

    /// Lets one writer know that nothing more comes.
    fn end_one<R: Wait>(&mut self, rt: &R)
        ensures stays { StaysOnChannel self.old self.new }
        ensures put { put_into self.new ≡ put_into self.old }
    {
        let _ = self
            .sender
            .send_as::<Puts, R>(rt, &mut self.pass, Message::End);
    }

    /// Lets so many writers know that nothing more comes.
    pub(crate) fn end<R: Wait>(&mut self, rt: &R, writers: usize)
        ensures stays { StaysOnChannel self.old self.new }
        ensures put { put_into self.new ≡ put_into self.old }
    {
        for _ in 0..writers {
            self.end_one(rt);
        }
    }

    /// A pass for one more writer.
    pub(crate) fn cut(&mut self) -> Pass<Message, Hand>
        requires { 1 < (hand_of self.old).parts }
        ensures channel { sends_on self.new.sender ≡ sends_on self.old.sender }
        ensures parts { (hand_of self.new).parts ≡ (hand_of self.old).parts - 1 }
        ensures put { put_into self.new ≡ put_into self.old }
        ensures seat { IsSeatAt (sends_on self.old.sender) result }
        ensures empty { view result ≡ hand 1 false [] [] }
    {
        self.sender.another::<Cut>(&mut self.pass)
    }

    /// Takes in what a writer took.
    pub(crate) fn absorb(&mut self, pass: Pass<Message, Hand>)
        requires seat { IsSeatAt (sends_on self.old.sender) pass }
        requires writer { IsWriters (view pass) }
        ensures channel { sends_on self.new.sender ≡ sends_on self.old.sender }
        ensures parts { (hand_of self.new).parts ≡ (hand_of self.old).parts + (view pass).parts }
        ensures put { put_into self.new ≡ put_into self.old }
    {
        self.sender.absorb::<Cut>(&mut self.pass, pass)
    }

    /// What was done, once the writers' passes were all taken in.
    pub(crate) fn settle(self) -> Relayed
        requires { (hand_of self).parts ≡ all_parts }
        ensures settled { (left : _) × IsSettled (put_in result) (taken_in result) left }
        ensures put { put_in result ≡ put_into self }
    {
        let Front {
            sender,
            mut pass,
            last: _,
        } = self;
        sender.learn_as::<Whole>(&mut pass);
        Relayed { pass }
    }
}
