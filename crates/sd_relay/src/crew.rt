//! The writers' threads.
ghost use Rattle.std.specs.Prelude.{◌≡◌, ◌+◌, ◌<◌, ◌++◌, ◌∷◌, [], MatchOption, MatchResult};
ghost use Rattle.crossbeam_channel.specs.Claims.{view, IsSeatAt};
ghost use Rattle.crossbeam_channel.specs.Ends.{sends_on, receives_on};
ghost use Rattle.sd_relay.specs.Fronts.{hand_of, put_into};
ghost use Rattle.sd_relay.specs.Hands.{all_parts, IsWriters};

use crate::feeder::Feeder;
use crate::front::Front;
use crate::hand::Hand;
use crate::message::Message;
use crate::owed_errand::OwedErrand;
use crate::promised::Promised;
use crate::rule::{Receiver, Takes};
use crate::writer::Writer;
use crossbeam_channel::Pass;
use std::snapshot::Snapshot;
use std::sync::Wait;
use std::sync::atomic::{AtomicUsize, Ordering};
use std::thread::{PromisedHandle, Scope, Threads};

/// What the threads of a relay share.
#[derive(Drop)]
pub(crate) struct Room<R, W> {
    pub(crate) rt: R,
    pub(crate) writer: W,
    /// The number of the writer for which no thread could be made, from 1.
    pub(crate) refused: AtomicUsize,
}

/// Takes an errand, which its pass knows from then on; none where nothing more comes.
fn take<R: Wait>(rt: &R, receiver: &Receiver, pass: &mut Pass<Message, Hand>) -> Option<OwedErrand>
    requires { IsSeatAt (receives_on receiver.now) pass.old × IsWriters (view pass.old) }
    ensures seat { IsSeatAt (receives_on receiver.now) pass.new × IsWriters (view pass.new) }
    ensures taken { MatchOption result ((view pass.new).taken ≡ (view pass.old).taken)
        (λ owed. (view pass.new).taken ≡ (view pass.old).taken ++ owed.errand.request.id.ticket ∷ []) }
{
    match receiver.recv_as::<Takes, R>(rt, pass) {
        Ok(Message::Errand(errand)) => Some(OwedErrand::new(errand)),
        Ok(Message::End) | Err(_) => None,
    }
}

/// Takes errands and writes each, until nothing more comes.
fn serve<R: Wait, W: Writer>(
    rt: &R,
    receiver: &Receiver,
    mut pass: Pass<Message, Hand>,
    writer: &W,
) -> Pass<Message, Hand>
    requires { IsSeatAt (receives_on receiver.now) pass × IsWriters (view pass) }
    ensures { IsSeatAt (receives_on receiver.now) result × IsWriters (view result) }
{
    for _ in rt.forever() {
        match take(rt, receiver, &mut pass) {
            Some(owed) => owed.write(writer),
            None => return pass,
        }
    }
    unreachable!()
}

/// What a writer's thread does: it serves, unless it is the one for which no thread could be made.
fn work<R: Wait, W: Writer>(
    room: &Room<R, W>,
    number: usize,
    receiver: Receiver,
    pass: Pass<Message, Hand>,
) -> Pass<Message, Hand>
    requires { IsSeatAt (receives_on receiver) pass × IsWriters (view pass) }
    ensures { IsSeatAt (receives_on receiver) result × IsWriters (view result) }
{
    if room.refused.load(Ordering::SeqCst) == number {
        return pass;
    }
    serve(&room.rt, &receiver, pass, &room.writer)
}

/// Starts a writer's thread. The pass comes back where none can be made.
fn start<'s, E, R: Threads + Wait + Sync, W: Writer + Sync>(
    room: &'s Room<R, W>,
    scope: &Scope<'s, E>,
    number: usize,
    receiver: Receiver,
    pass: Pass<Message, Hand>,
) -> Result<PromisedHandle<Pass<Message, Hand>, Promised>, Pass<Message, Hand>>
    requires { IsSeatAt (receives_on receiver) pass × IsWriters (view pass) }
    ensures { MatchResult result
        (λ handle. receives_on handle.promise.0.value ≡ receives_on receiver)
        (λ back. IsSeatAt (receives_on receiver) back × IsWriters (view back)) }
{
    let promised = Promised(Snapshot::of(&receiver));
    let job = move || -> Pass<Message, Hand>
        requires { IsSeatAt (receives_on receiver) pass × IsWriters (view pass) }
        ensures { IsSeatAt (receives_on receiver) result × IsWriters (view result) }
    { work(room, number, receiver, pass) };
    match scope.spawn_with(promised, job) {
        Ok(handle) => Ok(handle),
        Err(refused) => {
            room.refused.store(number, Ordering::SeqCst);
            Err((refused.value)())
        }
    }
}

/// Starts so many writers, numbered on from those that were made, lets the feeder feed, and takes in what each writer
/// took.
pub(crate) fn crew<'s, E, R: Threads + Wait + Sync, F: Feeder, W: Writer + Sync>(
    room: &'s Room<R, W>,
    scope: &Scope<'s, E>,
    front: &mut Front,
    receiver: Receiver,
    made: usize,
    count: usize,
    feeder: &mut F,
)
    requires channel { receives_on receiver ≡ sends_on front.old.sender }
    requires parts { count < (hand_of front.old).parts }
    requires few { made + count < all_parts }
    ensures channel { sends_on front.new.sender ≡ sends_on front.old.sender }
    ensures parts { (hand_of front.new).parts ≡ (hand_of front.old).parts }
    ensures fed { F.fed feeder.old feeder.new }
    ensures put { put_into front.old ≡ [] → F.has_put feeder.new (put_into front.new) }
{
    if count == 0 {
        drop(receiver);
        feeder.feed(front);
        front.end(&room.rt, made);
        return;
    }
    let Ok(own) = receiver.try_clone() else {
        return crew(room, scope, front, receiver, made, 0, feeder);
    };
    let pass = front.cut();
    match start(room, scope, made + 1, own, pass) {
        Ok(handle) => {
            crew(room, scope, front, receiver, made + 1, count - 1, feeder);
            front.absorb(handle.join(&room.rt));
        }
        Err(back) => {
            front.absorb(back);
            crew(room, scope, front, receiver, made, 0, feeder);
        }
    }
}
