//! The relay from a feeder to its writers.
ghost use Rattle.std.specs.Prelude.{◌≡◌, ◌<◌, [], true, IfOk, IfErr};
ghost use Rattle.crossbeam_channel.specs.Ends.{sends_on, receives_on};
ghost use Rattle.sd_relay.specs.Fronts.{hand_of, put_into};
ghost use Rattle.sd_relay.specs.Hands.{all_parts, hand};
ghost use Rattle.sd_relay.specs.Relays.{IsSettled};
ghost use Rattle.sd_relay.specs.Results.{put_in, taken_in};

use crate::crew::{Room, crew};
use crate::feeder::Feeder;
use crate::front::Front;
use crate::hand::Hand;
use crate::message::Message;
use crate::relayed::Relayed;
use crate::rule::Rule;
use crate::writer::Writer;
use crossbeam_channel::bounded_with;
use std::alloc::{AllocError, Global};
use std::sync::Wait;
use std::sync::atomic::AtomicUsize;
use std::thread;
use std::thread::Threads;

/// How many errands wait at most.
const CAPACITY: usize = 8;

/// How many writers there are at most.
const MOST_WRITERS: usize = 8;

/// Lets the feeder feed in this thread, and so many writers, 8 at most and as many threads as can be made, each take
/// errands, one after the other, in a thread of its own, until the feeder is done and all that was put was taken.
///
/// # Errors
///
/// `AllocError` where the channel finds no memory: the feeder wasn't called.
pub fn relay<R: Threads + Wait + Sync, F: Feeder, W: Writer + Sync>(
    rt: &R,
    alloc: Global,
    writers: usize,
    feeder: &mut F,
    writer: &W,
) -> Result<Relayed, AllocError>
    ensures settled { IfOk result (λ relayed. (left : _) × IsSettled (put_in relayed) (taken_in relayed) left) }
    ensures fed { IfOk result (λ _. F.fed feeder.old feeder.new) }
    ensures put { IfOk result (λ relayed. F.has_put feeder.new (put_in relayed)) }
    ensures error { IfErr result (λ _. feeder.new ≡ feeder.old) }
{
    let (sender, receiver, pass) = bounded_with::<Message, Hand, Rule, Global>(alloc, CAPACITY)?;
    let front = Front::new(sender, pass);
    let room = Room {
        rt,
        writer,
        refused: AtomicUsize::new(0),
    };
    let count = writers.min(MOST_WRITERS);
    let shared = &room;
    let (front, feeder) = thread::scope(
        thread::scope_env(),
        rt,
        move |scope| -> (Front, &mut F)
            requires { (receives_on receiver ≡ sends_on front.sender) × (hand_of front ≡ hand all_parts true [] [])
                × (count < all_parts) }
            ensures { ((hand_of result.0).parts ≡ all_parts) × F.fed feeder.entry.now result.1.now
                × F.has_put result.1.now (put_into result.0) × (result.1.ghost_name ≡ feeder.entry.ghost_name) }
        {
            let mut front = front;
            crew(shared, scope, &mut front, receiver, 0, count, feeder);
            (front, feeder)
        },
    );
    Ok(front.settle())
}
