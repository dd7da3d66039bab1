//! Device calls that go from the thread that asks for them to threads that make them.
#![tactic(auto)]

mod crew;
mod errand;
mod feeder;
mod front;
mod hand;
mod message;
mod owed_errand;
mod promised;
mod putting;
mod relayed;
mod relaying;
mod rule;
mod writer;

pub use errand::Errand;
pub use feeder::Feeder;
pub use front::Front;
pub use relayed::Relayed;
pub use relaying::relay;
pub use writer::Writer;
