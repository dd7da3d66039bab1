//! The device calls of the workers, one by one, and the gate that makes an image whole or closed after any crash.
#![tactic(auto)]

mod answer;
mod call;
mod call_sequence;
mod device_call;
mod found;
mod inspection;
mod inspection_stage;
mod job;
mod lanes;
mod laws;
mod layout;
mod order;
mod outcome;
mod phase;
mod plan;
mod plan_use;
mod request;
mod request_id;
mod settled;
mod slot_state;
mod worker;

pub use answer::Answer;
pub use call::Call;
pub use device_call::perform;
pub use found::Found;
pub use lanes::{is_any_out, lane_of};
pub use laws::{
    all_found_fit, bodies_fill, cuts_fit, found_fits, given_up_fits, image_whole_or_closed,
    inspection_finds, inspection_finds_phase, plans_lead, plans_take, writes_commute,
};
pub use outcome::Outcome;
pub use phase::Phase;
pub use plan::Plan;
pub use plan_use::{ask, next_request, plan_left, settle};
pub use request::Request;
pub use request_id::RequestId;
pub use settled::Settled;
pub use slot_state::SlotState;
pub use worker::Worker;
