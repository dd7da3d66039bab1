//! One device call that is asked for.
ghost use Rattle.std.specs.Prelude.{◌≡◌};
ghost use Rattle.std.specs.Option.{option_map};
ghost use Rattle.sd_gate.specs.Calls.{call_of, buffer_back};

use crate::call::Call;
use crate::order::Order;
use crate::request_id::RequestId;
use crate::worker::Worker;
use std::marker::Model;

/// One device call of a worker, with the bytes that it writes or the buffer that it fills. It isn't copied:
/// it is performed once, or never.
#[derive(Drop)]
pub struct Request {
    pub(crate) worker: Worker,
    pub(crate) ticket: u64,
    pub(crate) slot: usize,
    pub(crate) order: Order,
}

impl Model for Request {
    ghost use Rattle.sd_gate.specs.Requests.{Asked};
    ghost use Rattle.sd_gate.specs.Calls.{call_of, bytes_of, IsSoundOrder};

    ghost Value = { Asked };

    ghost view = { λ r. record {
      id = record { worker = r.worker; ticket = r.ticket; slot = r.slot; call = call_of r.order };
      bytes = bytes_of r.order;
    } };

    ghost invariant = { λ r. IsSoundOrder r.order };
}

/// The call that an order is for.
pub(crate) fn call_of(order: &Order) -> Call
    ensures { result ≡ call_of order.now }
{
    match order {
        Order::Len => Call::Len,
        Order::Read { at, .. } => Call::Read { at: *at },
        Order::Write { at, .. } => Call::Write { at: *at },
        Order::WriteHeader { .. } => Call::WriteHeader,
        Order::Close => Call::Close,
        Order::Open => Call::Open,
        Order::Cut => Call::Cut,
        Order::Sync => Call::Sync,
    }
}

impl Request {
    /// The buffer that it wrote or filled.
    pub(crate) fn into_buffer(self) -> Option<Vec<u8>>
        ensures { option_map (λ b. b.items) result ≡ buffer_back self.id.call self.bytes }
    {
        let Request { order, .. } = self;
        order.into_buffer()
    }

    /// What distinguishes it from every other request.
    pub fn id(&self) -> RequestId
        ensures { result ≡ self.now.id }
    {
        RequestId {
            worker: self.worker,
            ticket: self.ticket,
            slot: self.slot,
            call: call_of(&self.order),
        }
    }
}
