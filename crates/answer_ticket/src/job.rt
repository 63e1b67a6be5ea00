ghost use Rattle.std.specs.Prelude.{◌≡◌, IfOk, IfErr};
ghost use Rattle.lora_frame.specs.Frame.{parts_of};
ghost use Rattle.answer_ticket.specs.Job.{IsJob, ask_for, carried_body, is_pending, frame_for};

use crate::{Bytes, Copies};
use gateway_book::Ask;
use lora_frame::{Body, Down, DownFault, Keys, downlink};
use rx_windows::{Candidate, Plan};
use std::alloc::Allocator;
use std::marker::Model;

/// The answer to one uplink, as it is fixed when its ticket is given.
#[derive(Drop)]
pub struct Job<A: Allocator> {
    /// The number of the uplink's gathering.
    pub number: u64,
    /// DevAddr.
    pub addr: u32,
    /// Whether the answer acknowledges a confirmed uplink.
    pub ack: bool,
    /// The downlink counter that the answer has, in whichever window it is sent.
    pub counter: u32,
    /// How many payloads wait in the device's queue.
    pub queued: usize,
    /// The first of them: FPort, 1 to 223, and FRMPayload, at most 242 bytes, not encrypted.
    pub body: Option<(u8, Bytes<A>)>,
    /// The copies of the uplink, the best one first; at least one.
    pub copies: Copies<A>,
    /// How the device listens; `payload` is the length of the body's FRMPayload.
    pub plan: Plan,
    /// The device's session keys.
    pub keys: Keys,
}

impl<A: Allocator> Model for Job<A> {
    ghost use Rattle.answer_ticket.specs.Job.{Job as Fixed};

    ghost Value = { Fixed };

    ghost view = { λ j. record {
      number = j.number;
      addr = j.addr;
      ack = j.ack;
      counter = j.counter;
      queued = j.queued;
      body =
          j.body;
      copies = j.copies;
      plan = j.plan;
      keys = j.keys;
    } };
}

impl<A: Allocator> Job<A> {
    /// What a gateway's book is asked for.
    pub(crate) fn ask(&self, candidate: &Candidate) -> Ask
        ensures { result ≡ ask_for self.now candidate.now }
    {
        Ask {
            number: self.number,
            start: candidate.start,
            freq_hz: candidate.freq_hz,
            rate: candidate.rate,
            len: candidate.len,
        }
    }

    /// The candidate's frame. The port and the payload of a job are in range, so that only memory can be wanting.
    pub(crate) fn frame(&self, alloc: A, candidate: &Candidate) -> Result<Bytes<A>, DownFault>
        requires { IsJob self.now }
        ensures frame { IfOk result (λ frame. frame ≡ frame_for self.now candidate.now) }
        ensures memory { IfErr result (λ fault. fault ≡ DownFault.NoMemory) }
    {
        let down = Down {
            addr: self.addr,
            counter: self.counter,
            ack: self.ack,
            pending: self.is_pending(candidate),
            body: self.carried_body(candidate),
        };
        Ok(Bytes::new(downlink(alloc, &down, &self.keys)?))
    }

    /// Whether a payload would still wait after the candidate's frame.
    fn is_pending(&self, candidate: &Candidate) -> bool
        ensures { result ≡ is_pending self.now candidate.now }
    {
        if candidate.carries {
            self.queued > 1
        } else {
            self.queued > 0
        }
    }

    /// FPort and FRMPayload of the candidate's frame.
    fn carried_body(&self, candidate: &Candidate) -> Option<Body<'_>>
        ensures { parts_of result ≡ carried_body self.now candidate.now }
    {
        if !candidate.carries {
            return None;
        }
        let (port, payload) = self.body.as_ref()?;
        Some(Body {
            port: *port,
            payload: payload.as_slice(),
        })
    }
}
