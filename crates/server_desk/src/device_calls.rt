// What the desk does with a device: a payload is queued, and an answer is given and settled.
ghost use Rattle.std.specs.Prelude.{◌≡◌, ◌+◌, ◌^◌, ◌<◌, true, false, if◌then◌else◌, IfOk, OnOk, OnErr, MatchResult, IsOkUnless};
ghost use Rattle.server_desk.specs.Queueing.{queue_fault, queued_or, with_payload};
ghost use Rattle.server_desk.specs.Taking.{head, plan_for, job_for, fault_of, with_counter_given};
ghost use Rattle.server_desk.specs.Settling.{without_head};
ghost use Rattle.server_desk.specs.Invariant.{shown, IsServable};
ghost use Rattle.server_desk.specs.Register.{opened_device, counters_of};

use crate::answers::Asked;
use crate::device::{Counters, KnownDevice};
use crate::{DeviceSetting, QueueFault, TakeFault, keys_of};
use answer_ticket::{Bytes, Copies, Job};
use lora_frame::{Key, MAX_PAYLOAD, is_application_port};
use rx_windows::Plan;
use std::alloc::{AllocError, Allocator};

/// The greatest number of payloads that wait for a device.
const QUEUE_LIMIT: usize = 16;

/// How many downlink counters a session has: FCntDown has 32 bits (LoRaWAN L2 1.0.4, section 4.3.1.5).
pub(crate) const COUNTERS: u64 = 1 << 32;

impl<A: Allocator + Copy> KnownDevice<A> {
    /// A device of which nothing was heard yet; takes no memory.
    pub(crate) fn new(alloc: A, setting: &DeviceSetting) -> Self
        ensures shown { shown result ≡ opened_device setting.now }
        ensures out { result.out ≡ false }
    {
        KnownDevice {
            setting: *setting,
            keys: keys_of(setting),
            queue: Vec::new(alloc),
            up: setting.up,
            down: setting.down,
            out: false,
        }
    }

    /// Puts a payload at the end of the queue, and answers how many wait then. The growths come first.
    pub(crate) fn push(&mut self, port: u8, payload: &[u8]) -> Result<usize, QueueFault>
        ensures answer { MatchResult (queued_or (shown self.old) (queue_fault (shown self.old) (port, payload.now)))
            (λ _. IsOkUnless result QueueFault.NoMemory) (λ fault. result ≡ Err fault) }
        ensures told { IfOk result (λ count. queued_or (shown self.old) (queue_fault (shown self.old) (port, payload.now))
            ≡ Ok count) }
        ensures pushed { OnOk result (shown self.new ≡ with_payload (port, payload.now) (shown self.old)) }
        ensures refused { OnErr result (shown self.new ≡ shown self.old) }
        ensures setting { self.new.setting ≡ self.old.setting }
        ensures out { self.new.out ≡ self.old.out }
    {
        if let Some(fault) = self.queue_fault(port, payload) {
            return Err(fault);
        }
        let Ok(bytes) = Vec::from_slice(*self.queue.allocator(), payload) else {
            return Err(QueueFault::NoMemory);
        };
        match self.queue.push((port, Bytes::new(bytes))) {
            Ok(()) => Ok(self.queue.len()),
            Err(_) => Err(QueueFault::NoMemory),
        }
    }

    /// Why this payload isn't queued.
    fn queue_fault(&self, port: u8, payload: &[u8]) -> Option<QueueFault>
        ensures { result ≡ queue_fault (shown self.now) (port, payload.now) }
    {
        if !is_application_port(port) {
            return Some(QueueFault::Port);
        }
        if payload.len() > MAX_PAYLOAD {
            return Some(QueueFault::Long);
        }
        if self.queue.len() >= QUEUE_LIMIT {
            return Some(QueueFault::QueueFull);
        }
        None
    }

    /// The answer of this device to uplink `n`, which says this and has these copies by rank, as it would be sent next.
    /// Takes memory for the payload alone.
    pub(crate) fn job(&self, n: u64, asked: &Asked, copies: Copies<A>) -> Result<Job<A>, AllocError>
        requires servable { IsServable (shown self.now) }
        requires unspent { self.now.down < 2 ^ 32 }
        ensures { IfOk result (λ job. job ≡ job_for (shown self.now) n asked.now copies) }
    {
        Ok(Job {
            number: n,
            addr: self.setting.addr,
            ack: asked.confirmed,
            counter: self.down as u32,
            queued: self.queue.len(),
            body: self.head()?,
            copies,
            plan: self.plan(),
            keys: self.keys,
        })
    }

    /// The payload that is sent next.
    fn head(&self) -> Result<Option<(u8, Bytes<A>)>, AllocError>
        ensures { IfOk result (λ body. body ≡ head self.now.queue.items) }
    {
        match self.queue.first() {
            Some((port, payload)) => {
                let bytes = Vec::from_slice(*self.queue.allocator(), payload.as_slice())?;
                Ok(Some((*port, Bytes::new(bytes))))
            }
            None => Ok(None),
        }
    }
}

impl<A: Allocator> KnownDevice<A> {
    /// Its last uplink counter and its next downlink counter.
    pub(crate) fn counters(&self) -> Counters
        ensures { result ≡ counters_of (shown self.now) }
    {
        Counters {
            up: self.up,
            down: self.down,
        }
    }

    /// The key of the MIC of its uplinks.
    pub(crate) fn nwk(&self) -> &Key
        ensures { result.now ≡ self.now.setting.nwk }
    {
        &self.keys.nwk
    }

    /// How the device listens, and what waits for it.
    fn plan(&self) -> Plan
        requires { IsServable (shown self.now) }
        ensures { result ≡ plan_for self.now.setting (head self.now.queue.items) }
    {
        Plan {
            delay: self.setting.delay,
            offset: self.setting.offset,
            rx2_freq: self.setting.rx2_freq,
            rx2_rate: self.setting.rx2_rate,
            payload: self
                .queue
                .first()
                .map(|(_, payload)| payload.as_slice().len() as u8),
        }
    }

    /// Why no ticket is given for this uplink of the device, of which none was given before.
    pub(crate) fn take_fault(&self, asked: &Asked) -> Option<TakeFault>
        ensures { result ≡ fault_of asked.now (shown self.now) self.now.out }
    {
        if !asked.confirmed && !asked.adr_ack_req && self.queue.is_empty() {
            return Some(TakeFault::Silent);
        }
        if self.out {
            return Some(TakeFault::Engaged);
        }
        if self.down >= COUNTERS {
            return Some(TakeFault::CounterSpent);
        }
        None
    }

    /// A ticket with the next downlink counter is given.
    pub(crate) fn give(&mut self)
        requires { self.old.down < 2 ^ 32 }
        ensures shown { shown self.new ≡ with_counter_given (shown self.old) }
        ensures out { self.new.out ≡ true }
    {
        self.down += 1;
        self.out = true;
    }

    /// The answer that was out is settled, and took the payload at the head of the queue with it if `carried`.
    pub(crate) fn settle(&mut self, carried: bool)
        ensures shown { shown self.new ≡ (if carried then without_head (shown self.old) else shown self.old) }
        ensures out { self.new.out ≡ false }
        ensures setting { self.new.setting ≡ self.old.setting }
    {
        self.out = false;
        if carried && !self.queue.is_empty() {
            self.queue.remove(0);
        }
    }
}
