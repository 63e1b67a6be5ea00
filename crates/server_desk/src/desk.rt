ghost use Rattle.std.specs.Prelude.{◌≡◌, map, is_some, IfOk, OnOk, OnErr, MatchResult, IsOkUnless};
ghost use Rattle.std.specs.Option.{option_map};
ghost use Rattle.lora_frame.specs.Reading.{uplink_of};
ghost use Rattle.uplink_gather.specs.Hearing.{is_crowded};
ghost use Rattle.server_desk.specs.World.{opening};
ghost use Rattle.server_desk.specs.Register.{device_with, counters_of, waiting_for};
ghost use Rattle.server_desk.specs.Queueing.{queue_answer};
ghost use Rattle.server_desk.specs.Passing.{pass_answer};
ghost use Rattle.server_desk.specs.Hearing.{decide, decide_device, answer_to};
ghost use Rattle.server_desk.specs.Invariant.{verdict_of};
ghost use Rattle.server_desk.specs.Desk.{desk_of, desk_queue, desk_hear, desk_pass};

use crate::answers::{Asked, Known};
use crate::device::{Counters, KnownDevice};
use crate::hearing::{copy_fault, copy_of, desk_answer, is_last, named_fault};
use crate::opening::{addrs_of, airtimes_of, devices_of, ids_of};
use crate::verdict::{NewUplink, Verdict};
use crate::{DeskFault, DeskHeard, Heard1, QueueFault, Settings};
use answer_ticket::{Bytes, NoMemory};
use indexmap::IndexSet;
use lora_frame::{Uplink, check_mic, infer, read_uplink};
use std::alloc::{Allocator, Global};
use std::hash::BuildHasher;
use std::marker::Model;
use uplink_gather::{Gather, Limits, Place};

/// What a server knows of its devices, of the uplinks that its gateways heard, and of their answers, all but the books
/// of the gateways.
#[derive(Drop)]
pub struct Desk<S: BuildHasher, A: Allocator = Global> {
    pub(crate) gateways: Vec<u16, A>,
    /// How long each of them was on air for the answers that were settled, in microseconds.
    pub(crate) answered: Vec<u64, A>,
    /// The devices' addresses, in the order of the devices.
    pub(crate) addrs: IndexSet<u32, S, A>,
    pub(crate) devices: Vec<KnownDevice<A>, A>,
    pub(crate) gather: Gather<S, A>,
    /// What each gathered uplink says, and what is known of its answer, by its number.
    pub(crate) asked: Vec<Asked, A>,
    pub(crate) known: Vec<Known, A>,
}

impl<S: BuildHasher, A: Allocator> Model for Desk<S, A> {
    ghost use Rattle.std.specs.Prelude.{map};
    ghost use Rattle.server_desk.specs.Desk.{DeskView};
    ghost use Rattle.server_desk.specs.Invariant.{IsDesk, outs, shown};
    ghost use Rattle.server_desk.specs.Airtime.{AreAirtimes};

    ghost Value = { DeskView };

    ghost view = { λ d. record {
      ids = d.gateways.items;
      reg =
          record { devices = map shown d.devices.items; gathered = d.gather; asked = d.asked.items };
      known = d.known.items;
    } };

    ghost invariant = { λ d. IsDesk d.addrs.keys (outs d.devices.items)
        (record { devices = map shown d.devices.items; gathered = d.gather; asked = d.asked.items }) d.known.items
        × AreAirtimes d.gateways.items d.answered.items d.gather.limits.max_ever d.known.items };
}

impl<S: BuildHasher + Clone, A: Allocator + Copy> Desk<S, A> {
    /// A desk of these settings, of which nothing was heard yet. Devices and uplinks are looked up through this hasher
    /// and a clone of it. Err(NoMemory) where a growth was refused.
    pub fn new<B: Allocator>(
        alloc: A,
        hasher: S,
        settings: &Settings<B>,
        limits: Limits,
    ) -> Result<Self, NoMemory>
        ensures { IfOk result (λ desk. desk ≡ desk_of (opening settings.now limits)) }
    {
        // So the sums of all airtimes fit in 64 bits.
        prove!(limits.max_ever <= u32::MAX);
        let gateways = ids_of(alloc, settings.gateways())?;
        let answered = airtimes_of(alloc, settings.gateways())?;
        let devices = devices_of(alloc, settings.devices())?;
        let addrs = addrs_of(alloc, hasher.clone()?, settings.devices())?;
        let gather = Gather::new(alloc, hasher, limits)?;
        Ok(Desk {
            gateways,
            answered,
            addrs,
            devices,
            gather,
            asked: Vec::new(alloc),
            known: Vec::new(alloc),
        })
    }
}

impl<S: BuildHasher, A: Allocator + Copy> Desk<S, A> {
    /// Queues a payload for the device with this address, FPort 1 to 223 (LoRaWAN L2 1.0.4, section 4.3.2) and FRMPayload
    /// of 0 to 242 bytes, not encrypted, and answers how many wait then, at most 16, or the first fault that holds, in the
    /// order of `QueueFault`. A fault changes nothing; `NoMemory` comes only where a growth was refused.
    #[tactic(auto, using(crate::proofs::DeskLemmas::by_address))]
    pub fn queue(&mut self, addr: u32, port: u8, payload: &[u8]) -> Result<usize, QueueFault>
        ensures answer { MatchResult (queue_answer self.old.reg addr (port, payload.now))
            (λ _. IsOkUnless result QueueFault.NoMemory) (λ fault. result ≡ Err fault) }
        ensures told { IfOk result (λ count. queue_answer self.old.reg addr (port, payload.now) ≡ Ok count) }
        ensures step { OnOk result (self.new ≡ desk_queue self.old addr (port, payload.now)) }
        ensures refused { OnErr result (self.new ≡ self.old) }
    {
        match self.place_of(addr) {
            Some(place) => self.devices[place].push(port, payload),
            None => Err(QueueFault::UnknownDevice),
        }
    }

    /// Takes in a copy of an uplink, with its bytes and the moment of its arrival, in microseconds of the server's
    /// clock, or answers the first fault that holds, in the order of `DeskFault`. A copy that opens a gathering stores
    /// its whole counter as the last one of its device. A fault changes nothing; `NoMemory` comes only where a growth
    /// was refused.
    pub fn hear(
        &mut self,
        bytes: &[u8],
        heard: Heard1,
        arrived: u64,
    ) -> Result<DeskHeard, DeskFault>
        ensures answer { MatchResult (answer_to (decide self.old.ids self.old.reg bytes.now heard arrived) self.old.reg)
            (λ _. IsOkUnless result DeskFault.NoMemory) (λ fault. result ≡ Err fault) }
        ensures told { IfOk result (λ told. answer_to (decide self.old.ids self.old.reg bytes.now heard arrived) self.old.reg
            ≡ Ok told) }
        ensures step { OnOk result (self.new ≡ desk_hear self.old bytes.now heard arrived) }
        ensures refused { OnErr result (self.new ≡ self.old) }
    {
        match self.verdict(bytes, &heard, arrived) {
            Verdict::Refuse(fault) => Err(fault),
            Verdict::Join(n) => self.join(n, bytes, &heard, arrived),
            Verdict::Open(new) => self.open(new, bytes, &heard, arrived),
        }
    }

    /// Puts a copy to those of gathering `n`.
    fn join(
        &mut self,
        n: u64,
        bytes: &[u8],
        heard: &Heard1,
        arrived: u64,
    ) -> Result<DeskHeard, DeskFault>
        requires { verdict_of bytes.now (decide self.old.ids self.old.reg bytes.now heard.now arrived) ≡ Verdict.Join n }
        ensures answer { MatchResult (answer_to (decide self.old.ids self.old.reg bytes.now heard.now arrived) self.old.reg)
            (λ _. IsOkUnless result DeskFault.NoMemory) (λ fault. result ≡ Err fault) }
        ensures told { IfOk result (λ told. answer_to (decide self.old.ids self.old.reg bytes.now heard.now arrived) self.old.reg
            ≡ Ok told) }
        ensures step { OnOk result (self.new ≡ desk_hear self.old bytes.now heard.now arrived) }
        ensures refused { OnErr result (self.new ≡ self.old) }
    {
        let answer = self
            .gather
            .hear_at(Place::Joins(n), bytes, copy_of(heard), arrived);
        desk_answer(answer, false)
    }

    /// Opens a gathering with a copy. All growths come before the first change.
    #[tactic(auto, using(crate::proofs::HearLemmas::was_fault))]
    fn open(
        &mut self,
        new: NewUplink,
        bytes: &[u8],
        heard: &Heard1,
        arrived: u64,
    ) -> Result<DeskHeard, DeskFault>
        requires { verdict_of bytes.now (decide self.old.ids self.old.reg bytes.now heard.now arrived) ≡ Verdict.Open new }
        ensures answer { MatchResult (answer_to (decide self.old.ids self.old.reg bytes.now heard.now arrived) self.old.reg)
            (λ _. IsOkUnless result DeskFault.NoMemory) (λ fault. result ≡ Err fault) }
        ensures told { IfOk result (λ told. answer_to (decide self.old.ids self.old.reg bytes.now heard.now arrived) self.old.reg
            ≡ Ok told) }
        ensures step { OnOk result (self.new ≡ desk_hear self.old bytes.now heard.now arrived) }
        ensures refused { OnErr result (self.new ≡ self.old) }
    {
        let Ok(()) = self.asked.reserve(1) else {
            return Err(DeskFault::NoMemory);
        };
        let Ok(()) = self.known.reserve(1) else {
            return Err(DeskFault::NoMemory);
        };
        let answer = self
            .gather
            .hear_at(Place::Opens, bytes, copy_of(heard), arrived);
        let told = match desk_answer(answer, new.repeat) {
            Ok(told) => told,
            Err(fault) => return Err(fault),
        };
        self.devices[new.asked.device].up = Some(new.counter);
        self.asked.push_reserved(new.asked);
        self.known.push_reserved(Known::NotGiven);
        Ok(told)
    }
}

impl<S: BuildHasher, A: Allocator> Desk<S, A> {
    /// Closes the gathering with the least number of those that are due at `now`, in microseconds of the server's
    /// clock, and answers that number; `None` where none is due, and then nothing changes. Takes no memory.
    pub fn pass(&mut self, now: u64) -> Option<u64>
        ensures answer { result ≡ pass_answer self.old.reg now }
        ensures step { self.new ≡ desk_pass self.old now }
    {
        let number = self.gather.due(now)?;
        self.gather.close(number);
        Some(number)
    }

    /// Whether a gathering is due at `now`, in microseconds of the server's clock: exactly then `pass` closes one. Takes no
    /// memory.
    pub fn is_due(&self, now: u64) -> bool
        ensures { result ≡ is_some (pass_answer self.now.reg now) }
    {
        self.gather.due(now).is_some()
    }

    /// The counters of the device with this address; `None` for an address that no device has. Takes no memory.
    #[tactic(auto, using(crate::proofs::DeskLemmas::by_address))]
    pub fn device(&self, addr: u32) -> Option<Counters>
        ensures { result ≡ option_map (λ found. counters_of found.1) (device_with addr self.now.reg.devices) }
    {
        let place = self.place_of(addr)?;
        Some(self.devices[place].counters())
    }

    /// The payloads that wait for the device with this address, FPort and FRMPayload of each, in the order in which they came;
    /// none for an address that no device has. Takes no memory.
    #[tactic(auto, using(crate::proofs::DeskLemmas::by_address))]
    pub fn waiting(&self, addr: u32) -> &[(u8, Bytes<A>)]
        ensures { result.now ≡ waiting_for (device_with addr self.now.reg.devices) }
    {
        match self.place_of(addr) {
            Some(place) => self.devices[place].queue.as_slice(),
            None => &[],
        }
    }

    /// What is to be done with a copy of an uplink.
    #[tactic(auto, unfolding(crate::specs::Hearing::decide))]
    fn verdict(&self, bytes: &[u8], heard: &Heard1, arrived: u64) -> Verdict
        ensures { result ≡ verdict_of bytes.now (decide self.now.ids self.now.reg bytes.now heard.now arrived) }
    {
        let uplink = match read_uplink(bytes) {
            Ok(uplink) => uplink,
            Err(fault) => return Verdict::Refuse(DeskFault::Frame(fault)),
        };
        if let Some(fault) = copy_fault(&self.gateways, heard, arrived) {
            return Verdict::Refuse(fault);
        }
        match self.gather.place(bytes, heard.gateway, arrived) {
            Ok(Place::Joins(n)) => Verdict::Join(n),
            Ok(Place::Opens) => self.verdict_on(bytes, uplink),
            Err(fault) => Verdict::Refuse(named_fault(fault)),
        }
    }

    /// What is to be done with an uplink that would open a gathering.
    #[tactic(auto, using(crate::proofs::DeskLemmas::by_address))]
    fn verdict_on(&self, bytes: &[u8], uplink: Uplink) -> Verdict
        requires { uplink_of bytes.now ≡ Ok uplink }
        ensures { result ≡ verdict_of bytes.now (decide_device (is_crowded self.now.reg.gathered) bytes.now uplink
            (device_with uplink.addr self.now.reg.devices)) }
    {
        let Some(place) = self.place_of(uplink.addr) else {
            return Verdict::Refuse(DeskFault::UnknownDevice);
        };
        let device = &self.devices[place];
        let Some(counter) = infer(device.up, uplink.low) else {
            return Verdict::Refuse(DeskFault::BadMic);
        };
        if !check_mic(bytes, device.nwk(), counter) {
            return Verdict::Refuse(DeskFault::BadMic);
        }
        if self.gather.is_crowded() {
            return Verdict::Refuse(DeskFault::Crowded);
        }
        Verdict::Open(NewUplink {
            counter,
            repeat: is_last(device.up, counter),
            asked: Asked {
                device: place,
                confirmed: uplink.confirmed,
                adr_ack_req: uplink.adr_ack_req,
            },
        })
    }

    /// The place of the device with this address.
    #[tactic(auto, using(crate::proofs::AddrLemmas::place_found))]
    fn place_of(&self, addr: u32) -> Option<usize>
        ensures { result ≡ option_map (λ found. found.0) (device_with addr self.now.reg.devices) }
    {
        self.addrs.get_index_of(&addr)
    }
}
