// What a server does with a datagram.
ghost use Rattle.std.specs.Prelude.{◌≡◌, ◌≤◌, ◌^◌, map, slice_get, OnOk};
ghost use Rattle.forwarder_packets.specs.Seen.{received, shown as shown_packet};
ghost use Rattle.forwarder_packets.specs.TxAck.{failure};
ghost use Rattle.forwarder_sessions.specs.Received.{shown_news, shown_packets};
ghost use Rattle.serve_turns.specs.Life.{Makes, IsReady};
ghost use Rattle.serve_turns.specs.Taking.{hear_event, after_entry, after_entries, after_packet, after_packets, after_ack, after_news};

use crate::answerer::Answerer;
use crate::names::{datagram_name, entry_name, push_name};
use crate::telling::put_ack;
use answer_ticket::Bytes;
use forwarder_sessions::{Entry, News, NoMemory, Packet, PushDropped, TxAck};
use server_core::{Event, Heard1};
use std::alloc::Allocator;
use std::hash::BuildHasher;

impl<S: BuildHasher, A: Allocator + Copy> Answerer<S, A> {
    /// Does what a datagram tells that came when the server's clock showed `now`, in microseconds and at most 2^60.
    pub(crate) fn take_news(&mut self, now: u64, news: News<A>) -> Result<(), NoMemory>
        requires early { now ≤ 2 ^ 60 }
        requires ready { IsReady self.old }
        ensures { OnOk result (Makes (after_news A now (shown_news news)) self.old self.new) }
    {
        match news {
            News::Dropped { fault, eui } => self.drop_one(datagram_name(fault), eui),
            News::Pulled { .. } => Ok(()),
            News::Pushed { place, packets } => self.take_packets(now, place, packets),
            News::Told { place, token, ack } => self.take_ack(place, token, &ack),
        }
    }

    /// Takes in the packets of the gateway at this place, or counts why they were not read.
    fn take_packets(
        &mut self,
        now: u64,
        place: usize,
        packets: Result<Vec<Entry<A>, A>, PushDropped>,
    ) -> Result<(), NoMemory>
        requires early { now ≤ 2 ^ 60 }
        requires ready { IsReady self.old }
        ensures { OnOk result (Makes (after_packets A now place (shown_packets packets)) self.old self.new) }
    {
        match packets {
            Ok(entries) => self.take_entries(now, place, entries),
            Err(fault) => {
                let eui = self.eui_at(place);
                self.drop_one(push_name(fault), eui)
            }
        }
    }

    /// Takes in packets of the gateway at this place, one after another.
    fn take_entries(
        &mut self,
        now: u64,
        place: usize,
        entries: Vec<Entry<A>, A>,
    ) -> Result<(), NoMemory>
        requires early { now ≤ 2 ^ 60 }
        requires ready { IsReady self.old }
        ensures { OnOk result (Makes (after_entries A now place (map received entries.items)) self.old self.new) }
    {
        for entry in entries {
            self.take_entry(now, place, entry)?;
        }
        Ok(())
    }

    /// Takes in a packet of the gateway at this place, or counts why it was dropped.
    fn take_entry(&mut self, now: u64, place: usize, entry: Entry<A>) -> Result<(), NoMemory>
        requires early { now ≤ 2 ^ 60 }
        requires ready { IsReady self.old }
        ensures { OnOk result (Makes (after_entry A now place (received entry)) self.old self.new) }
    {
        match entry {
            Entry::Heard(packet) => self.take_packet(now, place, packet),
            Entry::Dropped(fault) => {
                let eui = self.eui_at(place);
                self.drop_one(entry_name(fault), eui)
            }
        }
    }

    /// Takes in a packet that the gateway at this place heard.
    fn take_packet(&mut self, now: u64, place: usize, packet: Packet<A>) -> Result<(), NoMemory>
        requires early { now ≤ 2 ^ 60 }
        requires ready { IsReady self.old }
        ensures { OnOk result (Makes (after_packet A now place (shown_packet packet)) self.old self.new) }
    {
        let Some(forwarder) = self.forwarder_at(place) else {
            return Ok(());
        };
        let placed = self.forwarders.hear(place, packet.tmst, now);
        self.tell_session(forwarder.gateway, placed)?;
        let event = hear_event(forwarder.gateway, placed.at, now, packet);
        self.copy(forwarder.eui, place, &event)
    }

    /// Tells what the gateway at this place told of the transmission with this token.
    fn take_ack(&mut self, place: usize, token: u16, ack: &TxAck<A>) -> Result<(), NoMemory>
        requires { IsReady self.old }
        ensures { OnOk result (Makes (after_ack place token (failure ack.now)) self.old self.new) }
    {
        let Some(forwarder) = self.forwarder_at(place) else {
            return Ok(());
        };
        put_ack(self.alloc, &mut self.text, token, forwarder.gateway, ack)
    }
}

/// The event that this gateway heard a packet at a moment of its clock, which came when the server's clock showed `now`.
fn hear_event<A: Allocator>(gateway: u16, at: u64, now: u64, packet: Packet<A>) -> Event<A>
    ensures { result ≡ hear_event gateway at now (shown_packet packet) }
{
    let heard = Heard1 {
        gateway,
        at,
        freq_hz: packet.freq_hz,
        rate: packet.rate.number(),
        snr: packet.snr,
        rssi: packet.rssi,
    };
    Event::Hear {
        bytes: Bytes::new(packet.bytes),
        heard,
        arrived: now,
    }
}
