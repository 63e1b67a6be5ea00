// Lines of a batch.
ghost use Rattle.std.specs.Prelude.{◌≡◌, ◌++◌, [], ◌∷◌, OnOk};
ghost use Rattle.serve_downlinks.specs.Batch.{addr_in, device_entries, taken_entries, entries_text, sent_of};

use forwarder_sessions::NoMemory;
use rx_windows::Candidate;
use serve_journal::Entry;
use server_core::Counters;
use std::alloc::Allocator;
use text_lines::TextLine;

/// The length in bytes of a frame that carries no payload: MHDR, FHDR without options, and the MIC.
const EMPTY_FRAME: usize = 12;

/// Adds the line of an entry, with its end. Err(NoMemory) where an allocation was refused.
pub fn add_entry<A: Allocator>(batch: &mut Vec<u8, A>, entry: &Entry) -> Result<(), NoMemory>
    ensures { OnOk result (batch.new.items ≡ batch.old.items ++ entries_text (entry.now ∷ [])) }
{
    let mut line = TextLine::new();
    entry.write(&mut line);
    Ok(batch.extend_from_slice(line.as_slice())?)
}

/// Adds the counters of a device, where they and its session are known.
pub(crate) fn add_device<A: Allocator>(
    batch: &mut Vec<u8, A>,
    addr: u32,
    counters: Option<Counters>,
    session: Option<[u8; 4]>,
) -> Result<(), NoMemory>
    ensures { OnOk result (batch.new.items ≡ batch.old.items ++ entries_text (device_entries addr counters session)) }
{
    match (counters, session) {
        (Some(counters), Some(session)) => add_entry(
            batch,
            &Entry::Device {
                addr,
                session,
                up: counters.up,
                down: counters.down,
            },
        ),
        _ => Ok(()),
    }
}

/// Adds that a payload went along, where the frame has room for one.
pub(crate) fn add_taken<A: Allocator>(
    batch: &mut Vec<u8, A>,
    addr: u32,
    frame: &[u8],
) -> Result<(), NoMemory>
    ensures { OnOk result (batch.new.items ≡ batch.old.items ++ entries_text (taken_entries addr frame.now)) }
{
    if frame.len() <= EMPTY_FRAME {
        return Ok(());
    }
    add_entry(batch, &Entry::Taken { addr })
}

/// Adds what was booked.
pub(crate) fn add_sent<A: Allocator>(
    batch: &mut Vec<u8, A>,
    candidate: &Candidate,
) -> Result<(), NoMemory>
    ensures { OnOk result (batch.new.items ≡ batch.old.items ++ entries_text (sent_of candidate.now ∷ [])) }
{
    let entry = Entry::Sent {
        id: candidate.gateway,
        start: candidate.start,
        freq_hz: candidate.freq_hz,
        rate: candidate.rate,
        len: candidate.len,
    };
    add_entry(batch, &entry)
}

/// DevAddr of a PHYPayload (LoRaWAN L2 1.0.4, section 4). None: it has fewer than 5 bytes.
pub(crate) fn addr_in(frame: &[u8]) -> Option<u32>
    ensures { result ≡ addr_in frame.now }
{
    match frame {
        [_, a, b, c, d, ..] => Some(u32::from_le_bytes([*a, *b, *c, *d])),
        _ => None,
    }
}
