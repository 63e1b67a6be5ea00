// The packets of a PUSH_DATA.
ghost use Rattle.std.specs.Prelude.{◌≡◌, ◌≢◌, ◌++◌, length, map, Some, Ok, Err, IfOk, IfErr, OnOk};
ghost use Rattle.json.specs.Value.{value_view};
ghost use Rattle.forwarder_packets.specs.Entry.{entry_of};
ghost use Rattle.forwarder_packets.specs.Entries.{outdoes, is_outdone, is_ghost, ghosts, unless_ghost, unless_ghosts, without_ghosts};
ghost use Rattle.forwarder_packets.specs.Entries.{too_many, entries_of, of_array, of_document, packets_of};
ghost use Rattle.json.specs.Json.{document};
ghost use Rattle.json.specs.Find.{as_array};
ghost use Rattle.forwarder_packets.specs.Seen.{received, shown};

use crate::EntryFault;
use crate::packet::{Entry, NoMemory, Packet, read_entry};
use json::{Scratch, Value};
use std::alloc::Allocator;
use thiserror::Error;

/// How many packets of a datagram are read.
const MOST_PACKETS: usize = 32;

/// Why no packets are read of a PUSH_DATA.
#[derive(Clone, Copy, Debug, PartialEq, Eq, Error)]
pub enum PushFault {
    /// It is no JSON object, or its `rxpk` is no array.
    #[error("the datagram tells no JSON object, or its rxpk is no array")]
    Json,
    /// An allocation was refused.
    #[error("there is no memory for the packets")]
    NoMemory,
}

/// What becomes of the packets that a PUSH_DATA tells behind its head, in the order of its `rxpk`: each is heard, or dropped for
/// its first fault. Of doubled keys the last counts. The scratch is room for the reader, to be kept from one datagram to the
/// next. Err(NoMemory) where an allocation was refused.
pub fn read_packets<A: Allocator + Copy, B: Allocator>(
    alloc: A,
    scratch: &mut Scratch<B>,
    bytes: &[u8],
) -> Result<Vec<Entry<A>, A>, PushFault>
    ensures packets { IfOk result (λ entries. packets_of bytes.now ≡ Ok (map received entries.items)) }
    ensures fault { IfErr result (λ fault. fault ≢ PushFault.NoMemory → packets_of bytes.now ≡ Err fault) }
{
    match std::str::from_utf8(bytes) {
        Err(_) => Err(PushFault::Json),
        Ok(text) => read_text(alloc, scratch, text),
    }
}

/// The same of a text.
fn read_text<A: Allocator + Copy, B: Allocator>(
    alloc: A,
    scratch: &mut Scratch<B>,
    text: &str,
) -> Result<Vec<Entry<A>, A>, PushFault>
    ensures packets { IfOk result (λ entries. of_document (document text.now) ≡ Ok (map received entries.items)) }
    ensures fault { IfErr result (λ fault. fault ≢ PushFault.NoMemory → of_document (document text.now) ≡ Err fault) }
{
    match Value::parse(alloc, text, scratch) {
        Ok(value) => read_document(alloc, &value),
        Err(json::Error::OutOfMemory) => Err(PushFault::NoMemory),
        Err(_) => Err(PushFault::Json),
    }
}

/// The same of a document.
fn read_document<A: Allocator + Copy, B: Allocator>(
    alloc: A,
    document: &Value<'_, B>,
) -> Result<Vec<Entry<A>, A>, PushFault>
    ensures packets { IfOk result (λ entries. of_document (Some (value_view document.now)) ≡ Ok (map received entries.items)) }
    ensures fault { IfErr result (λ fault. fault ≢ PushFault.NoMemory → of_document (Some (value_view document.now)) ≡ Err fault) }
{
    let Value::Object(_) = document else {
        return Err(PushFault::Json);
    };
    match document.get("rxpk") {
        None => Ok(Vec::new(alloc)),
        Some(packets) => read_rxpk(alloc, packets),
    }
}

/// The same of what `rxpk` is.
fn read_rxpk<A: Allocator + Copy, B: Allocator>(
    alloc: A,
    packets: &Value<'_, B>,
) -> Result<Vec<Entry<A>, A>, PushFault>
    ensures packets { IfOk result (λ entries. of_array (as_array (value_view packets.now)) ≡ Ok (map received entries.items)) }
    ensures fault { IfErr result (λ fault. fault ≢ PushFault.NoMemory → of_array (as_array (value_view packets.now)) ≡ Err fault) }
{
    match packets {
        Value::Array(items) => match read_array(alloc, items) {
            Ok(entries) => Ok(entries),
            Err(_) => Err(PushFault::NoMemory),
        },
        _ => Err(PushFault::Json),
    }
}

/// What becomes of the packets of an array.
fn read_array<A: Allocator + Copy, B: Allocator>(
    alloc: A,
    items: &[Value<'_, B>],
) -> Result<Vec<Entry<A>, A>, NoMemory>
    ensures { IfOk result (λ entries. map received entries.items ≡ entries_of (map value_view items.now)) }
{
    let count = MOST_PACKETS.min(items.len());
    let mut entries = without_ghosts(alloc, read_each(alloc, &items[..count])?)?;
    add_too_many(&mut entries, &items[count..])?;
    Ok(entries)
}

/// These entries, of which the ghosts are dropped.
fn without_ghosts<A: Allocator + Copy>(
    alloc: A,
    entries: Vec<Entry<A>, A>,
) -> Result<Vec<Entry<A>, A>, NoMemory>
    ensures { IfOk result (λ left. map received left.items ≡ without_ghosts (map received entries.items)) }
{
    let mut entries = entries;
    let ghosts = ghosts_of(alloc, &entries)?;
    drop_ghosts(&mut entries, &ghosts);
    Ok(entries)
}

/// What each packet of an array tells.
fn read_each<A: Allocator + Copy, B: Allocator>(
    alloc: A,
    items: &[Value<'_, B>],
) -> Result<Vec<Entry<A>, A>, NoMemory>
    ensures { IfOk result (λ entries. map received entries.items ≡ map entry_of (map value_view items.now)) }
{
    let mut entries = Vec::new(alloc);
    for item in items {
        entries.push(read_entry(alloc, item)?)?;
    }
    Ok(entries)
}

/// Adds an entry for each packet that is one too many.
fn add_too_many<A: Allocator + Copy, B: Allocator>(
    entries: &mut Vec<Entry<A>, A>,
    items: &[Value<'_, B>],
) -> Result<(), NoMemory>
    ensures { OnOk result (map received entries.new.items
        ≡ map received entries.old.items ++ map too_many (map value_view items.now)) }
{
    for _item in items {
        entries.push(Entry::Dropped(EntryFault::Many))?;
    }
    Ok(())
}

/// Whether one of these entries outdoes the packet at a place.
fn is_outdone<A: Allocator>(entries: &[Entry<A>], at: usize, packet: &Packet<A>) -> bool
    ensures { result ≡ is_outdone 0 (map received entries.now) at (shown packet.now) }
{
    for (place, entry) in entries.iter().enumerate() {
        if outdoes(place, entry, at, packet) {
            return true;
        }
    }
    false
}

/// Whether an entry has the same bytes as the packet at another place, and was received better, or as well and stands before it.
fn outdoes<A: Allocator>(place: usize, entry: &Entry<A>, at: usize, packet: &Packet<A>) -> bool
    ensures { result ≡ outdoes place (received entry.now) at (shown packet.now) }
{
    match entry {
        Entry::Heard(other) => {
            other.bytes.as_slice() == packet.bytes.as_slice()
                && (packet.snr < other.snr || (packet.snr == other.snr && place < at))
        }
        Entry::Dropped(_) => false,
    }
}

/// Of each entry whether it is a packet that another one outdoes.
fn ghosts_of<A: Allocator + Copy>(alloc: A, entries: &[Entry<A>]) -> Result<Vec<bool, A>, NoMemory>
    ensures ghosts { IfOk result (λ found. found.items ≡ ghosts (map received entries.now) 0 (map received entries.now)) }
    ensures count { IfOk result (λ found. length found.items ≡ length entries.now) }
{
    let mut found = Vec::new(alloc);
    for (at, entry) in entries.iter().enumerate() {
        found.push(is_ghost(entries, at, entry))?;
    }
    Ok(found)
}

/// Whether the entry at a place is a packet that another one outdoes.
fn is_ghost<A: Allocator>(entries: &[Entry<A>], at: usize, entry: &Entry<A>) -> bool
    ensures { result ≡ is_ghost (map received entries.now) at (received entry.now) }
{
    match entry {
        Entry::Heard(packet) => is_outdone(entries, at, packet),
        Entry::Dropped(_) => false,
    }
}

/// Drops the entries that are ghosts.
fn drop_ghosts<A: Allocator>(entries: &mut [Entry<A>], ghosts: &[bool])
    requires { length entries.old ≡ length ghosts.now }
    ensures { map received entries.new ≡ unless_ghosts ghosts.now (map received entries.old) }
{
    for (at, is_ghost) in ghosts.iter().enumerate() {
        drop_if(&mut entries[at], *is_ghost);
    }
}

/// Drops an entry that is a ghost.
fn drop_if<A: Allocator>(entry: &mut Entry<A>, is_ghost: bool)
    ensures { received entry.new ≡ unless_ghost is_ghost (received entry.old) }
{
    if is_ghost {
        *entry = Entry::Dropped(EntryFault::Ghost);
    }
}
