// What a program on the machine itself asks a server for.
ghost use Rattle.std.specs.Prelude.{◌≡◌, map, IfOk};
ghost use Rattle.run_lines.specs.RunInput.{without_end};
ghost use Rattle.run_lines.specs.RunWords.{addr_word, hex_word};
ghost use Rattle.serve_turns.specs.Control.{event_of};
ghost use Rattle.serve_turns.specs.Command.{begins_otherwise, command_of, is_control, line_command, queue_command, report_command, worded_command};

use answer_ticket::Bytes;
use forwarder_sessions::{Endpoint, NoMemory};
use hex::{FromHex, FromHexError};
use server_core::Event;
use std::alloc::{AllocError, Allocator};
use text_lines::{Words, is_too_long, is_word, number_u8};

/// The first byte of what packet forwarders send: the version of their protocol.
const VERSION: u8 = 2;

/// The first byte of the machine's own addresses (RFC 1122, section 3.2.1.3).
const OWN: u8 = 127;

/// What a program asks for.
#[derive(Drop)]
pub(crate) enum Command<A: Allocator> {
    /// `queue ADDR PORT HEX`: that a payload waits.
    Queue(ToQueue<A>),
    /// `report`: what the gateways' books hold, and how many uplinks were answered.
    Report,
}

/// A payload that is to wait.
#[derive(Drop)]
pub(crate) struct ToQueue<A: Allocator> {
    /// DevAddr of its device.
    pub(crate) addr: u32,
    /// FPort.
    pub(crate) port: u8,
    /// FRMPayload before it is encrypted.
    pub(crate) payload: Bytes<A>,
}

impl<A: Allocator> ToQueue<A> {
    /// The event by which it is queued.
    pub(crate) fn into_event(self) -> Event<A>
        ensures { result ≡ event_of self }
    {
        let ToQueue {
            addr,
            port,
            payload,
        } = self;
        Event::Queue {
            addr,
            port,
            payload,
        }
    }
}

/// Whether a datagram is that of a program on the machine itself, and of no packet forwarder.
pub(crate) fn is_control(source: Endpoint, bytes: &[u8]) -> bool
    ensures { result ≡ is_control (record { source = source; bytes = bytes.now }) }
{
    source.ip[0] == OWN && begins_otherwise(bytes)
}

/// Whether bytes begin with another one than those of a packet forwarder.
fn begins_otherwise(bytes: &[u8]) -> bool
    ensures { result ≡ begins_otherwise bytes.now }
{
    match bytes {
        [first, ..] => *first != VERSION,
        [] => false,
    }
}

/// What a datagram asks for: a line of at most 1,024 bytes without its end, which may be left out. None: it asks for nothing.
pub(crate) fn read_command<A: Allocator>(
    alloc: A,
    datagram: &[u8],
) -> Result<Option<Command<A>>, NoMemory>
    ensures { IfOk result (λ command. command ≡ command_of datagram.now) }
{
    line_command(alloc, without_end(datagram))
}

/// A line without the line feed that ends it, if one does, and without the carriage return before that.
fn without_end(line: &[u8]) -> &[u8]
    ensures { result.now ≡ without_end line.now }
{
    match line {
        [line @ .., b'\r', b'\n'] => line,
        [line @ .., b'\n'] => line,
        _ => line,
    }
}

/// What a line asks for, its end left out.
fn line_command<A: Allocator>(alloc: A, line: &[u8]) -> Result<Option<Command<A>>, NoMemory>
    ensures { IfOk result (λ command. command ≡ line_command line.now) }
{
    if is_too_long(line) {
        return Ok(None);
    }
    worded_command(alloc, Words::of(line).as_slice())
}

/// What the words ask for, if they ask for something.
fn worded_command<A: Allocator>(alloc: A, words: &[&[u8]]) -> Result<Option<Command<A>>, NoMemory>
    ensures { IfOk result (λ command. command ≡ worded_command (map (λ word. word.now) words.now)) }
{
    match words {
        [name, rest @ ..] if is_word(name, b"queue") => queue_command(alloc, rest),
        [name, rest @ ..] if is_word(name, b"report") => Ok(report_command(rest)),
        _ => Ok(None),
    }
}

/// The report that is asked for, where no words follow.
fn report_command<A: Allocator>(words: &[&[u8]]) -> Option<Command<A>>
    ensures { result ≡ report_command (map (λ word. word.now) words.now) }
{
    match words {
        [] => Some(Command::Report),
        _ => None,
    }
}

/// The payload whose words follow `queue`.
fn queue_command<A: Allocator>(alloc: A, words: &[&[u8]]) -> Result<Option<Command<A>>, NoMemory>
    ensures { IfOk result (λ command. command ≡ queue_command (map (λ word. word.now) words.now)) }
{
    let [addr, port, payload] = words else {
        return Ok(None);
    };
    let (Some(addr), Some(port)) = (addr_word(addr), number_u8(port)) else {
        return Ok(None);
    };
    match hex_word(alloc, payload)? {
        Some(payload) => Ok(Some(Command::Queue(ToQueue {
            addr,
            port,
            payload,
        }))),
        None => Ok(None),
    }
}

/// ADDR: an address of 8 hexadecimal digits, the most significant first.
fn addr_word(word: &[u8]) -> Option<u32>
    ensures { result ≡ addr_word word.now }
{
    let bytes = <[u8; 4] as FromHex>::from_hex(word).ok()?;
    Some(u32::from_be_bytes(bytes))
}

/// HEX: two hexadecimal digits for each byte, or `-` for none.
fn hex_word<A: Allocator>(alloc: A, word: &[u8]) -> Result<Option<Bytes<A>>, NoMemory>
    ensures { IfOk result (λ bytes. bytes ≡ hex_word word.now) }
{
    if let [b'-'] = word {
        return Ok(Some(Bytes::new(Vec::new(alloc))));
    }
    match hex::decode(alloc, word) {
        Ok(bytes) => Ok(Some(Bytes::new(bytes))),
        Err(FromHexError::OutOfMemory) => Err(AllocError),
        Err(_) => Ok(None),
    }
}
