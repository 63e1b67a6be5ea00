// The lines of a turn.
ghost use Rattle.std.specs.Prelude.{◌≡◌, ◌++◌, [], ◌∷◌, length, map, OnOk, IfOk, string_bytes};
ghost use Rattle.text_lines.specs.Line.{text_of};
ghost use Rattle.run_lines.specs.ReplayText.{entry_lines};
ghost use Rattle.forwarder_packets.specs.TxAck.{failure};
ghost use Rattle.serve_downlinks.specs.Downlinks.{to_send};
ghost use Rattle.serve_downlinks.specs.Fates.{fate_of};
ghost use Rattle.serve_turns.specs.Lines.{session_line, ack_line, drop_line, asked_line, eui_digits};
ghost use Rattle.serve_turns.specs.Sending.{failed_line, kept_back, kept_back_by, unsent, unsent_line, unwritten, unwritten_line};

use crate::asking::PullResp;
use crate::tally::Tally;
use event_lines::event_line;
use forwarder_sessions::{NoMemory, Session, TxAck};
use run_lines::write_entries;
use serve_downlinks::{Downlink, Fate, fate_of};
use server_core::{Entry, Event};
use std::alloc::{AllocError, Allocator};
use text_lines::StdOut;

/// The text of a turn so far.
pub(crate) type Text<A> = StdOut<Vec<u8, A>>;

/// Adds bytes.
fn put<A: Allocator>(text: &mut Text<A>, bytes: &[u8]) -> Result<(), NoMemory>
    ensures { OnOk result (text.new.writer.items ≡ text.old.writer.items ++ bytes.now) }
{
    Ok(text.writer.extend_from_slice(bytes)?)
}

/// Adds a line.
fn put_line<A: Allocator>(text: &mut Text<A>, line: &[u8]) -> Result<(), NoMemory>
    ensures { OnOk result (text.new.writer.items ≡ text.old.writer.items ++ text_of (line.now ∷ [])) }
{
    put(text, line)?;
    put(text, b"\n")
}

/// Adds the line that a session of this gateway begins at a moment of its clock, in microseconds.
pub(crate) fn put_session<A: Allocator + Copy>(
    alloc: A,
    text: &mut Text<A>,
    gateway: u16,
    at: u64,
) -> Result<(), NoMemory>
    ensures { OnOk result (text.new.writer.items ≡ text.old.writer.items ++ text_of (session_line gateway at ∷ [])) }
{
    let line = format!(in alloc; "session {gateway} {at}")?;
    put_line(text, line.as_bytes())
}

/// Adds the line of what a gateway told of the transmission with this token.
pub(crate) fn put_ack<A: Allocator + Copy>(
    alloc: A,
    text: &mut Text<A>,
    token: u16,
    gateway: u16,
    ack: &TxAck<A>,
) -> Result<(), NoMemory>
    ensures { OnOk result
        (text.new.writer.items ≡ text.old.writer.items ++ text_of (ack_line token gateway (failure ack.now) ∷ [])) }
{
    match ack {
        TxAck::Acked => put_line(
            text,
            format!(in alloc; "acked {token} {gateway}")?.as_bytes(),
        ),
        TxAck::Failed(name) => {
            put(
                text,
                format!(in alloc; "failed {token} {gateway} ")?.as_bytes(),
            )?;
            put_line(text, name.as_slice())
        }
    }
}

/// Adds a line for each reason for which something was dropped.
pub(crate) fn put_drops<A: Allocator + Copy>(
    alloc: A,
    text: &mut Text<A>,
    drops: &[Tally],
) -> Result<(), NoMemory>
    ensures { OnOk result (text.new.writer.items ≡ text.old.writer.items ++ text_of (map drop_line drops.now)) }
{
    for tally in drops {
        put_drop(alloc, text, tally)?;
    }
    Ok(())
}

/// Adds the line of one of them.
fn put_drop<A: Allocator + Copy>(
    alloc: A,
    text: &mut Text<A>,
    tally: &Tally,
) -> Result<(), NoMemory>
    ensures { OnOk result (text.new.writer.items ≡ text.old.writer.items ++ text_of (drop_line tally.now ∷ [])) }
{
    let count = tally.count;
    let eui = eui_text(alloc, tally.last)?;
    put(text, b"dropped ")?;
    put(text, tally.name)?;
    put_line(text, format!(in alloc; " {count} {eui}")?.as_bytes())
}

/// An EUI in hexadecimal digits, or a dash for none.
fn eui_text<A: Allocator>(alloc: A, eui: Option<[u8; 8]>) -> Result<String<A>, NoMemory>
    ensures { IfOk result (λ text. string_bytes text ≡ eui_digits eui) }
{
    match eui {
        Some(eui) => hex::encode(alloc, eui),
        None => String::from_str(alloc, "-"),
    }
}

/// Adds the line that asks for an event, behind a `>`, and the lines that answer it.
pub(crate) fn put_event<A: Allocator + Copy>(
    alloc: A,
    text: &mut Text<A>,
    event: &Event<A>,
    entries: &[Entry<A>],
) -> Result<(), NoMemory>
    ensures { OnOk result (text.new.writer.items
        ≡ text.old.writer.items ++ text_of (asked_line event.now ∷ entry_lines entries.now)) }
{
    let line = event_line(alloc, event)?;
    put(text, b"> ")?;
    put_line(text, line.as_bytes())?;
    match write_entries(entries, text) {
        Ok(_) => Ok(()),
        // A vector takes all bytes unless a growth is refused.
        Err(_) => Err(AllocError),
    }
}

/// Adds the line that a downlink is not sent, and why.
fn put_failed<A: Allocator + Copy>(
    alloc: A,
    text: &mut Text<A>,
    downlink: &Downlink<'_>,
    name: &str,
) -> Result<(), NoMemory>
    ensures { OnOk result (text.new.writer.items
        ≡ text.old.writer.items ++ text_of (failed_line (to_send downlink.now) name.now ∷ [])) }
{
    let number = downlink.number;
    let gateway = downlink.candidate.gateway;
    let line = format!(in alloc; "failed {number} {gateway} {name}")?;
    put_line(text, line.as_bytes())
}

/// Adds the lines of the downlinks that may not be sent.
pub(crate) fn put_kept_back<A: Allocator + Copy>(
    alloc: A,
    text: &mut Text<A>,
    sessions: &[Session],
    downlinks: &[Downlink<'_>],
) -> Result<(), NoMemory>
    ensures { OnOk result (text.new.writer.items
        ≡ text.old.writer.items ++ text_of (kept_back sessions.now (map to_send downlinks.now))) }
{
    for downlink in downlinks {
        put_if_kept_back(alloc, text, sessions, downlink)?;
    }
    Ok(())
}

/// Adds that of one, if it may not be sent.
fn put_if_kept_back<A: Allocator + Copy>(
    alloc: A,
    text: &mut Text<A>,
    sessions: &[Session],
    downlink: &Downlink<'_>,
) -> Result<(), NoMemory>
    ensures { OnOk result (text.new.writer.items ≡ text.old.writer.items
        ++ text_of (kept_back_by (to_send downlink.now) (fate_of (to_send downlink.now) sessions.now))) }
{
    match fate_of(downlink, sessions) {
        Fate::Barred => put_failed(alloc, text, downlink, "Session"),
        Fate::Unreachable => put_failed(alloc, text, downlink, "Unsent"),
        Fate::Sendable { .. } => Ok(()),
    }
}

/// Adds the lines of PULL_RESPs that are not sent, since the journal can't be written.
pub(crate) fn put_unwritten<A: Allocator + Copy>(
    alloc: A,
    text: &mut Text<A>,
    asks: &[PullResp<'_, A>],
) -> Result<(), NoMemory>
    ensures { OnOk result (text.new.writer.items ≡ text.old.writer.items ++ text_of (unwritten asks.now)) }
{
    for ask in asks {
        put_unwritten_one(alloc, text, ask)?;
    }
    Ok(())
}

/// Adds that of one.
fn put_unwritten_one<A: Allocator + Copy>(
    alloc: A,
    text: &mut Text<A>,
    ask: &PullResp<'_, A>,
) -> Result<(), NoMemory>
    ensures { OnOk result (text.new.writer.items
        ≡ text.old.writer.items ++ text_of (unwritten_line ask.now ∷ [])) }
{
    put_failed(alloc, text, &ask.downlink, "Journal")
}

/// Adds the lines of PULL_RESPs that did not go out; `went` tells which did.
pub(crate) fn put_unsent<A: Allocator + Copy>(
    alloc: A,
    text: &mut Text<A>,
    asks: &[PullResp<'_, A>],
    went: &[bool],
) -> Result<(), NoMemory>
    requires { length went.now ≡ length asks.now }
    ensures { OnOk result (text.new.writer.items ≡ text.old.writer.items ++ text_of (unsent asks.now went.now)) }
{
    for place in 0..asks.len() {
        put_if_unsent(alloc, text, &asks[place], went[place])?;
    }
    Ok(())
}

/// Adds that of one, if it did not go out.
fn put_if_unsent<A: Allocator + Copy>(
    alloc: A,
    text: &mut Text<A>,
    ask: &PullResp<'_, A>,
    went: bool,
) -> Result<(), NoMemory>
    ensures { OnOk result (text.new.writer.items
        ≡ text.old.writer.items ++ text_of (unsent_line (ask.now, went))) }
{
    if went {
        return Ok(());
    }
    put_failed(alloc, text, &ask.downlink, "Unsent")
}
