// What a gateway tells of a transmission that it was handed.
ghost use Rattle.std.specs.Prelude.{◌≡◌, Some, IfOk, codes};
ghost use Rattle.std.specs.List.{list_all};
ghost use Rattle.json.specs.Json.{document};
ghost use Rattle.json.specs.Value.{value_view};
ghost use Rattle.json.specs.Find.{as_str, get};
ghost use Rattle.forwarder_packets.specs.TxAck.{failure, is_of_name, is_name, failure_as, failure_of_error};
ghost use Rattle.forwarder_packets.specs.TxAck.{failure_of_ack, failure_of_document, failure_of_text, failure_of};

use crate::packet::NoMemory;
use json::{Scratch, Value};
use std::alloc::{AllocError, Allocator};

/// How many bytes the name of an error has at most.
const MOST_OF_NAME: usize = 32;

/// What is told instead of an error without a name.
const OTHER: &str = "Other";

/// What a gateway tells of a transmission that it was handed.
#[derive(Drop)]
pub enum TxAck<A: Allocator> {
    /// It goes on air.
    Acked,
    /// It doesn't: the error's name, which is 1 to 32 of `A` to `Z`, `0` to `9` and `_`, or `Other` where it has none such.
    Failed(Vec<u8, A>),
}

/// What a TX_ACK tells behind its head: nothing, or a JSON object whose `txpk_ack` has no `error` or one of `NONE`, says that the
/// transmission goes on air. Of doubled keys the last counts. The scratch is room for the reader, to be kept from one datagram to
/// the next. Err(NoMemory) where an allocation was refused.
pub fn read_tx_ack<A: Allocator + Copy, B: Allocator>(
    alloc: A,
    scratch: &mut Scratch<B>,
    bytes: &[u8],
) -> Result<TxAck<A>, NoMemory>
    ensures { IfOk result (λ ack. failure ack ≡ failure_of bytes.now) }
{
    if bytes.is_empty() {
        return Ok(TxAck::Acked);
    }
    read_bytes(alloc, scratch, bytes)
}

/// The same of bytes that are there.
fn read_bytes<A: Allocator + Copy, B: Allocator>(
    alloc: A,
    scratch: &mut Scratch<B>,
    bytes: &[u8],
) -> Result<TxAck<A>, NoMemory>
    ensures { IfOk result (λ ack. failure ack ≡ failure_of_text bytes.now) }
{
    match std::str::from_utf8(bytes) {
        Err(_) => failed(alloc, OTHER),
        Ok(text) => read_text(alloc, scratch, text),
    }
}

/// The same of a text.
fn read_text<A: Allocator + Copy, B: Allocator>(
    alloc: A,
    scratch: &mut Scratch<B>,
    text: &str,
) -> Result<TxAck<A>, NoMemory>
    ensures { IfOk result (λ ack. failure ack ≡ failure_of_document (document text.now)) }
{
    match Value::parse(alloc, text, scratch) {
        Ok(value) => read_document(alloc, &value),
        Err(json::Error::OutOfMemory) => Err(AllocError),
        Err(_) => failed(alloc, OTHER),
    }
}

/// The same of a document.
fn read_document<A: Allocator, B: Allocator>(
    alloc: A,
    document: &Value<'_, B>,
) -> Result<TxAck<A>, NoMemory>
    ensures { IfOk result (λ ack. failure ack ≡ failure_of_document (Some (value_view document.now))) }
{
    let Value::Object(_) = document else {
        return failed(alloc, OTHER);
    };
    match document.get("txpk_ack") {
        None => Ok(TxAck::Acked),
        Some(ack) => read_ack(alloc, ack),
    }
}

/// The same of what `txpk_ack` is.
fn read_ack<A: Allocator, B: Allocator>(alloc: A, ack: &Value<'_, B>) -> Result<TxAck<A>, NoMemory>
    ensures { IfOk result (λ told. failure told ≡ failure_of_error (get (codes "error") (value_view ack.now))) }
{
    match ack.get("error") {
        None => Ok(TxAck::Acked),
        Some(error) => read_error(alloc, error),
    }
}

/// The same of what `error` is.
fn read_error<A: Allocator, B: Allocator>(
    alloc: A,
    error: &Value<'_, B>,
) -> Result<TxAck<A>, NoMemory>
    ensures { IfOk result (λ ack. failure ack ≡ failure_as (as_str (value_view error.now))) }
{
    match error.as_str() {
        None => failed(alloc, OTHER),
        Some("NONE") => Ok(TxAck::Acked),
        Some(name) if is_name(name.as_bytes()) => failed(alloc, name),
        Some(_) => failed(alloc, OTHER),
    }
}

fn is_name(text: &[u8]) -> bool
    ensures { result ≡ is_name text.now }
{
    !text.is_empty() && text.len() <= MOST_OF_NAME && are_of_name(text)
}

fn are_of_name(text: &[u8]) -> bool
    ensures { result ≡ list_all is_of_name text.now }
{
    text.iter().all(|byte| byte.is_ascii_uppercase() || byte.is_ascii_digit() || *byte == b'_')
}

/// What tells of the error with this name.
fn failed<A: Allocator>(alloc: A, name: &str) -> Result<TxAck<A>, NoMemory>
    ensures { IfOk result (λ ack. failure ack ≡ Some name.now) }
{
    let mut copy = Vec::new(alloc);
    copy.extend_from_slice(name.as_bytes())?;
    Ok(TxAck::Failed(copy))
}
