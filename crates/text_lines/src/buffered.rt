// A source of bytes that reads ahead of its caller, and counts what it gives.
ghost use Rattle.std.specs.Prelude.{◌≡◌, ℕ, ◌+◌, ◌≤◌, min, List, [], None, IfOk, OnOk, OnErr};
ghost use Rattle.std.specs.Io.{ReadsAtMost};
ghost use Rattle.std.specs.Io.KnownBytes.{Keeps, IsAtEnd, ReadConsumes};
ghost use Rattle.std.specs.Option.{ForSome};
ghost use Rattle.std.specs.declared.option.Option.{Option};
ghost use Rattle.text_lines.specs.Ahead.{unread};
ghost use Rattle.text_lines.specs.Calls.{CountsFailure};
ghost use Rattle.text_lines.specs.Rest.{IsRest};

use super::ahead::{INPUT_LIMIT, InFault, ReadAhead};
use super::byte_in::{ByteIn, CallFailed};
use std::marker::{Brand, PhantomData};

/// What an input is that is read through others.
pub trait Origin {
    // Which reader is borrowed, where one is.
    ghost place: { ℕ };

    // The bytes from the first on, where they are known.
    ghost bytes: { Option (List ℕ) };
}

impl Origin for Brand {
    ghost place = { 0 };

    ghost bytes = { None };
}

/// A borrowed source, as one that others take and give back.
pub struct Lent<'a, R> {
    /// The source.
    pub reader: &'a mut R,
}

impl<'a, R: ByteIn> ByteIn for Lent<'a, R> {
    ghost left = { λ s. R.left s.reader.now };

    ghost failed_calls = { λ s. R.failed_calls s.reader.now };

    ghost place = { λ s. s.reader.ghost_name };

    fn read(&mut self, into: &mut [u8]) -> Result<usize, CallFailed> {
        self.reader.read(into)
    }
}

/// A source over a reader, which is asked for 4,096 bytes at a time. What was given is counted as taken, up to more than
/// 2^28 bytes. Once a caller has taken enough of it, it is taken apart, and others go on where that caller stopped.
#[derive(Drop)]
pub struct Buffered<R: ByteIn, I: Origin> {
    /// What was read ahead, and the count of what was given.
    pub input: ReadAhead,
    /// Where more comes from.
    pub reader: R,
    /// The input of which this is the rest.
    pub of: PhantomData<I>,
    ghost same: { R.place reader ≡ I.place },
    ghost rest: { ForSome I.bytes (λ bytes. IsRest bytes (unread input (R.left reader)) input.taken) },
}

impl<R: ByteIn, I: Origin> Buffered<R, I> {
    /// A source over a reader of which nothing was read yet.
    pub fn new(reader: R) -> Self
        requires place { R.place reader ≡ I.place }
        requires bytes { R.left reader ≡ I.bytes }
        ensures left { unread result.input (R.left result.reader) ≡ R.left reader }
        ensures reader { result.reader ≡ reader }
    {
        Buffered {
            input: ReadAhead::new(),
            reader,
            of: PhantomData,
        }
    }
}

impl<R: ByteIn, I: Origin> ByteIn for Buffered<R, I> {
    ghost left = { λ s. unread s.input (R.left s.reader) };

    ghost failed_calls = { λ s. R.failed_calls s.reader };

    fn read(&mut self, into: &mut [u8]) -> Result<usize, CallFailed> {
        give(&mut self.input, &mut self.reader, into)
    }
}

/// Gives bytes that were read ahead, and reads on where there are none. Behind more than 2^28 bytes nothing is read ahead.
fn give<R: ByteIn>(
    input: &mut ReadAhead,
    reader: &mut R,
    into: &mut [u8],
) -> Result<usize, CallFailed>
    ensures bound { ReadsAtMost result into.new }
    ensures bytes { ReadConsumes (unread input.old (R.left reader.old)) (unread input.new (R.left reader.new)) result into.new }
    ensures counted { IfOk result (λ count. min input.new.taken (INPUT_LIMIT + 1) ≡ min (input.old.taken + count)
        (INPUT_LIMIT + 1)) }
    ensures none { OnErr result (input.new.taken ≡ input.old.taken) }
    ensures failed { CountsFailure (R.failed_calls reader.old) (R.failed_calls reader.new) result }
    ensures place { R.place reader.new ≡ R.place reader.old }
{
    if !input.as_slice().is_empty() {
        return Ok(input.take_into(into));
    }
    if input.taken() > INPUT_LIMIT {
        return reader.read(into);
    }
    match read_on(input, reader) {
        Err(failed) => Err(failed),
        Ok(()) => Ok(input.take_into(into)),
    }
}

/// Reads ahead by one call of the reader. Where nothing was read, the input has ended.
fn read_on<R: ByteIn>(input: &mut ReadAhead, reader: &mut R) -> Result<(), CallFailed>
    requires none { input.old.pending ≡ [] }
    requires within { input.old.taken ≤ INPUT_LIMIT }
    ensures bytes { Keeps (unread input.old (R.left reader.old)) (unread input.new (R.left reader.new)) }
    ensures counted { input.new.taken ≡ input.old.taken }
    ensures ended { OnOk result (input.new.pending ≡ [] → IsAtEnd (R.left reader.new)) }
    ensures failed { CountsFailure (R.failed_calls reader.old) (R.failed_calls reader.new) result }
    ensures place { R.place reader.new ≡ R.place reader.old }
{
    match input.refill(reader) {
        Err(InFault::Read) => Err(CallFailed),
        Err(InFault::TooMuch) => Ok(()),
        Ok(_) => Ok(()),
    }
}
