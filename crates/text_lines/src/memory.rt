// Readers and writers over memory: those of tests, and the writer into which a thread makes its part of a text.
ghost use Rattle.std.specs.Prelude.{◌≡◌, ◌+◌, ◌-◌, ◌^◌, ◌↔◌, min, max, [], Some, IsErr, IfOk, length};
ghost use Rattle.std.specs.Io.{ReadsAtMost, WritesAtMost};
ghost use Rattle.std.specs.Io.KnownBytes.{ReadConsumes, WriteAppends};
ghost use Rattle.text_lines.specs.Calls.{CountsFailure};

use super::byte_in::{ByteIn, CallFailed};
use super::byte_out::ByteOut;
use std::alloc::Allocator;

/// A source of bytes over memory, one of whose calls may fail.
#[derive(Debug, Drop)]
pub struct MemoryIn<'a> {
    /// What is left to be read.
    pub bytes: &'a [u8],
    /// The most bytes that one call gives; 0 counts as 1.
    pub step: usize,
    /// The call that fails, counted from 1; none if it is 0.
    pub fails_at: u64,
    /// How many calls there were, up to 2^64 - 1.
    pub calls: u64,
    /// How many calls have failed.
    pub failed: u64,
}

impl<'a> MemoryIn<'a> {
    /// A source that gives all the bytes in one call, if it is asked for as many; none of its calls fails.
    pub fn new(bytes: &'a [u8]) -> Self
        ensures bytes { result.bytes.now ≡ bytes.now }
        ensures step { result.step ≡ usize.MAX }
        ensures fails_at { result.fails_at ≡ 0 }
        ensures calls { result.calls ≡ 0 }
        ensures failed { result.failed ≡ 0 }
    {
        MemoryIn::failing(bytes, usize::MAX, 0)
    }

    /// A source that gives at most `step` bytes in one call, and whose call number `fails_at` fails.
    pub fn failing(bytes: &'a [u8], step: usize, fails_at: u64) -> Self
        ensures bytes { result.bytes.now ≡ bytes.now }
        ensures step { result.step ≡ step }
        ensures fails_at { result.fails_at ≡ fails_at }
        ensures calls { result.calls ≡ 0 }
        ensures failed { result.failed ≡ 0 }
    {
        MemoryIn {
            bytes,
            step,
            fails_at,
            calls: 0,
            failed: 0,
        }
    }
}

impl ByteIn for MemoryIn<'_> {
    ghost left = { λ s. Some s.bytes.now };

    ghost failed_calls = { λ s. s.failed };

    fn read(&mut self, into: &mut [u8]) -> Result<usize, CallFailed>
        ensures bound { ReadsAtMost result into.new }
        ensures bytes { ReadConsumes (Some self.old.bytes.now) (Some self.new.bytes.now) result into.new }
        ensures failed { CountsFailure self.old.failed self.new.failed result }
        ensures fails { IsErr result ↔ (self.new.calls ≡ self.old.fails_at) }
        ensures count { IfOk result (λ count. count ≡ min (min (max self.old.step 1) (length into.new))
            (length self.old.bytes.now)) }
        ensures calls { self.new.calls ≡ min (self.old.calls + 1) (2 ^ 64 - 1) }
        ensures step { self.new.step ≡ self.old.step }
        ensures fails_at { self.new.fails_at ≡ self.old.fails_at }
    {
        self.calls = self.calls.saturating_add(1);
        if self.calls == self.fails_at {
            self.failed = self.failed.wrapping_add(1);
            return Err(CallFailed);
        }
        let count = self.step.max(1).min(into.len()).min(self.bytes.len());
        let (given, left) = self.bytes.split_at(count);
        into[..count].copy_from_slice(given);
        self.bytes = left;
        Ok(count)
    }
}

/// A sink of bytes in memory, one of whose calls may fail.
#[derive(Debug, Drop)]
pub struct MemoryOut<A: Allocator> {
    /// What was taken.
    pub bytes: Vec<u8, A>,
    /// The most bytes that one call takes; 0 counts as 1.
    pub step: usize,
    /// The call that fails, counted from 1; none if it is 0.
    pub fails_at: u64,
    /// How many calls there were, up to 2^64 - 1.
    pub calls: u64,
    /// How many calls have failed.
    pub failed: u64,
}

impl<A: Allocator> MemoryOut<A> {
    /// An empty sink that takes all in one call; none of its calls fails, while there is memory.
    pub fn new(alloc: A) -> Self
        ensures bytes { result.bytes.items ≡ [] }
        ensures step { result.step ≡ usize.MAX }
        ensures fails_at { result.fails_at ≡ 0 }
        ensures calls { result.calls ≡ 0 }
        ensures failed { result.failed ≡ 0 }
    {
        MemoryOut::failing(alloc, usize::MAX, 0)
    }

    /// An empty sink that takes at most `step` bytes in one call, and whose call number `fails_at` fails.
    pub fn failing(alloc: A, step: usize, fails_at: u64) -> Self
        ensures bytes { result.bytes.items ≡ [] }
        ensures step { result.step ≡ step }
        ensures fails_at { result.fails_at ≡ fails_at }
        ensures calls { result.calls ≡ 0 }
        ensures failed { result.failed ≡ 0 }
    {
        MemoryOut {
            bytes: Vec::new(alloc),
            step,
            fails_at,
            calls: 0,
            failed: 0,
        }
    }
}

impl<A: Allocator> ByteOut for MemoryOut<A> {
    ghost taken = { λ s. Some s.bytes.items };

    ghost failed_calls = { λ s. s.failed };

    fn write(&mut self, bytes: &[u8]) -> Result<usize, CallFailed>
        ensures bound { WritesAtMost result bytes.now }
        ensures bytes { WriteAppends (Some self.old.bytes.items) (Some self.new.bytes.items) result bytes.now }
        ensures some { IfOk result (λ count. count ≡ 0 → bytes.now ≡ []) }
        ensures failed { CountsFailure self.old.failed self.new.failed result }
        ensures fails { self.new.calls ≡ self.old.fails_at → IsErr result }
        ensures count { IfOk result (λ count. count ≡ min (max self.old.step 1) (length bytes.now)) }
        ensures calls { self.new.calls ≡ min (self.old.calls + 1) (2 ^ 64 - 1) }
        ensures step { self.new.step ≡ self.old.step }
        ensures fails_at { self.new.fails_at ≡ self.old.fails_at }
    {
        self.calls = self.calls.saturating_add(1);
        let count = self.step.max(1).min(bytes.len());
        if self.calls == self.fails_at || self.bytes.extend_from_slice(&bytes[..count]).is_err() {
            self.failed = self.failed.wrapping_add(1);
            return Err(CallFailed);
        }
        Ok(count)
    }
}
