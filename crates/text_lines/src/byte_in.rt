// Where bytes come from, one call at a time.
ghost use Rattle.std.specs.Prelude.{◌≡◌, ℕ, List, None};
ghost use Rattle.std.specs.Io.{ReadsAtMost};
ghost use Rattle.std.specs.Io.KnownBytes.{ReadConsumes};
ghost use Rattle.std.specs.declared.option.Option.{Option};
ghost use Rattle.text_lines.specs.Calls.{CountsFailure};

use std::io;
use thiserror::Error;

/// A call of a reader or a writer failed. It is also the answer to an interrupted call, and to a write that took
/// no byte of some.
#[derive(Clone, Copy, Debug, PartialEq, Eq, Error)]
#[error("a read or a write failed")]
pub struct CallFailed;

/// A source of bytes.
pub trait ByteIn {
    // The bytes that reads will give from here on, where the type tells them.
    ghost left: { Self → Option (List ℕ) } = { λ _. None };

    // How many calls have failed, counted in 64 bits.
    ghost failed_calls: { Self → ℕ };

    // Which reader is borrowed, where one is; no read changes that.
    ghost place: { Self → ℕ } = { λ _. 0 };

    /// Reads some bytes into the front of `into`, and answers how many. Into a slice that is not empty, 0 says that
    /// the input has ended. Nothing is retried.
    fn read(&mut self, into: &mut [u8]) -> Result<usize, CallFailed>
        ensures bound { ReadsAtMost result into.new }
        ensures bytes { ReadConsumes (left self.old) (left self.new) result into.new }
        ensures failed { CountsFailure (failed_calls self.old) (failed_calls self.new) result }
        ensures place { place self.new ≡ place self.old };
}

/// A reader of the standard library as a source of bytes.
#[derive(Debug, Drop)]
pub struct StdIn<R> {
    /// The reader.
    pub reader: R,
    /// How many calls of it have failed; after 2^64 of them it starts again at 0.
    pub failed: u64,
}

impl<R: io::Read> StdIn<R> {
    /// A source over the reader, none of whose calls has failed.
    pub fn new(reader: R) -> Self
        ensures reader { result.reader ≡ reader }
        ensures failed { result.failed ≡ 0 }
    {
        StdIn { reader, failed: 0 }
    }
}

impl<R: io::Read> ByteIn for StdIn<R> {
    ghost left = { λ s. R.remaining s.reader };

    ghost failed_calls = { λ s. s.failed };

    fn read(&mut self, into: &mut [u8]) -> Result<usize, CallFailed> {
        match self.reader.read(into) {
            Ok(count) => Ok(count),
            Err(_) => {
                self.failed = self.failed.wrapping_add(1);
                Err(CallFailed)
            }
        }
    }
}
