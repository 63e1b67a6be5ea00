// Where bytes go, one call at a time.
ghost use Rattle.std.specs.Prelude.{◌≡◌, ℕ, List, [], None, IfOk};
ghost use Rattle.std.specs.Io.{WritesAtMost};
ghost use Rattle.std.specs.Io.KnownBytes.{WriteAppends};
ghost use Rattle.std.specs.declared.option.Option.{Option};
ghost use Rattle.text_lines.specs.Calls.{CountsFailure};

use super::byte_in::CallFailed;
use std::io;

/// A sink of bytes.
pub trait ByteOut {
    // The bytes that were taken so far, where the type tells them.
    ghost taken: { Self → Option (List ℕ) } = { λ _. None };

    // How many calls have failed, counted in 64 bits.
    ghost failed_calls: { Self → ℕ };

    /// Takes some bytes off the front of `bytes`, and answers how many: at least one, where there is one. Nothing is
    /// retried.
    fn write(&mut self, bytes: &[u8]) -> Result<usize, CallFailed>
        ensures bound { WritesAtMost result bytes.now }
        ensures bytes { WriteAppends (taken self.old) (taken self.new) result bytes.now }
        ensures some { IfOk result (λ count. count ≡ 0 → bytes.now ≡ []) }
        ensures failed { CountsFailure (failed_calls self.old) (failed_calls self.new) result };
}

/// A writer of the standard library as a sink of bytes.
#[derive(Debug, Drop)]
pub struct StdOut<W> {
    /// The writer.
    pub writer: W,
    /// How many calls of it have failed; after 2^64 of them it starts again at 0.
    pub failed: u64,
}

impl<W: io::Write> StdOut<W> {
    /// A sink over the writer, none of whose calls has failed.
    pub fn new(writer: W) -> Self
        ensures writer { result.writer ≡ writer }
        ensures failed { result.failed ≡ 0 }
    {
        StdOut { writer, failed: 0 }
    }
}

impl<W: io::Write> ByteOut for StdOut<W> {
    ghost taken = { λ s. W.contents s.writer };

    ghost failed_calls = { λ s. s.failed };

    fn write(&mut self, bytes: &[u8]) -> Result<usize, CallFailed> {
        match self.writer.write(bytes) {
            Ok(count) if 0 < count || bytes.is_empty() => Ok(count),
            _ => {
                self.failed = self.failed.wrapping_add(1);
                Err(CallFailed)
            }
        }
    }
}
