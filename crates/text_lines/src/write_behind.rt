// Output that is gathered, and written 4 KiB or more at a time.
ghost use Rattle.std.specs.Prelude.{◌≡◌, ℕ, ◌+◌, ◌<◌, ◌≤◌, List, [], ◌++◌, length, take, OnOk, OnErr};
ghost use Rattle.std.specs.Io.KnownBytes.{Appends};
ghost use Rattle.text_lines.specs.Calls.{CountsFailure};
ghost use Rattle.text_lines.specs.Writing.{WritesAllBut, WritesFront};

use super::byte_in::CallFailed;
use super::byte_out::ByteOut;
use std::marker::Model;

/// From how many bytes on what was gathered is written.
pub const WRITE_SIZE: usize = 4096;

/// The room in bytes: for what is gathered, fewer than `WRITE_SIZE`, and what one call adds, at most as many.
const WRITE_ROOM: usize = 2 * WRITE_SIZE;

/// Writes all the bytes, in as many calls as the writer wants. After an Err a front of them was taken.
pub fn write_all<W: ByteOut>(writer: &mut W, bytes: &[u8]) -> Result<(), CallFailed>
    ensures ok { OnOk result (Appends (W.taken writer.old) (W.taken writer.new) bytes.now) }
    ensures err { OnErr result (WritesFront (W.taken writer.old) (W.taken writer.new) bytes.now) }
    ensures failed { CountsFailure (W.failed_calls writer.old) (W.failed_calls writer.new) result }
{
    let mut rest = bytes;
    while !rest.is_empty() {
        match writer.write(rest) {
            Err(fault) => return Err(fault),
            Ok(count) => rest = &rest[count..],
        }
    }
    Ok(())
}

/// Bytes that are to be written, gathered until there are 4,096.
#[derive(Debug, Drop)]
pub struct WriteBehind {
    buffer: [u8; WRITE_ROOM],
    len: usize,
}

impl Model for WriteBehind {
    ghost Value = { List ℕ };

    ghost view = { λ s. take s.len s.buffer };

    ghost invariant = { λ s. s.len < 4096 };
}

impl WriteBehind {
    /// Nothing gathered.
    pub fn new() -> Self
        ensures { result ≡ [] }
    {
        WriteBehind {
            buffer: [0; WRITE_ROOM],
            len: 0,
        }
    }

    /// Adds bytes, at most 4,096, to what is gathered, and writes all of it where that makes 4,096. After an Err a front of it
    /// was taken, and the rest is forgotten.
    pub fn put<W: ByteOut>(&mut self, writer: &mut W, bytes: &[u8]) -> Result<(), CallFailed>
        requires { length bytes.now ≤ WRITE_SIZE }
        ensures ok { OnOk result (WritesAllBut (W.taken writer.old) (W.taken writer.new) (self.old ++ bytes.now) self.new) }
        ensures err { OnErr result (WritesFront (W.taken writer.old) (W.taken writer.new) (self.old ++ bytes.now)) }
        ensures forgotten { OnErr result (self.new ≡ []) }
        ensures failed { CountsFailure (W.failed_calls writer.old) (W.failed_calls writer.new) result }
    {
        let end = self.len + bytes.len();
        if end >= WRITE_SIZE {
            return self.put_through(writer, bytes);
        }
        self.buffer[self.len..end].copy_from_slice(bytes);
        self.len = end;
        Ok(())
    }

    /// Adds bytes, at most 4,096, to what is gathered, and writes all of it. After an Err a front of it was taken, and the rest is
    /// forgotten.
    pub fn put_through<W: ByteOut>(
        &mut self,
        writer: &mut W,
        bytes: &[u8],
    ) -> Result<(), CallFailed>
        requires { length bytes.now ≤ WRITE_SIZE }
        ensures ok { OnOk result (Appends (W.taken writer.old) (W.taken writer.new) (self.old ++ bytes.now)) }
        ensures err { OnErr result (WritesFront (W.taken writer.old) (W.taken writer.new) (self.old ++ bytes.now)) }
        ensures empty { self.new ≡ [] }
        ensures failed { CountsFailure (W.failed_calls writer.old) (W.failed_calls writer.new) result }
    {
        let end = self.len + bytes.len();
        self.buffer[self.len..end].copy_from_slice(bytes);
        self.len = 0;
        write_all(writer, &self.buffer[..end])
    }

    /// Writes what is gathered, in one call of the writer where that takes all. After an Err a front of it was taken,
    /// and the rest is forgotten.
    pub fn flush<W: ByteOut>(&mut self, writer: &mut W) -> Result<(), CallFailed>
        ensures ok { OnOk result (Appends (W.taken writer.old) (W.taken writer.new) self.old) }
        ensures err { OnErr result (WritesFront (W.taken writer.old) (W.taken writer.new) self.old) }
        ensures empty { self.new ≡ [] }
        ensures failed { CountsFailure (W.failed_calls writer.old) (W.failed_calls writer.new) result }
    {
        self.put_through(writer, &[])
    }
}
