// Input that is read 4 KiB at a time, and taken by the byte or by the line.
ghost use Rattle.std.specs.Prelude.{◌≡◌, ◌+◌, ◌<◌, ◌≤◌, min, [], ◌∷◌, ◌++◌, Some, None, length, take, drop};
ghost use Rattle.std.specs.Prelude.{OnOk, OnErr, IfOk, ◌↔◌, true, Contains};
ghost use Rattle.std.specs.Prelude.{IfNone, MatchOption, MatchBool};
ghost use Rattle.std.specs.Option.{option_to_list};
ghost use Rattle.std.specs.Io.KnownBytes.{Consumes, Keeps, IsAtEnd};

use super::byte_in::ByteIn;
use super::held_line::HeldLine;
use std::marker::Model;
use thiserror::Error;

/// The most bytes that an input may have: 2^28.
pub const INPUT_LIMIT: u64 = 268_435_456;

/// How many bytes are asked for in one read.
pub const READ_SIZE: usize = 4096;

/// Why no more input was given.
#[derive(Clone, Copy, Debug, PartialEq, Eq, Error)]
pub enum InFault {
    /// A call of the reader failed.
    #[error("the input could not be read")]
    Read,
    /// More than 268,435,456 bytes were read.
    #[error("the input has more than 268435456 bytes")]
    TooMuch,
}

/// What a line ended by.
#[derive(Clone, Copy, Debug, PartialEq, Eq)]
pub enum NextLine {
    /// By a line feed.
    Whole,
    /// By the end of the input.
    Last,
    /// There is no line: the input has ended.
    End,
}

/// Bytes that were read ahead of their caller, at most 4,096 of them, and the count of those that were taken.
#[derive(Debug, Drop)]
pub struct ReadAhead {
    buffer: [u8; READ_SIZE],
    start: usize,
    end: usize,
    taken: u64,
}

impl Model for ReadAhead {
    ghost use Rattle.std.specs.Prelude.{◌≤◌, ◌+◌, take, drop};
    ghost use Rattle.text_lines.specs.Ahead.{Ahead, IsWithin};

    ghost Value = { Ahead };

    ghost view = { λ s. record { pending = drop s.start (take s.end s.buffer); taken = s.taken } };

    ghost invariant = { λ s. IsWithin s.start s.end s.taken };
}

impl ReadAhead {
    ghost use Rattle.text_lines.specs.Ahead.{unread, read_count, TakesFront};
    ghost use Rattle.text_lines.specs.Reading.{CountsRead, IsTooMuchOnlyPast, GivesPart, GivesLine, IsEndWithin, AdvancesAt};

    /// Nothing read and nothing taken.
    pub fn new() -> Self
        ensures nothing { result.pending ≡ [] }
        ensures none_taken { result.taken ≡ 0 }
    {
        ReadAhead {
            buffer: [0; READ_SIZE],
            start: 0,
            end: 0,
            taken: 0,
        }
    }

    /// The bytes that were read and not yet taken.
    pub(crate) fn as_slice(&self) -> &[u8]
        ensures { result.now ≡ self.now.pending }
    {
        &self.buffer[self.start..self.end]
    }

    /// Whether a whole line is there without another read.
    pub(crate) fn has_line(&self) -> bool
        ensures { (result ≡ true) ↔ Contains self.now.pending 10 }
    {
        self.as_slice().contains(&b'\n')
    }

    /// How many bytes were taken.
    pub(crate) fn taken(&self) -> u64
        ensures { result ≡ self.now.taken }
    {
        self.taken
    }

    /// Takes bytes that were read and not yet taken into the front of `into`, as many as there are and fit, and answers how
    /// many.
    pub fn take_into(&mut self, into: &mut [u8]) -> usize
        ensures count { result ≡ min (length self.old.pending) (length into.old) }
        ensures taken { self.old.pending ≡ take result into.new ++ self.new.pending }
        ensures counted { self.new.taken ≡ self.old.taken + result }
        ensures bound { read_count self.new ≤ INPUT_LIMIT + READ_SIZE }
    {
        let waiting = self.as_slice();
        let count = waiting.len().min(into.len());
        into[..count].copy_from_slice(&waiting[..count]);
        self.start += count;
        self.taken += count as u64;
        count
    }

    /// Takes the first byte that was read and not yet taken, if there is one.
    pub(crate) fn take_first(&mut self) -> Option<u8>
        ensures first { MatchOption result (self.old.pending ≡ []) (λ byte. self.old.pending ≡ byte ∷ self.new.pending) }
        ensures counted { MatchOption result (self.new ≡ self.old) (λ _. self.new.taken ≡ self.old.taken + 1) }
        ensures bound { read_count self.new ≤ INPUT_LIMIT + READ_SIZE }
    {
        if self.start == self.end {
            return None;
        }
        let byte = self.buffer[self.start];
        self.start += 1;
        self.taken += 1;
        Some(byte)
    }

    /// Reads on, by one call of the reader, once all that was read has been taken. It answers whether there was more;
    /// if not, the input has ended.
    ///
    /// `TooMuch`: more than 2^28 bytes were read; what was read stays to be taken.
    pub fn refill<R: ByteIn>(&mut self, reader: &mut R) -> Result<bool, InFault>
        requires { self.old.pending ≡ [] }
        ensures bytes { Keeps (unread self.old (R.left reader.old)) (unread self.new (R.left reader.new)) }
        ensures counted { self.new.taken ≡ self.old.taken }
        ensures more { IfOk result (λ more. MatchBool more (0 < length self.new.pending)
            ((self.new.pending ≡ []) × IsAtEnd (R.left reader.new))) }
        ensures within { OnOk result (read_count self.new ≤ INPUT_LIMIT) }
        ensures bound { read_count self.new ≤ INPUT_LIMIT + READ_SIZE }
        ensures too_much { IsTooMuchOnlyPast self.new result }
        ensures failed { CountsRead (R.failed_calls reader.old) (R.failed_calls reader.new) result }
        ensures place { R.place reader.new ≡ R.place reader.old }
    {
        if self.taken > INPUT_LIMIT {
            return Err(InFault::TooMuch);
        }
        match reader.read(&mut self.buffer) {
            Err(_) => Err(InFault::Read),
            Ok(count) => {
                self.start = 0;
                self.end = count;
                if self.taken + count as u64 > INPUT_LIMIT {
                    return Err(InFault::TooMuch);
                }
                Ok(count > 0)
            }
        }
    }

    /// Takes the next byte of the input, reading on where all that was read has been taken. None: the input has
    /// ended. `Read`: a call of the reader failed; `TooMuch`: more than 2^28 bytes were read. No byte is taken then.
    pub fn next_byte<R: ByteIn>(&mut self, reader: &mut R) -> Result<Option<u8>, InFault>
        ensures byte { IfOk result (λ byte. Consumes (unread self.old (R.left reader.old))
            (unread self.new (R.left reader.new)) (option_to_list byte)) }
        ensures counted { IfOk result (λ byte. self.new.taken ≡ self.old.taken + length (option_to_list byte)) }
        ensures end { IfOk result (λ byte. IfNone byte (IsAtEnd (unread self.new (R.left reader.new)))) }
        ensures ended { IfOk result (λ byte. IfNone byte (self.new.pending ≡ [])) }
        ensures end_within { IfOk result (λ byte. IfNone byte (self.new.taken ≤ INPUT_LIMIT)) }
        ensures err { OnErr result (Keeps (unread self.old (R.left reader.old)) (unread self.new (R.left reader.new))) }
        ensures none_taken { OnErr result (self.new.taken ≡ self.old.taken) }
        ensures bound { self.new.taken ≤ INPUT_LIMIT + READ_SIZE }
        ensures too_much { IsTooMuchOnlyPast self.new result }
        ensures failed { CountsRead (R.failed_calls reader.old) (R.failed_calls reader.new) result }
    {
        if let Some(byte) = self.take_first() {
            return Ok(Some(byte));
        }
        match self.refill(reader) {
            Err(fault) => Err(fault),
            Ok(_) => Ok(self.take_first()),
        }
    }

    /// Takes the bytes up to the next line feed, and that, and holds the front of them in `part`, at most 1,026 bytes
    /// and the line feed left out. A carriage return stays. `Read`, `TooMuch`: as of `next_byte`; what was taken by then stays
    /// in `part`.
    pub(crate) fn next_part<R: ByteIn>(
        &mut self,
        reader: &mut R,
        part: &mut HeldLine,
    ) -> Result<NextLine, InFault>
        ensures part { IfOk result (λ found. GivesPart (unread self.old (R.left reader.old))
            (unread self.new (R.left reader.new)) found part.new) }
        ensures front { TakesFront self.old (R.left reader.old) self.new (R.left reader.new) }
        ensures advances { IfOk result (λ found. AdvancesAt found self.old self.new) }
        ensures bound { self.new.taken ≤ INPUT_LIMIT + READ_SIZE }
        ensures within { IfOk result (IsEndWithin self.new) }
        ensures too_much { IsTooMuchOnlyPast self.new result }
        ensures failed { CountsRead (R.failed_calls reader.old) (R.failed_calls reader.new) result }
    {
        part.clear();
        loop {
            match self.next_byte(reader) {
                Err(fault) => return Err(fault),
                Ok(None) if part.is_empty() => return Ok(NextLine::End),
                Ok(None) => return Ok(NextLine::Last),
                Ok(Some(b'\n')) => return Ok(NextLine::Whole),
                Ok(Some(byte)) => part.push(byte),
            }
        }
    }

    /// Takes the next line with its end, and holds in `line` what is kept of it: all, unless it is too long. The end
    /// is a line feed with the carriage return before it, if there is one, or the end of the input. `Read`, `TooMuch`: as of
    /// `next_byte`; what was taken by then stays in `line`.
    pub fn next_line<R: ByteIn>(
        &mut self,
        reader: &mut R,
        line: &mut HeldLine,
    ) -> Result<NextLine, InFault>
        ensures line { IfOk result (λ found. GivesLine (unread self.old (R.left reader.old))
            (unread self.new (R.left reader.new)) found line.new) }
        ensures front { TakesFront self.old (R.left reader.old) self.new (R.left reader.new) }
        ensures advances { IfOk result (λ found. AdvancesAt found self.old self.new) }
        ensures bound { self.new.taken ≤ INPUT_LIMIT + READ_SIZE }
        ensures within { IfOk result (IsEndWithin self.new) }
        ensures too_much { IsTooMuchOnlyPast self.new result }
        ensures failed { CountsRead (R.failed_calls reader.old) (R.failed_calls reader.new) result }
    {
        match self.next_part(reader, line) {
            Err(fault) => Err(fault),
            Ok(NextLine::Whole) => {
                line.end_line();
                Ok(NextLine::Whole)
            }
            Ok(NextLine::Last) => {
                line.end_input();
                Ok(NextLine::Last)
            }
            Ok(NextLine::End) => Ok(NextLine::End),
        }
    }
}
