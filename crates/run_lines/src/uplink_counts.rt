// How many uplinks were answered, and the last line of a text, which tells it.
ghost use Rattle.std.specs.Prelude.{◌≡◌, ◌+◌, ◌^◌, ◌≤◌, [], ◌∷◌, ◌++◌, length, decimal};
ghost use Rattle.text_lines.specs.Line.{text_of};
ghost use Rattle.run_lines.specs.Putting.{Puts};
ghost use Rattle.run_lines.specs.UplinkCounts.{AreCountsUpTo, counts_of, counts_sum, counts_text};

use itoa::Buffer;
use server_core::{Entry, Line};
use std::alloc::Allocator;
use text_lines::{ByteOut, CallFailed, TextLine, WriteBehind};
use text_words::add_word;

/// How many uplinks were answered, how many were not, though an answer was owed, and how many were owed none. In 128 bits,
/// since the lines of a million turns are not counted ahead.
#[derive(Clone, Copy, Debug, PartialEq, Eq)]
pub struct UplinkCounts {
    /// Those that were answered by a transmission.
    pub sent: u128,
    /// Those to which an answer was owed, and none was booked.
    pub unanswered: u128,
    /// Those to which no answer was owed.
    pub silent: u128,
}

impl UplinkCounts {
    /// Counts the uplinks of some lines.
    pub fn of<A: Allocator>(entries: &[Entry<A>]) -> Self
        ensures counts { result ≡ counts_of entries.now }
        ensures small { AreCountsUpTo (2 ^ 64) result }
    {
        let mut counts = UplinkCounts {
            sent: 0,
            unanswered: 0,
            silent: 0,
        };
        for entry in entries {
            counts.count(entry);
        }
        counts
    }

    /// Counts the uplink of one line more, where it tells of one.
    fn count<A: Allocator>(&mut self, entry: &Entry<A>)
        requires { AreCountsUpTo (2 ^ 126) self.old }
        ensures { self.new ≡ counts_sum self.old (counts_of (entry.now ∷ [])) }
    {
        match &entry.line {
            Line::Send { .. } => self.sent += 1,
            Line::Unanswered { .. } => self.unanswered += 1,
            Line::Silent { .. } => self.silent += 1,
            _ => {}
        }
    }

    /// Counts those of other counts too; each count of the two is at most 2^126.
    pub fn add(&mut self, more: &UplinkCounts)
        requires counted { AreCountsUpTo (2 ^ 126) self.old }
        requires more { AreCountsUpTo (2 ^ 126) more.now }
        ensures { self.new ≡ counts_sum self.old more.now }
    {
        self.sent += more.sent;
        self.unanswered += more.unanswered;
        self.silent += more.silent;
    }
}

/// Writes the last line behind what is gathered.
pub(crate) fn put_uplink_counts<W: ByteOut>(
    counts: &UplinkCounts,
    output: &mut WriteBehind,
    writer: &mut W,
) -> Result<(), CallFailed>
    ensures { Puts (W.taken writer.old) (W.taken writer.new) (W.failed_calls writer.old) (W.failed_calls writer.new)
        (output.old ++ text_of (counts_text counts.now ∷ [])) output.new result }
{
    let mut text = TextLine::new();
    write_uplink_counts(counts, &mut text);
    output.put(writer, text.as_slice())
}

/// Makes `text` the last line, with its end.
fn write_uplink_counts(counts: &UplinkCounts, text: &mut TextLine)
    ensures { text.new ≡ counts_text counts.now ++ (10 ∷ []) }
{
    text.clear();
    text.text(b"answered");
    add_count(text, counts.sent);
    add_word(text, b"unanswered");
    add_count(text, counts.unanswered);
    add_word(text, b"silent");
    add_count(text, counts.silent);
    text.text(b"\n");
}

/// Adds a space and a count.
fn add_count(text: &mut TextLine, count: u128)
    requires { length text.old + 41 ≤ 1024 }
    ensures text { text.new ≡ text.old ++ (32 ∷ decimal count) }
    ensures len { length text.new ≤ length text.old + 41 }
{
    let mut digits = Buffer::new();
    text.text(b" ");
    text.text(digits.format(count).as_bytes());
}
