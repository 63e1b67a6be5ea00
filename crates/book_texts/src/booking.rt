// The text of `airbook book`: one pass over the input, which holds one line at a time.
ghost use Rattle.std.specs.Prelude.{◌≡◌, true, false, [], IfOk, IfErr, OnErr};
ghost use Rattle.gateway_book.specs.Book.{terms_of};
ghost use Rattle.gateway_book.specs.EarliestValue.{earliest_of};
ghost use Rattle.text_lines.specs.Progress.{IsTurn};
ghost use Rattle.text_words.specs.Fault.{CountsReads, CountsWrites};
ghost use Rattle.book_texts.specs.Answering.{reply_of, start_reply};
ghost use Rattle.book_texts.specs.Opening.{empty_book};
ghost use Rattle.book_texts.specs.Output.{book_turns};
ghost use Rattle.book_texts.specs.Progress.{IsCarriedOut, IsReplied, StandsIn};
ghost use Rattle.book_texts.specs.Promise.{AnswersAll, AnswersFront, AnswersRead, KeepsLimit, MayOpen, is_unopened};
ghost use Rattle.book_texts.specs.Promise.{IsOpeningOf, IsRulesFault, IsSettingOf};

use crate::command::{Command, Said, read_line};
use crate::reply::Reply;
use crate::report::put_report;
use crate::resuming::resumed_text;
use gateway_book::{Ask, GatewayBook, Refusal};
use resv_list::{Reservation, Roster};
use resv_tree::TreeRoster;
use std::alloc::Allocator;
use text_lines::{ByteIn, ByteOut, CallFailed, LineAnswerer, TextLine, WriteBehind, answer_text};
use text_words::TextFault;

/// The number of the gateway whose book the lines speak of, where they speak of an empty one.
const GATEWAY: u16 = 1;

/// Books what the lines of the input ask for, and writes an answer to each line, and at the end a report. It answers whether a
/// line of the output begins with `no` or `bad`.
///
/// The book is an empty one that keeps at most `cap` transmissions, 1 to 65,536, with at least `gap` microseconds, 0 to 100,000,
/// between two of them; or with `resume` the one whose saved text the input begins with, and the lines are those behind it. Cap
/// and gap are then not looked at. With `save` the book is saved in place of the report.
///
/// `Settings("BadCap")`, `Settings("BadGap")`: the cap, or else the gap is outside; nothing is read or written.
/// `Settings("Syntax")`, `Settings("Version")`, `Settings("Unlawful")`: the input does not begin with a saved text. `NoMemory`:
/// there was none for a member of it. After these nothing was written. `Read`, `Write`: a call of the reader or the writer
/// failed. `TooMuch`: the input, a saved text included, has more than 2^28 bytes. After each of these a front of the output was
/// written. Want of memory refuses one booking, by a line of the output.
pub fn book_text<A: Allocator + Clone, R: ByteIn, W: ByteOut>(
    alloc: A,
    cap: u32,
    gap: u32,
    resume: bool,
    save: bool,
    reader: &mut R,
    writer: &mut W,
) -> Result<bool, TextFault>
    ensures ok { IfOk result (AnswersAll resume save (record { cap = cap; gap = gap }) (R.left reader.old) (R.left reader.new)
        (W.taken writer.old) (W.taken writer.new)) }
    ensures front { OnErr result (AnswersFront resume save (record { cap = cap; gap = gap }) (R.left reader.old)
        (W.taken writer.old) (W.taken writer.new)) }
    ensures read_front { OnErr result (AnswersRead resume save (record { cap = cap; gap = gap }) (R.left reader.old)
        (R.left reader.new) (W.taken writer.old) (W.taken writer.new)) }
    ensures limit { KeepsLimit (R.left reader.old) result }
    ensures settings { IsOpeningOf resume (record { cap = cap; gap = gap }) (R.left reader.old) result }
    ensures untouched { resume ≡ false → (¬ MayOpen (record { cap = cap; gap = gap }))
        → (reader.new ≡ reader.old) × (writer.new ≡ writer.old) }
    ensures unopened { IfErr result (λ fault. is_unopened fault ≡ true → writer.new ≡ writer.old) }
    ensures read { CountsReads (R.failed_calls reader.old) (R.failed_calls reader.new) result }
    ensures write { CountsWrites (W.failed_calls writer.old) (W.failed_calls writer.new) result }
{
    if resume {
        resumed_text(alloc, save, reader, writer)
    } else {
        opened_text(alloc, cap, gap, save, reader, writer)
    }
}

/// The same on an empty book.
#[tactic(auto, using(crate::proofs::OpeningLemmas::ended_early))]
fn opened_text<A: Allocator + Clone, R: ByteIn, W: ByteOut>(
    alloc: A,
    cap: u32,
    gap: u32,
    save: bool,
    reader: &mut R,
    writer: &mut W,
) -> Result<bool, TextFault>
    ensures ok { IfOk result (AnswersAll false save (record { cap = cap; gap = gap }) (R.left reader.old) (R.left reader.new)
        (W.taken writer.old) (W.taken writer.new)) }
    ensures front { OnErr result (AnswersFront false save (record { cap = cap; gap = gap }) (R.left reader.old)
        (W.taken writer.old) (W.taken writer.new)) }
    ensures read_front { OnErr result (AnswersRead false save (record { cap = cap; gap = gap }) (R.left reader.old)
        (R.left reader.new) (W.taken writer.old) (W.taken writer.new)) }
    ensures limit { KeepsLimit (R.left reader.old) result }
    ensures settings { IsSettingOf (record { cap = cap; gap = gap }) result }
    ensures untouched { (¬ MayOpen (record { cap = cap; gap = gap })) → (reader.new ≡ reader.old) × (writer.new ≡ writer.old) }
    ensures unopened { IfErr result (λ fault. is_unopened fault ≡ true → writer.new ≡ writer.old) }
    ensures read { CountsReads (R.failed_calls reader.old) (R.failed_calls reader.new) result }
    ensures write { CountsWrites (W.failed_calls writer.old) (W.failed_calls writer.new) result }
{
    let book = empty_book(alloc, cap, gap)?;
    Ok(answer_text(BookLines { book, save }, reader, writer)?)
}

/// The empty book that the lines speak of. `Settings`: none can be opened with this cap or gap, by the name BadCap or BadGap.
pub(crate) fn empty_book<A: Allocator + Clone>(
    alloc: A,
    cap: u32,
    gap: u32,
) -> Result<GatewayBook<TreeRoster<A>>, TextFault>
    ensures opened { IfOk result (λ _. MayOpen (record { cap = cap; gap = gap })) }
    ensures empty { IfOk result (λ book. book ≡ empty_book (record { cap = cap; gap = gap })) }
    ensures fault { IfErr result (IsRulesFault (record { cap = cap; gap = gap })) }
{
    let opened = GatewayBook::new(TreeRoster::new(alloc), GATEWAY, cap, gap);
    opened.map_err(|fault| TextFault::Settings(fault.name()))
}

/// A book that answers lines.
#[derive(Drop)]
pub(crate) struct BookLines<B: Roster> {
    pub(crate) book: GatewayBook<B>,
    /// Whether it is saved at the end.
    pub(crate) save: bool,
}

impl<B: Roster + Drop> LineAnswerer for BookLines<B> {
    ghost use Rattle.book_texts.specs.Output.{Standing, book_turns};
    ghost use Rattle.book_texts.specs.Progress.{StandsToEnd, book_turns_by_kept, book_ends_without_refusal};

    ghost State = { Standing };

    ghost turns = { book_turns };

    ghost Stands = { λ lines. StandsToEnd lines.book lines.save };

    fn answer(&mut self, number: u64, line: &[u8], text: &mut TextLine) -> bool {
        answer_line(&mut self.book, number, line, text)
    }

    fn end<W: ByteOut>(self, output: &mut WriteBehind, writer: &mut W) -> Result<(), CallFailed> {
        if self.save {
            self.book.put_saved(output, writer)
        } else {
            put_report(&self.book, output, writer)
        }
    }

    ghost by_kept = { book_turns_by_kept };

    ghost no_refusal_at_the_end = { book_ends_without_refusal };
}

/// Carries out line `number`, makes the empty `text` the answer, if the line is not passed over, and says whether it begins with
/// `no` or `bad`.
pub(crate) fn answer_line<B: Roster>(
    book: &mut GatewayBook<B>,
    number: u64,
    line: &[u8],
    text: &mut TextLine,
) -> bool
    requires { text.old ≡ [] }
    ensures { IsTurn book_turns (StandsIn book.old) (StandsIn book.new) number line.now text.new result }
{
    let Some(reply) = reply_to_line(book, number, line) else {
        return false;
    };
    reply.write(text);
    reply.is_refusal()
}

/// Carries out line `number`, and gives the answer, if the line is not passed over.
fn reply_to_line<B: Roster>(book: &mut GatewayBook<B>, number: u64, line: &[u8]) -> Option<Reply>
    ensures { IsReplied book.old book.new number line.now result }
{
    match read_line(line) {
        Said::Nothing => None,
        Said::Order(command) => Some(carry_out(book, command)),
        Said::Malformed => Some(Reply::Bad { line: number }),
    }
}

/// Carries out a command, and gives the answer.
fn carry_out<B: Roster>(book: &mut GatewayBook<B>, command: Command) -> Reply
    ensures { IsCarriedOut book.old book.new command result }
{
    match command {
        Command::Book(ask) => reserve(book, ask),
        Command::Cancel { number, start } => take_out(book, number, start),
        Command::Tick { now } => advance(book, now),
        Command::Earliest { ask, last } => earliest_start(book, ask, last),
    }
}

/// Books what is asked for, and gives the answer.
fn reserve<B: Roster>(book: &mut GatewayBook<B>, ask: Ask) -> Reply
    ensures { IsCarriedOut book.old book.new (Command.Book ask) result }
{
    told(ask, book.book(ask))
}

/// What is told of the answer to a booking.
pub(crate) fn told(ask: Ask, answer: Result<Reservation, Refusal>) -> Reply
    ensures { result ≡ reply_of ask answer }
{
    match answer {
        Ok(reservation) => Reply::Booked {
            number: reservation.number,
            start: reservation.start,
            end: reservation.end(),
        },
        Err(refusal) => Reply::Refused {
            number: ask.number,
            refusal,
        },
    }
}

/// Takes a transmission out, and gives the answer.
fn take_out<B: Roster>(book: &mut GatewayBook<B>, number: u64, start: u64) -> Reply
    ensures { IsCarriedOut book.old book.new (Command.Cancel number start) result }
{
    match book.cancel(number, start) {
        Ok(airtime) => Reply::Cancelled { number, airtime },
        Err(fault) => Reply::NotCancelled { number, fault },
    }
}

/// Raises the floor, and gives the answer.
fn advance<B: Roster>(book: &mut GatewayBook<B>, now: u64) -> Reply
    ensures { IsCarriedOut book.old book.new (Command.Tick now) result }
{
    book.tick(now);
    Reply::Floor {
        floor: book.totals().floor,
    }
}

/// What is told of the earliest start of what is asked for, from its own start to `last`.
pub(crate) fn earliest_start<B: Roster>(book: &GatewayBook<B>, ask: Ask, last: u64) -> Reply
    ensures { result ≡ start_reply ask.number (earliest_of (terms_of book.now) book.now.list ask ask.start last) }
{
    match book.earliest(ask, ask.start, last) {
        Some(start) => Reply::At {
            number: ask.number,
            start,
        },
        None => Reply::NoStart { number: ask.number },
    }
}
