// The text of `airbook plan`: lines of a gateway's book, and after a line `plan` what the book would answer to further bookings.
ghost use Rattle.std.specs.Prelude.{◌≡◌, [], IfOk, OnErr};
ghost use Rattle.std.specs.Option.{ForSome};
ghost use Rattle.text_lines.specs.Promise.{AnswersAll, AnswersFront, AnswersRead};
ghost use Rattle.text_words.specs.Fault.{CountsReads, CountsWrites};
ghost use Rattle.book_texts.specs.Planning.{plan_output};
ghost use Rattle.book_texts.specs.Promise.{IsSettingOf, KeepsLimit, MayOpen};
ghost use Rattle.book_texts.specs.Trying.{IsCopied, IsSoughtOn, IsTriedOn, IsTrialTurn};

use crate::booking::{answer_line, earliest_start, empty_book, told};
use crate::command::{Command, Said, opens_plan, read_line};
use crate::reply::Reply;
use crate::report::put_report;
use airtime_planner::answer_to;
use bumpalo::Bump;
use gateway_book::{Ask, GatewayBook, Refusal};
use resv_list::Roster;
use resv_tree::TreeRoster;
use std::alloc::Allocator;
use text_lines::{ByteIn, ByteOut, CallFailed, LineAnswerer, TextLine, WriteBehind, answer_text};
use text_words::TextFault;

/// Books what the lines of the input ask for, as `book_text` does, up to a line `plan`. The bookings after it are tried on a
/// copy of the book, in an arena: each is answered by a line that begins with `if`, and what is accepted stays for the next;
/// so is the earliest start looked for after them. The book itself is left alone, and the report at the end is its own. It
/// answers whether a line of the output begins with `no` or `bad`.
///
/// `Settings`: no book can be opened with this cap or gap, by the name BadCap or BadGap, and nothing was read then. `Read`,
/// `TooMuch` and `Write` as of `book_text`; `NoMemory` never comes. Want of memory refuses one booking, by a line of the output;
/// where the book can't be copied for want of it, each booking of the plan, and each question for the earliest start.
#[tactic(auto, using(crate::proofs::OpeningLemmas::ended_early))]
pub fn plan_text<A: Allocator + Clone + Copy, R: ByteIn, W: ByteOut>(
    alloc: A,
    cap: u32,
    gap: u32,
    reader: &mut R,
    writer: &mut W,
) -> Result<bool, TextFault>
    ensures ok { IfOk result (AnswersAll (plan_output (record { cap = cap; gap = gap })) (R.left reader.old) (R.left reader.new)
        (W.taken writer.old) (W.taken writer.new)) }
    ensures front { OnErr result (AnswersFront (plan_output (record { cap = cap; gap = gap })) (R.left reader.old)
        (W.taken writer.old) (W.taken writer.new)) }
    ensures read_front { OnErr result (AnswersRead (plan_output (record { cap = cap; gap = gap })) (R.left reader.old)
        (R.left reader.new) (W.taken writer.old) (W.taken writer.new)) }
    ensures limit { KeepsLimit (R.left reader.old) result }
    ensures settings { IsSettingOf (record { cap = cap; gap = gap }) result }
    ensures untouched { (¬ MayOpen (record { cap = cap; gap = gap })) → (reader.new ≡ reader.old) × (writer.new ≡ writer.old) }
    ensures read { CountsReads (R.failed_calls reader.old) (R.failed_calls reader.new) result }
    ensures write { CountsWrites (W.failed_calls writer.old) (W.failed_calls writer.new) result }
{
    let book = empty_book(alloc, cap, gap)?;
    let arena = Bump::new(alloc);
    let lines = PlanLines {
        book,
        alloc,
        spare: Some(TreeRoster::new(&arena)),
        is_planned: false,
        copy: None,
    };
    Ok(answer_text(lines, reader, writer)?)
}

/// A book that answers lines, and from a line `plan` on a copy of it that does.
#[derive(Drop)]
struct PlanLines<B: Roster, C: Roster, A: Allocator> {
    book: GatewayBook<B>,
    /// Where the list is taken from which the book is copied.
    alloc: A,
    /// The empty roster for the copy, until it is made.
    spare: Option<C>,
    is_planned: bool,
    /// The copy; none where the plan is not open, and where memory was wanted for it.
    copy: Option<GatewayBook<C>>,
    ghost empty: { ForSome spare (λ roster. C.list roster ≡ []) },
}

impl<B: Roster + Drop, C: Roster + Drop, A: Allocator + Copy> LineAnswerer for PlanLines<B, C, A> {
    ghost use Rattle.book_texts.specs.Planning.{Planned, plan_turns};
    ghost use Rattle.book_texts.specs.Trying.{StandsPlanned, plan_turns_by_kept, plan_ends_without_refusal};

    ghost State = { Planned };

    ghost turns = { plan_turns };

    ghost Stands = { λ lines. StandsPlanned lines.book lines.is_planned lines.copy };

    fn answer(&mut self, number: u64, line: &[u8], text: &mut TextLine) -> bool {
        if self.is_planned {
            return try_line(&mut self.copy, number, line, text);
        }
        if opens_plan(line) {
            self.is_planned = true;
            self.copy = copy_onto(self.spare.take(), self.alloc, &self.book);
            return false;
        }
        answer_line(&mut self.book, number, line, text)
    }

    fn end<W: ByteOut>(self, output: &mut WriteBehind, writer: &mut W) -> Result<(), CallFailed> {
        put_report(&self.book, output, writer)
    }

    ghost by_kept = { plan_turns_by_kept };

    ghost no_refusal_at_the_end = { plan_ends_without_refusal };
}

/// A copy of the book over the empty roster; none where there is no roster, or no memory.
fn copy_onto<B: Roster, C: Roster + Drop, A: Allocator>(
    spare: Option<C>,
    alloc: A,
    book: &GatewayBook<B>,
) -> Option<GatewayBook<C>>
    requires { ForSome spare (λ roster. C.list roster ≡ []) }
    ensures { IsCopied book.now result }
{
    let members = book.list(alloc).ok()?;
    let totals = book.totals();
    GatewayBook::trial(
        spare?,
        book.id(),
        book.cap(),
        book.gap(),
        totals.floor,
        totals.booked,
        members.as_slice(),
    )
    .ok()
}

/// Tries line `number` of a plan on the copy of the book, makes the empty `text` the answer, if the line is not passed over, and
/// says whether it begins with `no` or `bad`.
fn try_line<C: Roster>(
    copy: &mut Option<GatewayBook<C>>,
    number: u64,
    line: &[u8],
    text: &mut TextLine,
) -> bool
    requires { text.old ≡ [] }
    ensures { IsTrialTurn copy.old copy.new number line.now text.new result }
{
    match read_line(line) {
        Said::Nothing => false,
        Said::Order(Command::Book(ask)) => {
            try_ask(copy, ask).write_if(text);
            false
        }
        Said::Order(Command::Earliest { ask, last }) => {
            try_earliest(copy, ask, last).write_if(text);
            false
        }
        Said::Order(_) | Said::Malformed => {
            Reply::Bad { line: number }.write(text);
            true
        }
    }
}

/// Tries a booking on the copy of the book; without one memory is wanted.
fn try_ask<C: Roster>(copy: &mut Option<GatewayBook<C>>, ask: Ask) -> Reply
    ensures { IsTriedOn copy.old copy.new ask result }
{
    let Some(book) = copy else {
        return told(ask, Err(Refusal::NoMemory));
    };
    match answer_to(book, ask) {
        Ok(answer) => told(ask, answer),
        Err(_) => told(ask, Err(Refusal::NoMemory)),
    }
}

/// Looks for the earliest start on the copy of the book; without one memory is wanted.
fn try_earliest<C: Roster>(copy: &Option<GatewayBook<C>>, ask: Ask, last: u64) -> Reply
    ensures { IsSoughtOn copy.now ask last result }
{
    match copy {
        Some(book) => earliest_start(book, ask, last),
        None => told(ask, Err(Refusal::NoMemory)),
    }
}
