// The text of `airbook book` on a book that its input begins with.
ghost use Rattle.std.specs.Prelude.{◌≡◌, true, IfOk, IfErr, OnErr};
ghost use Rattle.std.specs.Option.{ForSome};
ghost use Rattle.gateway_book.specs.Loading.{Loads, is_read};
ghost use Rattle.gateway_book.specs.Saved.{saved_of, opened_again};
ghost use Rattle.text_lines.specs.Ahead.{unread};
ghost use Rattle.text_lines.specs.Calls.{CountsWhere};
ghost use Rattle.text_lines.specs.Promise.{AnswersWhole, AnswersInPart, AnswersSoFar};
ghost use Rattle.text_lines.specs.Rest.{IsRest};
ghost use Rattle.text_words.specs.Fault.{CountsReads, CountsWrites};
ghost use Rattle.book_texts.specs.Opening.{resumed_output};
ghost use Rattle.book_texts.specs.Promise.{IsLoadingOf, KeepsLimit, IsFaultOf, is_unopened};

use crate::booking::BookLines;
use gateway_book::{GatewayBook, LoadFault};
use resv_tree::TreeRoster;
use std::alloc::Allocator;
use std::marker::Brand;
use text_lines::{Buffered, ByteIn, ByteOut, Lent, Origin, ReadAhead, answer_rest};
use text_words::TextFault;

/// Opens the book whose saved text the input begins with, and answers the lines that follow it.
pub(crate) fn resumed_text<A: Allocator + Clone, R: ByteIn, W: ByteOut>(
    alloc: A,
    save: bool,
    reader: &mut R,
    writer: &mut W,
) -> Result<bool, TextFault>
    ensures ok { IfOk result (AnswersWhole (resumed_output save) (R.left reader.old) (R.left reader.new) (W.taken writer.old)
        (W.taken writer.new)) }
    ensures front { OnErr result (AnswersInPart (resumed_output save) (R.left reader.old) (W.taken writer.old)
        (W.taken writer.new)) }
    ensures read_front { OnErr result (AnswersSoFar (resumed_output save) (R.left reader.old) (R.left reader.new)
        (W.taken writer.old) (W.taken writer.new)) }
    ensures limit { KeepsLimit (R.left reader.old) result }
    ensures settings { IsLoadingOf (R.left reader.old) result }
    ensures unopened { IfErr result (λ fault. is_unopened fault ≡ true → writer.new ≡ writer.old) }
    ensures read { CountsReads (R.failed_calls reader.old) (R.failed_calls reader.new) result }
    ensures write { CountsWrites (W.failed_calls writer.old) (W.failed_calls writer.new) result }
{
    let (loaded, input) = load_ahead(reader, alloc);
    let book = match loaded {
        Ok(book) => book,
        Err(fault) => return Err(stopped_by(fault)),
    };
    Ok(answer_rest(BookLines { book, save }, input, reader, writer)?)
}

/// What is told of a saved text that was not read.
pub(crate) fn stopped_by(fault: LoadFault) -> TextFault
    ensures { IsFaultOf fault result }
{
    match fault {
        LoadFault::Read => TextFault::Read,
        LoadFault::Syntax { .. } => TextFault::Settings("Syntax"),
        LoadFault::Version => TextFault::Settings("Version"),
        LoadFault::Unlawful { .. } => TextFault::Settings("Unlawful"),
        LoadFault::NoMemory => TextFault::NoMemory,
    }
}

/// A book that was loaded, or why not, and what was read ahead behind it.
type LoadedAhead<A> = (Result<GatewayBook<TreeRoster<A>>, LoadFault>, ReadAhead);

/// Opens the book whose saved text the input begins with. What follows it is left, in part read ahead.
pub(crate) fn load_ahead<A: Allocator + Clone, R: ByteIn>(
    reader: &mut R,
    alloc: A,
) -> LoadedAhead<A>
    ensures loads { Loads (R.left reader.old) (unread result.1 (R.left reader.new)) result.0 }
    ensures opened { IfOk result.0 (λ b. b ≡ opened_again (saved_of b)) }
    ensures rest { ForSome (R.left reader.old) (λ bytes. IsRest bytes (unread result.1 (R.left reader.new)) result.1.taken) }
    ensures read { CountsWhere is_read (R.failed_calls reader.old) (R.failed_calls reader.new) result.0 }
{
    let (lent, loaded) = load_buffered::<A, Lent<'_, R>, Brand>(Lent { reader }, alloc);
    let Lent { reader: _reader } = lent;
    loaded
}

/// The same of a reader that is given back, and of an input that a mark stands for.
fn load_buffered<A: Allocator + Clone, R: ByteIn, I: Origin>(
    reader: R,
    alloc: A,
) -> (R, LoadedAhead<A>)
    requires place { R.place reader ≡ I.place }
    requires bytes { R.left reader ≡ I.bytes }
    ensures loads { Loads (R.left reader) (unread result.1.1 (R.left result.0)) result.1.0 }
    ensures opened { IfOk result.1.0 (λ b. b ≡ opened_again (saved_of b)) }
    ensures rest { ForSome (R.left reader) (λ bytes. IsRest bytes (unread result.1.1 (R.left result.0)) result.1.1.taken) }
    ensures read { CountsWhere is_read (R.failed_calls reader) (R.failed_calls result.0) result.1.0 }
    ensures place { R.place result.0 ≡ R.place reader }
{
    let mut source = Buffered::<R, I>::new(reader);
    let loaded = GatewayBook::load(&mut source, TreeRoster::new(alloc));
    let Buffered {
        input,
        reader,
        of: _,
    } = source;
    (reader, (loaded, input))
}
