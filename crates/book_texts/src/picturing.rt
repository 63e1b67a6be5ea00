// The picture of a saved book.
ghost use Rattle.std.specs.Prelude.{◌≡◌, false, IfOk, IfErr, OnOk, OnErr};
ghost use Rattle.text_words.specs.Fault.{CountsReads, CountsWrites, is_write};
ghost use Rattle.book_texts.specs.Picturing.{DrawsFront, DrawsWhole};
ghost use Rattle.book_texts.specs.Promise.{IsLoadingOf};

use crate::resuming::{load_ahead, stopped_by};
use book_picture::write_picture;
use std::alloc::Allocator;
use text_lines::{ByteIn, ByteOut};
use text_words::TextFault;

/// Opens the book whose saved text the input begins with, and writes the picture of an hour of it, as an SVG: of the hour that opens
/// at `from`, in microseconds of the gateway's clock, or where that is `None`, of the one that ends with the last transmission. What
/// follows the saved text is not looked at. It answers whether a line of the output begins with `no` or `bad`: none does.
///
/// `Settings("Syntax")`, `Settings("Version")`, `Settings("Unlawful")`: the input does not begin with a saved text. `NoMemory`:
/// there was none for a member of it. `Read`: a call of the reader failed. After these nothing was written. `Write`: a call of the
/// writer failed; a front of the picture was written.
pub fn picture_text<A: Allocator + Clone, R: ByteIn, W: ByteOut>(
    alloc: A,
    from: Option<u64>,
    reader: &mut R,
    writer: &mut W,
) -> Result<bool, TextFault>
    ensures ok { OnOk result (DrawsWhole from (R.left reader.old) (W.taken writer.old) (W.taken writer.new)) }
    ensures refuses_nothing { IfOk result (λ refused. refused ≡ false) }
    ensures front { OnErr result (DrawsFront from (R.left reader.old) (W.taken writer.old) (W.taken writer.new)) }
    ensures settings { IsLoadingOf (R.left reader.old) result }
    ensures untouched { IfErr result (λ fault. is_write fault ≡ false → writer.new ≡ writer.old) }
    ensures read { CountsReads (R.failed_calls reader.old) (R.failed_calls reader.new) result }
    ensures write { CountsWrites (W.failed_calls writer.old) (W.failed_calls writer.new) result }
{
    let (loaded, _input) = load_ahead(reader, alloc);
    let book = match loaded {
        Ok(book) => book,
        Err(fault) => return Err(stopped_by(fault)),
    };
    match write_picture(&book, from, writer) {
        Ok(()) => Ok(false),
        Err(_) => Err(TextFault::Write),
    }
}
