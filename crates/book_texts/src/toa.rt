// The text of `airbook toa`.
ghost use Rattle.std.specs.Prelude.{◌≡◌, [], ◌∷◌, ◌++◌, IfOk, IfErr, OnOk, OnErr};
ghost use Rattle.std.specs.Io.KnownBytes.{Appends};
ghost use Rattle.text_lines.specs.Calls.{CountsFailure};
ghost use Rattle.text_lines.specs.Writing.{WritesFront};
ghost use Rattle.text_words.specs.Words.{is_refusal};
ghost use Rattle.book_texts.specs.Toa.{toa_line};

use radio_airtime::{DataRate, airtime};
use text_lines::{ByteOut, TextLine, write_all};
use text_words::TextFault;

/// Writes the time on air of a PHYPayload of `len` bytes at data rate `rate`, in microseconds, as one line:
/// `no NoRate` for a rate above 6, `no TooLong` for a length above the rate's greatest. It answers whether the line
/// begins with `no`; `Write` where a call of the writer failed.
pub fn toa_text<W: ByteOut>(rate: u8, len: u8, writer: &mut W) -> Result<bool, TextFault>
    ensures ok { OnOk result (Appends (W.taken writer.old) (W.taken writer.new) (toa_line rate len ++ (10 ∷ []))) }
    ensures refused { IfOk result (λ refused. refused ≡ is_refusal (toa_line rate len)) }
    ensures err { OnErr result (WritesFront (W.taken writer.old) (W.taken writer.new) (toa_line rate len ++ (10 ∷ []))) }
    ensures write { IfErr result (λ fault. fault ≡ TextFault.Write) }
    ensures failed { CountsFailure (W.failed_calls writer.old) (W.failed_calls writer.new) result }
{
    let mut text = TextLine::new();
    let refused = toa_onto(rate, len, &mut text);
    match write_all(writer, text.as_slice()) {
        Ok(()) => Ok(refused),
        Err(_) => Err(TextFault::Write),
    }
}

/// Makes the empty `text` the line, and answers whether it begins with `no`.
fn toa_onto(rate: u8, len: u8, text: &mut TextLine) -> bool
    requires { text.old ≡ [] }
    ensures text { text.new ≡ toa_line rate len ++ (10 ∷ []) }
    ensures refused { result ≡ is_refusal (toa_line rate len) }
{
    match DataRate::from_number(rate) {
        None => {
            text.text(b"no NoRate\n");
            true
        }
        Some(rate) if len > rate.max_phy() => {
            text.text(b"no TooLong\n");
            true
        }
        Some(rate) => {
            text.number(airtime(rate, len));
            text.text(b"\n");
            false
        }
    }
}
