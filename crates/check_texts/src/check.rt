// The text of `airbook check`: settings in, what is wrong or doubtful in them out.
ghost use Rattle.std.specs.Prelude.{◌≡◌, ◌≢◌, Err, IfOk, IfErr, OnOk, string_bytes};
ghost use Rattle.std.specs.Io.KnownBytes.{Appends};
ghost use Rattle.text_lines.specs.Writing.{WritesFront};
ghost use Rattle.text_words.specs.Fault.{CountsReads, CountsWrites};
ghost use Rattle.settings_check.specs.Agreement.{report_text};
ghost use Rattle.settings_check.specs.Verdict.{verdict_of};
ghost use Rattle.run_lines.specs.RunInput.{KeepsInputLimit};
ghost use Rattle.check_texts.specs.Checked.{Checks, ChecksInPart, RefusesAlike, IsCheckFault, IsWriteFault};

use run_lines::{parts_of, read_all};
use settings_check::{Report, Verdict, report_of, verdict_of};
use std::alloc::Global;
use text_lines::{ByteIn, ByteOut, write_all};
use text_words::TextFault;

/// Reads settings up to the first line that is exactly `---`, and writes a line for each thing that is wrong or doubtful in them
/// (docs/FORMATS.md, "airbook check"), and behind these what they say as a whole. It answers whether something was found, and
/// whether a run refuses the settings. An error is told only where a run refuses them, and then one has the name that it prints.
///
/// `Read`: a call of the reader failed. `TooMuch`: the input has more than 2^28 bytes. `NoMemory`: a growth was refused. After
/// each of these nothing was written. `Write`: a call of the writer failed, and a front of the output was written.
pub fn check_text<R: ByteIn, W: ByteOut>(
    alloc: Global,
    reader: &mut R,
    writer: &mut W,
) -> Result<Verdict, TextFault>
    ensures ok { IfOk result (Checks (R.left reader.old) (R.left reader.new) (W.taken writer.old) (W.taken writer.new)) }
    ensures alike { IfOk result (RefusesAlike (R.left reader.old)) }
    ensures front { result ≡ Err TextFault.Write
        → ChecksInPart (R.left reader.old) (R.left reader.new) (W.taken writer.old) (W.taken writer.new) }
    ensures untouched { IfErr result (λ fault. fault ≢ TextFault.Write → writer.new ≡ writer.old) }
    ensures fault { IfErr result IsCheckFault }
    ensures limit { KeepsInputLimit (R.left reader.old) result }
    ensures read { CountsReads (R.failed_calls reader.old) (R.failed_calls reader.new) result }
    ensures write { CountsWrites (W.failed_calls writer.old) (W.failed_calls writer.new) result }
{
    let input = read_all(alloc, reader)?;
    let (bytes, _) = parts_of(input.as_slice());
    match report_of(alloc, bytes) {
        Err(_) => Err(TextFault::NoMemory),
        Ok(report) => write_report(alloc, &report, writer),
    }
}

/// Writes the text of a report, and answers what it comes to. After `Write` a front of it was written, and after `NoMemory`
/// nothing.
fn write_report<W: ByteOut>(
    alloc: Global,
    report: &Report,
    writer: &mut W,
) -> Result<Verdict, TextFault>
    ensures ok { OnOk result (Appends (W.taken writer.old) (W.taken writer.new)
        (report_text report.now.findings.items (string_bytes report.now.summary))) }
    ensures told { IfOk result (λ verdict. verdict ≡ verdict_of report.now.findings.items) }
    ensures front { result ≡ Err TextFault.Write → WritesFront (W.taken writer.old) (W.taken writer.new)
        (report_text report.now.findings.items (string_bytes report.now.summary)) }
    ensures untouched { IfErr result (λ fault. fault ≢ TextFault.Write → writer.new ≡ writer.old) }
    ensures fault { IfErr result IsWriteFault }
    ensures write { CountsWrites (W.failed_calls writer.old) (W.failed_calls writer.new) result }
{
    let text = match report.text(alloc) {
        Err(_) => return Err(TextFault::NoMemory),
        Ok(text) => text,
    };
    match write_all(writer, text.as_bytes()) {
        Err(_) => Err(TextFault::Write),
        Ok(()) => Ok(verdict_of(&report.findings)),
    }
}
