// The report on some settings: all findings, of which the errors agree with what a server answers to them.
ghost use Rattle.std.specs.Prelude.{◌≡◌, ◌↔◌, false, true, IfOk, IsErr, Err, string_bytes};
ghost use Rattle.toml.specs.View.{table_view};
ghost use Rattle.settings_text.specs.declared.settings_fault.ReadFault.{ReadFault};
ghost use Rattle.settings_text.specs.SettingsOfBytes.{settings_in};
ghost use Rattle.settings_text.specs.SettingsOfTable.{settings_of, settings_of_document};
ghost use Rattle.settings_check.specs.Verdict.{verdict_of};
ghost use Rattle.settings_check.specs.declared.verdict.Verdict.{Verdict};
ghost use Rattle.settings_check.specs.Agreement.{Agrees, has_error, tells_fault, line_of, report_text};

use crate::finding::{Finding, Severity};
use crate::place::{Place, place_after};
use crate::search::findings_of;
use crate::summary::{add_document, counts_line};
use settings_text::{ReadFault, document_settings};
use std::alloc::{AllocError, Global};
use toml::Table;

/// The findings of settings, by their places, and behind them what the settings say as a whole.
#[derive(Debug, Drop)]
pub struct Report {
    /// The findings, by their places. One of which no place is known comes last.
    pub findings: Vec<Finding>,
    /// Lines, each with its end.
    pub summary: String,
}

/// The report on some bytes as settings (docs/FORMATS.md, "airbook check"). A finding is an error only where a server refuses the
/// settings, and then one has the name that the server prints. An Err comes only where a growth was refused.
pub fn report_of(alloc: Global, bytes: &[u8]) -> Result<Report, AllocError>
    ensures agrees { IfOk result (λ report. Agrees (settings_in bytes.now) report.findings.items) }
    ensures alike { IfOk result (λ report. (verdict_of report.findings.items ≡ Verdict.Refused) ↔ IsErr (settings_in bytes.now)) }
{
    match std::str::from_utf8(bytes) {
        Ok(text) => report_of_text(alloc, text),
        Err(fault) => {
            let place = place_after(front_of(bytes, fault.valid_up_to()));
            let words = String::from_str(alloc, "bytes that are no UTF-8")?;
            report_of_no_toml(alloc, place, words)
        }
    }
}

/// So many bytes at the front.
fn front_of(bytes: &[u8], count: usize) -> &[u8] {
    bytes.get(..count).unwrap_or(bytes)
}

/// The report on a text as settings.
#[tactic(auto, unfolding(settings_text::specs::SettingsOfTable::settings_of))]
fn report_of_text(alloc: Global, text: &str) -> Result<Report, AllocError>
    ensures { IfOk result (λ report. Agrees (settings_of text.now) report.findings.items) }
{
    match toml::table_from_str(alloc, text) {
        Ok(document) => report_of_document(alloc, text, &document),
        Err(fault) if fault.is_memory() => Err(AllocError),
        Err(fault) => {
            let before = match fault.span() {
                Some(span) => front_of(text.as_bytes(), span.start),
                None => text.as_bytes(),
            };
            let place = place_after(before);
            let message = fault.message();
            let hint = hint_for(text, place);
            let words = format!(in alloc; "{message}{hint}")?;
            report_of_no_toml(alloc, place, words)
        }
    }
}

/// What to say of a line that is no TOML where it looks like a line of a run.
fn hint_for(text: &str, place: Place) -> &'static str {
    let above = usize::try_from(place.line.saturating_sub(1)).unwrap_or(0);
    let line = text.lines().skip(above).next().unwrap_or("");
    let word = line.split_whitespace().next().unwrap_or("");
    match word {
        "queue" | "hear" | "pass" | "tick" | "cancel" => {
            "; before the lines of a run a line --- has to stand"
        }
        _ => "",
    }
}

/// The report on bytes that are no TOML.
fn report_of_no_toml(alloc: Global, place: Place, words: String) -> Result<Report, AllocError>
    ensures { IfOk result (λ report. Agrees (Err ReadFault.NotToml) report.findings.items) }
{
    let mut findings = Vec::new(alloc);
    findings.push(Finding {
        place,
        severity: Severity::Error(ReadFault::NotToml),
        words,
    })?;
    let summary = counts_line(alloc, &findings)?;
    Ok(Report { findings, summary })
}

/// The report on a document, of which this is the text.
fn report_of_document(alloc: Global, text: &str, document: &Table) -> Result<Report, AllocError>
    ensures { IfOk result (λ report. Agrees (settings_of_document (table_view document.now)) report.findings.items) }
{
    let found = findings_of(alloc, text, document)?;
    let findings = match document_settings(alloc, document) {
        Ok(_settings) => warnings_of(found),
        Err(ReadFault::NoMemory) => return Err(AllocError),
        Err(fault) => with_fault(alloc, found, fault, place_after(text.as_bytes()))?,
    };
    let mut summary = counts_line(alloc, &findings)?;
    add_document(alloc, document, &mut summary)?;
    Ok(Report { findings, summary })
}

/// Whether one of these findings is an error.
pub(crate) fn has_error(findings: &[Finding]) -> bool
    ensures { result ≡ has_error findings.now }
{
    findings.iter().any(|finding| finding.severity.is_error())
}

/// Whether for one of these findings a server prints the name of this fault.
fn tells_fault(findings: &[Finding], fault: ReadFault) -> bool
    ensures { result ≡ tells_fault fault findings.now }
{
    let name = fault.name();
    findings.iter().any(|finding| finding.severity.tells(name))
}

/// The findings of settings that a server takes: all but the errors, of which a search may have told one too many.
fn warnings_of(found: Vec<Finding>) -> Vec<Finding>
    ensures { has_error result.items ≡ false }
{
    let mut findings = found;
    findings.retain(|finding| !finding.severity.is_error());
    findings
}

/// The findings of settings that a server refuses for this fault: those that were found, and one more where none of them tells it.
fn with_fault(
    alloc: Global,
    found: Vec<Finding>,
    fault: ReadFault,
    end: Place,
) -> Result<Vec<Finding>, AllocError>
    ensures { IfOk result (λ findings. tells_fault fault findings.items ≡ true) }
{
    if tells_fault(&found, fault) {
        return Ok(found);
    }
    let mut findings = found;
    let words = format!(in alloc; "{fault}")?;
    findings.push(Finding {
        place: end,
        severity: Severity::Error(fault),
        words,
    })?;
    Ok(findings)
}

impl Report {
    /// The text of the report: a line for each finding, and the summary.
    pub fn text(&self, alloc: Global) -> Result<String, AllocError>
        ensures { IfOk result (λ text. string_bytes text
            ≡ report_text self.now.findings.items (string_bytes self.now.summary)) }
    {
        let mut text = String::new(alloc);
        for finding in &self.findings {
            let line = line_of(alloc, finding)?;
            text.push_str(line.as_str())?;
        }
        text.push_str(self.summary.as_str())?;
        Ok(text)
    }
}

/// A finding's line, with its end.
fn line_of(alloc: Global, finding: &Finding) -> Result<String, AllocError>
    ensures { IfOk result (λ line. string_bytes line ≡ line_of finding.now) }
{
    let Place { line, column } = finding.place;
    let words = finding.words.as_str();
    match finding.severity {
        Severity::Error(fault) => {
            let name = fault.name();
            format!(in alloc; "error {name} {line}:{column} {words}\n")
        }
        Severity::Warning => format!(in alloc; "warning {line}:{column} {words}\n"),
    }
}
