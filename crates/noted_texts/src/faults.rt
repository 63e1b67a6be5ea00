// What is wrong with settings or with a saved book, in words.
use gateway_book::{GatewayBook, LoadFault};
use resv_tree::TreeRoster;
use settings_check::report_of;
use std::alloc::Global;
use std::str;
use text_lines::MemoryIn;

/// The first fault of settings that has this name; None where there is none, or no memory to find it.
pub fn settings_fault(alloc: Global, text: &[u8], name: &str) -> Option<String> {
    let report = report_of(alloc, text).ok()?;
    for finding in &report.findings {
        if finding.severity.tells(name) {
            let place = finding.place;
            let line = place.line;
            let column = place.column;
            let words = finding.words.as_str();
            return format!(in alloc; "settings, line {line}, column {column}: {words}").ok();
        }
    }
    None
}

/// The fault of a saved book, and the line at which it is met; None where there is none, or no memory to find it.
pub fn saved_book_fault(alloc: Global, text: &[u8]) -> Option<String> {
    let mut reader = MemoryIn::new(text);
    let Err(fault) = GatewayBook::load(&mut reader, TreeRoster::new(alloc)) else {
        return None;
    };
    let number = match fault {
        LoadFault::Syntax { line } | LoadFault::Unlawful { line } => line,
        LoadFault::Version => 1,
        LoadFault::Read | LoadFault::NoMemory => return None,
    };
    let above = usize::try_from(number.saturating_sub(1)).ok()?;
    let line = text.split(|byte| *byte == b'\n').skip(above).next()?;
    let line = str::from_utf8(line).unwrap_or("bytes that are no UTF-8");
    format!(in alloc; "{fault}: {line}").ok()
}
