// What a finding says of its place.

use crate::setting_key::Rule;
use std::alloc::{AllocError, Global};
use std::fmt;
use thiserror::Error;
use toml::Value;

/// How many characters of a name or of a text are shown.
const SHOWN: usize = 40;

/// What is wrong or doubtful at a place.
#[derive(Debug, Drop, Error)]
pub(crate) enum Problem {
    #[error("unknown key, which is passed over")]
    UnknownKey,
    #[error("unknown key, did you mean {0}?")]
    NearKey(&'static str),
    #[error("unknown key here, it belongs below [[{0}]]")]
    Elsewhere(&'static str),
    #[error("unknown table, which is passed over")]
    UnknownTable,
    #[error("unknown table, did you mean [[{0}]]?")]
    NearTable(&'static str),
    #[error("no array of tables, which begin by [[{0}]]")]
    NoArray(&'static str),
    #[error("{0}, allowed: a table")]
    NoTable(String),
    #[error("missing, allowed: {0}")]
    Missing(Rule),
    #[error("{0}, allowed: {1}")]
    Wrong(String, Rule),
    #[error("{0} Hz at DR{1} lies in no sub-band of EU868")]
    NoBand(i64, i64),
    #[error("the same as that of {0} {1} at line {2}")]
    Double(&'static str, u64, u64),
    #[error("at least 1 has to be there")]
    NoGateway,
    #[error("at most {0} may be there")]
    TooMany(usize),
    #[error("{0} us, below the 45000 us that packet forwarders need")]
    LowGap(i64),
    #[error("0 beside up, so counters come twice if downlinks were sent before")]
    CountersAnew,
}

impl fmt::Display for Rule {
    fn fmt<W: fmt::Write>(&self, f: &mut fmt::Formatter<W>) -> fmt::Result {
        match self {
            Rule::Whole { low, high, .. } => write!(f, "a whole number {low} to {high}"),
            Rule::Digits(count) | Rule::Secret(count) => {
                write!(f, "a text of {count} hexadecimal digits")
            }
        }
    }
}

/// The front of a name or a text, on one line.
pub(crate) fn shown_text(alloc: Global, text: &str) -> Result<String, AllocError> {
    let mut shown = String::new(alloc);
    for (place, letter) in text.chars().enumerate() {
        if place == SHOWN {
            shown.push_str("..")?;
            return Ok(shown);
        }
        shown.push(if letter.is_control() { '?' } else { letter })?;
    }
    Ok(shown)
}

/// What a value is, in words. Of a key's value no digit is shown.
pub(crate) fn shown_value(
    alloc: Global,
    value: &Value,
    rule: Option<Rule>,
) -> Result<String, AllocError> {
    let words = match value {
        Value::Integer(_) if matches!(rule, Some(Rule::Secret(_))) => "a whole number",
        Value::Integer(number) => return format!(in alloc; "{number}"),
        Value::String(text) => return shown_string(alloc, text.as_str(), rule),
        Value::Float(_) => "a number with a point",
        Value::Boolean(true) => "true",
        Value::Boolean(false) => "false",
        Value::Datetime(_) => "a date or a time",
        Value::Array(_) => "an array",
        Value::Table(_) => "a table",
    };
    String::from_str(alloc, words)
}

/// What a text is, in words.
fn shown_string(alloc: Global, text: &str, rule: Option<Rule>) -> Result<String, AllocError> {
    let Some(Rule::Secret(digits)) = rule else {
        let shown = shown_text(alloc, text)?;
        let shown = shown.as_str();
        return format!(in alloc; "the text \"{shown}\"");
    };
    let count = text.chars().count();
    if count != digits {
        return format!(in alloc; "a text of {count} characters");
    }
    match text.chars().position(|letter| !letter.is_ascii_hexdigit()) {
        Some(before) => {
            let place = before.saturating_add(1);
            format!(in alloc; "a text whose character {place} is no hexadecimal digit")
        }
        None => String::from_str(alloc, "a text of other digits"),
    }
}
