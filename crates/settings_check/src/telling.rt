// How findings are told: each names the list, the table or the key that it is about.

use crate::finding::{Finding, Severity};
use crate::place::Place;
use crate::problem::{Problem, shown_text};
use crate::search::Search;
use crate::setting_key::SettingKey;
use crate::walk::TableList;
use settings_text::ReadFault;
use std::alloc::{AllocError, Global};
use toml::{Table, Value};

/// One table of a list.
#[derive(Clone, Copy)]
pub(crate) struct Member<'a> {
    pub(crate) list: TableList,
    pub(crate) index: usize,
    pub(crate) table: &'a Table,
}

/// A key of such a table, at its place.
#[derive(Clone, Copy)]
pub(crate) struct Entry<'a> {
    pub(crate) member: Member<'a>,
    pub(crate) key: SettingKey,
    pub(crate) value: &'a Value,
    pub(crate) place: Place,
}

impl<'a> Search<'a> {
    /// Tells of a list as a whole.
    pub(crate) fn tell_list(
        &mut self,
        list: TableList,
        fault: ReadFault,
        place: Place,
        problem: Problem,
    ) -> Result<(), AllocError> {
        let subject = String::from_str(self.alloc, list.name())?;
        self.tell(subject, Severity::Error(fault), place, problem)
    }

    /// Tells of the value of a key.
    pub(crate) fn tell_entry(
        &mut self,
        entry: Entry<'a>,
        severity: Severity,
        problem: Problem,
    ) -> Result<(), AllocError> {
        self.tell_key(
            entry.member,
            entry.key.name(),
            severity,
            entry.place,
            problem,
        )
    }

    /// Tells of a key of a table.
    pub(crate) fn tell_key(
        &mut self,
        member: Member<'a>,
        key: &str,
        severity: Severity,
        place: Place,
        problem: Problem,
    ) -> Result<(), AllocError> {
        let table = named(self.alloc, member)?;
        let table = table.as_str();
        let key = shown_text(self.alloc, key)?;
        let key = key.as_str();
        let subject = format!(in self.alloc; "{table} {key}")?;
        self.tell(subject, severity, place, problem)
    }

    /// One more finding.
    pub(crate) fn tell(
        &mut self,
        subject: String,
        severity: Severity,
        place: Place,
        problem: Problem,
    ) -> Result<(), AllocError> {
        let subject = subject.as_str();
        let words = format!(in self.alloc; "{subject}: {problem}")?;
        self.found.push(Finding {
            place,
            severity,
            words,
        })?;
        Ok(())
    }
}

/// A table by its list and its number, from 1.
pub(crate) fn numbered(alloc: Global, list: TableList, index: usize) -> Result<String, AllocError> {
    let list = list.name();
    let number = number_of(index);
    format!(in alloc; "{list} {number}")
}

/// The same with its id or its address, where that can be read.
fn named(alloc: Global, member: Member<'_>) -> Result<String, AllocError> {
    let table = numbered(alloc, member.list, member.index)?;
    let table_name = table.as_str();
    match (
        member.list,
        member.table.get("id"),
        member.table.get("addr"),
    ) {
        (TableList::Gateways, Some(Value::Integer(id)), _) => {
            format!(in alloc; "{table_name} ({id})")
        }
        (TableList::Devices, _, Some(Value::String(addr))) => {
            let addr = shown_text(alloc, addr.as_str())?;
            let addr = addr.as_str();
            format!(in alloc; "{table_name} ({addr})")
        }
        _ => Ok(table),
    }
}

/// The number from 1 of what is counted from 0.
pub(crate) fn number_of(index: usize) -> u64 {
    (index as u64).saturating_add(1)
}
