// All findings of a document: its tables and keys are looked at in the order of the text.

use crate::finding::{Finding, Severity};
use crate::names::nearest;
use crate::place::{Place, START};
use crate::problem::{Problem, shown_text, shown_value};
use crate::setting_key::{FORWARDER_KEYS, KEYS, Rule, SettingKey, is_for_forwarders};
use crate::telling::{Entry, Member, number_of, numbered};
use crate::walk::{Owner, Spot, TableList, Walk};
use radio_bands::Band;
use server_desk::{DataRate, SettingsFault};
use settings_text::ReadFault;
use std::alloc::{AllocError, Global};
use std::collections::BTreeMap;
use toml::{Table, Value};

/// The most gateways, and the most devices.
const MAX_GATEWAYS: usize = 64;

const MAX_DEVICES: usize = 1_024;

/// Below so many microseconds between two transmissions a packet forwarder refuses some.
const USUAL_GAP_US: i64 = 45_000;

/// Where an id or an address was first met.
#[derive(Clone, Copy)]
struct Earlier {
    number: u64,
    line: u64,
}

/// A search through the settings that a document says.
#[derive(Drop)]
pub(crate) struct Search<'a> {
    pub(crate) alloc: Global,
    document: &'a Table,
    pub(crate) found: Vec<Finding>,
    ids: BTreeMap<i64, Earlier>,
    addrs: BTreeMap<String, Earlier>,
}

/// All findings of a document, of which this is the text, by their places.
pub(crate) fn findings_of(
    alloc: Global,
    text: &str,
    document: &Table,
) -> Result<Vec<Finding>, AllocError> {
    let mut search = Search {
        alloc,
        document,
        found: Vec::new(alloc),
        ids: BTreeMap::new(alloc),
        addrs: BTreeMap::new(alloc),
    };
    let mut walk = Walk::new(alloc, text);
    if members_of(document, TableList::Gateways).is_empty()
        && is_list(document, TableList::Gateways)
    {
        search.tell_list(
            TableList::Gateways,
            ReadFault::Checked(SettingsFault::Count),
            START,
            Problem::NoGateway,
        )?;
    }
    for _spot in 0..text.len() {
        match walk.next()? {
            None => break,
            Some(spot) => search.look_at(spot)?,
        }
    }
    let Search { mut found, .. } = search;
    found.sort_by_key(|finding| finding.place)?;
    Ok(found)
}

/// The members of a list.
pub(crate) fn members_of<'a>(document: &'a Table, list: TableList) -> &'a [Value] {
    match document.get(list.name()) {
        Some(Value::Array(members)) => members.as_slice(),
        _ => &[],
    }
}

/// Whether a list is an array, or left out.
fn is_list(document: &Table, list: TableList) -> bool {
    matches!(document.get(list.name()), None | Some(Value::Array(_)))
}

impl<'a> Search<'a> {
    /// Looks at a table or a key.
    fn look_at(&mut self, spot: Spot) -> Result<(), AllocError> {
        match spot {
            Spot::Item { list, index, place } => self.look_at_member(list, index, place),
            Spot::Key { owner, name, place } => match owner {
                Owner::Document => self.look_at_document(name.as_str(), place),
                Owner::Item(list, index) => self.look_at_key(list, index, name.as_str(), place),
                Owner::Other => Ok(()),
            },
        }
    }

    /// Looks at a key of the document.
    fn look_at_document(&mut self, name: &str, place: Place) -> Result<(), AllocError> {
        let problem = match TableList::named(name) {
            Some(list) if is_list(self.document, list) => return Ok(()),
            Some(list) => {
                return self.tell_list(list, ReadFault::Kind, place, Problem::NoArray(list.name()));
            }
            None => self.unknown_of_document(name)?,
        };
        let subject = shown_text(self.alloc, name)?;
        self.tell(subject, Severity::Warning, place, problem)
    }

    /// What an unknown key of the document is.
    fn unknown_of_document(&self, name: &str) -> Result<Problem, AllocError> {
        if is_table(self.document.get(name)) {
            let near = nearest(self.alloc, name, &["gateway", "device"])?;
            return Ok(match near {
                Some(near) => Problem::NearTable(near),
                None => Problem::UnknownTable,
            });
        }
        Ok(match home_of(name) {
            Some(list) => Problem::Elsewhere(list.name()),
            None => Problem::UnknownKey,
        })
    }

    /// Looks at a member of a list, for what it leaves out.
    fn look_at_member(
        &mut self,
        list: TableList,
        index: usize,
        place: Place,
    ) -> Result<(), AllocError> {
        let most = most_of(list);
        if index == most {
            let fault = ReadFault::Checked(SettingsFault::Count);
            self.tell_list(list, fault, place, Problem::TooMany(most))?;
        }
        match members_of(self.document, list).get(index) {
            Some(Value::Table(table)) => self.look_at_table(Member { list, index, table }, place),
            Some(other) => {
                let shown = shown_value(self.alloc, other, None)?;
                let subject = numbered(self.alloc, list, index)?;
                let severity = Severity::Error(ReadFault::Kind);
                self.tell(subject, severity, place, Problem::NoTable(shown))
            }
            None => Ok(()),
        }
    }

    /// Looks at what a table leaves out.
    fn look_at_table(&mut self, member: Member<'a>, place: Place) -> Result<(), AllocError> {
        for key in KEYS {
            let is_needed = key.list() == member.list && key.default().is_none();
            if is_needed && member.table.get(key.name()).is_none() {
                let severity = Severity::Error(ReadFault::Missing);
                self.tell_key(
                    member,
                    key.name(),
                    severity,
                    place,
                    Problem::Missing(key.rule()),
                )?;
            }
        }
        if member.list == TableList::Gateways && member.table.get("gap").is_none() {
            self.tell_key(member, "gap", Severity::Warning, place, Problem::LowGap(0))?;
        }
        Ok(())
    }

    /// Looks at a key of a table.
    fn look_at_key(
        &mut self,
        list: TableList,
        index: usize,
        name: &str,
        place: Place,
    ) -> Result<(), AllocError> {
        let Some(Value::Table(table)) = members_of(self.document, list).get(index) else {
            return Ok(());
        };
        let member = Member { list, index, table };
        match (SettingKey::named(list, name), table.get(name)) {
            (Some(key), Some(value)) => self.look_at_value(Entry {
                member,
                key,
                value,
                place,
            }),
            (None, _) if is_for_forwarders(list, name) => Ok(()),
            (None, _) => {
                let problem = unknown_of(self.alloc, list, name)?;
                self.tell_key(member, name, Severity::Warning, place, problem)
            }
            (Some(_), None) => Ok(()),
        }
    }

    /// Looks at the value of a key.
    fn look_at_value(&mut self, entry: Entry<'a>) -> Result<(), AllocError> {
        let rule = entry.key.rule();
        match fault_of(entry.value, rule) {
            Some(fault) => {
                let shown = shown_value(self.alloc, entry.value, Some(rule))?;
                self.tell_entry(entry, Severity::Error(fault), Problem::Wrong(shown, rule))
            }
            None => self.look_beside(entry),
        }
    }

    /// Looks at a value that its key may hold, beside other values.
    fn look_beside(&mut self, entry: Entry<'a>) -> Result<(), AllocError> {
        match (entry.key, entry.value) {
            (SettingKey::Id, Value::Integer(id)) => {
                let earlier = self.ids.get(id).copied();
                self.ids.insert(*id, earlier.unwrap_or(met(entry)))?;
                self.tell_double(entry, earlier, SettingsFault::DoubleGateway)
            }
            (SettingKey::Addr, Value::String(addr)) => {
                let addr = addr.as_str().to_ascii_lowercase(self.alloc)?;
                let earlier = self.addrs.get(addr.as_str()).copied();
                self.addrs.insert(addr, earlier.unwrap_or(met(entry)))?;
                self.tell_double(entry, earlier, SettingsFault::DoubleDevice)
            }
            (SettingKey::Rx2Freq, Value::Integer(freq)) => self.look_at_band(entry, *freq),
            (SettingKey::Gap, Value::Integer(gap)) if *gap < USUAL_GAP_US => {
                self.tell_entry(entry, Severity::Warning, Problem::LowGap(*gap))
            }
            (SettingKey::Down, Value::Integer(0)) if entry.member.table.get("up").is_some() => {
                self.tell_entry(entry, Severity::Warning, Problem::CountersAnew)
            }
            (SettingKey::Up, _) if entry.member.table.get("down").is_none() => {
                let member = entry.member;
                self.tell_key(
                    member,
                    "down",
                    Severity::Warning,
                    entry.place,
                    Problem::CountersAnew,
                )
            }
            _ => Ok(()),
        }
    }

    /// Tells that an id or an address was met before.
    fn tell_double(
        &mut self,
        entry: Entry<'a>,
        earlier: Option<Earlier>,
        fault: SettingsFault,
    ) -> Result<(), AllocError> {
        let Some(Earlier { number, line }) = earlier else {
            return Ok(());
        };
        let problem = Problem::Double(entry.member.list.name(), number, line);
        self.tell_entry(entry, Severity::Error(ReadFault::Checked(fault)), problem)
    }

    /// Looks at the channel of RX2 (RP002, EU863-870).
    fn look_at_band(&mut self, entry: Entry<'a>, freq_hz: i64) -> Result<(), AllocError> {
        let number = match entry.member.table.get("rx2_dr") {
            Some(Value::Integer(number)) => *number,
            Some(_) => return Ok(()),
            None => 0,
        };
        let rate = match u8::try_from(number) {
            Ok(number) => DataRate::from_number(number),
            Err(_) => None,
        };
        let (Some(rate), Ok(freq)) = (rate, u32::try_from(freq_hz)) else {
            return Ok(());
        };
        if Band::of(freq, rate).is_some() {
            return Ok(());
        }
        let fault = ReadFault::Checked(SettingsFault::NoBand);
        self.tell_entry(
            entry,
            Severity::Error(fault),
            Problem::NoBand(freq_hz, number),
        )
    }
}

/// Where the id or the address of an entry was met.
fn met(entry: Entry<'_>) -> Earlier {
    Earlier {
        number: number_of(entry.member.index),
        line: entry.place.line,
    }
}

/// How many members a list may have.
fn most_of(list: TableList) -> usize {
    match list {
        TableList::Gateways => MAX_GATEWAYS,
        TableList::Devices => MAX_DEVICES,
    }
}

/// Whether a value is a table or an array of tables.
fn is_table(value: Option<&Value>) -> bool {
    match value {
        Some(Value::Table(_)) => true,
        Some(Value::Array(values)) => matches!(values.first(), Some(Value::Table(_))),
        _ => false,
    }
}

/// The list to whose tables a key of this name belongs.
fn home_of(name: &str) -> Option<TableList> {
    for key in KEYS {
        if key.name() == name {
            return Some(key.list());
        }
    }
    if is_for_forwarders(TableList::Gateways, name) {
        return Some(TableList::Gateways);
    }
    None
}

/// What an unknown key of a table is.
fn unknown_of(alloc: Global, list: TableList, name: &str) -> Result<Problem, AllocError> {
    if let Some(home) = home_of(name) {
        return Ok(Problem::Elsewhere(home.name()));
    }
    let mut names = Vec::new(alloc);
    for key in KEYS {
        if key.list() == list {
            names.push(key.name())?;
        }
    }
    if list == TableList::Gateways {
        names.extend_from_slice(&FORWARDER_KEYS)?;
    }
    Ok(match nearest(alloc, name, names.as_slice())? {
        Some(near) => Problem::NearKey(near),
        None => Problem::UnknownKey,
    })
}

/// What is wrong with a value by itself.
fn fault_of(value: &Value, rule: Rule) -> Option<ReadFault> {
    match (rule, value) {
        (Rule::Whole { low, high, most }, Value::Integer(number)) => {
            if *number < 0 || *number > most {
                return Some(ReadFault::Kind);
            }
            if *number < low || *number > high {
                return Some(ReadFault::Checked(SettingsFault::Range));
            }
            None
        }
        (Rule::Digits(count) | Rule::Secret(count), Value::String(text)) => {
            let bytes = text.as_bytes();
            if bytes.len() == count && bytes.iter().all(|byte| byte.is_ascii_hexdigit()) {
                return None;
            }
            Some(ReadFault::Kind)
        }
        _ => Some(ReadFault::Kind),
    }
}
