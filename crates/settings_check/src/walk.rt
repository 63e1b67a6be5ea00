// The tables and keys of settings, in the order in which they stand in the text.
ghost use Rattle.std.specs.Prelude.{◌≡◌, IfSome};
ghost use Rattle.settings_check.specs.KnownNames.{list_name};

use crate::place::{Cursor, Place};
use std::alloc::{AllocError, Global};
use toml_parser::text::{byte_at, first, skip_blank, skip_ws};
use toml_parser::{Key, ParseError, dotted_key, quoted, starts_string, unquoted};

/// One of the two lists of tables.
#[derive(Clone, Copy, Debug, PartialEq, Eq)]
pub(crate) enum TableList {
    /// `gateway`.
    Gateways,
    /// `device`.
    Devices,
}

impl TableList {
    /// The list of this name.
    pub(crate) fn named(name: &str) -> Option<TableList>
        ensures { IfSome result (λ list. list_name list ≡ name.now) }
    {
        match name {
            "gateway" => Some(TableList::Gateways),
            "device" => Some(TableList::Devices),
            _ => None,
        }
    }

    /// Its name, which is also what one table of it is called.
    pub(crate) fn name(self) -> &'static str
        ensures { result.now ≡ list_name self }
    {
        match self {
            TableList::Gateways => "gateway",
            TableList::Devices => "device",
        }
    }
}

/// Whose keys these are.
#[derive(Clone, Copy, Debug)]
pub(crate) enum Owner {
    /// Those of the document.
    Document,
    /// Those of one table of a list, counted from 0.
    Item(TableList, usize),
    /// Those of a table of which nothing is read.
    Other,
}

/// What was found on the way.
#[derive(Debug, Drop)]
pub(crate) enum Spot {
    /// A member of a list, counted from 0: a table, where the settings are right.
    Item {
        list: TableList,
        index: usize,
        place: Place,
    },
    /// A key of the document or of a member, by the first of its parts.
    Key {
        owner: Owner,
        name: String,
        place: Place,
    },
}

/// What is open around the place.
#[derive(Clone, Copy)]
enum Nest {
    /// An array: one of the two lists, or another.
    Array(Option<TableList>),
    /// An inline table with these keys.
    Table(Owner),
}

/// A walk through a text that is TOML. It reads each byte once or twice, and keeps what is open at the place, which is no deeper
/// than the parser takes it.
#[derive(Drop)]
pub(crate) struct Walk<'a> {
    alloc: Global,
    rest: &'a str,
    cursor: Cursor<'a>,
    /// How many members the two lists have so far.
    gateways: usize,
    devices: usize,
    /// Whose the keys of this section are.
    section: Owner,
    /// The list that the key just read is, if its value is to be one.
    begins: Option<TableList>,
    /// A key comes next, and no value.
    at_key: bool,
    nests: Vec<Nest>,
}

impl<'a> Walk<'a> {
    /// A walk that is about to begin.
    pub(crate) fn new(alloc: Global, text: &'a str) -> Self {
        Walk {
            alloc,
            rest: without_mark(text),
            cursor: Cursor::new(text),
            gateways: 0,
            devices: 0,
            section: Owner::Document,
            begins: None,
            at_key: true,
            nests: Vec::new(alloc),
        }
    }

    /// The next table or key; None at the end, and where the text is no TOML.
    pub(crate) fn next(&mut self) -> Result<Option<Spot>, AllocError> {
        // Each turn takes at least a byte.
        for _turn in 0..self.rest.len() {
            self.rest = skip_blank(self.rest, true);
            match self.turn() {
                Ok(Turn::Found(spot)) => return Ok(Some(spot)),
                Ok(Turn::On) => {}
                Ok(Turn::End) | Err(ParseError::At(..)) => return Ok(None),
                Err(ParseError::OutOfMemory) => return Err(AllocError),
            }
        }
        Ok(None)
    }

    /// Takes a key, a header, a value that is no array and no table, or one byte of the others.
    fn turn(&mut self) -> Result<Turn, ParseError> {
        let byte = first(self.rest);
        match byte {
            0 => Ok(Turn::End),
            b'[' if self.at_key => self.header(),
            b']' | b'}' => {
                self.take(1);
                let _closed = self.nests.pop();
                Ok(self.end_value())
            }
            b',' => {
                self.take(1);
                self.at_key = matches!(self.nests.last(), Some(Nest::Table(_)));
                Ok(Turn::On)
            }
            _ if self.at_key => self.key(),
            _ => self.value(byte),
        }
    }

    /// Goes on by so many bytes, which are ASCII.
    fn take(&mut self, count: usize) {
        self.rest = self.rest.get(count..).unwrap_or("");
    }

    /// A value is over: between statements a key comes next.
    fn end_value(&mut self) -> Turn {
        self.at_key = self.nests.is_empty();
        Turn::On
    }

    /// The place of the text that is left.
    fn place(&mut self) -> Place {
        self.cursor.go_to(self.rest)
    }

    /// How many members a list has.
    fn count(&mut self, list: TableList) -> &mut usize {
        match list {
            TableList::Gateways => &mut self.gateways,
            TableList::Devices => &mut self.devices,
        }
    }

    /// One more member of a list begins here.
    fn item(&mut self, list: TableList, place: Place) -> (Owner, Spot) {
        let count = self.count(list);
        let index = *count;
        *count = index.saturating_add(1);
        let spot = Spot::Item { list, index, place };
        (Owner::Item(list, index), spot)
    }

    /// Takes a header, `[..]` or `[[..]]`.
    fn header(&mut self) -> Result<Turn, ParseError> {
        let place = self.place();
        let is_array = byte_at(self.rest, 1) == b'[';
        self.take(if is_array { 2 } else { 1 });
        let (key, rest) = dotted_key(self.alloc, skip_ws(self.rest))?;
        self.rest = rest;
        self.take(if is_array { 2 } else { 1 });
        let Key { path, last } = key;
        let mut parts = path;
        parts.push(last)?;
        Ok(self.section_of(parts, is_array, place))
    }

    /// The section of a header with these parts begins.
    fn section_of(&mut self, parts: Vec<String>, is_array: bool, place: Place) -> Turn {
        let mut names = parts.into_iter();
        let Some(name) = names.next() else {
            return Turn::End;
        };
        self.section = Owner::Other;
        let Some(list) = TableList::named(name.as_str()) else {
            return key_spot(Owner::Document, name, place);
        };
        let index = *self.count(list);
        match names.next() {
            // Below the last member of a list.
            Some(below) if index > 0 => key_spot(Owner::Item(list, index - 1), below, place),
            None if is_array => {
                let (owner, spot) = self.item(list, place);
                self.section = owner;
                Turn::Found(spot)
            }
            _ => key_spot(Owner::Document, name, place),
        }
    }

    /// Takes a key and its equals sign.
    fn key(&mut self) -> Result<Turn, ParseError> {
        let place = self.place();
        let (Key { path, last }, rest) = dotted_key(self.alloc, self.rest)?;
        self.rest = rest;
        self.take(1);
        self.at_key = false;
        self.begins = None;
        let owner = match self.nests.last() {
            None => self.section,
            Some(Nest::Table(owner)) => *owner,
            Some(Nest::Array(_)) => Owner::Other,
        };
        if let Owner::Other = owner {
            return Ok(Turn::On);
        }
        let mut names = path.into_iter();
        let Some(name) = names.next() else {
            if let Owner::Document = owner {
                self.begins = TableList::named(last.as_str());
            }
            return Ok(key_spot(owner, last, place));
        };
        Ok(key_spot(owner, name, place))
    }

    /// Takes a value that begins with this byte, or its first byte, and tells of it where it is a member of a list.
    fn value(&mut self, byte: u8) -> Result<Turn, ParseError> {
        let member = match self.nests.last() {
            Some(Nest::Array(Some(list))) => Some(*list),
            _ => None,
        };
        let place = self.place();
        let (owner, found) = match member {
            Some(list) => {
                let (owner, spot) = self.item(list, place);
                (owner, Turn::Found(spot))
            }
            None => (Owner::Other, Turn::On),
        };
        self.value_of(byte, owner)?;
        Ok(found)
    }

    /// Takes a value that begins with this byte, or its first byte; if it is a table, its keys are this owner's.
    fn value_of(&mut self, byte: u8, owner: Owner) -> Result<(), ParseError> {
        match byte {
            b'[' => {
                self.nests.push(Nest::Array(self.begins))?;
                self.begins = None;
                self.take(1);
            }
            b'{' => {
                self.nests.push(Nest::Table(owner))?;
                self.begins = None;
                self.take(1);
                self.at_key = true;
            }
            _ => {
                self.rest = after_scalar(self.alloc, self.rest)?;
                self.end_value();
            }
        }
        Ok(())
    }
}

/// What one turn gives.
#[derive(Drop)]
enum Turn {
    /// A table or a key.
    Found(Spot),
    /// Nothing of these.
    On,
    /// The end of the text.
    End,
}

/// A key was found.
fn key_spot(owner: Owner, name: String, place: Place) -> Turn {
    Turn::Found(Spot::Key { owner, name, place })
}

/// What follows a string, a number, a boolean or a date-time.
fn after_scalar(alloc: Global, text: &str) -> Result<&str, ParseError> {
    if starts_string(text) {
        let (_value, rest) = quoted(alloc, text)?;
        return Ok(rest);
    }
    let (_value, rest) = unquoted(alloc, text)?;
    Ok(rest)
}

/// A text without the byte order mark at its start.
fn without_mark(text: &str) -> &str {
    match text.strip_prefix('\u{feff}') {
        Some(rest) => rest,
        None => text,
    }
}
