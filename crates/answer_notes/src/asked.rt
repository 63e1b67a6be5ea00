// What is remembered of a line until it is answered.
use hex::FromHex;
use std::str;
use text_lines::{
    Words, is_passed_over, is_too_long, number_u8, number_u16, number_u32, number_u64,
};

/// What lines are about, and with them their answers.
#[derive(Clone, Copy, Debug, PartialEq, Eq)]
pub enum Script {
    /// The book of one gateway, or a plan on it.
    Book,
    /// What happens at a server.
    Run,
}

/// What a line asks for, as far as a note may speak of it.
#[derive(Clone, Copy, Debug)]
pub(crate) enum Asked {
    /// `book`: a transmission.
    Booking {
        start: u64,
        freq_hz: u32,
        rate: u8,
        len: u8,
    },
    /// `cancel` of a book: to take out the transmission that starts then.
    TakeOut {
        start: u64,
    },
    /// `earliest`: a start within these bounds.
    Start {
        not_before: u64,
        last: u64,
    },
    /// `hear`: a copy of an uplink; the device where the frame has room for its address.
    Hear {
        gateway: u16,
        device: Option<u32>,
    },
    /// `queue`: a payload for a device.
    Queue {
        device: u32,
    },
    /// `tick` of a run: the clock of this gateway.
    Clock {
        gateway: u16,
    },
    /// Something of which a note says no more than its line.
    Plain,
    /// Nothing: the line is malformed, and this is what was wanted.
    Malformed(Wanted),
}

/// What was wanted of a malformed line.
#[derive(Clone, Copy, Debug, PartialEq, Eq)]
pub(crate) enum Wanted {
    Shorter,
    Book,
    TakeOut,
    Tick,
    Earliest,
    Hear,
    Queue,
    Clock,
    Cancel,
    Pass,
}

impl Wanted {
    /// The same in words.
    pub(crate) fn words(self) -> &'static str {
        match self {
            Wanted::Shorter => "it has more than 1024 bytes",
            Wanted::Book =>
                "book is followed by NUMBER START FREQ DR LEN, with DR 0 to 6 and LEN 0 to 255",
            Wanted::TakeOut => "cancel is followed by NUMBER START",
            Wanted::Tick => "tick is followed by NOW",
            Wanted::Earliest =>
                "earliest is followed by NUMBER NOT_BEFORE LAST FREQ DR LEN, with DR 0 to 6 and LEN 0 to 255",
            Wanted::Hear => "hear is followed by GATEWAY AT FREQ DR SNR RSSI ARRIVED HEX",
            Wanted::Queue => "queue is followed by ADDR PORT HEX",
            Wanted::Clock => "tick is followed by GATEWAY NOW",
            Wanted::Cancel => "cancel is followed by the number of an uplink",
            Wanted::Pass => "pass is followed by NOW",
        }
    }
}

/// What a line asks for that may have an answer; None for one that is passed over, has no answer of its own, or begins with
/// another word.
pub(crate) fn asked_of(script: Script, line: &[u8]) -> Option<Asked> {
    if is_passed_over(line) {
        return None;
    }
    if is_too_long(line) {
        return Some(Asked::Malformed(Wanted::Shorter));
    }
    let words = Words::of(line);
    let (first, rest) = words.as_slice().split_first()?;
    let name = str::from_utf8(*first).ok()?;
    match script {
        Script::Book => asked_of_book(name, rest),
        Script::Run => asked_of_run(name, rest),
    }
}

/// What a line of `airbook book` asks for.
fn asked_of_book(name: &str, words: &[&[u8]]) -> Option<Asked> {
    let (asked, wanted) = match name {
        "book" => (booking(words), Wanted::Book),
        "cancel" => (take_out(words), Wanted::TakeOut),
        "tick" => (moment(words), Wanted::Tick),
        "earliest" => (earliest(words), Wanted::Earliest),
        _ => return None,
    };
    Some(asked.unwrap_or(Asked::Malformed(wanted)))
}

/// What a line of `airbook run` asks for.
fn asked_of_run(name: &str, words: &[&[u8]]) -> Option<Asked> {
    let (asked, wanted) = match name {
        "hear" => (hear(words), Wanted::Hear),
        "queue" => (queue(words), Wanted::Queue),
        "tick" => (clock(words), Wanted::Clock),
        "cancel" => (moment(words), Wanted::Cancel),
        // A pass that is well formed has no answer of its own.
        "pass" if moment(words).is_none() => (None, Wanted::Pass),
        _ => return None,
    };
    Some(asked.unwrap_or(Asked::Malformed(wanted)))
}

/// The booking whose words follow `book`.
fn booking(words: &[&[u8]]) -> Option<Asked> {
    let [number, start, freq_hz, rate, len] = words else {
        return None;
    };
    number_u64(number)?;
    Some(Asked::Booking {
        start: number_u64(start)?,
        freq_hz: number_u32(freq_hz)?,
        rate: rate_word(rate)?,
        len: number_u8(len)?,
    })
}

/// A data rate of 0 to 6.
fn rate_word(word: &[u8]) -> Option<u8> {
    let rate = number_u8(word)?;
    if rate > 6 {
        return None;
    }
    Some(rate)
}

/// What is to be taken out, whose words follow `cancel`.
fn take_out(words: &[&[u8]]) -> Option<Asked> {
    let [number, start] = words else {
        return None;
    };
    number_u64(number)?;
    Some(Asked::TakeOut {
        start: number_u64(start)?,
    })
}

/// One number.
fn moment(words: &[&[u8]]) -> Option<Asked> {
    let [number] = words else {
        return None;
    };
    number_u64(number)?;
    Some(Asked::Plain)
}

/// The bounds of a start, whose words follow `earliest`.
fn earliest(words: &[&[u8]]) -> Option<Asked> {
    let [number, not_before, last, freq_hz, rate, len] = words else {
        return None;
    };
    booking(&[*number, *not_before, *freq_hz, *rate, *len])?;
    Some(Asked::Start {
        not_before: number_u64(not_before)?,
        last: number_u64(last)?,
    })
}

/// The copy of an uplink whose words follow `hear`.
fn hear(words: &[&[u8]]) -> Option<Asked> {
    let [gateway, at, freq_hz, rate, _, _, arrived, frame] = words else {
        return None;
    };
    number_u64(at)?;
    number_u32(freq_hz)?;
    number_u8(rate)?;
    number_u64(arrived)?;
    Some(Asked::Hear {
        gateway: number_u16(gateway)?,
        device: sender_of(frame),
    })
}

/// The device that sent a frame: the address of an uplink that is to be made, or that of a PHYPayload in hexadecimal digits, the
/// least significant byte first.
fn sender_of(frame: &[u8]) -> Option<u32> {
    match frame {
        [b'@', _, b':', rest @ ..] => device_word(rest.get(..8)?),
        _ => Some(device_word(frame.get(2..10)?)?.swap_bytes()),
    }
}

/// The payload whose words follow `queue`.
fn queue(words: &[&[u8]]) -> Option<Asked> {
    let [addr, port, _] = words else {
        return None;
    };
    number_u8(port)?;
    Some(Asked::Queue {
        device: device_word(addr)?,
    })
}

/// An address of 8 hexadecimal digits, the most significant first.
fn device_word(word: &[u8]) -> Option<u32> {
    let bytes = <[u8; 4] as FromHex>::from_hex(word).ok()?;
    Some(u32::from_be_bytes(bytes))
}

/// The gateway whose words follow `tick`.
fn clock(words: &[&[u8]]) -> Option<Asked> {
    let [gateway, now] = words else {
        return None;
    };
    number_u64(now)?;
    Some(Asked::Clock {
        gateway: number_u16(gateway)?,
    })
}
