// One received packet of a PUSH_DATA.
ghost use Rattle.std.specs.Prelude.{◌≡◌, ◌≤◌, ◌^◌, drop, option_and_then};
ghost use Rattle.std.specs.Option.{option_map};
ghost use Rattle.json.specs.Value.{value_view};
ghost use Rattle.forwarder_packets.specs.Scaled.{scaled};
ghost use Rattle.forwarder_packets.specs.Entry.{number_at, text_at, told_of, whole_below, if_signed, frequency_of, numbers_of};
ghost use Rattle.forwarder_packets.specs.Entry.{is_zero_digit, rate_named};
ghost use Rattle.forwarder_packets.specs.Seen.{told, counted};
ghost use Rattle.std.specs.List.{list_all};

use crate::scaled::{fraction_of, scaled};
use json::Value;
use radio_airtime::DataRate;
use std::alloc::Allocator;
use thiserror::Error;

/// Why an entry of `rxpk` isn't heard. The first that holds is told.
#[derive(Clone, Copy, Debug, PartialEq, Eq, Error)]
pub enum EntryFault {
    /// 32 entries stand before it.
    #[error("more than 32 packets in one datagram")]
    Many,
    /// It is no object, or lacks a field that is read, or one is of another kind.
    #[error("a field of the packet is missing or of another kind")]
    Shape,
    /// `stat` isn't 1: its CRC was wrong, or it had none.
    #[error("the packet had no right CRC")]
    Crc,
    /// `modu` isn't `LORA`.
    #[error("the packet's modulation is not LoRa")]
    Modulation,
    /// `datr` is none of DR0 to DR6.
    #[error("the packet's data rate is none of EU868")]
    Rate,
    /// A number is written otherwise, or doesn't fit.
    #[error("a number of the packet doesn't fit")]
    Number,
    /// `data` is no base64.
    #[error("the packet's bytes are not in base64")]
    Data,
    /// `size` is not how many bytes `data` has.
    #[error("the packet has another length than it tells")]
    Size,
    /// Another entry of the datagram has the same bytes, and was received better, or as well and stands before it.
    #[error("another packet of the datagram is the same")]
    Ghost,
}

/// The text of a number that a field is.
pub(crate) fn number_at<'a, A: Allocator>(entry: &Value<'a, A>, name: &str) -> Option<&'a str>
    ensures { option_map (λ text. text.now) result ≡ number_at name.now (value_view entry.now) }
{
    entry.get(name)?.as_number()
}

/// The text that a field is.
pub(crate) fn text_at<'a, A: Allocator>(entry: &Value<'a, A>, name: &str) -> Option<&'a str>
    ensures { option_map (λ text. text.now) result ≡ text_at name.now (value_view entry.now) }
{
    entry.get(name)?.as_str()
}

/// The whole number below 2^32 that a text is; digits behind its point are dropped.
fn whole(text: &str) -> Option<u32>
    ensures { result ≡ whole_below (2 ^ 32) (scaled 0 text.now) }
{
    u32::try_from(scaled(text.as_bytes(), 0)?).ok()
}

/// The number of 16 bits with a sign that a text is, times ten to so many.
fn signed(text: &str, places: usize) -> Option<i16>
    requires { places ≤ 6 }
    ensures { result ≡ option_and_then if_signed (scaled places text.now) }
{
    i16::try_from(scaled(text.as_bytes(), places)?).ok()
}

/// The texts of the fields that are read.
#[derive(Clone, Copy)]
pub(crate) struct Texts<'a> {
    pub(crate) stat: &'a str,
    pub(crate) modu: &'a str,
    pub(crate) datr: &'a str,
    pub(crate) tmst: &'a str,
    pub(crate) freq: &'a str,
    pub(crate) lsnr: &'a str,
    pub(crate) rssi: &'a str,
    pub(crate) size: &'a str,
    pub(crate) data: &'a str,
}

/// The texts of an entry that has all fields, each of its kind.
pub(crate) fn texts_of<'a, A: Allocator>(entry: &Value<'a, A>) -> Option<Texts<'a>>
    ensures { option_map told result ≡ told_of (value_view entry.now) }
{
    Some(Texts {
        stat: number_at(entry, "stat")?,
        modu: text_at(entry, "modu")?,
        datr: text_at(entry, "datr")?,
        tmst: number_at(entry, "tmst")?,
        freq: number_at(entry, "freq")?,
        lsnr: number_at(entry, "lsnr")?,
        rssi: number_at(entry, "rssi")?,
        size: number_at(entry, "size")?,
        data: text_at(entry, "data")?,
    })
}

/// The numbers of a packet.
#[derive(Clone, Copy)]
pub(crate) struct Numbers {
    pub(crate) tmst: u32,
    pub(crate) freq_hz: u32,
    pub(crate) snr: i16,
    pub(crate) rssi: i16,
    pub(crate) size: u32,
}

/// The numbers of these texts, where each fits.
pub(crate) fn numbers_of(texts: &Texts<'_>) -> Option<Numbers>
    ensures { option_map counted result ≡ numbers_of (told texts.now) }
{
    Some(Numbers {
        tmst: whole(texts.tmst)?,
        freq_hz: frequency(texts.freq)?,
        snr: signed(texts.lsnr, 1)?,
        rssi: signed(texts.rssi, 0)?,
        size: whole(texts.size)?,
    })
}

/// The frequency in Hz that a text says in MHz, with at most six places; None where a further digit is not 0.
fn frequency(text: &str) -> Option<u32>
    ensures { result ≡ frequency_of text.now }
{
    if !are_zeros(past(fraction_of(text.as_bytes()), 6)) {
        return None;
    }
    u32::try_from(scaled(text.as_bytes(), 6)?).ok()
}

/// The digits past so many.
fn past(digits: &[u8], count: usize) -> &[u8]
    ensures { result.now ≡ drop count digits.now }
{
    if count < digits.len() {
        &digits[count..]
    } else {
        &[]
    }
}

fn are_zeros(digits: &[u8]) -> bool
    ensures { result ≡ list_all is_zero_digit digits.now }
{
    digits.iter().all(|digit| *digit == b'0')
}

/// The data rate with this name.
pub(crate) fn rate_named(name: &str) -> Option<DataRate>
    ensures { result ≡ rate_named name.now }
{
    match name.as_bytes() {
        b"SF12BW125" => Some(DataRate::Dr0),
        b"SF11BW125" => Some(DataRate::Dr1),
        b"SF10BW125" => Some(DataRate::Dr2),
        b"SF9BW125" => Some(DataRate::Dr3),
        b"SF8BW125" => Some(DataRate::Dr4),
        b"SF7BW125" => Some(DataRate::Dr5),
        b"SF7BW250" => Some(DataRate::Dr6),
        _ => None,
    }
}
