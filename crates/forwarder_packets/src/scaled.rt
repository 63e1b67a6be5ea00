// Decimal fractions as whole numbers.
ghost use Rattle.std.specs.Prelude.{◌≡◌, ◌≤◌, ◌^◌, ◌<◌, ◌&&◌, ◌||◌, ◌+◌, ◌*◌, ◌==◌, true, length, drop, position, nat_le, IfSome};
ghost use Rattle.std.specs.List.{list_all};
ghost use Rattle.text_lines.specs.Number.{is_digit, is_digits, value_of};
ghost use Rattle.forwarder_packets.specs.Scaled.{point_of, fraction_of, places_of, unsigned_scaled, scaled};

/// How many digits may stand before the point: more fit no number that a packet forwarder tells.
const MOST_DIGITS: usize = 10;

/// The number that a text is, times 10 to so many places, at most 6: `-` or not, 1 to 10 digits, and maybe a point with digits behind
/// it, of which those past the places are dropped. None for any other text, as one with an exponent. Takes no memory.
pub fn scaled(text: &[u8], places: usize) -> Option<i64>
    requires { places ≤ 6 }
    ensures { result ≡ scaled places text.now }
{
    match text {
        [] => None,
        [b'-', unsigned @ ..] => Some(-(unsigned_scaled(unsigned, places)? as i64)),
        unsigned => Some(unsigned_scaled(unsigned, places)? as i64),
    }
}

/// The same of a text without a sign.
fn unsigned_scaled(text: &[u8], places: usize) -> Option<u64>
    requires { places ≤ 6 }
    ensures value { result ≡ unsigned_scaled places text.now }
    ensures small { IfSome result (λ n. n < 2 ^ 62) }
{
    let point = point_of(text);
    let whole = &text[..point];
    let fraction = fraction_of(text);
    if !is_plain(whole, fraction, point == text.len()) {
        return None;
    }
    Some(joined(value_of(whole), places, places_of(fraction, places)))
}

/// The digits behind the point.
pub fn fraction_of(text: &[u8]) -> &[u8]
    ensures { result.now ≡ fraction_of text.now }
{
    behind(text, point_of(text))
}

/// Where the point stands, or the end.
fn point_of(text: &[u8]) -> usize
    ensures value { result ≡ point_of text.now }
    ensures within { result ≤ length text.now }
{
    match first_point(text) {
        Some(point) => point,
        None => text.len(),
    }
}

fn first_point(text: &[u8]) -> Option<usize>
    ensures value { result ≡ position (λ c. c == 46) text.now }
    ensures within { IfSome result (λ point. point < length text.now) }
{
    text.iter().position(|byte| *byte == b'.')
}

/// What stands behind the byte at a place.
fn behind(text: &[u8], at: usize) -> &[u8]
    requires { at ≤ length text.now }
    ensures { result.now ≡ drop (at + 1) text.now }
{
    if at == text.len() {
        &[]
    } else {
        &text[at + 1..]
    }
}

/// A number of at most 10 digits times ten to so many, and what stands behind its point.
fn joined(whole: u64, places: usize, behind: u64) -> u64
    requires places { places ≤ 6 }
    requires whole { whole < 10 ^ 10 }
    requires behind { behind < 10 ^ 6 }
    ensures value { result ≡ whole * 10 ^ places + behind }
    ensures small { result < 2 ^ 62 }
{
    whole * ten_to(places) + behind
}

/// Whether these are digits, 1 to 10 before the point, and behind it at least one where there is a point.
fn is_plain(whole: &[u8], fraction: &[u8], is_whole: bool) -> bool
    ensures { result ≡ is_digits 10 whole.now && list_all is_digit fraction.now && (nat_le 1 (length fraction.now) || is_whole) }
{
    !whole.is_empty()
        && whole.len() <= MOST_DIGITS
        && are_digits(whole)
        && are_digits(fraction)
        && (!fraction.is_empty() || is_whole)
}

fn are_digits(text: &[u8]) -> bool
    ensures { result ≡ list_all is_digit text.now }
{
    text.iter().all(|byte| byte.is_ascii_digit())
}

/// The value of so many places behind the point.
fn places_of(digits: &[u8], places: usize) -> u64
    requires places { places ≤ 6 }
    requires digits { list_all is_digit digits.now ≡ true }
    ensures value { result ≡ places_of places digits.now }
    ensures small { result < 10 ^ 6 }
{
    let kept = &digits[..digits.len().min(places)];
    value_of(kept) * ten_to(places - kept.len())
}

/// The value of at most 10 digits.
fn value_of(digits: &[u8]) -> u64
    requires few { length digits.now ≤ 10 }
    requires digits { list_all is_digit digits.now ≡ true }
    ensures value { result ≡ value_of digits.now }
    ensures small { result < 10 ^ length digits.now }
{
    let mut value = 0;
    for byte in digits {
        value = value * 10 + u64::from(*byte - b'0');
    }
    value
}

/// Ten to so many, at most 6.
#[tactic(auto, using(crate::proofs::Digits::small_power))]
fn ten_to(places: usize) -> u64
    requires { places ≤ 6 }
    ensures value { result ≡ 10 ^ places }
    ensures small { result ≤ 10 ^ 6 }
{
    10_u64.pow(places as u32)
}
