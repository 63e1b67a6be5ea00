// Lists by number: an item is looked for at a likely place, and then by halving.
ghost use Rattle.std.specs.Prelude.{◌≡◌, ◌<◌, ◌≤◌, ◌==◌, IsTrue, find, length, slice_get, IfSome};
ghost use Rattle.std.specs.Option.{option_map, option_and_then};
ghost use Rattle.std.specs.List.Sorted.{IsNonDecreasingBy};
ghost use Rattle.run_server.specs.Numbered.{IsEndOfLesser};

use answer_ticket::{Outcome, Receipt};
use server_core::TakeFault;
use std::alloc::Global;

/// What has the number of an uplink.
pub(crate) trait Numbered {
    ghost use Rattle.std.specs.Prelude.{ℕ};

    ghost number_of: { Self → ℕ };

    /// The number.
    fn number(&self) -> u64
        ensures { result ≡ number_of self.now };
}

impl Numbered for u64 {
    ghost number_of = { λ n. n };

    fn number(&self) -> u64 {
        *self
    }
}

impl Numbered for (u64, TakeFault) {
    ghost number_of = { λ r. r.0 };

    fn number(&self) -> u64 {
        self.0
    }
}

impl Numbered for Outcome {
    ghost number_of = { λ o. o.number };

    fn number(&self) -> u64 {
        self.number
    }
}

impl Numbered for Receipt<Global> {
    ghost number_of = { λ r. r.number };

    fn number(&self) -> u64 {
        self.number
    }
}

/// The first of these items with this number, which are by number. It is looked for at the likely place first, which is renewed:
/// behind what was found, where the next one stands if the numbers that are looked for rise.
pub(crate) fn with_number<'i, T: Numbered>(
    items: &'i [T],
    likely: &mut usize,
    number: u64,
) -> Option<&'i T>
    requires { IsNonDecreasingBy T.number_of items.now }
    ensures { option_map (λ x. x.now) result ≡ find (λ x. T.number_of x == number) items.now }
{
    let at = place_of(items, *likely, number)?;
    *likely = at.saturating_add(1);
    items.get(at)
}

/// The place of the first item with this number, which is looked for at the likely place first.
pub(crate) fn place_of<T: Numbered>(items: &[T], likely: usize, number: u64) -> Option<usize>
    requires { IsNonDecreasingBy T.number_of items.now }
    ensures first { IfSome result (IsEndOfLesser T.number_of number items.now) }
    ensures within { IfSome result (λ at. at < length items.now) }
    ensures found { option_and_then (slice_get items.now) result ≡ find (λ x. T.number_of x == number) items.now }
{
    let at = end_of_lesser(items, likely, number);
    (items.get(at)?.number() == number).then_some(at)
}

/// Where those of these items end that have lesser numbers; they are by number. The likely place is looked at first.
pub(crate) fn end_of_lesser<T: Numbered>(items: &[T], likely: usize, number: u64) -> usize
    requires { IsNonDecreasingBy T.number_of items.now }
    ensures { IsEndOfLesser T.number_of number items.now result }
{
    if likely <= items.len() && is_end_of_lesser(items, likely, number) {
        return likely;
    }
    items.partition_point(|item| item.number() < number)
}

/// Whether they end at this place.
fn is_end_of_lesser<T: Numbered>(items: &[T], at: usize, number: u64) -> bool
    requires rising { IsNonDecreasingBy T.number_of items.now }
    requires within { at ≤ length items.now }
    ensures { IsTrue result → IsEndOfLesser T.number_of number items.now at }
{
    if at > 0 && items[at - 1].number() >= number {
        return false;
    }
    at == items.len() || items[at].number() >= number
}
