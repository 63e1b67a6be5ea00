// What the gateways of a server open with.
ghost use Rattle.std.specs.Prelude.{◌≡◌, map, find, slice_get, All, IfOk, OnOk};
ghost use Rattle.std.specs.List.{position_from};
ghost use Rattle.server_core.specs.Opened.{IsWhole};
ghost use Rattle.server_desk.specs.Settings.{IsGatewayInRange};
ghost use Rattle.server_desk.specs.World.{rules_of};
ghost use Rattle.serve_opening.specs.Gateways.{has_eui, without_first, known_by, others, unmatched, renumbered, IsRuled, IsOpenedAs};
ghost use Rattle.serve_opening.specs.Gateways.{AreOpened, high_as, highs, setting_of};

use crate::silence::silenced;
use resv_tree::TreeRoster;
use serve_journal::JournalGateway;
use serve_settings::Forwarder;
use server_core::{Book, GatewaySetting, NoMemory};
use server_desk::empty_book;
use std::alloc::Allocator;

/// What the clock of a gateway shows at least of which nothing else is known, in microseconds.
const FIRST_HIGH: u64 = 2_000_000;

/// What the gateways of a server open with, in the order of the settings.
#[derive(Drop)]
pub(crate) struct Gateways<A: Allocator + Copy> {
    pub(crate) books: Vec<Book<A>, A>,
    /// What each one's clock shows at least, in microseconds.
    pub(crate) highs: Vec<u64, A>,
}

/// What these gateways open with, each one's packet forwarder at the same place: what the journal has of its EUI, which is taken
/// out of there, or an empty book. Err(NoMemory) where a growth was refused.
pub(crate) fn gateways_of<A: Allocator + Copy>(
    alloc: A,
    gateways: &[GatewaySetting],
    forwarders: &[Forwarder],
    known: &mut Vec<JournalGateway<A>, A>,
) -> Result<Gateways<A>, NoMemory>
    requires { All IsGatewayInRange gateways.now }
    ensures books { IfOk result (λ opened. AreOpened gateways.now forwarders.now known.old.items opened.books.items) }
    ensures highs { IfOk result (λ opened. opened.highs.items ≡ highs gateways.now forwarders.now known.old.items) }
    ensures forgotten { OnOk result (known.new.items ≡ unmatched gateways.now forwarders.now known.old.items) }
{
    let mut books = Vec::with_capacity(alloc, gateways.len())?;
    let mut highs = Vec::with_capacity(alloc, gateways.len())?;
    for (place, gateway) in gateways.iter().enumerate() {
        let taken = take_at(known, forwarders, place);
        highs.push(high_of(&taken))?;
        books.push(opened(alloc, gateway, taken)?)?;
    }
    Ok(Gateways { books, highs })
}

/// Takes the journal's gateway with the EUI of the packet forwarder at this place out, if there are both.
fn take_at<A: Allocator + Copy>(
    known: &mut Vec<JournalGateway<A>, A>,
    forwarders: &[Forwarder],
    place: usize,
) -> Option<JournalGateway<A>>
    ensures taken { result ≡ known_by (slice_get forwarders.now place) known.old.items }
    ensures rest { known.new.items ≡ others (slice_get forwarders.now place) known.old.items }
{
    match forwarders.get(place) {
        Some(forwarder) => take_named(known, &forwarder.eui),
        None => None,
    }
}

/// Takes the first of these gateways with this EUI out, if there is one.
fn take_named<A: Allocator + Copy>(
    known: &mut Vec<JournalGateway<A>, A>,
    eui: &[u8; 8],
) -> Option<JournalGateway<A>>
    ensures taken { result ≡ find (has_eui eui.now) known.old.items }
    ensures rest { known.new.items ≡ without_first (has_eui eui.now) known.old.items }
{
    match place_of(known, eui) {
        Some(place) => Some(known.remove(place)),
        None => None,
    }
}

/// The place of the first of these gateways with this EUI.
fn place_of<A: Allocator + Copy>(known: &[JournalGateway<A>], eui: &[u8; 8]) -> Option<usize>
    ensures { result ≡ position_from (has_eui eui.now) 0 known.now }
{
    known.iter().position(|gateway| has_eui(gateway, eui))
}

/// Whether the journal's gateway has this EUI.
fn has_eui<A: Allocator + Copy>(gateway: &JournalGateway<A>, eui: &[u8; 8]) -> bool
    ensures { result ≡ has_eui eui.now gateway.now }
{
    gateway.eui.as_slice() == eui.as_slice()
}

/// What the clock of a gateway shows at least, in microseconds, by what the journal has of it.
fn high_of<A: Allocator + Copy>(known: &Option<JournalGateway<A>>) -> u64
    ensures { result ≡ high_as known.now }
{
    match known {
        Some(known) => known.high,
        None => FIRST_HIGH,
    }
}

/// The book that a gateway opens with, by what the journal has of it.
fn opened<A: Allocator + Copy>(
    alloc: A,
    gateway: &GatewaySetting,
    known: Option<JournalGateway<A>>,
) -> Result<Book<A>, NoMemory>
    requires { IsGatewayInRange gateway.now }
    ensures { IfOk result (IsOpenedAs gateway.now known) }
{
    match known {
        Some(known) => {
            let book = renumbered(alloc, gateway.id, known.book)?;
            silenced(alloc, ruled(gateway, book))
        }
        None => Ok(empty_book(alloc, gateway)),
    }
}

/// A book under another number. Takes memory only where the number is another.
fn renumbered<A: Allocator + Copy>(alloc: A, id: u16, book: Book<A>) -> Result<Book<A>, NoMemory>
    ensures { IfOk result (λ made. made ≡ renumbered id book) }
{
    if book.id() == id {
        return Ok(book);
    }
    let totals = book.totals();
    let members = book.list(alloc)?;
    Book::trial(
        TreeRoster::new(alloc),
        id,
        book.cap(),
        book.gap(),
        totals.floor,
        totals.booked,
        &members,
    )
}

/// A book under the cap and the gap of its gateway where it may have them, else under its own.
fn ruled<A: Allocator + Copy>(gateway: &GatewaySetting, book: Book<A>) -> Book<A>
    ensures { IsRuled (rules_of gateway.now) book result }
{
    match book.with_rules(gateway.cap, gateway.gap) {
        Ok(book) => book,
        Err(book) => book,
    }
}

/// The gateways of these books as they are set. Err(NoMemory) where a growth was refused.
pub(crate) fn settings_of<A: Allocator + Copy>(
    alloc: A,
    books: &[Book<A>],
) -> Result<Vec<GatewaySetting, A>, NoMemory>
    ensures settings { IfOk result (λ gateways. gateways.items ≡ map setting_of books.now) }
    ensures whole { OnOk result (All IsWhole books.now) }
{
    let mut gateways = Vec::with_capacity(alloc, books.len())?;
    for book in books {
        book.law_whole();
        gateways.push(GatewaySetting {
            id: book.id(),
            cap: book.cap(),
            gap: book.gap(),
        })?;
    }
    Ok(gateways)
}
