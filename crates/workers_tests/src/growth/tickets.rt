// Tickets: one is made for a job, and tried on a book.
ghost use Rattle.std.specs.Prelude.{IfOk};
ghost use Rattle.answer_ticket.specs.Job.{IsJob};

use answer_ticket::{Bytes, Copies, Job, NoMemory, Ticket, Tried};
use gateway_book::GatewayBook;
use lora_frame::{Key, Keys};
use refusing_alloc::{Call, Refuser, Refusing, asked_of, growths_of, same, was_refused};
use resv_list::Roster;
use resv_tree::TreeRoster;
use rx_windows::Plan;
use server_core::DataRate;
use std::alloc::Allocator;
use std::test::Fail;
use uplink_gather::HeardCopy;
use worked_inputs::booked;

/// What a ticket shows: its number, its gateway and its downlink counter.
pub(crate) type Shown = (u64, u16, u32);

/// What came of a ticket: how many growths the first try asked for; where it came back, what it showed, and whether the books
/// were as before; and the number and the length of the frame that was booked in the end.
pub(crate) type Gone = (u64, Option<(Shown, bool)>, Option<(u64, usize)>);

/// Whether the growth of this number was asked for, which was refused. The ticket then asked for no more, and came back as it
/// was; in the end it was booked.
pub(crate) fn is_wanted(number: u64, gone: Gone, wanted: (Shown, usize)) -> Result<bool, Fail> {
    let (shown, len) = wanted;
    let is_refused = gone.0 >= number;
    let asked = gone.0.min(number);
    let back = is_refused.then_some((shown, true));
    same(gone, (asked, back, Some((shown.0, len))))?;
    Ok(is_refused)
}

/// What a ticket shows.
pub(crate) fn shown_by<A: Allocator>(ticket: &Ticket<A>) -> Shown {
    (ticket.number(), ticket.gateway(), ticket.counter())
}

/// The number and the length of the frame that was booked.
pub(crate) fn booked_in<A: Allocator>(tried: Tried<A>) -> Option<(u64, usize)> {
    let (stub, receipt) = booked(tried)?;
    Some((stub.end().number, receipt.frame.as_slice().len()))
}

/// A copy that gateway 1 heard until 5,000,000 us at DR5 on 868.1 MHz.
const COPY: HeardCopy = HeardCopy {
    gateway: 1,
    at: 5_000_000,
    freq_hz: 868_100_000,
    rate: DataRate::Dr5,
    snr: 0,
    rssi: -100,
};

/// A device that listens as LoRaWAN's EU868 has it, with a payload of 100 bytes.
const PLAN: Plan = Plan {
    delay: 1,
    offset: 0,
    rx2_freq: 869_525_000,
    rx2_rate: DataRate::Dr0,
    payload: Some(100),
};

/// The answer to a confirmed uplink with that copy, with that payload on port 9.
fn job<A: Allocator + Copy>(alloc: A) -> Result<Job<A>, NoMemory>
    ensures { IfOk result IsJob }
{
    Ok(Job {
        number: 17,
        addr: 7,
        ack: true,
        counter: 0,
        queued: 1,
        body: Some((9, Bytes::new([0x40; 100].to_vec(alloc)?))),
        copies: Copies::new([COPY].to_vec(alloc)?),
        plan: PLAN,
        keys: Keys {
            nwk: Key::new([1; 16]),
            app: Key::new([2; 16]),
        },
    })
}

/// Tries a ticket on a book with growths refused, and once more if it comes back.
fn tried_on<A: Allocator + Copy, R: Roster>(
    alloc: &Refuser,
    ticket: Ticket<A>,
    book: &mut GatewayBook<R>,
) -> Gone {
    let before = book.totals();
    let tried = ticket.try_on(book);
    let asked = asked_of(alloc);
    match tried {
        Tried::NoMemory(back) => {
            let seen = (shown_by(&back), book.totals() == before);
            (asked, Some(seen), booked_in(back.try_on(book)))
        }
        tried => (asked, None, booked_in(tried)),
    }
}

/// Makes a ticket and tries it on this book with the growth of this number refused: whether there was one.
fn is_tried_without<A: Allocator + Copy, R: Roster>(
    alloc: &Refuser,
    own: A,
    book: &mut GatewayBook<R>,
    number: u64,
) -> Result<bool, Fail> {
    let job = job(own)?;
    alloc.refuse(number);
    match Ticket::new(own, job) {
        Ok(ticket) => is_wanted(number, tried_on(alloc, ticket, book), ((17, 1, 0), 113)),
        Err(_) => was_refused(alloc, number, true, false),
    }
}

/// A ticket that is made, and tried on the empty book of its gateway.
#[derive(Drop)]
struct Trying;

impl Call for Trying {
    fn is_refused(&mut self, alloc: &Refuser, number: u64) -> Result<bool, Fail> {
        is_tried_anew(alloc, alloc, number)
    }
}

/// Makes a ticket and tries it on the empty book of its gateway with the growth of this number refused: whether there was one.
fn is_tried_anew<A: Allocator + Copy>(alloc: &Refuser, own: A, number: u64) -> Result<bool, Fail> {
    let mut book = GatewayBook::new(TreeRoster::new(own), 1, 4_096, 0)?;
    is_tried_without(alloc, own, &mut book, number)
}

// Refuses `answer_ticket` `Ticket::new`: 1.
// Refuses `answer_ticket` `Ticket::try_on`: 2: the frame, and the book's.
/// It takes a growth to make a ticket, and two to try it: the frame's, and the book's.
#[test]
fn a_ticket_is_made_and_tried(rt: HostRuntime) -> Result<(), Fail> {
    same(growths_of(&Refusing::new(rt.alloc()), &mut Trying)?, 3)
}
