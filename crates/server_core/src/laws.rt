// What the definitions of the whole system mean together, as laws: a function's contract is the statement.

ghost use Rattle.server_core.specs.BookCalls.{BookCallsAreSteps};
ghost use Rattle.server_core.specs.DeskCalls.{DeskCallsAreSteps};
ghost use Rattle.server_core.specs.Headline.{EveryRunKeepsHeadline};
ghost use Rattle.server_core.specs.Promise.{EveryInterleavingIsSafe};
ghost use Rattle.server_core.specs.Resumed.{EveryResumedRunKeepsHeadline};
ghost use Rattle.server_core.specs.Staying.{OthersLeaveAlone};

use std::alloc::Allocator;

/// What holds over every interleaving. A step is what happens in one holding of one lock: a payload is queued, a copy
/// of an uplink is heard, time passes for the gatherings, a ticket is given, an answer is settled (the desk's lock); a
/// ticket's next candidate is tried, a transmission is cancelled, time passes for a gateway (that gateway's lock). For
/// all settings that are accepted, all limits of gathering and every list of steps, after the last step:
///
/// - each gathered uplink holds at most one reservation over all gateways: its number stands once at most;
/// - that reservation has the start, the channel, the data rate and the length of one of the candidates of the job that
///   its ticket was given for: of RX1 or RX2 of a copy of its uplink, as the device with the uplink's address listens,
///   by the payload of that job, if it has one (the head of the device's queue, by the step that gives the ticket); and
///   it stands on the gateway that heard this copy; the job has the uplink's address;
/// - each gateway's list is lawful, that is, its reservations are fit and disjoint and the airtime begun within any
///   hour keeps the limit of its sub-band; and what was booked less what was cancelled is the airtime of the list;
/// - each gathered uplink has one answer, and what it says is kept once;
/// - a ticket was given once at most for an uplink, and no downlink counter to two jobs with one address;
/// - the gateways and the devices are those of the settings.
///
/// That the settings are accepted is the only premise.
pub fn law_every_interleaving()
    ensures { EveryInterleavingIsSafe }
{}

/// What the steps of the whole system are on the desk's part of it, which is all but the books; of an answer that is out
/// the desk knows no more than that it is out. For every state of the system:
///
/// - a payload that is queued, a copy that is heard, time that passes for the gatherings, and a ticket that is given make
///   of the desk's part, and answer, what the definitions of the desk's calls say;
/// - so does an answer that is out and is settled as it ended, on a gateway of the settings where it is on one; where no
///   answer of a number is out, nothing changes, and no stub of that number is taken;
/// - a try, a cancel and a tick at a gateway leave the desk's part as it is;
/// - for how long a gateway was on air, by what the desk knows to be settled, is the airtime of the settled answers that
///   keep this gateway.
pub fn law_desk_calls_are_steps()
    ensures { DeskCallsAreSteps }
{}

/// The calls of a ticket and of a gateway's book are the steps of the whole system, by what their own contracts say of them.
/// For every state of the system, and every gateway's book beside it:
///
/// - a ticket that is given stands where its answer does; given up, it is a stub that ends as its answer would;
/// - a ticket that is tried on a gateway's book and is booked, goes on or is out is a try of its number: the same reply, the
///   book is that gateway's then, no other gateway and no other answer changes, and what is handed back is the ticket or the
///   stub of what the answer is then; where the book is another gateway's or finds no memory, ticket and book stay;
/// - where an answer isn't open, or no book of its next gateway is there, a try answers that nothing was tried, and changes
///   nothing;
/// - a stub is taken by the desk, and its settling is the step;
/// - what is booked for a number, settled or not, is cancelled on its gateway's book as by the step, which answers that
///   nothing is there where nothing is booked or no such gateway is;
/// - time that passes for a gateway's book is the step, which answers nothing where no such gateway is.
pub fn law_book_calls_are_steps<A: Allocator>()
    ensures { BookCallsAreSteps A }
{}

/// What the project promises (docs/PROOFS.md, "The headline, sentence by sentence"), but for the shares of a ledger, for all
/// settings that are accepted, all limits of gathering and every list of steps: the reservations of a gateway are pairwise
/// disjoint, each as long as the formula says; in each sub-band the airtime that begins within any hour keeps the limit; a number
/// stands at most once over all gateways; and each reservation takes RX1 or RX2 of a copy of the gathered uplink with its number,
/// on the gateway that heard this copy. The statement stands on one page, over plain lists.
pub fn law_every_run_keeps_headline()
    ensures { EveryRunKeepsHeadline }
{}

/// The same of a server that is opened on books which hold reservations already, as after a restart. For all settings that are
/// accepted, all limits of gathering, all books of their gateways whose reservations have the number 0, and every list of steps,
/// after the last step:
///
/// - the reservations of a gateway, old ones and new ones, are pairwise disjoint, each as long as the formula says;
/// - in each sub-band the airtime that begins within any hour keeps the limit, and so does what is on air within any hour;
/// - a reservation with the number 0 is an old one: its gateway's book held it at the opening;
/// - any other number stands at most once over all gateways, and the reservation takes RX1 or RX2 of a copy of the gathered
///   uplink with this number, on the gateway that heard this copy;
/// - a ticket was given once at most for an uplink, and no downlink counter to two jobs with one address;
/// - no counter was given that is below the one that the settings have for the device with this address.
///
/// No uplink has the number 0: they are counted from 1, from the opening on. What was given before the opening is not known here.
/// So the settings have to have the counters that were reached, as no counter of before is to be given again. What a book had
/// retired by then is not in its list, and is not counted.
pub fn law_every_resumed_run_keeps_headline()
    ensures { EveryResumedRunKeepsHeadline }
{}

/// What is out stays that of the system through the steps of others, so that calls in any order are the steps of one run: before
/// the first step the empty book of each gateway of the settings is the system's; a ticket or a stub stays that of its number's
/// answer through every step but a try and the settling of this number; and a gateway's book stays that gateway's through every
/// step that asks for no book or for another gateway's. After every list of steps, a cancel on a gateway's book of anything else
/// than what is booked there for its number changes nothing.
pub fn law_others_leave_alone()
    ensures { OthersLeaveAlone }
{}
