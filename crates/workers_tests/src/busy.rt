// A busy station, and what is seen of it when it is finished.

use crate::asks::{Ask, Heard};
use crate::looks::{AtDesk, Look, Member};
use crate::steps::Step;
use crate::tickets::Answer;
use crate::wanted::{ONE_BOOKED, OPENED_1, OPENED_2, OPENED_3, OPENED_4, RX1_ON_1, RX1_ON_2};
use gateway_book::Totals;
use server_core::{DataRate, DeskHeard};

/// A station of two gateways and five devices: the numbers 1 and 2 were answered, one on each; 3, heard as 1 was, is closed
/// and not taken; 4 is open. Two payloads wait for the second device and one for the fifth, and both floors were raised.
pub(crate) static BUSY: [Step; 14] = [
    Step::Hear(Heard::Of(1, 0), OPENED_1),
    Step::Hear(Heard::By(2, 2, 0), OPENED_2),
    Step::Hear(Heard::Of(3, 0), OPENED_3),
    Step::Ask(Ask::Pass(200_001, Some(1))),
    Step::Ask(Ask::Pass(200_001, Some(2))),
    Step::Ask(Ask::Pass(200_001, Some(3))),
    Step::Answer(1, Answer::Freely((Some(RX1_ON_1), 0))),
    Step::Answer(2, Answer::Freely((Some(RX1_ON_2), 0))),
    Step::Hear(Heard::At(4, 1_000_000), OPENED_4),
    Step::Ask(Ask::Queue(2, &[1, 2], Ok(1))),
    Step::Ask(Ask::Queue(2, &[1, 2, 3], Ok(2))),
    Step::Ask(Ask::Queue(5, &[1], Ok(1))),
    Step::Ask(Ask::Tick(1, 3, Some(3))),
    Step::Ask(Ask::Tick(2, 5, Some(5))),
];

/// What is seen where nothing more was done. A device's answer is seen by its counter, the length of its frame, and its FCtrl.
pub(crate) static SEEN: [Look; 25] = [
    Look::Desk(AtDesk::Sent(1, Some((1, 6_000_000, 41_216)))),
    Look::Desk(AtDesk::Sent(2, Some((2, 6_000_000, 41_216)))),
    Look::Desk(AtDesk::Sent(3, None)),
    Look::Desk(AtDesk::Sent(4, None)),
    Look::Desk(AtDesk::Answered(1, Some(41_216))),
    Look::Desk(AtDesk::Answered(2, Some(41_216))),
    Look::Desk(AtDesk::Take(3, None)),
    Look::Desk(AtDesk::Hear(4, 1_000_100, Ok(DeskHeard::Joined { n: 4, copies: 2 }))),
    Look::Desk(AtDesk::Pass(2_000_000, Some(4))),
    Look::Desk(AtDesk::Pass(2_000_000, None)),
    Look::Desk(AtDesk::Pass(2_000_000, None)),
    Look::Desk(AtDesk::Probe(1, 0, (0, true, Ok((1, 22, 32))))),
    Look::Desk(AtDesk::Probe(2, 0, (2, true, Ok((1, 15, 48))))),
    Look::Desk(AtDesk::Probe(3, 0, (0, true, Ok((1, 22, 32))))),
    Look::Desk(AtDesk::Probe(4, 0, (0, true, Ok((0, 22, 32))))),
    Look::Desk(AtDesk::Probe(5, 0, (1, false, Ok((0, 14, 48))))),
    Look::Kept(
        0,
        0,
        Some(Member {
            number: 1,
            start: 6_000_000,
            freq_hz: 868_100_000,
            rate: DataRate::Dr5,
            len: 12,
        }),
    ),
    Look::Kept(0, 1, None),
    Look::Kept(0, 2, None),
    Look::Totals(
        0,
        Totals {
            floor: 3,
            ..ONE_BOOKED
        },
    ),
    Look::Kept(
        1,
        0,
        Some(Member {
            number: 2,
            start: 6_000_000,
            freq_hz: 868_100_000,
            rate: DataRate::Dr5,
            len: 12,
        }),
    ),
    Look::Kept(1, 1, None),
    Look::Kept(1, 2, None),
    Look::Totals(
        1,
        Totals {
            floor: 5,
            ..ONE_BOOKED
        },
    ),
    Look::Booked(82_432),
];
