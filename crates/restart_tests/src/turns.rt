// The worked run of a server that keeps a journal: an uplink that two gateways hear is answered once the disk has the answer. Then
// each way in which it may not be.

use crate::hosts::{Deed, Turn};
use crate::servers::{Part, play};
use std::alloc::Global;
use std::test::Fail;

const PULL_1: &[u8] = &[2, 0, 6, 2, 0xaa, 0x55, 0x5a, 0, 0, 0, 0, 1];

pub(crate) const PULL_2: &[u8] = &[2, 0, 7, 2, 0xaa, 0x55, 0x5a, 0, 0, 0, 0, 2];

const PUSH_1: &[u8] = &[2, 0x12, 0x34, 0, 0xaa, 0x55, 0x5a, 0, 0, 0, 0, 1];

pub(crate) const PUSH_2: &[u8] = &[2, 0x12, 0x35, 0, 0xaa, 0x55, 0x5a, 0, 0, 0, 0, 2];

const ACK_2: &[u8] = &[2, 0, 1, 5, 0xaa, 0x55, 0x5a, 0, 0, 0, 0, 2];

/// The first four bytes of a PULL_RESP with this token.
pub(crate) const RESP_1: &[u8] = &[2, 0, 1, 3];

const RESP_2: &[u8] = &[2, 0, 2, 3];

const RESP_3: &[u8] = &[2, 0, 3, 3];

/// The uplink with counter 7, as gateway 1 tells it.
const HEARD_BY_1: &str =
    r#"{"rxpk":[{"tmst":5000000,"freq":868.100000,"stat":1,"modu":"LORA","datr":"SF7BW125","codr":"4/5","rssi":-90,"lsnr":5.5,"size":12,"data":"gNobASYABwAJyJFB"}]}"#;

/// The same, as gateway 2 tells it.
const HEARD_BY_2: &str =
    r#"{"rxpk":[{"tmst":4294000000,"freq":868.100000,"stat":1,"modu":"LORA","datr":"SF7BW125","codr":"4/5","rssi":-80,"lsnr":5.5,"size":12,"data":"gNobASYABwAJyJFB"}]}"#;

/// The uplink with counter 8, which gateway 2 hears 2,999,900 us after that.
pub(crate) const NEXT_HEARD: &str =
    r#"{"rxpk":[{"tmst":2032604,"freq":868.100000,"stat":1,"modu":"LORA","datr":"SF7BW125","codr":"4/5","rssi":-80,"lsnr":5.5,"size":12,"data":"gNobASYACAAEX0g9"}]}"#;

/// The uplink with counter 9, which gateway 2 hears 10,999,900 us after the first.
const LAST_HEARD: &str =
    r#"{"rxpk":[{"tmst":10032604,"freq":868.100000,"stat":1,"modu":"LORA","datr":"SF7BW125","codr":"4/5","rssi":-80,"lsnr":5.5,"size":12,"data":"gNobASYACQBL9wtB"}]}"#;

/// The journal of a server that has heard nothing.
pub(crate) const NEW: &str = "airbook journal 1
gateway 1 aa555a0000000001 4096 45000
gateway 2 aa555a0000000002 4096 45000
device 26011bda 5c7efb43 - 0
clock 1 2000000 0
clock 2 2000000 0
.
";

/// What is added to it before the first answer is sent.
pub(crate) const BATCH: &str = "clock 2 2200981 601001
device 26011bda 5c7efb43 7 1
sent 2 1001100 868100000 5 12
.
";

/// The first answer: with the four bytes before it 182.
const ANSWER: &str =
    r#"{"txpk":{"imme":false,"tmst":32704,"freq":868.100000,"rfch":0,"powe":14,"modu":"LORA","datr":"SF7BW125","codr":"4/5","ipol":true,"size":12,"ncrc":true,"data":"YNobASYgAAAkA0fK"}}"#;

/// What is told of the pass that answers it.
pub(crate) const PASSED: &[u8] = b"> tick 1 601001
floor 1 601001
> tick 2 601001
floor 2 601001
> pass 201001
send 1 2 RX1 1001100 868100000 5 12
frame 1 60da1b0126200000240347ca
";

/// Gateway 1 sends its PULL_DATA, and tells of the first uplink.
pub(crate) static HEARD_ONCE: [Turn; 2] = [
    (
        10,
        Some((1_701, PULL_1, "")),
        &[(Deed::Acknowledge, 1_701, &[2, 0, 6, 4], "")],
    ),
    (
        1_000,
        Some((1_801, PUSH_1, HEARD_BY_1)),
        &[
            (Deed::Acknowledge, 1_801, &[2, 0x12, 0x34, 1], ""),
            (
                Deed::Tell,
                0,
                b"session 1 1000\n",
                "> hear 1 1000 868100000 5 55 -90 1000 80da1b012600070009c89141\nopened 1\n",
            ),
        ],
    ),
];

/// Gateway 2 sends its PULL_DATA, and tells of it too, but from another port. It is not due before a moment after 200 ms.
pub(crate) static HEARD_TWICE: [Turn; 3] = [
    (
        1_020,
        Some((1_702, PULL_2, "")),
        &[(Deed::Acknowledge, 1_702, &[2, 0, 7, 4], "")],
    ),
    (
        1_100,
        Some((1_802, PUSH_2, HEARD_BY_2)),
        &[
            (Deed::Acknowledge, 1_802, &[2, 0x12, 0x35, 1], ""),
            (
                Deed::Tell,
                0,
                b"session 2 1100\n",
                "> hear 2 1100 868100000 5 55 -80 1100 80da1b012600070009c89141\njoined 1 2\n",
            ),
        ],
    ),
    (201_000, None, &[]),
];

/// The disk has the answer before it is sent, to where the PULL_DATA came from; then it is told. The gateway says that it was late.
pub(crate) static ANSWERED: [Turn; 2] = [
    (
        201_001,
        None,
        &[
            (Deed::Append, 0, b"", BATCH),
            (Deed::Sync, 0, b"", ""),
            (Deed::Send, 1_702, RESP_1, ANSWER),
            (Deed::Tell, 0, PASSED, ""),
        ],
    ),
    (
        201_500,
        Some((1_702, ACK_2, r#"{"txpk_ack":{"error":"TOO_LATE"}}"#)),
        &[(Deed::Tell, 0, b"failed 1 2 TOO_LATE\n", "")],
    ),
];

/// What is told of the pass that answers the next uplink.
const NEXT_PASSED: &[u8] = b"> tick 2 3601001
floor 2 3601001
> pass 3201001
send 2 2 RX1 4001000 868100000 5 12
frame 2 60da1b01262001002e22e36b
";

/// Gateway 2 tells of the next uplink.
static NEXT_TOLD: [Turn; 1] = [(
    3_001_000,
    Some((1_802, PUSH_2, NEXT_HEARD)),
    &[
        (Deed::Acknowledge, 1_802, &[2, 0x12, 0x35, 1], ""),
        (
            Deed::Tell,
            0,
            b"> hear 2 3001000 868100000 5 55 -80 3001000 80da1b0126000800045f483d\n",
            "opened 2\n",
        ),
    ],
)];

/// It is answered too.
static NEXT_ANSWERED: [Turn; 1] = [(
    3_201_001,
    None,
    &[
        (
            Deed::Append,
            0,
            b"clock 2 5200681 3601001\n",
            "device 26011bda 5c7efb43 8 2\nsent 2 4001000 868100000 5 12\n.\n",
        ),
        (Deed::Sync, 0, b"", ""),
        (
            Deed::Send,
            1_702,
            RESP_2,
            r#"{"txpk":{"imme":false,"tmst":3032604,"freq":868.100000,"rfch":0,"powe":14,"modu":"LORA","datr":"SF7BW125","codr":"4/5","ipol":true,"size":12,"ncrc":true,"data":"YNobASYgAQAuIuNr"}}"#,
        ),
        (Deed::Tell, 0, NEXT_PASSED, ""),
    ],
)];

#[test]
fn an_answer_is_sent_once_the_disk_has_it(rt: HostRuntime) -> Result<(), Fail> {
    let parts: [Part; 5] = [
        (None, &HEARD_ONCE),
        (None, &HEARD_TWICE),
        (None, &ANSWERED),
        (None, &NEXT_TOLD),
        (None, &NEXT_ANSWERED),
    ];
    play(rt.alloc(), None, Some((None, NEW)), &parts)
}

/// The answer can't be added to the journal.
static NOT_APPENDED: [Turn; 1] = [(
    201_001,
    None,
    &[
        (Deed::Append, 0, b"", BATCH),
        (Deed::Tell, 0, PASSED, "failed 1 2 Journal\n"),
    ],
)];

/// It was added, but the disk doesn't keep it.
static NOT_SYNCED: [Turn; 1] = [(
    201_001,
    None,
    &[
        (Deed::Append, 0, b"", BATCH),
        (Deed::Sync, 0, b"", ""),
        (Deed::Tell, 0, PASSED, "failed 1 2 Journal\n"),
    ],
)];

/// Then nothing is even tried with the next answer; 10 s after the failure the journal is written anew, with all that was given.
static NOT_TRIED: [Turn; 3] = [
    (
        3_201_001,
        None,
        &[(Deed::Tell, 0, NEXT_PASSED, "failed 2 2 Journal\n")],
    ),
    (10_201_000, None, &[]),
    (
        10_201_001,
        None,
        &[(
            Deed::Replace,
            0,
            b"",
            "airbook journal 1
gateway 1 aa555a0000000001 4096 45000
gateway 2 aa555a0000000002 4096 45000
device 26011bda 5c7efb43 8 2
sent 2 1001100 868100000 5 12
sent 2 4001000 868100000 5 12
clock 1 12199981 601001
clock 2 12199981 3601001
.
",
        )],
    ),
];

/// After that the answer to the last uplink is sent as ever.
static LAST_ANSWERED: [Turn; 2] = [
    (
        11_001_000,
        Some((1_802, PUSH_2, LAST_HEARD)),
        &[
            (Deed::Acknowledge, 1_802, &[2, 0x12, 0x35, 1], ""),
            (
                Deed::Tell,
                0,
                b"> hear 2 11001000 868100000 5 55 -80 11001000 80da1b01260009004bf70b41\n",
                "opened 3\n",
            ),
        ],
    ),
    (
        11_201_001,
        None,
        &[
            (
                Deed::Append,
                0,
                b"clock 2 13199881 11601001\n",
                "device 26011bda 5c7efb43 9 3\nsent 2 12001000 868100000 5 12\n.\n",
            ),
            (Deed::Sync, 0, b"", ""),
            (
                Deed::Send,
                1_702,
                RESP_3,
                r#"{"txpk":{"imme":false,"tmst":11032604,"freq":868.100000,"rfch":0,"powe":14,"modu":"LORA","datr":"SF7BW125","codr":"4/5","ipol":true,"size":12,"ncrc":true,"data":"YNobASYgAgDSECIK"}}"#,
            ),
            (
                Deed::Tell,
                0,
                b"> tick 2 11601001\nfloor 2 11601001\n> pass 11201001\n",
                "send 3 2 RX1 12001000 868100000 5 12\nframe 3 60da1b0126200200d210220a\n",
            ),
        ],
    ),
];

/// A server that can't do this in the turn in which the first answer is due, which goes so.
fn is_kept_back(alloc: Global, broken: Deed, failed: &'static [Turn]) -> Result<(), Fail> {
    let parts: [Part; 6] = [
        (None, &HEARD_ONCE),
        (None, &HEARD_TWICE),
        (Some(broken), failed),
        (None, &NEXT_TOLD),
        (None, &NOT_TRIED),
        (None, &LAST_ANSWERED),
    ];
    play(alloc, None, Some((None, NEW)), &parts)
}

#[test]
fn nothing_is_sent_that_the_disk_lacks(rt: HostRuntime) -> Result<(), Fail> {
    is_kept_back(rt.alloc(), Deed::Append, &NOT_APPENDED)?;
    is_kept_back(rt.alloc(), Deed::Sync, &NOT_SYNCED)
}

/// A datagram that doesn't go out is not sent once more.
static NOT_SENT: [Turn; 1] = [(
    201_001,
    None,
    &[
        (Deed::Append, 0, b"", BATCH),
        (Deed::Sync, 0, b"", ""),
        (Deed::Send, 1_702, RESP_1, ANSWER),
        (Deed::Tell, 0, PASSED, "failed 1 2 Unsent\n"),
    ],
)];

#[test]
fn an_answer_that_does_not_go_out_is_told(rt: HostRuntime) -> Result<(), Fail> {
    let parts: [Part; 5] = [
        (None, &HEARD_ONCE),
        (None, &HEARD_TWICE),
        (Some(Deed::Send), &NOT_SENT),
        (None, &NEXT_TOLD),
        (None, &NEXT_ANSWERED),
    ];
    play(rt.alloc(), None, Some((None, NEW)), &parts)
}

/// Without a PULL_DATA no copy of gateway 2 is taken, so that it sends no answer either: gateway 1 does.
static NOT_PULLED: [Turn; 3] = [
    (
        1_100,
        Some((1_802, PUSH_2, HEARD_BY_2)),
        &[(Deed::Acknowledge, 1_802, &[2, 0x12, 0x35, 1], "")],
    ),
    (
        201_001,
        None,
        &[
            (
                Deed::Append,
                0,
                b"clock 1 2200981 601001\n",
                "device 26011bda 5c7efb43 7 1\nsent 1 1001000 868100000 5 12\n.\n",
            ),
            (Deed::Sync, 0, b"", ""),
            (
                Deed::Send,
                1_701,
                RESP_1,
                r#"{"txpk":{"imme":false,"tmst":6000000,"freq":868.100000,"rfch":0,"powe":14,"modu":"LORA","datr":"SF7BW125","codr":"4/5","ipol":true,"size":12,"ncrc":true,"data":"YNobASYgAAAkA0fK"}}"#,
            ),
            (
                Deed::Tell,
                0,
                b"> tick 1 601001\nfloor 1 601001\n> pass 201001\n",
                "send 1 1 RX1 1001000 868100000 5 12\nframe 1 60da1b0126200000240347ca\n",
            ),
        ],
    ),
    (
        1_000_000,
        None,
        &[(Deed::Tell, 0, b"dropped NoPull 1 aa555a0000000002\n", "")],
    ),
];

#[test]
fn a_gateway_without_pull_data_answers_nothing(rt: HostRuntime) -> Result<(), Fail> {
    let parts: [Part; 2] = [(None, &HEARD_ONCE), (None, &NOT_PULLED)];
    play(rt.alloc(), None, Some((None, NEW)), &parts)
}

/// The uplink with counter 8, which gateway 2 hears 2,901,000 us after its counter was seen to begin anew.
const HEARD_ANEW: &str =
    r#"{"rxpk":[{"tmst":7901000,"freq":868.100000,"stat":1,"modu":"LORA","datr":"SF7BW125","codr":"4/5","rssi":-80,"lsnr":5.5,"size":12,"data":"gNobASYACAAEX0g9"}]}"#;

/// The journal that is written anew then: the device has given a counter for the answer that is kept back.
const KEPT_BACK: &str = "airbook journal 1
gateway 1 aa555a0000000001 4096 45000
gateway 2 aa555a0000000002 4096 45000
device 26011bda 5c7efb43 7 1
sent 2 1001100 868100000 5 12
clock 1 2200981 601001
clock 2 2200981 600991
.
";

/// The counter of gateway 2 begins anew before the pass, so that the moment of its answer can't be told any more. That of the next
/// one can.
static BEGUN_ANEW: [Turn; 5] = [
    (
        100_000,
        Some((1_802, PUSH_2, HEARD_BY_1)),
        &[
            (Deed::Acknowledge, 1_802, &[2, 0x12, 0x35, 1], ""),
            (Deed::Tell, 0, b"session 2 99990\n", ""),
        ],
    ),
    (
        201_001,
        None,
        &[
            (Deed::Replace, 0, b"", KEPT_BACK),
            (
                Deed::Tell,
                0,
                b"> tick 1 601001\nfloor 1 601001\n> tick 2 600991\nfloor 2 600991\n> pass 201001\n",
                "send 1 2 RX1 1001100 868100000 5 12\nframe 1 60da1b0126200000240347ca\nfailed 1 2 Session\n",
            ),
        ],
    ),
    (
        1_000_000,
        None,
        &[(
            Deed::Tell,
            0,
            b"dropped SameGateway 1 aa555a0000000002\n",
            "",
        )],
    ),
    (
        3_001_000,
        Some((1_802, PUSH_2, HEARD_ANEW)),
        &[
            (Deed::Acknowledge, 1_802, &[2, 0x12, 0x35, 1], ""),
            (
                Deed::Tell,
                0,
                b"> hear 2 3000990 868100000 5 55 -80 3001000 80da1b0126000800045f483d\n",
                "opened 2\n",
            ),
        ],
    ),
    (
        3_201_001,
        None,
        &[
            (
                Deed::Append,
                0,
                b"clock 2 5200681 3600991\n",
                "device 26011bda 5c7efb43 8 2\nsent 2 4000990 868100000 5 12\n.\n",
            ),
            (Deed::Sync, 0, b"", ""),
            (
                Deed::Send,
                1_702,
                RESP_2,
                r#"{"txpk":{"imme":false,"tmst":8901000,"freq":868.100000,"rfch":0,"powe":14,"modu":"LORA","datr":"SF7BW125","codr":"4/5","ipol":true,"size":12,"ncrc":true,"data":"YNobASYgAQAuIuNr"}}"#,
            ),
            (
                Deed::Tell,
                0,
                b"> tick 2 3600991\nfloor 2 3600991\n> pass 3201001\n",
                "send 2 2 RX1 4000990 868100000 5 12\nframe 2 60da1b01262001002e22e36b\n",
            ),
        ],
    ),
];

#[test]
fn nothing_is_sent_by_a_counter_that_began_anew(rt: HostRuntime) -> Result<(), Fail> {
    let parts: [Part; 3] = [
        (None, &HEARD_ONCE),
        (None, &HEARD_TWICE),
        (None, &BEGUN_ANEW),
    ];
    play(rt.alloc(), None, Some((None, NEW)), &parts)
}

/// The journal is not in place yet.
static NOT_BEGUN: [Turn; 2] = [
    (
        201_001,
        None,
        &[(Deed::Tell, 0, PASSED, "failed 1 2 Journal\n")],
    ),
    (9_999_999, None, &[]),
];

/// The first answer was given when this is written.
const LATE: &str = "airbook journal 1
gateway 1 aa555a0000000001 4096 45000
gateway 2 aa555a0000000002 4096 45000
device 26011bda 5c7efb43 7 1
sent 2 1001100 868100000 5 12
clock 1 11999000 601001
clock 2 11999000 601001
.
";

/// It can't be put in place.
static NOT_RENEWED: [Turn; 2] = [
    (10_000_000, None, &[(Deed::Replace, 0, b"", LATE)]),
    (19_999_999, None, &[]),
];

/// It is put in place 10 s after that was tried in vain.
static RENEWED: [Turn; 2] = [
    (
        20_000_000,
        None,
        &[(
            Deed::Replace,
            0,
            b"",
            "airbook journal 1
gateway 1 aa555a0000000001 4096 45000
gateway 2 aa555a0000000002 4096 45000
device 26011bda 5c7efb43 7 1
sent 2 1001100 868100000 5 12
clock 1 21998000 601001
clock 2 21998000 601001
.
",
        )],
    ),
    (40_000_000, None, &[]),
];

#[test]
fn nothing_is_sent_before_there_is_a_journal(rt: HostRuntime) -> Result<(), Fail> {
    let parts: [Part; 5] = [
        (None, &HEARD_ONCE),
        (None, &HEARD_TWICE),
        (None, &NOT_BEGUN),
        (Some(Deed::Replace), &NOT_RENEWED),
        (None, &RENEWED),
    ];
    play(rt.alloc(), None, None, &parts)?;
    play(rt.alloc(), None, Some((Some(Deed::Replace), NEW)), &parts)
}
