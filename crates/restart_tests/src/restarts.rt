// A server that was killed and goes on with its journal.

use crate::hosts::{Deed, Turn};
use crate::servers::{Part, play};
use crate::turns::{NEXT_HEARD, PULL_2, PUSH_2, RESP_1};
use std::test::Fail;

/// Gateway 2 sends its PULL_DATA, and tells of the next uplink, whose windows open behind the silence.
static HEARD_AGAIN: [Turn; 2] = [
    (
        10,
        Some((1_702, PULL_2, "")),
        &[(Deed::Acknowledge, 1_702, &[2, 0, 7, 4], "")],
    ),
    (
        3_001_000,
        Some((1_802, PUSH_2, NEXT_HEARD)),
        &[
            (Deed::Acknowledge, 1_802, &[2, 0x12, 0x35, 1], ""),
            (
                Deed::Tell,
                0,
                b"session 2 3201681\n",
                "> hear 2 3201681 868100000 5 55 -80 3001000 80da1b0126000800045f483d\nopened 1\n",
            ),
        ],
    ),
];

/// The journal of a server for whose device a payload waits.
pub(crate) const WAITING: &str = "airbook journal 1
gateway 1 aa555a0000000001 4096 45000
gateway 2 aa555a0000000002 4096 45000
device 26011bda 5c7efb43 7 1
queue 26011bda 9 0102
sent 2 1001100 868100000 5 12
clock 1 2000000 0
clock 2 2200981 3087316
.
";

/// The next uplink is answered with the payload.
static TAKES_ALONG: [Turn; 1] = [(
    3_201_001,
    None,
    &[
        (
            Deed::Append,
            0,
            b"clock 2 5401662 3801682\n",
            "device 26011bda 5c7efb43 8 2\ntaken 26011bda\nsent 2 4201681 868100000 5 15\n.\n",
        ),
        (Deed::Sync, 0, b"", ""),
        (
            Deed::Send,
            1_702,
            RESP_1,
            r#"{"txpk":{"imme":false,"tmst":3032604,"freq":868.100000,"rfch":0,"powe":14,"modu":"LORA","datr":"SF7BW125","codr":"4/5","ipol":true,"size":15,"ncrc":true,"data":"YNobASYgAQAJY7YjONBX"}}"#,
        ),
        (
            Deed::Tell,
            0,
            b"> tick 2 3801682\nfloor 2 3801682\n> pass 3201001\n",
            "send 1 2 RX1 4201681 868100000 5 15\nframe 1 60da1b01262001000963b62338d057\n",
        ),
    ],
)];

/// A journal with all that one may have is read and written anew as it was.
#[test]
fn what_waits_is_sent_after_a_restart(rt: HostRuntime) -> Result<(), Fail> {
    let parts: [Part; 2] = [(None, &HEARD_AGAIN), (None, &TAKES_ALONG)];
    play(
        rt.alloc(),
        Some(WAITING.as_bytes()),
        Some((None, WAITING)),
        &parts,
    )
}
