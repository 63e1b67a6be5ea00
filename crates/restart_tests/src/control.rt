// What a program on the machine itself asks a server for that keeps a journal: a payload waits once the disk has it.

use crate::hosts::{Deed, Turn};
use crate::servers::{Part, play};
use crate::turns::{HEARD_ONCE, HEARD_TWICE, NEW, PASSED};
use std::alloc::Global;
use std::test::Fail;

const QUEUE: &[u8] = b"queue 26011bda 1 c0ffee";

/// What is added to the journal before a payload waits.
const WAITS: &[u8] = b"queue 26011bda 1 c0ffee\n.\n";

const NO_JOURNAL: &[u8] = b"no queue Journal\n";

/// A payload waits, one is refused, and one is malformed. What is no line of a run asks for nothing.
static ASKED: [Turn; 4] = [
    (
        500,
        Some((4_000, QUEUE, "\n")),
        &[
            (Deed::Append, 0, WAITS, ""),
            (Deed::Sync, 0, b"", ""),
            (Deed::Acknowledge, 4_000, b"queued 26011bda 1\n", ""),
            (
                Deed::Tell,
                0,
                b"> queue 26011bda 1 c0ffee\n",
                "queued 26011bda 1\n",
            ),
        ],
    ),
    (
        600,
        Some((4_001, b"queue 26011bda 224 c0", "")),
        &[
            (Deed::Acknowledge, 4_001, b"no queue Port\n", ""),
            (
                Deed::Tell,
                0,
                b"> queue 26011bda 224 c0\n",
                "no queue Port\n",
            ),
        ],
    ),
    (
        700,
        Some((4_000, b"queue 26011bda 1 c0f", "")),
        &[(Deed::Acknowledge, 4_000, b"bad 0 Syntax\n", "")],
    ),
    (
        800,
        Some((4_000, b"report", "")),
        &[(
            Deed::Acknowledge,
            4_000,
            b"gateway 1 booked 0 cancelled 0 retired 0 kept 0\n",
            "gateway 2 booked 0 cancelled 0 retired 0 kept 0\nanswered 0 unanswered 0 silent 0\n",
        )],
    ),
];

#[test]
fn a_payload_waits_once_the_disk_has_it(rt: HostRuntime) -> Result<(), Fail> {
    let parts: [Part; 1] = [(None, &ASKED)];
    play(rt.alloc(), None, Some((None, NEW)), &parts)
}

/// It can't be added to the journal.
static NOT_APPENDED: [Turn; 1] = [(
    500,
    Some((4_000, QUEUE, "")),
    &[
        (Deed::Append, 0, WAITS, ""),
        (Deed::Acknowledge, 4_000, NO_JOURNAL, ""),
    ],
)];

/// It was added, but the disk doesn't keep it.
static NOT_SYNCED: [Turn; 1] = [(
    500,
    Some((4_000, QUEUE, "")),
    &[
        (Deed::Append, 0, WAITS, ""),
        (Deed::Sync, 0, b"", ""),
        (Deed::Acknowledge, 4_000, NO_JOURNAL, ""),
    ],
)];

/// Then nothing is even tried, whatever is to wait, until the journal is put in place anew, where no payload waits. Then one does.
static NOT_TRIED: [Turn; 3] = [
    (
        600,
        Some((4_000, b"queue 26011bdb 1 c0ffee", "")),
        &[(Deed::Acknowledge, 4_000, NO_JOURNAL, "")],
    ),
    (
        10_000_500,
        None,
        &[(
            Deed::Replace,
            0,
            b"",
            "airbook journal 1
gateway 1 aa555a0000000001 4096 45000
gateway 2 aa555a0000000002 4096 45000
device 26011bda 5c7efb43 - 0
clock 1 11999500 0
clock 2 11999500 0
.
",
        )],
    ),
    (
        10_000_600,
        Some((4_000, QUEUE, "")),
        &[
            (Deed::Append, 0, WAITS, ""),
            (Deed::Sync, 0, b"", ""),
            (Deed::Acknowledge, 4_000, b"queued 26011bda 1\n", ""),
            (
                Deed::Tell,
                0,
                b"> queue 26011bda 1 c0ffee\n",
                "queued 26011bda 1\n",
            ),
        ],
    ),
];

/// A server that can't do this in the turn in which a payload is to wait, which goes so.
fn is_kept_out(alloc: Global, broken: Deed, failed: &'static [Turn]) -> Result<(), Fail> {
    let parts: [Part; 2] = [(Some(broken), failed), (None, &NOT_TRIED)];
    play(alloc, None, Some((None, NEW)), &parts)
}

#[test]
fn no_payload_waits_that_the_disk_lacks(rt: HostRuntime) -> Result<(), Fail> {
    is_kept_out(rt.alloc(), Deed::Append, &NOT_APPENDED)?;
    is_kept_out(rt.alloc(), Deed::Sync, &NOT_SYNCED)
}

/// What can't be written in the turn of a pass is not written in it a second time: the answer is kept back too.
static NOT_APPENDED_IN_A_PASS: [Turn; 1] = [(
    201_001,
    Some((4_000, QUEUE, "")),
    &[
        (Deed::Append, 0, WAITS, ""),
        (Deed::Acknowledge, 4_000, NO_JOURNAL, ""),
        (Deed::Tell, 0, PASSED, "failed 1 2 Journal\n"),
    ],
)];

static NOT_SYNCED_IN_A_PASS: [Turn; 1] = [(
    201_001,
    Some((4_000, QUEUE, "")),
    &[
        (Deed::Append, 0, WAITS, ""),
        (Deed::Sync, 0, b"", ""),
        (Deed::Acknowledge, 4_000, NO_JOURNAL, ""),
        (Deed::Tell, 0, PASSED, "failed 1 2 Journal\n"),
    ],
)];

/// A server that can't do this where a payload is to wait in the turn of a pass.
fn is_kept_back(alloc: Global, broken: Deed, failed: &'static [Turn]) -> Result<(), Fail> {
    let parts: [Part; 3] = [
        (None, &HEARD_ONCE),
        (None, &HEARD_TWICE),
        (Some(broken), failed),
    ];
    play(alloc, None, Some((None, NEW)), &parts)
}

#[test]
fn an_answer_is_kept_back_behind_a_payload(rt: HostRuntime) -> Result<(), Fail> {
    is_kept_back(rt.alloc(), Deed::Append, &NOT_APPENDED_IN_A_PASS)?;
    is_kept_back(rt.alloc(), Deed::Sync, &NOT_SYNCED_IN_A_PASS)
}

/// A payload waits behind an answer.
pub(crate) static WAITS_LATER: [Turn; 1] = [(
    202_000,
    Some((4_000, QUEUE, "")),
    &[
        (Deed::Append, 0, WAITS, ""),
        (Deed::Sync, 0, b"", ""),
        (Deed::Acknowledge, 4_000, b"queued 26011bda 1\n", ""),
        (
            Deed::Tell,
            0,
            b"> queue 26011bda 1 c0ffee\n",
            "queued 26011bda 1\n",
        ),
    ],
)];
