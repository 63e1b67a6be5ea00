// The calls of a station whose growths are refused, amid others.

use crate::growth::calls::{ADDR, Answer, Call, Row};
use crate::growth::cases::Case;
use crate::growth::cases::Turn::{Again, Plain, Refused};

const SAME_GATEWAY: Answer = ("same gateway", [0; 2]);

/// The uplink with counter 0 is heard by gateway 1.
const OPENS_1: Row = (Call::Hear(1, ADDR, 0), ("opened", [1, 0]));

/// The uplink with counter 1 is heard by gateway 1, after that one.
const OPENS_2: Row = (Call::Hear(1, ADDR, 1), ("opened", [2, 0]));

const OPENS_3: Row = (Call::Hear(1, ADDR, 2), ("opened", [3, 0]));

const OPENS_4: Row = (Call::Hear(1, ADDR, 3), ("opened", [4, 0]));

const OPENS_5: Row = (Call::Hear(1, ADDR, 4), ("opened", [5, 0]));

/// The second device's uplink is heard, as the second of all.
const OPENS_OTHER_2: Row = (Call::Hear(1, 2, 0), ("opened", [2, 0]));

const OPENS_OTHER_3: Row = (Call::Hear(1, 2, 0), ("opened", [3, 0]));

const OPENS_OTHER_6: Row = (Call::Hear(1, 2, 0), ("opened", [6, 0]));

/// Gateway 1 heard the uplink with counter 0 before.
const HEARD_1: Row = (Call::Hear(1, ADDR, 0), SAME_GATEWAY);

const HEARD_2: Row = (Call::Hear(1, ADDR, 1), SAME_GATEWAY);

/// Gateway 2 hears the uplink with counter 0.
const JOINS_1: Row = (Call::Hear(2, ADDR, 0), ("joined", [1, 2]));

const CLOSES_1: Row = (Call::Pass(200_001), ("closed", [1, 0]));

const CLOSES_2: Row = (Call::Pass(200_001), ("closed", [2, 0]));

const CLOSES_3: Row = (Call::Pass(200_001), ("closed", [3, 0]));

const CLOSES_4: Row = (Call::Pass(200_001), ("closed", [4, 0]));

const CLOSES_5: Row = (Call::Pass(200_001), ("closed", [5, 0]));

const CLOSES_6: Row = (Call::Pass(200_001), ("closed", [6, 0]));

const CLOSES_NONE: Row = (Call::Pass(200_001), ("none", [0; 2]));

const QUEUES_1: Row = (Call::Queue, ("queued", [1, 0]));

const QUEUES_2: Row = (Call::Queue, ("queued", [2, 0]));

const QUEUES_3: Row = (Call::Queue, ("queued", [3, 0]));

const QUEUES_4: Row = (Call::Queue, ("queued", [4, 0]));

const QUEUES_5: Row = (Call::Queue, ("queued", [5, 0]));

const QUEUES_6: Row = (Call::Queue, ("queued", [6, 0]));

/// Each call that may take memory, amid others: to queue and to hear.
pub(crate) static CASES: [Case; 6] = [
    // A payload is queued: the first, and one behind others.
    Case {
        name: "the first payload",
        growths: 2,
        rows: &[
            (Plain, CLOSES_NONE),
            (Refused, QUEUES_1),
            (Again, CLOSES_NONE),
            (Again, QUEUES_1),
            (Plain, QUEUES_2),
            (Plain, OPENS_1),
            (Plain, CLOSES_1),
            (Plain, QUEUES_3),
        ],
    },
    Case {
        name: "the fifth payload",
        growths: 2,
        rows: &[
            (Plain, QUEUES_1),
            (Plain, QUEUES_2),
            (Plain, QUEUES_3),
            (Plain, QUEUES_4),
            (Plain, CLOSES_NONE),
            (Refused, QUEUES_5),
            (Again, CLOSES_NONE),
            (Again, QUEUES_5),
            (Plain, QUEUES_6),
        ],
    },
    // A copy of an uplink opens a gathering: the first, the second, and the fifth.
    Case {
        name: "the first uplink",
        growths: 10,
        rows: &[
            (Plain, CLOSES_NONE),
            (Refused, OPENS_1),
            (Again, CLOSES_NONE),
            (Again, OPENS_1),
            (Plain, HEARD_1),
            (Plain, JOINS_1),
            (Plain, OPENS_OTHER_2),
            (Plain, CLOSES_1),
            (Plain, CLOSES_2),
            (Plain, CLOSES_NONE),
        ],
    },
    Case {
        name: "the second uplink",
        growths: 2,
        rows: &[
            (Plain, OPENS_1),
            (Plain, HEARD_1),
            (Refused, OPENS_2),
            (Again, HEARD_1),
            (Again, OPENS_2),
            (Plain, HEARD_2),
            (Plain, OPENS_OTHER_3),
            (Plain, CLOSES_1),
            (Plain, CLOSES_2),
            (Plain, CLOSES_3),
            (Plain, CLOSES_NONE),
        ],
    },
    Case {
        name: "the fifth uplink",
        growths: 5,
        rows: &[
            (Plain, OPENS_1),
            (Plain, OPENS_2),
            (Plain, OPENS_3),
            (Plain, OPENS_4),
            (Plain, CLOSES_1),
            (Plain, HEARD_2),
            (Refused, OPENS_5),
            (Again, HEARD_2),
            (Again, OPENS_5),
            (Plain, OPENS_OTHER_6),
            (Plain, CLOSES_2),
            (Plain, CLOSES_3),
            (Plain, CLOSES_4),
            (Plain, CLOSES_5),
            (Plain, CLOSES_6),
            (Plain, CLOSES_NONE),
        ],
    },
    // A copy of an uplink joins a gathering.
    Case {
        name: "a copy that joins",
        growths: 1,
        rows: &[
            (Plain, OPENS_1),
            (Plain, HEARD_1),
            (Refused, JOINS_1),
            (Again, HEARD_1),
            (Again, JOINS_1),
            (Plain, (Call::Hear(2, ADDR, 0), SAME_GATEWAY)),
            (Plain, CLOSES_1),
            (Plain, CLOSES_NONE),
        ],
    },
];
