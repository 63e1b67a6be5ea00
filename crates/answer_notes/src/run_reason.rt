// Why a server refused what it was told, in words.

/// Why a payload was not queued.
pub(crate) fn why_not_queued(name: &str) -> Option<&'static str> {
    match name {
        "UnknownDevice" => Some("this device is not in the settings"),
        "Port" => Some("PORT is outside 1 to 223"),
        "Long" => Some("the payload has more than 242 bytes"),
        "QueueFull" => Some("16 payloads wait for it: its uplinks make room, one payload each"),
        _ => None,
    }
}

/// Why a copy of an uplink was not taken for a fault of its frame.
pub(crate) fn why_no_frame(name: &str) -> Option<&'static str> {
    match name {
        "Short" => Some("the frame has fewer than 12 bytes"),
        "Long" => Some("the frame has more than 255 bytes"),
        "NotData" => Some("the frame is no data uplink, as a join request is none"),
        "Major" => Some("the frame is of another major version than LoRaWAN 1.0"),
        "OptionsCut" => Some("the frame is too short for its FOptsLen"),
        _ => None,
    }
}

/// Why a copy of an uplink was not taken whose frame may be right.
pub(crate) fn why_not_heard(name: &str) -> Option<&'static str> {
    match name {
        "UnknownGateway" => Some("this gateway is not in the settings"),
        "NoRate" => Some("DR is above 6"),
        "NoBand" => Some("the channel lies in no sub-band at this data rate"),
        "Moment" => Some("AT or ARRIVED is above 1152921504606846976"),
        "SameGateway" => Some("this gateway told its copy of the uplink before"),
        "TooManyCopies" => Some("64 copies of the uplink are kept"),
        "Late" => Some("the copy arrived when the gathering was over: a slow network, if often"),
        "UnknownDevice" => Some(
            "this device is not in the settings: another network's, or one to add",
        ),
        "BadMic" => Some(
            "the MIC is not right: another network's frame, a wrong nwkskey, or an `up` too high",
        ),
        "Crowded" => Some(
            "4096 gatherings are open, or there were 1000000 in all: `pass` closes them",
        ),
        _ => None,
    }
}

/// Why nothing was cancelled.
pub(crate) fn why_not_cancelled(name: &str) -> Option<&'static str> {
    match name {
        "Begun" => Some(
            "the booked start is not above the gateway's floor, so it may have been sent",
        ),
        "NotHere" => Some("nothing stands booked for it"),
        _ => None,
    }
}

/// Why an uplink that was closed got no answer.
pub(crate) fn why_no_answer(name: &str) -> Option<&'static str> {
    match name {
        "CounterSpent" => Some(
            "all downlink counters of its device were given: it needs a new session",
        ),
        "Engaged" => Some("its device's other uplink was being answered"),
        "NoMemory" => Some("no memory was found for its answer"),
        "Stray" => Some("the desk did not take its answer"),
        "NotReady" | "Taken" => Some("the desk gave no ticket for it"),
        _ => None,
    }
}
