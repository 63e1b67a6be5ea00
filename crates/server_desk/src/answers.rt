// What the desk keeps of each gathered uplink, by its number.

ghost use Rattle.std.specs.Prelude.{◌≡◌};
ghost use Rattle.uplink_gather.specs.Gatherings.{numbered};
ghost use Rattle.server_desk.specs.Answers.{is_not_given};

/// What a gathered uplink says.
#[derive(Clone, Copy, Debug, PartialEq, Eq)]
pub struct Asked {
    /// The place of its device among the devices.
    pub device: usize,
    /// Whether it asks for an acknowledgement.
    pub confirmed: bool,
    /// ADRACKReq: whether it asks for any downlink.
    pub adr_ack_req: bool,
}

/// A transmission that was booked as an answer.
#[derive(Clone, Copy, Debug, PartialEq, Eq)]
pub struct Sent {
    /// The number of its gateway.
    pub gateway: u16,
    /// When it begins, in microseconds of the gateway's clock.
    pub start: u64,
    /// Its time on air, in microseconds.
    pub airtime: u64,
}

/// What the desk knows of an answer.
#[derive(Clone, Copy, Debug, PartialEq, Eq)]
pub enum Known {
    /// No ticket was given.
    NotGiven,
    /// A ticket or stub of it is out.
    Pending,
    /// It is settled, and keeps what was booked.
    Done(Option<Sent>),
}

impl Known {
    /// Whether no ticket was given.
    pub(crate) fn is_not_given(self) -> bool
        ensures { result ≡ is_not_given self }
    {
        matches!(self, Known::NotGiven)
    }
}

/// What has this number, counted from 1.
pub(crate) fn numbered<T: Copy>(items: &[T], n: u64) -> Option<T>
    ensures { result ≡ numbered n items.now }
{
    let place = n.checked_sub(1)?;
    items.get(place as usize).copied()
}
