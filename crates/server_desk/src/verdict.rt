use crate::DeskFault;
use crate::answers::Asked;

/// An uplink that opens a gathering.
#[derive(Clone, Copy)]
pub(crate) struct NewUplink {
    /// Its whole counter.
    pub(crate) counter: u32,
    /// Whether that is the last one of its device.
    pub(crate) repeat: bool,
    pub(crate) asked: Asked,
}

/// What is to be done with a copy of an uplink.
#[derive(Clone, Copy)]
pub(crate) enum Verdict {
    /// It is refused.
    Refuse(DeskFault),
    /// It joins the gathering with this number.
    Join(u64),
    /// It opens one.
    Open(NewUplink),
}
