// What the definitions of frames mean together, as laws: each function's contract is the statement.

ghost use Rattle.lora_frame.specs.Laws.{DeviceDecrypts, UplinkReadsBack};

/// The device decrypts what `downlink` encrypted.
pub fn law_device_decrypts()
    ensures { DeviceDecrypts }
{}

/// `read_uplink` reads back what `uplink_bytes` wrote, and `check_mic` finds its MIC.
pub fn law_uplink_reads_back()
    ensures { UplinkReadsBack }
{}
