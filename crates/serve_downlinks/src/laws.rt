ghost use Rattle.serve_downlinks.specs.BatchLaw.{BatchesTellWhatIsSent};

/// Whatever a server knows: of each downlink whose gateway, whose device and whose device's session are known, the batch says what
/// was sent, and before that its device with the next downlink counter, and before that what its gateway's clock shows at least.
pub fn law_batches_tell_what_is_sent()
    ensures { BatchesTellWhatIsSent }
{}
