ghost use Rattle.radio_bands.specs.Band.{AtMostOneBand};

/// No channel lies in two sub-bands.
pub fn law_at_most_one_band()
    ensures { AtMostOneBand }
{}
