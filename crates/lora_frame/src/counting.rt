// The whole counter of an uplink.

ghost use Rattle.std.specs.Prelude.{◌≡◌};
ghost use Rattle.lora_frame.specs.Counter.{inferred_counter, InferIsLeast};

/// The whole uplink counter from the low 16 bits that the frame has: the least number not below the last
/// counter (0 where there is none) with these bits, so that the last one's repeat is the last one.
/// None where that is above 4,294,967,295 (LoRaWAN L2 1.0.4 section 4.3.1.5). Needs no memory.
pub fn infer(last: Option<u32>, low: u16) -> Option<u32>
    ensures { result ≡ inferred_counter last low }
{
    let from = last.unwrap_or(0);
    let ahead = low.wrapping_sub((from % 0x1_0000) as u16);
    from.checked_add(u32::from(ahead))
}

/// What `infer` answers is the least counter that the frame can have.
pub fn law_infer_is_least()
    ensures { InferIsLeast }
{}
