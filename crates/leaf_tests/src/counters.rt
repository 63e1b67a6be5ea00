// Frame counters, of which a frame has the low half.

use lora_frame::infer;
use std::test::Fail;
use test_asserts::equal_at;

/// The last counter, the low half of the next one, and the next one.
static COUNTERS: [(Option<u32>, u16, Option<u32>); 5] = [
    (None, 7, Some(7)),
    (Some(131_071), 0, Some(131_072)),
    (Some(5), 5, Some(5)),
    (Some(5), 4, Some(65_540)),
    (Some(4_294_967_295), 0, None),
];

#[test]
fn counters() -> Result<(), Fail> {
    for (last, low, counter) in &COUNTERS {
        equal_at(&(*low, *last), &infer(*last, *low), counter)?;
    }
    Ok(())
}
