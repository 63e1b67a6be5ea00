// A journal of two gateways, and a book that is recovered from it.

use std::alloc::Allocator;
use std::test::Fail;

/// Two gateways, and a device for which a payload waits.
const FIRST: &[u8] = b"airbook journal 1
gateway 1 aa555a0000000001 4096 45000
gateway 2 aa555a0000000002 4096 45000
device 26011bda 5c7efb43 6 0
queue 26011bda 9 0102
clock 1 2000000 0
.
";

/// The answer to an uplink, by the second gateway.
const SENT: &[u8] = b"clock 2 2200981 601001
device 26011bda 5c7efb43 7 1
taken 26011bda
sent 2 1001100 868100000 5 12
.
";

/// The book of the second gateway.
pub(crate) const WITH: &[u8] =
    b"airbook 2\ngateway 2 4096 601001 45000\nr 0 1001100 868100000 5 12\nend 1\n";

/// The whole journal.
pub(crate) fn journal<A: Allocator + Copy>(alloc: A) -> Result<Vec<u8, A>, Fail> {
    let mut bytes = Vec::with_capacity(alloc, FIRST.len() + SENT.len())?;
    bytes.extend_from_slice(FIRST)?;
    bytes.extend_from_slice(SENT)?;
    Ok(bytes)
}
