// A ledger is opened.
ghost use Rattle.std.specs.Prelude.{◌≡◌};

use crate::{Blank, Ledger, Tally, Till};

/// How many parts a station's ledger has: each worker of a station holds one, and the station's own till the others.
pub const PARTS: u32 = 65_536;

/// Opens a ledger of 65,536 parts: nothing is counted, and one till has all parts. The blank is this ledger's. Takes no
/// memory.
pub fn begin<B: Ledger>(blank: Blank) -> (Tally<B>, Till<B>)
    requires name { blank.name ≡ B.name }
    requires parts { blank.parts ≡ B.parts }
    requires all { blank.parts ≡ PARTS }
    ensures total { result.0 ≡ 0 }
    ensures till { result.1 ≡ record { parts = PARTS; amount = 0 } }
{
    let (book, share) = blank.open::<B>();
    (Tally::new(book), Till::new(share, PARTS))
}
