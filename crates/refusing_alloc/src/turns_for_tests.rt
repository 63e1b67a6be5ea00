// How a call is tried with its first, its second, .. growth refused.

use crate::Refusing;
use std::alloc::Global;
use std::fmt::Debug;
use std::test::Fail;
use test_asserts::{equal, equal_at};

/// An allocator that refuses growths, which are told by their number.
pub type Refuser = Refusing<Global>;

/// More growths than any of the calls makes.
pub const MOST_GROWTHS: u64 = 400;

/// Which growths are refused: the one of this number alone, or with all that follow it; none where it is 0.
pub type Refused = (u64, bool);

/// Has growths refused.
pub fn refuse(alloc: &Refuser, refused: Refused) {
    if refused.1 {
        alloc.refuse_from(refused.0);
    } else {
        alloc.refuse(refused.0);
    }
}

/// Fails where the two are not equal.
pub fn same<T: PartialEq + Debug + Drop>(got: T, wanted: T) -> Result<(), Fail> {
    equal(&got, &wanted)
}

/// A call that may take memory.
pub trait Call {
    /// Makes it with the growth of this number refused: whether there was one. It fails where the call answers anything else
    /// than its row says, and where what it found no memory for isn't as before.
    fn is_refused(&mut self, alloc: &Refuser, number: u64) -> Result<bool, Fail>;
}

/// How many growths a call takes. It is made with the first one refused, the second, .. until one isn't asked for.
pub fn growths_of<C: Call>(alloc: &Refuser, call: &mut C) -> Result<u64, Fail> {
    for growths in 0..MOST_GROWTHS {
        if !call.is_refused(alloc, growths + 1)? {
            return Ok(growths);
        }
    }
    Err(Fail::from("no end of growths"))
}

/// Whether a call that answered want of memory, or something else, is to be made again, where the growth of this number was
/// refused: it has to answer want of memory just where that growth was asked for. It may have asked for less then, before it
/// gave up, and for more only where it goes on.
pub fn was_refused(
    alloc: &Refuser,
    number: u64,
    is_starved: bool,
    goes_on: bool,
) -> Result<bool, Fail> {
    is_as_asked(asked_of(alloc), number, is_starved, goes_on)
}

/// How many growths were asked for. None is refused any more.
pub fn asked_of(alloc: &Refuser) -> u64 {
    let asked = alloc.asked();
    alloc.grant();
    asked
}

/// The same of a call that asked for so many growths.
pub fn is_as_asked(asked: u64, number: u64, is_starved: bool, goes_on: bool) -> Result<bool, Fail> {
    let told = (is_starved, !goes_on && asked > number);
    equal_at(&(number, asked), &told, &(asked >= number, false))?;
    Ok(is_starved)
}
