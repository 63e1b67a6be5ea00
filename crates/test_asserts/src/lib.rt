//! What tests assert, as functions that are asked with `?`: a macro is expanded, and proved, at each of its places.
#![tactic(auto)]

ghost use Rattle.std.specs.Prelude.{◌≡◌, IfOk, true};

use std::fmt::Debug;
use std::test::Fail;

/// Fails where the two are not equal, and tells both.
pub fn equal<T: PartialEq + Debug>(got: &T, wanted: &T) -> Result<(), Fail>
    ensures { IfOk result (λ _. T.eq got.now wanted.now ≡ true) }
{
    if *got == *wanted {
        Ok(())
    } else {
        Err(Fail::new(format_args!("it is {got:?}, not {wanted:?}")))
    }
}

/// Fails where the two are not equal, and tells both, and where that was.
pub fn equal_at<T: PartialEq + Debug, P: Debug>(place: &P, got: &T, wanted: &T) -> Result<(), Fail>
    ensures { IfOk result (λ _. T.eq got.now wanted.now ≡ true) }
{
    if *got == *wanted {
        Ok(())
    } else {
        Err(Fail::new(format_args!("it is {got:?}, not {wanted:?}, at {place:?}")))
    }
}

/// Fails where this is not so.
pub fn holds(is_so: bool) -> Result<(), Fail>
    ensures { IfOk result (λ _. is_so ≡ true) }
{
    if is_so {
        Ok(())
    } else {
        Err(Fail::new("it is not so"))
    }
}

/// Fails where this is not so, and tells where that was.
pub fn holds_at<P: Debug>(place: &P, is_so: bool) -> Result<(), Fail>
    ensures { IfOk result (λ _. is_so ≡ true) }
{
    if is_so {
        Ok(())
    } else {
        Err(Fail::new(format_args!("it is not so, at {place:?}")))
    }
}
