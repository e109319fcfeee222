//! What tests expect. A library may not end the process as `assert!` does, so what is not as expected is a failure that the test returns.
use std::fmt::Debug;
use std::test::Fail;

/// A failure that says what was expected, where it is not so.
pub fn expect(is: bool, what: &str) -> Result<(), Fail> {
    if is {
        Ok(())
    } else {
        Err(Fail::new(format_args!("this was expected: {what}")))
    }
}

/// A failure that says what was expected and what was found, where the two differ. It takes both, so that the caller drops nothing.
pub fn expect_eq<T: PartialEq + Debug + Drop>(found: T, wanted: T, what: &str) -> Result<(), Fail> {
    if found == wanted {
        Ok(())
    } else {
        Err(Fail::new(format_args!("{what}: {wanted:?} was expected, and {found:?} was found")))
    }
}
