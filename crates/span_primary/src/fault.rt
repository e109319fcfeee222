//! Why tokens are not read.
use std::alloc::{AllocError, AllocFailed};

/// Why tokens are not read. The place of an error is given as the number of tokens that are left there, its own counted.
#[derive(Clone, Copy, Debug, PartialEq, Eq)]
pub enum SyntaxError {
    OutOfMemory,
    /// With this token, or the end, no tree goes on.
    Syntax(usize),
    /// This token is one nested opening too many.
    TooDeep(usize),
}

impl From<AllocError> for SyntaxError {
    ghost use Rattle.std.specs.Prelude.{◌≡◌};
    ghost use Rattle.span_primary.specs.declared.fault.SyntaxError.TheVariants.{OutOfMemory};

    ghost from_gives = { λ _ e. e ≡ OutOfMemory };

    fn from(_error: AllocError) -> SyntaxError {
        SyntaxError::OutOfMemory
    }
}

impl<T: Drop> From<AllocFailed<T>> for SyntaxError {
    ghost use Rattle.std.specs.Prelude.{◌≡◌};
    ghost use Rattle.span_primary.specs.declared.fault.SyntaxError.TheVariants.{OutOfMemory};

    ghost from_gives = { λ _ e. e ≡ OutOfMemory };

    fn from(_error: AllocFailed<T>) -> SyntaxError {
        SyntaxError::OutOfMemory
    }
}
