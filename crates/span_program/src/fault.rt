//! Why the program ends early.
ghost use Rattle.std.specs.Prelude.{◌≡◌};
ghost use Rattle.span_program.specs.Faults.{fault_of};

use span_core::Refusal;
use std::alloc::{AllocError, AllocFailed};
use std::io;
use thiserror::Error;

/// An error that ends the program with status 1.
#[derive(Debug, Drop, Error)]
pub enum Fault {
    #[error("out of memory")]
    Memory,
    /// A read of the script failed.
    #[error("the script can't be read on: what was answered before holds")]
    Input,
    /// A write of an answer failed.
    #[error("the answers can't be written: later ones are lost")]
    Output,
    /// The command line can't be read, or standard error not be written.
    #[error("{0}")]
    Device(io::Error),
}

impl From<AllocError> for Fault {
    ghost use Rattle.std.specs.Prelude.{◌≡◌};
    ghost use Rattle.span_program.specs.declared.fault.Fault.TheVariants.{Memory};

    ghost from_gives = { λ _ e. e ≡ Memory };

    fn from(_error: AllocError) -> Fault {
        Fault::Memory
    }
}

impl<T: Drop> From<AllocFailed<T>> for Fault {
    ghost use Rattle.std.specs.Prelude.{◌≡◌};
    ghost use Rattle.span_program.specs.declared.fault.Fault.TheVariants.{Memory};

    ghost from_gives = { λ _ e. e ≡ Memory };

    fn from(_error: AllocFailed<T>) -> Fault {
        Fault::Memory
    }
}

impl From<io::Error> for Fault {
    ghost use Rattle.std.specs.Prelude.{◌≡◌};
    ghost use Rattle.span_program.specs.declared.fault.Fault.TheVariants.{Device};

    ghost from_gives = { λ error e. e ≡ Device error };

    fn from(error: io::Error) -> Fault {
        Fault::Device(error)
    }
}

/// The fault that ends a run of a script with this refusal: `InputFault`, `OutputFault` or `OutOfMemory`, the only ones that do.
pub fn fault_of(why: Refusal) -> Fault
    ensures { result ≡ fault_of why }
{
    match why {
        Refusal::InputFault => Fault::Input,
        Refusal::OutputFault => Fault::Output,
        _ => Fault::Memory,
    }
}
