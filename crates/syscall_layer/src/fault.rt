// Why a call, and why a run, did not go on.
use sp_host::Port;
use std::alloc::AllocError;
use thiserror::Error;

/// Why a call was not served. The guest is as before.
#[derive(Clone, Copy, Debug, PartialEq, Eq, Error)]
pub enum CallFault {
    /// No call has this number.
    #[error("call {number} is not supported")]
    Unsupported { number: u32 },
    /// The input could not be read.
    #[error("the input cannot be read")]
    InputFault,
    /// The port did not take the call's bytes.
    #[error("an output cannot be written")]
    OutputFault { port: Port },
    #[error("no memory")]
    NoMemory,
}

impl From<AllocError> for CallFault {
    ghost use Rattle.std.specs.Prelude.{◌≡◌};
    ghost use Rattle.syscall_layer.specs.declared.fault.CallFault.TheVariants.{NoMemory};

    ghost from_gives = { λ _ e. e ≡ NoMemory };

    fn from(_: AllocError) -> CallFault {
        CallFault::NoMemory
    }
}

/// Why a run did not end.
#[derive(Clone, Copy, Debug, PartialEq, Eq, Error)]
pub enum RunFault {
    /// The call at `pc` has a number that no call has.
    #[error("call {number} at {pc:#x} is not supported")]
    Unsupported { number: u32, pc: u32 },
    /// The run goes on after `n` steps.
    #[error("the run has not ended after {n} steps")]
    BudgetSpent { n: u64 },
    /// The input could not be read.
    #[error("the input cannot be read")]
    InputFault,
    /// The port did not take the run's bytes.
    #[error("an output cannot be written")]
    OutputFault { port: Port },
    #[error("no memory")]
    NoMemory,
}
