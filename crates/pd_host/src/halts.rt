//! Why a host ends.
use std::alloc::AllocError;
use thiserror::Error;

/// Why the sender's rules go no further.
#[derive(Clone, Copy, Debug, PartialEq, Eq, Error)]
pub enum Halt {
    /// The input isn't run.
    #[error("not run")]
    Unsupported,
    /// More than 1,024 packets were sent and not yet taken.
    #[error("too many packets")]
    Limit,
}

/// Why a host has ended.
#[derive(Clone, Copy, Debug, PartialEq, Eq, Error)]
pub enum HostEnd {
    #[error("{0}")]
    Halted(Halt),
    #[error("out of memory")]
    OutOfMemory,
}

impl From<AllocError> for HostEnd {
    ghost use Rattle.std.specs.Prelude.{◌≡◌};
    ghost use Rattle.pd_host.specs.declared.halts.HostEnd.TheVariants.{OutOfMemory};

    ghost from_gives = { λ _ ending. ending ≡ OutOfMemory };

    fn from(_error: AllocError) -> HostEnd {
        HostEnd::OutOfMemory
    }
}
