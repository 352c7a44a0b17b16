ghost use Rattle.std.specs.Prelude.{◌≡◌};
ghost use Rattle.form_pending.specs.declared.fault.SayFault.TheVariants.{Memory, Sink};

use form_ports::WriteFault;
use std::alloc::AllocError;
use thiserror::Error;

/// Why a text was not said.
#[derive(Clone, Copy, Debug, PartialEq, Eq, Error)]
pub enum SayFault {
    /// The sink failed; what was kept is lost.
    #[error("the sink failed")]
    Sink,
    /// There is no memory; what was kept is kept.
    #[error("no memory")]
    Memory,
}

impl From<AllocError> for SayFault {
    ghost from_gives = { λ _ fault. fault ≡ Memory };

    fn from(_error: AllocError) -> SayFault {
        SayFault::Memory
    }
}

impl From<WriteFault> for SayFault {
    ghost from_gives = { λ _ fault. fault ≡ Sink };

    fn from(_fault: WriteFault) -> SayFault {
        SayFault::Sink
    }
}
