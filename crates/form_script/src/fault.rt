ghost use Rattle.std.specs.Prelude.{◌≡◌};
ghost use Rattle.form_script.specs.declared.fault.LineFault.TheVariants.{Memory};

use std::alloc::{AllocError, AllocFailed};

/// Why a line gives no command: it spells none, or there was no memory.
#[derive(Clone, Copy, Debug, PartialEq, Eq)]
pub enum LineFault {
    Syntax,
    Memory,
}

impl From<AllocError> for LineFault {
    ghost from_gives = { λ _ fault. fault ≡ Memory };

    fn from(_error: AllocError) -> LineFault {
        LineFault::Memory
    }
}

impl<T: Drop> From<AllocFailed<T>> for LineFault {
    ghost from_gives = { λ _ fault. fault ≡ Memory };

    fn from(_error: AllocFailed<T>) -> LineFault {
        LineFault::Memory
    }
}
