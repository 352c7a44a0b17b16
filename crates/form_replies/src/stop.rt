ghost use Rattle.std.specs.Prelude.{◌≡◌};
ghost use Rattle.form_replies.specs.Stops.{by_saying};
ghost use Rattle.form_replies.specs.declared.stop.Stop.TheVariants.{Memory, WriteFault};

use form_pending::SayFault;
use std::alloc::AllocError;

/// Why a run stops before its last line.
#[derive(Clone, Copy, Debug, PartialEq, Eq)]
pub enum Stop {
    WriteFault,
    FileFault,
    Memory,
    /// A file that gave so many bytes, the first number, gave another number of them, the second,
    /// when it was read once more.
    FileChanged(u64, u64),
}

impl From<AllocError> for Stop {
    ghost from_gives = { λ _ stop. stop ≡ Memory };

    fn from(_error: AllocError) -> Stop {
        Stop::Memory
    }
}

impl From<SayFault> for Stop {
    ghost from_gives = { λ fault stop. stop ≡ by_saying fault };

    fn from(fault: SayFault) -> Stop {
        match fault {
            SayFault::Sink => Stop::WriteFault,
            SayFault::Memory => Stop::Memory,
        }
    }
}

impl From<form_ports::WriteFault> for Stop {
    ghost from_gives = { λ _ stop. stop ≡ WriteFault };

    fn from(_fault: form_ports::WriteFault) -> Stop {
        Stop::WriteFault
    }
}
