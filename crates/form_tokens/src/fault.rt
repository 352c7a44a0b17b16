ghost use Rattle.std.specs.Prelude.{◌≡◌};
ghost use Rattle.form_tokens.specs.declared.fault.Stop.TheVariants.{Memory};

use std::alloc::{AllocError, AllocFailed};

/// What is wrong with a piece.
#[derive(Clone, Copy)]
pub enum Fault {
    Lexical,
    Limit,
    Element,
    Email,
    Nesting,
}

/// Why the reading of a piece stopped.
#[derive(Drop)]
pub enum Stop {
    Memory,
    At(Fault),
}

impl From<AllocError> for Stop {
    ghost from_gives = { λ _ e. e ≡ Memory };

    fn from(_e: AllocError) -> Stop {
        Stop::Memory
    }
}

impl<T: Drop> From<AllocFailed<T>> for Stop {
    ghost from_gives = { λ _ e. e ≡ Memory };

    fn from(_e: AllocFailed<T>) -> Stop {
        Stop::Memory
    }
}

/// Why reading stopped behind other pieces, and how many bytes of the text were left there; where memory
/// was refused the number says nothing.
#[derive(Drop)]
pub struct Halt {
    pub stop: Stop,
    pub left: usize,
}

impl From<AllocError> for Halt {
    ghost from_gives = { λ _ e. e.stop ≡ Memory };

    fn from(_e: AllocError) -> Halt {
        Halt {
            stop: Stop::Memory,
            left: 0,
        }
    }
}
