// Why a line was not run.
ghost use Rattle.std.specs.Prelude.{◌≡◌};
ghost use Rattle.passes.specs.Faults.{decoding_fault};
ghost use Rattle.passes.specs.declared.fault.Fault.TheVariants.{Malformed, NoMemory};

use lines::{Expected, NoBytes};
use std::alloc::AllocError;
use std::fmt;

#[derive(Clone, Copy, PartialEq, Eq, Debug)]
pub enum Fault {
    // the line spells no command: what was expected of it
    Malformed(Expected),
    NoMemory,
}

impl From<Expected> for Fault {
    ghost from_gives = { λ e r. r ≡ Malformed e };

    fn from(expected: Expected) -> Fault {
        Fault::Malformed(expected)
    }
}

impl From<AllocError> for Fault {
    ghost from_gives = { λ _ r. r ≡ NoMemory };

    fn from(_error: AllocError) -> Fault {
        Fault::NoMemory
    }
}

// What is printed into memory fails only for want of it. Nothing here uses this conversion; it stays, since it is public.
impl From<fmt::Error> for Fault {
    ghost from_gives = { λ _ r. r ≡ NoMemory };

    fn from(_error: fmt::Error) -> Fault {
        Fault::NoMemory
    }
}

impl From<NoBytes> for Fault {
    ghost from_gives = { λ e r. r ≡ decoding_fault e };

    fn from(fault: NoBytes) -> Fault {
        match fault {
            NoBytes::NotHex => Fault::Malformed(Expected::HexDigits),
            NoBytes::NoMemory => Fault::NoMemory,
        }
    }
}
