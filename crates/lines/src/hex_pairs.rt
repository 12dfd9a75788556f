// Bytes written as pairs of hex digits.
ghost use Rattle.std.specs.Prelude.{◌≡◌, Decides};
ghost use Rattle.lines.specs.Hex.{Decodes, Hex, no_bytes};
ghost use Rattle.lines.specs.declared.hex_pairs.NoBytes.TheVariants.{NoMemory};

use hex::{FromHexError, decode};
use std::alloc::{AllocFailed, Global};

// Why digits give no bytes.
#[derive(Clone, Copy, PartialEq, Eq, Debug)]
pub enum NoBytes {
    // they are not pairs of hex digits
    NotHex,
    NoMemory,
}

impl<T: Drop> From<AllocFailed<T>> for NoBytes {
    ghost from_gives = { λ _ r. r ≡ NoMemory };

    fn from(_refused: AllocFailed<T>) -> NoBytes {
        NoBytes::NoMemory
    }
}

impl From<FromHexError> for NoBytes {
    ghost from_gives = { λ e r. r ≡ no_bytes e };

    fn from(fault: FromHexError) -> NoBytes {
        match fault {
            FromHexError::OutOfMemory => NoBytes::NoMemory,
            _ => NoBytes::NotHex,
        }
    }
}

// Whether the bytes are pairs of hex digits, in letters of either case, or none.
pub fn is_hex(digits: &[u8]) -> bool
    ensures { Decides result (Hex digits.now) }
{
    digits.len() % 2 == 0 && digits.iter().all(|digit| digit.is_ascii_hexdigit())
}

// The bytes that pairs of hex digits write.
pub fn bytes_of(heap: Global, digits: &[u8]) -> Result<Vec<u8>, NoBytes>
    ensures { Decodes digits.now result }
{
    Ok(decode(heap, digits)?)
}
