// Lines of a script, and words of a line: bytes parted at the first of a mark.
ghost use Rattle.std.specs.Prelude.{◌≡◌};
ghost use Rattle.std.specs.Option.{option_map};
ghost use Rattle.lines.specs.Parts.{Parts};

use memchr::memchr;

// Ends a line.
pub const NEWLINE: u8 = b'\n';

// Parts a word from what follows it.
pub const SPACE: u8 = b' ';

// The bytes before the first mark, and those behind it, if there is a mark.
#[derive(Clone, Copy)]
pub struct Parted<'a> {
    pub first: &'a [u8],
    pub rest: Option<&'a [u8]>,
}

pub fn part(bytes: &[u8], mark: u8) -> Parted<'_>
    ensures { Parts mark bytes.now result.first.now (option_map (λ x. x.now) result.rest) }
{
    match memchr(mark, bytes) {
        Some(i) => Parted {
            first: &bytes[..i],
            rest: Some(&bytes[i + 1..]),
        },
        None => Parted {
            first: bytes,
            rest: None,
        },
    }
}
