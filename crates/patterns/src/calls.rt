// The commands of a whole pattern text, in a buffer of the caller's or in a vector.
ghost use Rattle.std.specs.Prelude.{◌≡◌, length};
ghost use Rattle.patterns.specs.Outcome.{outcome, answered, filled, Collected, PutIn};
ghost use Rattle.patterns.specs.Rules.{ByGrammar};
ghost use Rattle.patterns.specs.declared.calls.VecFault.TheVariants.{Refused, NoMemory};

use crate::faults::PatternFault;
use crate::parsing::choice;
use crate::sink::Sink;
use crate::text::Text;
use std::alloc::{AllocError, Global};

// A text has at most so many bytes.
const LONGEST: usize = 256;

// Why there is no vector of the commands.
#[derive(Clone, Copy, PartialEq, Eq, Debug)]
pub enum VecFault {
    // the text is refused, and never for want of room
    Refused(PatternFault),
    NoMemory,
}

impl From<PatternFault> for VecFault {
    ghost from_gives = { λ f r. r ≡ Refused f };

    fn from(fault: PatternFault) -> VecFault {
        VecFault::Refused(fault)
    }
}

impl From<AllocError> for VecFault {
    ghost from_gives = { λ _ r. r ≡ NoMemory };

    fn from(_error: AllocError) -> VecFault {
        VecFault::NoMemory
    }
}

// Puts the commands of a pattern text at the front of the buffer, and answers how many bytes they are. A text that is refused
// leaves the buffer as it was, so that the text is read twice: the first reading finds every refusal and the length.
pub fn commands(text: &[u8], buffer: &mut [u8]) -> Result<usize, PatternFault>
    ensures answer { result ≡ answered (length buffer.old) (outcome text.now) }
    ensures after { buffer.new ≡ filled buffer.old (outcome text.now) }
    ensures grammar { ByGrammar text.now }
{
    let length = put(text, &mut [])?;
    if length > buffer.len() {
        return Err(PatternFault::NoRoom);
    }
    put(text, buffer)
}

// The commands of a pattern text in a vector, which is as long as they are.
pub fn to_vec(heap: Global, text: &[u8]) -> Result<Vec<u8>, VecFault>
    ensures { Collected (outcome text.now) result }
{
    let length = put(text, &mut [])?;
    let mut commands = vec![in heap; 0; length]?;
    put(text, &mut commands)?;
    Ok(commands)
}

// Puts the commands of a pattern text into the buffer as far as there is room, and answers how many bytes they are.
fn put(text: &[u8], buffer: &mut [u8]) -> Result<usize, PatternFault>
    ensures { PutIn text.now buffer.old buffer.new result }
{
    if text.len() > LONGEST {
        return Err(PatternFault::TooLong);
    }
    let mut sink = Sink::new(buffer);
    let whole = Text {
        bytes: text,
        place: 0,
    };
    let rest = choice(whole, 0, &mut sink)?;
    match rest.bytes {
        [] => Ok(sink.wanted),
        // a choice ends before a ')' only
        _ => Err(PatternFault::Unbalanced(rest.place)),
    }
}
