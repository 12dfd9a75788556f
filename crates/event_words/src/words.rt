// Events as words of a text.
ghost use Rattle.std.specs.Prelude.{◌≡◌, MatchOption};
ghost use Rattle.event_words.specs.Words.{Named, Names, Spells, named};
ghost use Rattle.event_words.specs.declared.words.NoEvents.TheVariants.{NoMemory, OutOfRange};

use lines::{Parted, SPACE, part, saturated};
use std::alloc::{AllocFailed, Global};
use symbols::Event;

const POINT: u8 = b'.';

// Why a text gives no events.
#[derive(Clone, Copy, PartialEq, Eq, Debug)]
pub enum NoEvents {
    // a word is not a machine, a point and a kind
    Malformed,
    // a machine or a kind is out of range
    OutOfRange,
    NoMemory,
}

impl From<symbols::OutOfRange> for NoEvents {
    ghost from_gives = { λ _ r. r ≡ OutOfRange };

    fn from(_refused: symbols::OutOfRange) -> NoEvents {
        NoEvents::OutOfRange
    }
}

impl<T: Drop> From<AllocFailed<T>> for NoEvents {
    ghost from_gives = { λ _ r. r ≡ NoMemory };

    fn from(_refused: AllocFailed<T>) -> NoEvents {
        NoEvents::NoMemory
    }
}

// A machine and a kind as they stand in a word.
#[derive(Clone, Copy)]
struct Name {
    machine: u32,
    kind: u32,
}

// The events that the words of a text name. A malformed word is told before a machine or a kind out of range, wherever
// they stand, so that what is out of range is told behind the last word.
pub fn events_of(heap: Global, text: &[u8]) -> Result<Vec<Event>, NoEvents>
    ensures { Spells text.now result }
{
    let mut events = Vec::new(heap);
    if text.is_empty() {
        return Ok(events);
    }
    let mut in_range = Ok(());
    for word in text.split(|byte| *byte == SPACE) {
        let name = name_of(word).ok_or(NoEvents::Malformed)?;
        match Event::new(name.machine, name.kind) {
            Err(refused) => in_range = Err(refused),
            Ok(event) => events.push(event)?,
        }
    }
    in_range?;
    Ok(events)
}

// The machine and the kind that a word names, if it names them.
fn name_of(word: &[u8]) -> Option<Name>
    ensures { MatchOption result ((n : Named) → Names word.now n → ⊥) (λ n. Names word.now (named n)) }
{
    let Parted { first, rest } = part(word, POINT);
    let machine = saturated(first).ok()?;
    let kind = saturated(rest?).ok()?;
    Some(Name { machine, kind })
}
