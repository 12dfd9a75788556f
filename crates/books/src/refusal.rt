// Why a call is refused, and what every refusal tells in numbers.
ghost use Rattle.std.specs.Prelude.{◌≡◌, Some};
ghost use Rattle.books.specs.Refusals.{told, book_told, cause_number, plain, at, told_text};
ghost use Rattle.books.specs.declared.refusal.Refusal.TheVariants.{Book as OfBook, NoSuchEvent};

use crate::faults::{BookFault, Cause};
use std::fmt;
use symbols::OutOfRange;

// Why a reader, or the book below it, refuses a call.
#[derive(Clone, Copy, PartialEq, Eq, Debug)]
pub enum Refusal {
    // the edition cannot rise
    LastEdition,
    Book(BookFault),
    // no beginning of the rest of the text meets a rule
    NoToken { place: usize, count: usize },
    // the walk is of another edition, or has positions that are not live
    StaleWalk,
    // machine or kind are out of range
    NoSuchEvent,
}

impl From<BookFault> for Refusal {
    ghost from_gives = { λ f r. r ≡ OfBook f };

    fn from(fault: BookFault) -> Refusal {
        Refusal::Book(fault)
    }
}

impl From<OutOfRange> for Refusal {
    ghost from_gives = { λ _ r. r ≡ NoSuchEvent };

    fn from(_fault: OutOfRange) -> Refusal {
        Refusal::NoSuchEvent
    }
}

// A refusal in numbers, as answers print it: its number, and its layer (1 for the reader, 2 for the book, 3 for a command). The
// enums are `Refusal` and `BookFault`; here both stay numbers, since the fields are public, and an enum would ask more of callers.
#[derive(Clone, Copy, PartialEq, Eq, Debug)]
pub struct Told {
    pub number: u8,
    pub layer: u8,
    pub place: usize,
    pub count: usize,
}

impl Told {
    // A refusal with no place and no count.
    pub fn plain(number: u8, layer: u8) -> Told
        ensures { result ≡ plain number layer }
    {
        Told::at(number, layer, 0)
    }

    // A refusal at a place, with no count.
    pub fn at(number: u8, layer: u8, place: usize) -> Told
        ensures { result ≡ at number layer place }
    {
        Told {
            number,
            layer,
            place,
            count: 0,
        }
    }
}

impl fmt::Display for Told {
    ghost output = { λ t. Some (told_text t) };

    fn fmt<W: fmt::Write>(&self, f: &mut fmt::Formatter<W>) -> fmt::Result {
        let Told {
            number,
            layer,
            place,
            count,
        } = *self;
        write!(
            f,
            "number={number} layer={layer} place={place} count={count}"
        )
    }
}

impl Cause {
    // The number of the refusal.
    pub fn number(self) -> u8
        ensures { result ≡ cause_number self }
    {
        self as u8
    }
}

impl BookFault {
    // The fault in numbers. One arm a case, since some have a place of their own: a table of numbers would need the same arms.
    pub fn tell(self) -> Told
        ensures { result ≡ book_told self }
    {
        match self {
            BookFault::Number => Told::plain(2, 2),
            BookFault::Kind => Told::plain(3, 2),
            BookFault::Taken => Told::plain(4, 2),
            BookFault::Length => Told::plain(5, 2),
            BookFault::Command(fault) => Told::at(fault.cause.number(), 3, fault.place),
            BookFault::Full => Told::plain(12, 2),
            BookFault::Absent => Told::plain(13, 2),
        }
    }
}

impl Refusal {
    // The refusal in numbers. One arm a case, since some have a place or a count of their own: a table would need the same arms.
    pub fn tell(self) -> Told
        ensures { result ≡ told self }
    {
        match self {
            Refusal::LastEdition => Told::plain(1, 1),
            Refusal::Book(fault) => fault.tell(),
            Refusal::NoToken { place, count } => Told {
                count,
                ..Told::at(14, 1, place)
            },
            Refusal::StaleWalk => Told::plain(15, 1),
            Refusal::NoSuchEvent => Told::plain(16, 1),
        }
    }
}
