// Why a pattern text is refused.
ghost use Rattle.std.specs.Prelude.{◌≡◌};
ghost use Rattle.patterns.specs.Refusals.{told};

use books::Told;

// Why a pattern text is refused, in the order in which it is asked, with the place in the text.
#[derive(Clone, Copy, PartialEq, Eq, Debug)]
pub enum PatternFault {
    // the text has more than 256 bytes
    TooLong,
    // no byte follows a '\'
    LoneEscape(usize),
    // a class does not close
    OpenClass(usize),
    // a range of a class falls, its left member being here
    FallingRange(usize),
    // no byte is in a class
    EmptyClass(usize),
    // there is no atom for a '*', '+' or '?'
    NoAtom(usize),
    // a ')' has no open bracket, or a '(' no ')'
    Unbalanced(usize),
    // more than 16 brackets are open
    TooDeep(usize),
    // a '{', '}' or ']' is plain
    Reserved(usize),
    // the buffer is too short
    NoRoom,
}

impl PatternFault {
    // The refusal in numbers. One arm a case, since some have a place of their own: a table of numbers would need the same arms.
    pub fn tell(self) -> Told
        ensures { result ≡ told self }
    {
        let (number, place) = match self {
            PatternFault::TooLong => (17, 0),
            PatternFault::LoneEscape(place) => (18, place),
            PatternFault::OpenClass(place) => (19, place),
            PatternFault::FallingRange(place) => (20, place),
            PatternFault::EmptyClass(place) => (21, place),
            PatternFault::NoAtom(place) => (22, place),
            PatternFault::Unbalanced(place) => (23, place),
            PatternFault::TooDeep(place) => (24, place),
            PatternFault::Reserved(place) => (25, place),
            PatternFault::NoRoom => (26, 0),
        };
        Told::at(number, 4, place)
    }
}
