// One command of a written expression, with its operands.
ghost use Rattle.std.specs.Prelude.{◌≡◌};
ghost use Rattle.expressions.specs.Commands.{takes as takes_of, adds};

use crate::code_range::CodeRange;

// What a command does: it puts an expression among those that wait, or makes one of the last one or two.
#[derive(Clone, Copy, PartialEq, Eq, Debug)]
pub enum Command {
    // the empty string
    Empty,
    // any one symbol whose code is among these
    Symbol(CodeRange),
    // the one before the last, and then the last
    Join,
    // the one before the last, or the last
    Either,
    // the last, zero or more times
    Star,
    // the last, one or more times
    Plus,
    // the last, at most once
    Optional,
}

impl Command {
    // How many expressions it takes; it leaves one in their place.
    pub fn takes(self) -> usize
        ensures { result ≡ takes_of self }
    {
        match self {
            Command::Empty | Command::Symbol(_) => 0,
            Command::Star | Command::Plus | Command::Optional => 1,
            Command::Join | Command::Either => 2,
        }
    }

    // How many symbols it adds.
    pub(crate) fn symbols(self) -> usize
        ensures { result ≡ adds self }
    {
        match self {
            Command::Symbol(_) => 1,
            _ => 0,
        }
    }
}
