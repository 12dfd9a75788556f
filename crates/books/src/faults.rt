// Why a book refuses a change. A fault of a command stays whole inside the book's.
ghost use Rattle.std.specs.Prelude.{◌≡◌};
ghost use Rattle.books.specs.declared.faults.BookFault.TheVariants.{Command};

// What is wrong with a command of a rule, in the order in which it is looked for, with the number that users are told.
#[derive(Clone, Copy, PartialEq, Eq, Debug)]
pub enum Cause {
    // it is none of the eight letters
    Letter = 6,
    // its operands are not all there
    Operands = 7,
    // a code is above the last one, or low is above high
    Codes = 8,
    // fewer expressions wait than it takes
    TooFew = 9,
    // 40 expressions wait already
    TooMany = 10,
    // after the last command there waits not exactly one expression
    NotOne = 11,
}

// A cause and its offset in the rule: where the command begins, or the rule's length after the last command.
#[derive(Clone, Copy, PartialEq, Eq, Debug)]
pub struct CommandFault {
    pub cause: Cause,
    pub place: usize,
}

// Why a book refuses a change, in the order in which it is asked.
#[derive(Clone, Copy, PartialEq, Eq, Debug)]
pub enum BookFault {
    // the book has no rule of this number
    Number,
    // the kind is above 4,095
    Kind,
    // a rule of this number is in force
    Taken,
    // the rule is too long or too short
    Length,
    Command(CommandFault),
    // live and needed positions are more than 256
    Full,
    // the rule to delete is not in force
    Absent,
}

impl From<CommandFault> for BookFault {
    ghost from_gives = { λ f r. r ≡ Command f };

    fn from(fault: CommandFault) -> BookFault {
        BookFault::Command(fault)
    }
}
