// What a line can ask for, and what is expected of a line that asks for nothing.
ghost use Rattle.std.specs.Prelude.{◌≡◌, Some};
ghost use Rattle.lines.specs.Lines.{IsBook, book_word, expected_text};

use std::fmt;

// A command and its arguments. Hex digits stay as the line has them.
#[derive(Clone, Copy, Debug)]
pub enum Command<'a> {
    New {
        book: BookName,
        edition: u32,
    },
    // a rule to add, by the text that a person types for it
    Add {
        rule: u32,
        kind: u32,
        text: &'a [u8],
    },
    // a rule to add, by its own bytes
    Code {
        rule: u32,
        kind: u32,
        digits: &'a [u8],
    },
    Delete(u32),
    // the commands of a pattern text, which stands as it is, or in hex digits
    Pattern(&'a [u8]),
    PatternHex(&'a [u8]),
    // what is done with a text, which stands as it is
    Plain {
        task: Task,
        text: &'a [u8],
    },
    // what is done with a text, which stands in hex digits
    Hex {
        task: Task,
        digits: &'a [u8],
    },
    // the last token is shown
    Last,
    Order(Order),
}

// What takes no text and changes no rule.
#[derive(Clone, Copy, PartialEq, Eq, Debug)]
pub enum Order {
    // the next token is read, or peeked
    Token,
    Peek,
    // a walk is begun, or finished
    Walk,
    Finish,
    // the kind of a rule is asked for, or what the reader and its book tell of themselves
    Kind(u32),
    Tally,
    Edition,
    Note,
}

// What is done with a text.
#[derive(Clone, Copy, PartialEq, Eq, Debug)]
pub enum Task {
    // it is read whole
    Read,
    // a cursor is put at a place of it
    Cursor(u32),
    // the walk is fed with its symbols
    Feed,
}

// The books that a reader can be made over.
#[derive(Clone, Copy, PartialEq, Eq, Debug)]
pub enum BookName {
    Numbers,
    Templates,
    // expressions over bytes
    Expressions,
    // expressions over events
    Events,
}

// What was expected in the place of what stands in a malformed line.
#[derive(Clone, Copy, PartialEq, Eq, Debug)]
pub enum Expected {
    // the word of a command
    Command,
    Book,
    Edition,
    Number,
    // a text, which may be empty
    Text,
    HexDigits,
    // nothing behind the word of a command
    NoArgument,
    // a book in use whose rules can be changed
    Changing,
    // the command `code`, where a book has no rules that a person types
    Code,
    // words of a machine, a point and a kind
    Events,
    // a cursor in use
    Cursor,
    // a walk in use
    Walk,
}

impl BookName {
    // The word that asks for the book.
    pub fn word(self) -> &'static str
        ensures { result.now ≡ book_word self }
    {
        match self {
            BookName::Numbers => "numbers",
            BookName::Templates => "templates",
            BookName::Expressions => "expressions",
            BookName::Events => "events",
        }
    }
}

impl fmt::Display for BookName {
    ghost output = { λ b. Some (book_word b) };

    fn fmt<W: fmt::Write>(&self, f: &mut fmt::Formatter<W>) -> fmt::Result {
        f.write_str(self.word())
    }
}

// The book of a name.
impl TryFrom<&[u8]> for BookName {
    type Error = Expected;

    ghost try_from_gives = { λ name r. IsBook name.now r };

    fn try_from(name: &[u8]) -> Result<BookName, Expected> {
        match name {
            b"numbers" => Ok(BookName::Numbers),
            b"templates" => Ok(BookName::Templates),
            b"expressions" => Ok(BookName::Expressions),
            b"events" => Ok(BookName::Events),
            _ => Err(Expected::Book),
        }
    }
}

impl Expected {
    // In words, for a report.
    pub fn text(self) -> &'static str
        ensures { result.now ≡ expected_text self }
    {
        match self {
            Expected::Command => "a command",
            Expected::Book => "the name of a book",
            Expected::Edition => "an edition from 0 to 4294967295",
            Expected::Number => "a decimal number",
            Expected::Text => "a text",
            Expected::HexDigits => "pairs of hex digits",
            Expected::NoArgument => "no argument",
            Expected::Changing => "a book whose rules can be changed",
            Expected::Code => "the command code, with the bytes of the rule",
            Expected::Events => "words of a machine, a point and a kind",
            Expected::Cursor => "a cursor",
            Expected::Walk => "a walk",
        }
    }
}

impl fmt::Display for Expected {
    ghost output = { λ e. Some (expected_text e) };

    fn fmt<W: fmt::Write>(&self, f: &mut fmt::Formatter<W>) -> fmt::Result {
        f.write_str(self.text())
    }
}
