// Which command a line spells.
ghost use Rattle.std.specs.Prelude.{Decides};
ghost use Rattle.lines.specs.Lines.{Answers, AsHex, AsText, Expects, ExpectsOne, Makes, Parses, Skipped, behind};

use crate::arguments::Behind;
use crate::command::{Command, Expected, Order, Task};
use crate::parts::{Parted, SPACE, part};
use crate::word::Word;

// Whether a line is empty or a comment, which no session runs.
pub fn is_skipped(line: &[u8]) -> bool
    ensures { Decides result (Skipped line.now) }
{
    matches!(line, [] | [b'#', ..])
}

// The command that a line spells.
pub fn parse(line: &[u8]) -> Result<Command<'_>, Expected>
    ensures { Answers line.now result }
{
    let Parted { first, rest } = part(line, SPACE);
    let word = Word::try_from(first)?;
    with_arguments(word, Behind(rest))
}

// The command that a word and what stands behind it make.
fn with_arguments<'a>(word: Word, rest: Behind<'a>) -> Result<Command<'a>, Expected>
    ensures { Parses (Makes word (behind rest.entry)) (Expects word (behind rest.entry)) result }
{
    // A match, and no table of closures: of each word it is stated what arguments it takes, and the arms take different ones.
    match word {
        Word::New => rest.new_reader(),
        // `Add` and `Code` share two lines: a function for them would need a struct for what it answers
        Word::Add => {
            let rule = rest.leading()?;
            let kind = rule.behind.leading()?;
            let text = kind.behind.text()?;
            Ok(Command::Add {
                rule: rule.number,
                kind: kind.number,
                text,
            })
        }
        Word::Code => {
            let rule = rest.leading()?;
            let kind = rule.behind.leading()?;
            let digits = kind.behind.hex_digits()?;
            Ok(Command::Code {
                rule: rule.number,
                kind: kind.number,
                digits,
            })
        }
        Word::Delete => rest.number().map(|rule| Command::Delete(rule)),
        Word::Pattern => rest.text().map(|text| Command::Pattern(text)),
        Word::PatternHex => rest.hex_digits().map(|digits| Command::PatternHex(digits)),
        Word::Read => as_text(rest, Task::Read),
        Word::ReadHex => as_hex(rest, Task::Read),
        Word::Cursor => {
            let place = rest.leading()?;
            as_text(place.behind, Task::Cursor(place.number))
        }
        Word::CursorHex => {
            let place = rest.leading()?;
            as_hex(place.behind, Task::Cursor(place.number))
        }
        Word::Feed => as_text(rest, Task::Feed),
        Word::FeedHex => as_hex(rest, Task::Feed),
        Word::Token => rest.alone(Command::Order(Order::Token)),
        Word::Peek => rest.alone(Command::Order(Order::Peek)),
        Word::Last => rest.alone(Command::Last),
        Word::Walk => rest.alone(Command::Order(Order::Walk)),
        Word::Finish => rest.alone(Command::Order(Order::Finish)),
        Word::Kind => rest.number().map(|rule| Command::Order(Order::Kind(rule))),
        Word::Tally => rest.alone(Command::Order(Order::Tally)),
        Word::Edition => rest.alone(Command::Order(Order::Edition)),
        Word::Note => rest.alone(Command::Order(Order::Note)),
    }
}

// What is done with a text as it stands. The next does the same with a text in hex digits: one for both would be handed how the text
// is read and what it makes, which is all that each of them says.
fn as_text<'a>(rest: Behind<'a>, task: Task) -> Result<Command<'a>, Expected>
    ensures { Parses (AsText (Command.Plain task) (behind rest.entry)) (ExpectsOne Expected.Text (behind rest.entry)) result }
{
    rest.text().map(|text| Command::Plain { task, text })
}

// What is done with a text in hex digits.
fn as_hex<'a>(rest: Behind<'a>, task: Task) -> Result<Command<'a>, Expected>
    ensures { Parses (AsHex (Command.Hex task) (behind rest.entry)) (ExpectsOne Expected.HexDigits (behind rest.entry)) result }
{
    rest.hex_digits()
        .map(|digits| Command::Hex { task, digits })
}
