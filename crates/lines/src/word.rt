// The words that commands begin with.
ghost use Rattle.lines.specs.Lines.{IsWord};

use crate::command::Expected;

// The first word of a command, by its own name.
#[derive(Clone, Copy, PartialEq, Eq, Debug)]
pub enum Word {
    New,
    Add,
    Code,
    Delete,
    Pattern,
    PatternHex,
    Read,
    ReadHex,
    Cursor,
    CursorHex,
    Feed,
    FeedHex,
    Token,
    Peek,
    Last,
    Walk,
    Finish,
    Kind,
    Tally,
    Edition,
    Note,
}

// The word that the bytes spell.
impl TryFrom<&[u8]> for Word {
    type Error = Expected;

    ghost try_from_gives = { λ bytes r. IsWord bytes.now r };

    fn try_from(bytes: &[u8]) -> Result<Word, Expected> {
        match bytes {
            b"new" => Ok(Word::New),
            b"add" => Ok(Word::Add),
            b"code" => Ok(Word::Code),
            b"delete" => Ok(Word::Delete),
            b"pattern" => Ok(Word::Pattern),
            b"patternx" => Ok(Word::PatternHex),
            b"read" => Ok(Word::Read),
            b"readx" => Ok(Word::ReadHex),
            b"cursor" => Ok(Word::Cursor),
            b"cursorx" => Ok(Word::CursorHex),
            b"feed" => Ok(Word::Feed),
            b"feedx" => Ok(Word::FeedHex),
            b"token" => Ok(Word::Token),
            b"peek" => Ok(Word::Peek),
            b"last" => Ok(Word::Last),
            b"walk" => Ok(Word::Walk),
            b"finish" => Ok(Word::Finish),
            b"kind" => Ok(Word::Kind),
            b"tally" => Ok(Word::Tally),
            b"edition" => Ok(Word::Edition),
            b"note" => Ok(Word::Note),
            _ => Err(Expected::Command),
        }
    }
}
