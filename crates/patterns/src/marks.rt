// Marks: the parts that a pattern text is cut into.
ghost use Rattle.std.specs.Prelude.{◌≡◌, ◌+◌, ◌<◌, ◌≤◌, length, drop};
ghost use Rattle.std.specs.Result.{result_ok};
ghost use Rattle.patterns.specs.Marks.{Bodied, Marked, repeat_of, letter_of};

use crate::faults::PatternFault;
use crate::members::Members;
use crate::text::Text;

// A part of a pattern text. A class borrows its body, which is what stands between '[' and ']'.
#[derive(Clone, Copy)]
pub(crate) enum Mark<'t> {
    Byte(u8),
    Escape(u8),
    Class(Text<'t>),
    // a `char`, decided by character literals: the project's form for a sign
    Sign(char),
}

// How often an atom is taken, with the letter of its command.
#[derive(Clone, Copy)]
pub(crate) enum Repeat {
    Star = b'S' as isize,
    Plus = b'P' as isize,
    Optional = b'O' as isize,
}

// A sign that says nothing of the atom before it.
#[derive(Clone, Copy)]
pub(crate) struct NoRepeat;

impl TryFrom<char> for Repeat {
    type Error = NoRepeat;

    ghost try_from_gives = { λ sign r. result_ok r ≡ repeat_of sign };

    fn try_from(sign: char) -> Result<Repeat, NoRepeat> {
        match sign {
            '*' => Ok(Repeat::Star),
            '+' => Ok(Repeat::Plus),
            '?' => Ok(Repeat::Optional),
            _ => Err(NoRepeat),
        }
    }
}

impl Repeat {
    // The letter of its command.
    pub(crate) fn letter(self) -> u8
        ensures { result ≡ letter_of self }
    {
        self as u8
    }
}

// The first mark of the text, and the text behind the mark.
pub(crate) fn first_mark<'t>(text: Text<'t>) -> Result<(Mark<'t>, Text<'t>), PatternFault>
    requires { 0 < length text.bytes.now }
    ensures { Marked text.entry.place text.entry.bytes.now result }
{
    match text.bytes {
        [] => unreachable!(),
        [b'\\'] => Err(PatternFault::LoneEscape(text.place)),
        [b'\\', byte, ..] => Ok((Mark::Escape(*byte), text.skip(2))),
        [b'[', ..] => {
            let body = class_body(text)?;
            Ok((Mark::Class(body), text.skip(body.bytes.len() + 2)))
        }
        [sign @ (b'|' | b'(' | b')' | b'*' | b'+' | b'?' | b'.'), ..] => {
            Ok((Mark::Sign(char::from(*sign)), text.skip(1)))
        }
        [byte, ..] => Ok((Mark::Byte(*byte), text.skip(1))),
    }
}

// The body of the class whose '[' begins the text: what is before the first ']' that is not escaped.
fn class_body<'t>(text: Text<'t>) -> Result<Text<'t>, PatternFault>
    requires { 0 < length text.bytes.now }
    ensures { Bodied text.entry.place (drop 1 text.entry.bytes.now) result }
{
    let inside = text.skip(1);
    for member in Members(inside) {
        match member.value {
            b']' if member.bare => return Ok(inside.take(member.place - inside.place)),
            // a '\' that stands for itself has no byte behind it
            b'\\' if member.bare => return Err(PatternFault::LoneEscape(member.place)),
            _ => {}
        }
    }
    Err(PatternFault::OpenClass(text.place))
}
